//! Tests and benchmarks of stores in memory, in databases and in files. The first argument names
//! what to do:
//!
//! - `tests FILE`: runs all tests, which are what the next two points name
//! - `calls`: prints the results of the calls of a storage in memory and, for each kind of call,
//!   the results when one such call fails
//! - `make FILE`: creates a store in the file, makes changes of each kind in it, and prints its
//!   rows
//! - `show FILE ..`: prints the rows of the stores in these files
//! - `time`, `load` or `rows`, with numbers: runs a benchmark, for `bench/store` or `bench/load`
#![tactic(auto)]

mod bench;
mod calls;
mod database;
mod failure;
mod rows;

use crate::bench::print_benchmark;
use crate::calls::print_calls;
use crate::rows::{print_new_store, print_stores};
use std::rt::HostRuntime;
use std::{env, io};

// Returns the arguments after the first one.
fn rest(words: &[String]) -> &[String] {
    match words.split_first() {
        Some((_, rest)) => rest,
        None => words,
    }
}

// Runs all tests. The argument names the file of a new store.
fn run_tests(rt: &HostRuntime, words: &[String]) -> io::Result<()> {
    print_calls(rt)?;
    print_new_store(rt, words)
}

// Runs the part of this name, with the arguments after the name.
fn run_part(rt: &HostRuntime, part: &str, words: &[String]) -> io::Result<()> {
    match part {
        "tests" => run_tests(rt, words),
        "calls" => print_calls(rt),
        "make" => print_new_store(rt, words),
        "show" => print_stores(rt, words),
        _ => print_benchmark(rt, part, words),
    }
}

fn main(rt: HostRuntime) -> io::Result<()> {
    let words: Vec<String> = env::args(&rt)?.skip(1).collect(rt.alloc())?;
    let Some(part) = words.first() else {
        return println!(rt; "nothing is named");
    };
    run_part(&rt, part.as_str(), rest(words.as_slice()))
}
