//! Runs stored examples, each over a new store, and prints those whose answers or text differ from
//! the stored ones. The arguments name the files; "Stored examples" in CONTRIBUTING.md defines
//! their form. Files with names that begin with `tables` hold the tables of stores instead, each
//! with the expected verdict of its load. Those with names that begin with `failing` hold an
//! example that is run while an allocation or a device fails; a number before such a name says how
//! many allocations to make first.
#![tactic(auto)]

mod example;
mod failing;
mod fixed_answers;
mod halting;
mod list;
mod lookups;
mod modes;
mod numbers;
mod tables;
mod texts;

use crate::example::Example;
use crate::failing::run_failing;
use crate::modes::run;
use crate::tables::{TableExample, load_verdict};
use std::alloc::Global;
use std::rt::HostRuntime;
use std::{env, fs, io};
use thes_base::number::ResNo;

// Prints the first line that differs from the stored one.
fn report_difference<R: Print>(rt: &R, example: &Example, answers: &str) -> io::Result<()> {
    let mut answers = answers.lines();
    for expected in example.answers.as_str().lines() {
        let answer = answers.next().unwrap_or("");
        if answer != expected {
            println!(rt; "  {}: {answer}, where {expected} is stored", example.name)?;
            return Ok(());
        }
    }
    println!(rt; "  {}: {}", example.name, answers.next().unwrap_or(""))
}

// Runs the examples of a file. Prints the differences from the stored answers, the number of
// examples, and how many of them differ.
fn run_file<R: Print>(rt: &R, alloc: Global, name: &str, text: &str) -> io::Result<()> {
    let mut parts = text.split("\n% ");
    let start = parts.next().unwrap_or("");
    let (mut examples, mut differing) = (0u32, 0u32);
    println!(rt; "{name}")?;
    for part in parts {
        let example = Example::read(alloc, start, part)?;
        let answers = run(alloc, &example)?;
        examples = examples.saturating_add(1);
        if answers != example.answers {
            differing = differing.saturating_add(1);
            report_difference(rt, &example, answers.as_str())?;
        }
    }
    println!(rt; "  {examples} examples, {differing} other than stored")
}

// Loads the tables of each example of a file. Prints each verdict that isn't the expected one, the
// number of examples, and how many of them differ.
fn run_tables<R: Print>(rt: &R, alloc: Global, name: &str, text: &str) -> io::Result<()> {
    let mut parts = text.split("\n% ");
    let start = parts.next().unwrap_or("");
    let (mut stores, mut differing) = (0u32, 0u32);
    println!(rt; "{name}")?;
    for part in parts {
        let example = TableExample::read(alloc, start, part)?;
        let verdict = load_verdict(alloc, &example)?;
        stores = stores.saturating_add(1);
        if verdict.as_str() != example.verdict {
            differing = differing.saturating_add(1);
            println!(rt; "  {}: {verdict}", example.name)?;
        }
    }
    println!(rt; "  {stores} stores, {differing} judged otherwise than stored")
}

// Runs what the file of this name holds. Before a failing example, makes `before` allocations.
fn run_named(rt: &HostRuntime, name: &str, before: u32) -> io::Result<()> {
    let text = fs::read_to_string(rt, name)?;
    if name.starts_with("failing") {
        run_failing(rt, rt.alloc(), before, name, text.as_str())
    } else if name.starts_with("tables") {
        run_tables(rt, rt.alloc(), name, text.as_str())
    } else {
        run_file(rt, rt.alloc(), name, text.as_str())
    }
}

fn main(rt: HostRuntime) -> io::Result<()> {
    let mut before = 0;
    for word in env::args(&rt)?.skip(1) {
        match ResNo::read(word.as_str()) {
            Ok(number) => before = number.get(),
            Err(_) => run_named(&rt, word.as_str(), before)?,
        }
    }
    Ok(())
}
