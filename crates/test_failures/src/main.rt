//! Runs stored examples over stores of which calls fail. Each example is run
//!
//! - in a database in memory, without failures: each answer must be as stored;
//! - over storage in memory of which one call fails, or two in a row, beginning with each call in
//!   turn: a request that is answered by a fault is repeated;
//! - in files, of which the log or the database file stops working after n calls, for each n up to
//!   the first with which no call fails. The files are then opened again as after a kill and as
//!   after a power cut: the store must be as after a prefix of the requests that includes each
//!   confirmed one.
//!
//! The arguments name the files of examples. "Stored examples" in CONTRIBUTING.md defines their
//! form.
#![tactic(auto)]

mod disk;
mod example;
mod faltering;
mod migration;
mod outcome;
mod performing;
mod requests;
mod retries;
mod stop;
mod stores;
mod trial;

use crate::trial::try_file;
use std::alloc::Global;
use std::rt::HostRuntime;
use std::{env, fs, io};

// Runs the example in the text of a file, and prints its outcomes.
fn run_file<R: Print>(rt: &R, alloc: Global, name: &str, text: &str) -> io::Result<()> {
    let mut page = String::new(alloc);
    try_file(alloc, name, text, &mut page)?;
    print!(rt; "{}", page.as_str())
}

// Runs the examples of the files that the arguments name, and prints their outcomes.
fn print_outcomes(rt: &HostRuntime, words: &[String]) -> io::Result<()> {
    for name in words {
        let text = fs::read_to_string(rt, name.as_str())?;
        run_file(rt, rt.alloc(), name.as_str(), text.as_str())?;
    }
    Ok(())
}

fn main(rt: HostRuntime) -> io::Result<()> {
    let words: Vec<String> = env::args(&rt)?.skip(1).collect(rt.alloc())?;
    print_outcomes(&rt, words.as_slice())
}
