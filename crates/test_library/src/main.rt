//! Uses the library as a program would, and prints what its calls return.
//!
//! The examples are a core alone, an office over storage in memory whose rows are loaded back, a
//! plan of several requests as one, a script over storage that fails once, and those of the
//! library's page.
#![tactic(auto)]

mod commands;
mod core_example;
mod failure;
mod first_example;
mod office_example;
mod page_examples;
mod part_examples;
mod plan_example;
mod posting_examples;
mod report;
mod row_examples;
mod row_list;
mod script_example;
mod text_examples;
mod value_examples;

use crate::failure::Failure;
use std::alloc::Global;
use std::io;

// Runs all examples, and appends their results.
fn run_all(alloc: Global, report: &mut String) -> Result<(), Failure> {
    core_example::run(alloc, report)?;
    office_example::run(alloc, report)?;
    plan_example::run(alloc, report)?;
    script_example::run(alloc, report)?;
    first_example::run(alloc, report)?;
    part_examples::run(alloc, report)?;
    page_examples::run(alloc, report)
}

fn print_examples<R: Print>(rt: &R, alloc: Global) -> io::Result<()> {
    let mut report = String::new(alloc);
    let outcome = run_all(alloc, &mut report);
    print!(rt; "{report}")?;
    match outcome {
        Ok(()) => Ok(()),
        Err(failure) => println!(rt; "{failure:?}"),
    }
}

fn main(rt: HostRuntime) -> io::Result<()> {
    print_examples(&rt, rt.alloc())
}
