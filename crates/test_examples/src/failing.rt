//! Examples that must be answered correctly if an allocation, a reader or a writer fails, each in a
//! new store.
//!
//! `tests/builds/test_refuse_memory.py` has the same late allocation of each run fail. An argument
//! says how many allocations to make before the example, and so which of the example's own fails.
//! If that number is 0, no allocation should fail, and the readers and writers of imports, exports
//! and displays fail instead.

mod check;
mod connections;
mod devices;
mod example;
mod import;
mod page;
mod run;
mod script;
mod texts;

use crate::failing::check::{ExampleOutcome, outcome_of};
use crate::failing::devices::{FaultResult, check_import, check_text};
use crate::failing::example::{Example, ExampleKind};
use std::alloc::Global;
use std::io;
use test_office::invalid;

// Prints the outcome of an example, with its answers if no allocation failed.
fn print_outcome<R: Print>(rt: &R, name: &str, outcome: &ExampleOutcome) -> io::Result<()> {
    match outcome {
        ExampleOutcome::Early => println!(rt; "{name}: early"),
        ExampleOutcome::Granted(run) => println!(rt; "{name}: granted\n{}", run.page.as_str()),
        ExampleOutcome::Refused(true) => println!(rt; "{name}: stale"),
        ExampleOutcome::Refused(false) => println!(rt; "{name}: refused"),
        ExampleOutcome::Wrong => println!(rt; "{name}: wrong"),
    }
}

// Prints the outcome of a step whose reader or writer fails.
fn print_fault_result<R: Print>(rt: &R, name: &str, outcome: FaultResult) -> io::Result<()> {
    match outcome {
        FaultResult::Right(calls) => println!(rt;
            "{name}: right, at each of {calls} calls that fail"
        ),
        FaultResult::Wrong(failing, calls) => println!(rt;
            "{name}: wrong, {failing:?} after {calls} calls"
        ),
    }
}

// Runs an import, or exports and displays, with failing readers and writers, and prints the
// outcomes.
fn print_fault_results<R: Print>(
    rt: &R,
    alloc: Global,
    name: &str,
    example: &Example,
) -> io::Result<()> {
    let (requests, steps) = (example.requests, example.steps);
    match example.kind {
        ExampleKind::Import => print_fault_result(rt, name, check_import(alloc, requests, steps)?),
        ExampleKind::Texts => {
            for words in steps.lines() {
                print_fault_result(rt, words, check_text(alloc, requests, words)?)?;
            }
            Ok(())
        }
        ExampleKind::Script | ExampleKind::Connections => Ok(()),
    }
}

/// Makes `before` allocations, runs the example in the text of a file, and prints its outcome. If
/// `before` is 0, also runs it with failing readers and writers.
pub fn run_failing<R: Print>(
    rt: &R,
    alloc: Global,
    before: u32,
    name: &str,
    text: &str,
) -> io::Result<()> {
    let Some(example) = Example::read(text) else {
        return Err(invalid());
    };
    let outcome = outcome_of(alloc, before, &example);
    print_outcome(rt, name, &outcome)?;
    if before > 0 {
        return Ok(());
    }
    print_fault_results(rt, alloc, name, &example)
}
