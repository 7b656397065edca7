//! Checks of the answers to an example, with or without a failed allocation.
use crate::failing::example::Example;
use crate::failing::page::FixedPage;
use crate::failing::run::{End, ExampleRun};
use std::alloc::{AllocError, Global};
use std::io;
use test_office::{Store, store_after};

// More allocations than any run can make before one fails.
const MOST: u32 = 10_000;

// The query with which each run ends.
const TOTALS: &str = "{\"get\":\"totals\"}\n";

/// The outcome of an example with at most one failed allocation.
#[derive(Drop)]
pub enum ExampleOutcome {
    /// An allocation failed before the first step.
    Early,
    /// No allocation failed, and these are the answers.
    Granted(ExampleRun),
    /// One allocation failed, and the answers were right: a step answered with the fault changed
    /// nothing. The Boolean says whether the copy of the tables was stale after the last step.
    Refused(bool),
    /// An answer was wrong, or the state of the store was.
    Wrong,
}

// Makes `requests` allocations, and frees each.
fn spend(alloc: Global, requests: u32) -> Result<(), AllocError> {
    for _ in 0..requests {
        let _granted: Vec<u32> = Vec::with_capacity(alloc, 1)?;
    }
    Ok(())
}

/// Makes `before` allocations, and runs an example in a new store. If `before` is 0, no allocation
/// should fail.
pub fn outcome_of(alloc: Global, before: u32, example: &Example) -> ExampleOutcome {
    if spend(alloc, before).is_err() {
        return ExampleOutcome::Early;
    }
    match store_after(alloc, example.requests) {
        Ok(store) => outcome_in(alloc, before, example, store),
        Err(_) => ExampleOutcome::Early,
    }
}

// Returns whether the copy in memory may differ from the tables.
fn has_stale_copy(store: &mut Store) -> bool {
    store.office().is_stale()
}

// Returns the totals, and the views of the store once it is opened again.
fn totals_and_views(alloc: Global, mut store: Store) -> (FixedPage, io::Result<Vec<u8>>) {
    let (totals, _) = store.serve(alloc, TOTALS.as_bytes(), FixedPage::new());
    (totals, store.shown(alloc))
}

// Runs an example in a store, and checks its answers and the state of the store.
fn outcome_in(alloc: Global, before: u32, example: &Example, mut store: Store) -> ExampleOutcome {
    let run = example.run(alloc, &mut store, example.steps);
    let is_stale = has_stale_copy(&mut store);
    // Makes allocations until the one that fails, unless the run has already met that one.
    let is_met = before > 0 && spend(alloc, MOST).is_ok();
    let (totals, shown) = totals_and_views(alloc, store);
    if !is_right(alloc, example, &run, &totals, shown).unwrap_or(false) {
        return ExampleOutcome::Wrong;
    }
    match (is_met, run.end) {
        (true, _) => ExampleOutcome::Refused(is_stale),
        (false, End::Done) => ExampleOutcome::Granted(run),
        (false, _) => ExampleOutcome::Wrong,
    }
}

// Checks whether a store in which only the performed steps are run gives the same answers and has
// the same totals and views at its end. Also checks whether every step was performed, unless memory
// ran out.
fn is_right(
    alloc: Global,
    example: &Example,
    run: &ExampleRun,
    totals: &FixedPage,
    shown: io::Result<Vec<u8>>,
) -> io::Result<bool> {
    let steps = example.performed(alloc, run)?;
    let mut store = store_after(alloc, example.requests)?;
    let again = example.run(alloc, &mut store, steps.as_str());
    let (totals_again, wanted) = totals_and_views(alloc, store);
    let is_whole = steps.as_str() == example.steps;
    let is_ended = run.end == End::OutOfMemory || run.end == End::Done && is_whole;
    Ok(
        is_ended
            && again.end == End::Done
            && again.page.as_str() == run.page.as_str()
            && totals_again.as_str() == totals.as_str()
            && shown? == wanted?,
    )
}
