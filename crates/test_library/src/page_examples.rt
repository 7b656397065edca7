//! The examples of the library's page that share an office.
use crate::commands::base;
use crate::failure::Failure;
use crate::office_example::open;
use crate::{posting_examples, row_examples, text_examples, value_examples};
use std::alloc::Global;
use thesaurus::{Keeper, MemKeeper, NoPlans, Office, OfficeHandler, PlanMode};

// Performs commands in an office, and appends what became of them and of their postings.
fn run_in_office<K: Keeper>(
    alloc: Global,
    office: &mut Office<K>,
    report: &mut String,
) -> Result<(), Failure> {
    value_examples::run(alloc, office, report)?;
    posting_examples::run(alloc, office, report)
}

// Returns a handler that passes requests to an office, and also plans if the mode says so.
fn handler_of<K: Keeper, M: PlanMode + Copy>(office: Office<K>, mode: M) -> OfficeHandler<K, M> {
    OfficeHandler::new(office, mode)
}

// Runs the examples that use a handler, and then those that use its storage.
fn run_over<K: Keeper + Drop>(
    alloc: Global,
    handler: OfficeHandler<K, NoPlans>,
    report: &mut String,
) -> Result<(), Failure> {
    let mut handler = handler;
    let result = text_examples::run(alloc, &mut handler, report);
    let mut keeper = handler.into_office().into_keeper();
    let rows = row_examples::run(alloc, &mut keeper, report);
    let moves = posting_examples::run_in_storage(&mut keeper, report);
    drop(keeper);
    result.and(rows).and(moves)
}

/// Runs the examples, and appends their results.
pub fn run(alloc: Global, report: &mut String) -> Result<(), Failure> {
    let mut office = open(alloc, MemKeeper::new(alloc, base(alloc)?))?;
    let result = run_in_office(alloc, &mut office, report);
    let rest = run_over(alloc, handler_of(office, NoPlans), report);
    result.and(rest)
}
