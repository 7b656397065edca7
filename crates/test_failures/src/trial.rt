//! Runs examples over failing stores, and appends the outcomes to a page.
use crate::disk::{FailPoint, Failing};
use crate::example::{Example, StoredExample};
use crate::migration::Migration;
use crate::outcome::{StoreOutcome, Trial};
use crate::performing::{RunReport, report_wanted};
use crate::requests::Requests;
use crate::retries::outcome_of_calls;
use crate::stop::TrialStop;
use crate::stores::report_in_memory;
use std::alloc::{AllocError, Global};
use std::fmt::Write;
use test_keeper::fail_once::Next;

// Repeats a trial with a file that fails after 0, 1, 2, .. calls until the outcome isn't `Kept`.
// Returns the number of calls and the outcome.
fn last_outcome<T: Trial>(
    alloc: Global,
    trial: &T,
    file: Failing,
) -> Result<(u64, StoreOutcome), TrialStop> {
    for calls in 0..u64::MAX {
        match trial.outcome(alloc, FailPoint { file, calls })? {
            StoreOutcome::Kept => {}
            outcome => return Ok((calls, outcome)),
        }
    }
    Ok((u64::MAX, StoreOutcome::Wrong))
}

// Repeats a trial with the log and then with the database file failing, and appends the outcomes.
fn try_files<T: Trial>(
    alloc: Global,
    name: &str,
    trial: &T,
    page: &mut String,
) -> Result<(), TrialStop> {
    for file in [Failing::Log, Failing::Database] {
        let last = last_outcome(alloc, trial, file)?;
        write_last(page, name, file.name(), last)?;
    }
    Ok(())
}

fn write_last(
    page: &mut String,
    name: &str,
    file: &str,
    last: (u64, StoreOutcome),
) -> Result<(), AllocError> {
    match last {
        (0..10, StoreOutcome::Whole) => writeln!(page, "{name}, {file}: too few calls failed"),
        (_, StoreOutcome::Whole) => writeln!(page, "{name}, {file}: nothing answered was lost"),
        (calls, _) => writeln!(page, "{name}, {file}: wrong after {calls} calls"),
    }
}

// Returns the name of a kind of call.
fn name_of(call: Next) -> &'static str {
    match call {
        Next::Nothing => "nothing",
        Next::Load => "load",
        Next::Commit => "commit",
        Next::Find => "find",
        Next::Posting => "posting",
        Next::Row => "row",
        Next::Standing => "standing",
        Next::StandingNumbers => "standing_numbers",
    }
}

// Appends a name to a list, unless the list has it.
fn push_new(words: &mut String, word: &str) -> Result<(), AllocError> {
    if words.as_str().split(' ').all(|other| other != word) {
        words.push(' ')?;
        words.push_str(word)?;
    }
    Ok(())
}

// Repeats an example with `times` calls failing after 0, 1, 2, .. others until the outcome isn't
// `Kept`, and collects the kind of the first call that failed in each run. Returns the last
// outcome.
fn add_calls(
    alloc: Global,
    stored: &StoredExample,
    times: u32,
    listing: &str,
    words: &mut String,
) -> Result<StoreOutcome, TrialStop> {
    for before in 0..u32::MAX {
        match outcome_of_calls(alloc, stored, before, times, listing)? {
            (StoreOutcome::Kept, first) => push_new(words, name_of(first))?,
            (outcome, _) => return Ok(outcome),
        }
    }
    Ok(StoreOutcome::Wrong)
}

fn write_calls(
    page: &mut String,
    name: &str,
    times: u32,
    outcome: StoreOutcome,
    calls: &str,
) -> Result<(), TrialStop> {
    let often = if times == 1 { "once" } else { "twice" };
    match outcome {
        StoreOutcome::Whole => writeln!(page, "{name}, failed {often}, and then went on:{calls}")?,
        _ => writeln!(
            page,
            "{name}, wrong where a call fails {often}, behind:{calls}"
        )?,
    }
    Ok(())
}

// Runs an example over a storage in memory of which one call fails, and over one of which two in a
// row fail, beginning with each call in turn.
fn try_keepers(
    alloc: Global,
    name: &str,
    stored: &StoredExample,
    listing: &str,
    page: &mut String,
) -> Result<(), TrialStop> {
    for times in [1, 2] {
        let mut words = String::new(alloc);
        let outcome = add_calls(alloc, stored, times, listing, &mut words)?;
        write_calls(page, name, times, outcome, words.as_str())?;
    }
    Ok(())
}

// Checks whether all answers are the stored ones.
fn is_as_stored(run_report: &RunReport, stored: &StoredExample) -> bool {
    run_report.answers == stored.answers
        && run_report.rows.as_str() == stored.outcomes
        && !run_report.failed
}

// Appends a line that says whether all answers are as stored.
fn write_answered(page: &mut String, name: &str, is_as_stored: bool) -> Result<(), TrialStop> {
    Ok(writeln!(
        page,
        "{name}, in memory, is answered as stored: {is_as_stored}"
    )?)
}

// Runs an example in a database in memory, and appends whether all answers are as stored.
fn try_in_memory(
    alloc: Global,
    name: &str,
    stored: &StoredExample,
    page: &mut String,
) -> Result<(), TrialStop> {
    let mut run_report = RunReport::new(alloc);
    report_in_memory(alloc, stored.example(), &mut run_report)?;
    write_answered(page, name, is_as_stored(&run_report, stored))
}

// Runs an example in a database in memory, and over storages in memory of which calls fail.
fn try_memory(
    alloc: Global,
    name: &str,
    stored: &StoredExample,
    page: &mut String,
) -> Result<(), TrialStop> {
    try_in_memory(alloc, name, stored, page)?;
    let mut wanted = RunReport::new(alloc);
    report_wanted(alloc, stored.example(), &mut wanted)?;
    try_keepers(alloc, name, stored, wanted.listing.text.as_str(), page)
}

// Runs an example over a store in files, one of which stops working.
fn try_requests(
    alloc: Global,
    name: &str,
    example: Example,
    page: &mut String,
) -> Result<(), TrialStop> {
    let requests = Requests::new(alloc, example)?;
    try_files(alloc, name, &requests, page)
}

// Runs a migration over a store in files, one of which stops working, after a check that the store
// is of version 1.
fn try_older(
    alloc: Global,
    name: &str,
    migration: &Migration,
    page: &mut String,
) -> Result<(), TrialStop> {
    let is_older = migration.is_older(alloc)?;
    writeln!(
        page,
        "{name}, a store of version 1 is shown as one: {is_older}"
    )?;
    try_files(alloc, name, migration, page)
}

// Runs the migration of the store of version 1 that an example makes.
fn try_migration(
    alloc: Global,
    name: &str,
    example: Example,
    page: &mut String,
) -> Result<(), TrialStop> {
    let migration = Migration::new(alloc, example)?;
    try_older(alloc, name, &migration, page)
}

// Runs an example in memory, and then in files.
fn try_stored(
    alloc: Global,
    name: &str,
    stored: &StoredExample,
    migrates: bool,
    page: &mut String,
) -> Result<(), TrialStop> {
    try_memory(alloc, name, stored, page)?;
    if migrates {
        try_migration(alloc, name, stored.example(), page)
    } else {
        try_requests(alloc, name, stored.example(), page)
    }
}

/// Runs the example in the text of a file, and appends its outcomes to the page.
pub fn try_file(alloc: Global, name: &str, text: &str, page: &mut String) -> Result<(), TrialStop> {
    let (text, migrates) = match text.split_once("% migrate\n") {
        Some((requests, _)) => (requests, true),
        None => (text, false),
    };
    let stored = StoredExample::read(alloc, text)?;
    try_stored(alloc, name, &stored, migrates, page)
}
