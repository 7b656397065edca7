//! Examples over a storage, and their reports. Each call of an `Office` is in a function of its own
//! without a contract, since the `Office`'s contracts are long and slow the proofs of their
//! callers.
use crate::example::{Example, has_fault};
use crate::stop::TrialStop;
use std::alloc::Global;
use std::str;
use test_keeper::rows::RowText;
use test_office::serve_in;
use thes_base::data::Limits;
use thes_base::fault::{Fault, PipeFault};
use thes_base::text::Base;
use thes_import::postings::import_postings;
use thes_import::report::Report;
use thes_office::Office;
use thes_requests::script::ScriptEnd;
use thes_service::OfficeHandler;
use thes_service::plan_mode::WithPlans;
use thes_store::keeper::Keeper;
use thes_store::mem::MemKeeper;

/// The report of an example: the answers of the `Office`, and the rows of the store.
#[derive(Drop)]
pub struct RunReport {
    /// A line for each request: its answer, or the fault Store.
    pub answers: String,
    /// The lines of the import, up to the fault that halted it.
    pub rows: String,
    /// Whether the `Office` couldn't be opened, or has returned the fault Store.
    pub failed: bool,
    /// The rows at the end, and whether the store loads.
    pub listing: RowText,
}

impl RunReport {
    /// Returns the report before the first request.
    pub fn new(alloc: Global) -> RunReport {
        RunReport {
            answers: String::new(alloc),
            rows: String::new(alloc),
            failed: false,
            listing: RowText::new(alloc),
        }
    }
}

// Appends UTF-8 bytes to a text.
fn push_bytes(text: &mut String, bytes: &[u8]) -> Result<(), TrialStop> {
    match str::from_utf8(bytes) {
        Ok(more) => Ok(text.push_str(more)?),
        Err(_) => Err(TrialStop),
    }
}

// Appends the answers to requests, none of which may be a fault other than Store.
fn push_answers(
    answers: &mut String,
    written: &[u8],
    ended: Result<ScriptEnd, PipeFault>,
) -> Result<(), TrialStop> {
    match ended {
        Ok(
            ScriptEnd {
                refused: _,
                fault: None | Some(Fault::Store),
            },
        ) => push_bytes(answers, written),
        _ => Err(TrialStop),
    }
}

/// Performs requests, and appends their answers.
pub fn answer<K: Keeper>(
    alloc: Global,
    handler: &mut OfficeHandler<K, WithPlans>,
    requests: &str,
    answers: &mut String,
) -> Result<(), TrialStop> {
    let (written, ended) = serve_in(alloc, handler, requests.as_bytes(), Vec::new(alloc));
    push_answers(answers, &written, ended)
}

// Imports a posting file, and returns its report or the fault that halted it.
fn import_in<K: Keeper>(
    alloc: Global,
    office: &mut Office<K>,
    file: &str,
) -> Result<Option<Report>, (Fault, Report)> {
    import_postings(alloc, file.as_bytes(), office)
}

// Appends the lines of an import, and returns whether the fault Store halted it.
fn push_report(
    rows: &mut String,
    imported: &Result<Option<Report>, (Fault, Report)>,
) -> Result<bool, TrialStop> {
    match imported {
        Ok(Some(report)) => {
            push_bytes(rows, &report.text)?;
            Ok(false)
        }
        Err((Fault::Store, report)) => {
            push_bytes(rows, &report.text)?;
            Ok(true)
        }
        _ => Err(TrialStop),
    }
}

/// Imports a posting file, appends the lines of its report, and returns whether the fault Store
/// halted the import.
pub fn import<K: Keeper>(
    alloc: Global,
    handler: &mut OfficeHandler<K, WithPlans>,
    file: &str,
    rows: &mut String,
) -> Result<bool, TrialStop> {
    let imported = import_in(alloc, &mut handler.office, file);
    push_report(rows, &imported)
}

// Performs an example in an `Office`; imports its posting file if no request failed.
fn run<K: Keeper>(
    alloc: Global,
    handler: &mut OfficeHandler<K, WithPlans>,
    example: Example,
    run_report: &mut RunReport,
) -> Result<(), TrialStop> {
    answer(alloc, handler, example.requests, &mut run_report.answers)?;
    run_report.failed = has_fault(run_report.answers.as_str());
    if !run_report.failed && !example.postings.is_empty() {
        run_report.failed = import(alloc, handler, example.postings, &mut run_report.rows)?;
    }
    Ok(())
}

/// Opens an `Office` over a storage, or returns the fault with the storage.
pub fn open<K: Keeper>(
    alloc: Global,
    keeper: K,
) -> Result<OfficeHandler<K, WithPlans>, (Fault, K)> {
    match Office::start(alloc, keeper, Limits::default()) {
        Ok(office) => Ok(OfficeHandler::new(office, WithPlans)),
        Err(back) => Err(back),
    }
}

/// Closes an `Office`, and returns its storage.
pub fn close<K: Keeper>(handler: OfficeHandler<K, WithPlans>) -> K {
    handler.into_office().into_keeper()
}

/// Performs an example over a storage, and returns the storage. If the `Office` can't be opened,
/// whatever the fault, the report says that it failed.
pub fn perform<K: Keeper>(
    alloc: Global,
    keeper: K,
    example: Example,
    run_report: &mut RunReport,
) -> (K, Result<(), TrialStop>) {
    match open(alloc, keeper) {
        Ok(mut handler) => {
            let ran = run(alloc, &mut handler, example, run_report);
            (close(handler), ran)
        }
        Err((_, keeper)) => {
            run_report.failed = true;
            (keeper, Ok(()))
        }
    }
}

// Loads all rows, and appends them.
fn list<K: Keeper>(keeper: &mut K, rows: &mut RowText) -> Result<(), Fault> {
    keeper.load(rows)
}

// Opens an `Office` over a storage, and returns the storage, with "loads" or the name of the fault.
fn verdict<K: Keeper>(alloc: Global, keeper: K) -> (K, &'static str) {
    match open(alloc, keeper) {
        Ok(handler) => (close(handler), "loads"),
        Err((fault, keeper)) => (keeper, fault.name()),
    }
}

// Appends a line with the verdict of a load, unless the rows couldn't be read.
fn push_verdict(
    rows: &mut RowText,
    listed: Result<(), Fault>,
    verdict: &str,
) -> Result<(), TrialStop> {
    if listed.is_err() {
        return Err(TrialStop);
    }
    rows.text.push_str(verdict)?;
    rows.text.push('\n')?;
    Ok(())
}

/// Appends the rows of a storage, and whether an `Office` opens over it.
pub fn show<K: Keeper>(
    alloc: Global,
    mut keeper: K,
    listing: &mut RowText,
) -> (K, Result<(), TrialStop>) {
    let listed = list(&mut keeper, listing);
    let (keeper, verdict) = verdict(alloc, keeper);
    let ended = push_verdict(listing, listed, verdict);
    (keeper, ended)
}

/// Returns the base IRI of every store.
pub fn base(alloc: Global) -> Result<Base, TrialStop> {
    match Base::read(alloc, "https://thesaurus.example/id/") {
        Ok(base) => Ok(base),
        Err(_) => Err(TrialStop),
    }
}

/// Returns a storage in memory with the tables of a new store.
pub fn new_keeper(alloc: Global) -> Result<MemKeeper, TrialStop> {
    Ok(MemKeeper::new(alloc, base(alloc)?))
}

/// Performs an example in memory without failures, and reports the answers and rows, which other
/// runs must also give.
pub fn report_wanted(
    alloc: Global,
    example: Example,
    run_report: &mut RunReport,
) -> Result<(), TrialStop> {
    let keeper = new_keeper(alloc)?;
    let (keeper, ran) = perform(alloc, keeper, example, run_report);
    let (keeper, listing) = show(alloc, keeper, &mut run_report.listing);
    drop(keeper);
    ran.and(listing)
}
