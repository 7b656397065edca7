//! Imports, exports and displays with a reader or a writer that fails after 0, 1, 2, .. calls. The
//! output must be a prefix of the whole text. If the reader failed, no row may have been performed;
//! if the writer failed after an import's heading, all rows must have been.
use crate::failing::import::import_file;
use crate::failing::texts::write_text;
use Failing::{FullWriter, Reader, Writer};
use std::alloc::Global;
use std::io;
use test_office::failing::Failing;
use test_office::{Store, store_after};
use thes_base::fault::PipeFault;

/// The outcome of a step whose devices fail.
#[derive(Clone, Copy, Debug, PartialEq, Eq)]
pub enum FaultResult {
    /// The step ended correctly when each of this number of calls failed in turn.
    Right(u32),
    /// The step ended wrongly when this device failed after this number of calls.
    Wrong(Failing, u32),
}

// The result of a step: its end, the text written, and the views of the store after it.
#[derive(Drop)]
struct StepResult {
    ended: Result<(), PipeFault>,
    text: Vec<u8>,
    shown: Vec<u8>,
}

// Checks whether a step wrote its text, or a prefix of it if this device failed.
fn is_written(ended: Result<(), PipeFault>, written: &[u8], text: &[u8], failing: Failing) -> bool {
    match ended {
        Ok(()) => written == text,
        Err(fault) => fault == failing.fault() && text.starts_with(written),
    }
}

// Imports a file into a new store, with a device that fails after `calls` calls.
fn import_with(
    alloc: Global,
    requests: &str,
    file: &str,
    failing: Failing,
    calls: u32,
) -> io::Result<StepResult> {
    let mut store = store_after(alloc, requests)?;
    let reader = failing.reader(file, calls);
    let (writer, ended) = import_file(alloc, &mut store, reader, failing.writer(alloc, calls));
    let shown = store.shown(alloc)?;
    Ok(StepResult {
        ended,
        text: writer.bytes,
        shown,
    })
}

// The number of bytes in the heading of the outcomes, which is written before the first row is
// performed.
const HEADING: usize = 19;

// Checks an import with this device failing after 0, 1, 2, .. calls. If the reader fails, or the
// writer within the heading, the views of the store must be `before`.
fn check_import_with(
    alloc: Global,
    (requests, file): (&str, &str),
    before: &[u8],
    whole: &StepResult,
    failing: Failing,
) -> io::Result<FaultResult> {
    for calls in 0..u32::MAX {
        let asked = import_with(alloc, requests, file, failing, calls)?;
        let shown = match (asked.ended, failing) {
            (Err(_), Reader) => before,
            (Err(_), _) if asked.text.len() < HEADING => before,
            _ => &whole.shown,
        };
        let is_right = is_written(asked.ended, &asked.text, &whole.text, failing);
        if !is_right || asked.shown.as_slice() != shown {
            return Ok(FaultResult::Wrong(failing, calls));
        }
        if asked.ended.is_ok() {
            return Ok(FaultResult::Right(calls));
        }
    }
    Ok(FaultResult::Wrong(failing, u32::MAX))
}

/// Checks an import with the reader or the writer failing after 0, 1, 2, .. calls.
pub fn check_import(alloc: Global, requests: &str, file: &str) -> io::Result<FaultResult> {
    let before = store_after(alloc, requests)?.shown(alloc)?;
    let whole = import_with(alloc, requests, file, Writer, u32::MAX)?;
    let mut count = 0u32;
    for failing in [Reader, Writer, FullWriter] {
        match check_import_with(alloc, (requests, file), &before, &whole, failing)? {
            FaultResult::Right(calls) => count = count.saturating_add(calls),
            wrong => return Ok(wrong),
        }
    }
    Ok(FaultResult::Right(count))
}

// Checks the writing of a text with this writer failing after 0, 1, 2, .. calls.
fn check_text_with(
    alloc: Global,
    store: &mut Store,
    words: &str,
    text: &[u8],
    failing: Failing,
) -> FaultResult {
    for calls in 0..u32::MAX {
        let (writer, ended) = write_text(alloc, store, words, failing.writer(alloc, calls));
        if !is_written(ended, &writer.bytes, text, failing) {
            return FaultResult::Wrong(failing, calls);
        }
        if ended.is_ok() {
            return FaultResult::Right(calls);
        }
    }
    FaultResult::Wrong(failing, u32::MAX)
}

// Checks the writing of a text with each kind of writer failing after 0, 1, 2, .. calls.
fn check_text_in(alloc: Global, store: &mut Store, words: &str) -> FaultResult {
    let (text, _) = write_text(alloc, store, words, Vec::new(alloc));
    let mut count = 0u32;
    for failing in [Writer, FullWriter] {
        match check_text_with(alloc, store, words, &text, failing) {
            FaultResult::Right(calls) => count = count.saturating_add(calls),
            wrong => return wrong,
        }
    }
    FaultResult::Right(count)
}

/// Checks the writing of a text with the writer failing after 0, 1, 2, .. calls, and that the views
/// of the store are the same before and after.
pub fn check_text(alloc: Global, requests: &str, words: &str) -> io::Result<FaultResult> {
    let before = store_after(alloc, requests)?.shown(alloc)?;
    let mut store = store_after(alloc, requests)?;
    let outcome = check_text_in(alloc, &mut store, words);
    if store.shown(alloc)? != before {
        return Ok(FaultResult::Wrong(Writer, u32::MAX));
    }
    Ok(outcome)
}
