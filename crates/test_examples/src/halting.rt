//! Scripts whose reader or writer fails after 0, 1, 2, .. calls.
use crate::example::{Example, push_line};
use crate::modes::{text_of, with_end};
use Failing::{FullWriter, Reader, Writer};
use std::alloc::{AllocError, Global};
use std::io;
use test_office::Store;
use test_office::failing::Failing;
use thes_base::fault::PipeFault;
use thes_requests::script::ScriptEnd;

// Returns the number of requests performed: one for each answer and, if the writer failed, one
// whose answer wasn't written.
fn performed_count(failing: Failing, written: &str) -> usize {
    let answered = written.bytes().filter(|byte| *byte == b'\n').count();
    match failing {
        Reader => answered,
        Writer | FullWriter => answered.saturating_add(1),
    }
}

// The outcome of a script whose reader or writer fails.
#[derive(Clone, Copy, Debug, PartialEq, Eq)]
enum Outcome {
    /// The script ran to its end, with the stored answers.
    Whole,
    /// The script stopped, and the same store answered the other requests as stored.
    Resumed,
    /// The script gave another answer, or stopped in another way.
    Wrong,
}

/// Runs a script whose reader or writer fails after 0, 1, 2, .. calls. Returns the stored answers
/// if all outcomes are right, or else the first device and number of calls with a wrong outcome.
///
/// The text written must be a prefix of the stored answers. The requests performed must be those
/// answered and, if the writer failed, the one whose answer wasn't written: the same store must
/// answer the later requests as stored.
pub fn halting_answers(alloc: Global, example: &Example) -> io::Result<String> {
    for failing in [Reader, Writer, FullWriter] {
        if let Some(calls) = first_wrong(alloc, example, failing)? {
            return Ok(format!(in alloc; "{failing:?} after {calls} calls\n")?);
        }
    }
    Ok(String::from_str(alloc, example.answers.as_str())?)
}

// Returns the first number of calls after which a failing device gives a wrong outcome.
fn first_wrong(alloc: Global, example: &Example, failing: Failing) -> io::Result<Option<u32>> {
    for calls in 0..u32::MAX {
        match outcome_after(alloc, example, failing, calls)? {
            Outcome::Whole => return Ok(None),
            Outcome::Resumed => {}
            Outcome::Wrong => return Ok(Some(calls)),
        }
    }
    Ok(Some(u32::MAX))
}

fn outcome_after(
    alloc: Global,
    example: &Example,
    failing: Failing,
    calls: u32,
) -> io::Result<Outcome> {
    let mut store = Store::new(alloc, example.limits)?;
    let outcome = outcome_in(alloc, &mut store, example, failing, calls);
    drop(store);
    outcome
}

fn outcome_in(
    alloc: Global,
    store: &mut Store,
    example: &Example,
    failing: Failing,
    calls: u32,
) -> io::Result<Outcome> {
    let reader = failing.reader(example.requests.as_str(), calls);
    let (writer, ended) = store.serve(alloc, reader, failing.writer(alloc, calls));
    let written = text_of(writer.bytes)?;
    if ended.is_ok() {
        return outcome_of_whole(written, ended, example.answers.as_str());
    }
    if ended != Err(failing.fault()) || !example.answers.as_str().starts_with(written.as_str()) {
        return Ok(Outcome::Wrong);
    }
    let performed = performed_count(failing, written.as_str());
    outcome_of_rest(alloc, store, example, performed)
}

fn outcome_of_whole(
    written: String,
    ended: Result<ScriptEnd, PipeFault>,
    expected: &str,
) -> io::Result<Outcome> {
    if with_end(written, ended)?.as_str() == expected {
        return Ok(Outcome::Whole);
    }
    Ok(Outcome::Wrong)
}

// Returns the outcome of the requests after those performed, which the store must answer as stored.
fn outcome_of_rest(
    alloc: Global,
    store: &mut Store,
    example: &Example,
    performed: usize,
) -> io::Result<Outcome> {
    let requests = lines_after(alloc, example.requests.as_str(), performed)?;
    let expected = lines_after(alloc, example.answers.as_str(), performed)?;
    let (written, ended) = store.serve(alloc, requests.as_str().as_bytes(), Vec::new(alloc));
    if with_end(text_of(written)?, ended)? == expected {
        return Ok(Outcome::Resumed);
    }
    Ok(Outcome::Wrong)
}

// Returns the lines of a text after the first `skipped` ones.
fn lines_after(alloc: Global, text: &str, skipped: usize) -> Result<String, AllocError> {
    let mut rest = String::new(alloc);
    let mut before = skipped;
    for line in text.lines() {
        if before == 0 {
            push_line(&mut rest, line)?;
        } else {
            before -= 1;
        }
    }
    Ok(rest)
}
