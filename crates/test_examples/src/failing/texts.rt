//! Examples of exports and displays: the steps are lines, each `export`, or a display with its
//! scheme and its language.
use crate::failing::page::FixedPage;
use crate::failing::run::{End, ExampleRun};
use std::alloc::Global;
use std::io::Write;
use test_office::Store;
use test_office::office_calls::{display_in, export_in};
use thes_base::fault::{Fault, PipeFault, ReadStop};
use thes_base::number::ResNo;
use thes_base::text::Tag;
use thes_requests::request::{Display, DisplayRequest};

/// Writes texts of a store. If memory runs out for a text, nothing of it may be written.
pub fn run(alloc: Global, store: &mut Store, input: &str) -> ExampleRun {
    let mut run = ExampleRun::new();
    for (step, words) in input.lines().enumerate() {
        let (page, ended) = write_text(alloc, store, words, FixedPage::new());
        run.note(step, End::from_result(ended), page.as_str());
    }
    run
}

/// Writes a text to a device, and returns the device and the fault that stopped the writing, if
/// any.
pub fn write_text<W: Write>(
    alloc: Global,
    store: &mut Store,
    words: &str,
    output: W,
) -> (W, Result<(), PipeFault>) {
    let (kind, words) = words.split_once(' ').unwrap_or((words, ""));
    match kind {
        "alphabetical" => write_display(alloc, store, Display::Alphabetical, words, output),
        "hierarchical" => write_display(alloc, store, Display::Hierarchical, words, output),
        _ => export_in(alloc, &mut store.handler, output),
    }
}

// Writes a display of the scheme and the language named, or nothing if there is no such scheme.
fn write_display<W: Write>(
    alloc: Global,
    store: &mut Store,
    display: Display,
    words: &str,
    output: W,
) -> (W, Result<(), PipeFault>) {
    let (scheme, language) = words.split_once(' ').unwrap_or((words, ""));
    match (ResNo::read(scheme), Tag::read(alloc, language)) {
        (Ok(scheme), Ok(tag)) => {
            let handler = &mut store.handler;
            let wanted = DisplayRequest {
                kind: display,
                scheme,
                tag: &tag,
            };
            let (output, shown) = display_in(alloc, handler, &wanted, output);
            (output, shown.map(|_| ()))
        }
        (_, Err(ReadStop::OutOfMemory)) => (output, Err(PipeFault::Fault(Fault::OutOfMemory))),
        _ => (output, Ok(())),
    }
}
