//! Examples of posting files: the steps are lines, of which the first is answered by a heading.
use crate::failing::page::FixedPage;
use crate::failing::run::{End, ExampleRun};
use std::alloc::Global;
use std::io::{Read, Write};
use test_office::Store;
use test_office::office_calls::import_in;
use thes_base::fault::PipeFault;

/// Imports a posting file into a store; the rows before a fault stay performed.
pub fn run(alloc: Global, store: &mut Store, input: &str) -> ExampleRun {
    let (page, ended) = import_file(alloc, store, input.as_bytes(), FixedPage::new());
    let mut run = ExampleRun::new();
    for (step, outcome) in page.as_str().split_inclusive('\n').enumerate() {
        run.note(step, End::Done, outcome);
    }
    if ended.is_err() {
        run.note(0, End::from_result(ended), "");
    }
    run
}

/// Imports a posting file over these devices, and returns the writer and the fault that stopped the
/// import, if any.
pub fn import_file<R: Read + Drop, W: Write>(
    alloc: Global,
    store: &mut Store,
    input: R,
    output: W,
) -> (W, Result<(), PipeFault>) {
    let (output, ended) = import_in(alloc, &mut store.handler, input, output);
    match ended {
        Ok(_) => (output, Ok(())),
        Err(stopped) => (output, Err(stopped.fault)),
    }
}
