//! Examples of scripts: the steps are lines, none of them blank.
use crate::failing::page::FixedPage;
use crate::failing::run::{End, ExampleRun};
use std::alloc::Global;
use test_office::Store;
use thes_base::fault::Fault;
use thes_requests::script::ScriptEnd;

/// The answer to a line for which memory ran out.
pub const FAULT: &str = "{\"fault\":\"OutOfMemory\"}\n";

/// Runs a script in a store, and records its answers.
pub fn run(alloc: Global, store: &mut Store, input: &str) -> ExampleRun {
    let (page, ended) = store.serve(alloc, input.as_bytes(), FixedPage::new());
    let mut run = ExampleRun::new();
    match ended {
        Ok(ended) => note_lines(&mut run, input, page.as_str(), ended),
        // If memory ran out before the first line, there are no answers.
        Err(fault) => run.note(0, End::from_result(Err(fault)), page.as_str()),
    }
    run
}

// Records the answers of a script, and checks its end.
fn note_lines(run: &mut ExampleRun, input: &str, answers: &str, ended: ScriptEnd) {
    for (step, answer) in answers.split_inclusive('\n').enumerate() {
        let end = if answer == FAULT {
            End::OutOfMemory
        } else {
            End::Done
        };
        run.note(step, end, answer);
    }
    let fault = match run.end {
        End::OutOfMemory => Some(Fault::OutOfMemory),
        _ => None,
    };
    if ended.fault != fault || answers.lines().count() != input.lines().count() {
        run.end = End::Wrong;
    }
}
