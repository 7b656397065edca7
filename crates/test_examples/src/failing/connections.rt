//! Examples of connections: the steps are requests, each followed by a line `%`.
use crate::failing::page::FixedPage;
use crate::failing::run::{End, ExampleRun};
use crate::failing::script::FAULT;
use std::alloc::Global;
use test_office::Store;
use test_office::office_calls::connect_in;
use thes_http::connection::ConnectionEnd;

/// The line that follows each request.
pub const REQUEST_END: &str = "%\n";

/// Serves connections in a store. None may import, since the rows before a fault would stay
/// performed.
pub fn run(alloc: Global, store: &mut Store, input: &str) -> ExampleRun {
    let mut run = ExampleRun::new();
    for (step, request) in input.split_terminator(REQUEST_END).enumerate() {
        let (page, served) = connect_in(
            alloc,
            &mut store.handler,
            request.as_bytes(),
            FixedPage::new(),
        );
        run.note(step, end_of(served, page.as_str()), page.as_str());
    }
    run
}

// Returns the end of a step, given the outcome of its connection and the text written.
fn end_of(served: ConnectionEnd, written: &str) -> End {
    match served {
        ConnectionEnd::Answered(_) if written.ends_with(FAULT) => End::OutOfMemory,
        ConnectionEnd::Answered(_) => End::Done,
        ConnectionEnd::Cut if written.is_empty() => End::Done,
        _ => End::Wrong,
    }
}
