//! Serves one connection, over any reader and writer: reads its request, has it performed, and
//! writes the response.
ghost use Rattle.std.specs.Prelude.{◌≡◌, true};
ghost use Rattle.thes_base.specs.Pipe.{IsFresh, KeepsSharedCallLimit};
ghost use Rattle.thes_requests.specs.Script.{session, IsFreshSession};
ghost use Rattle.thes_http.specs.Connection.{RequestOutcome, EndsAs, exchange_count, is_complete};

use crate::act::act;
use crate::response::{Response, Status};
use crate::service::Service;
use httparse::spans::EMPTY_HEADER_SPAN;
use std::alloc::Global;
use std::io::{Read, Write};
use thes_base::fault::Fault;
use thes_base::pipe::{Budget, Pipe};
use thes_http_request::body::{BodyStop, read_body};
use thes_http_request::endpoint::{Paths, Routes};
use thes_http_request::endpoint_request::request_of_head;
use thes_http_request::inbox::{HeadStop, Inbox, InputFault};
use thes_http_request::problem::Problem;

/// The outcome of a connection, after which it is closed.
#[derive(Clone, Copy, Debug, PartialEq, Eq)]
pub enum ConnectionEnd {
    /// The response was written, with this status.
    Answered(Status),
    /// The input ended inside the request, and nothing was performed or written.
    Cut,
    /// The reader failed, or no read was left in the budget; nothing was performed or written.
    ReadFault,
    /// The writer failed, or no write was left in the budget, before all of the response was
    /// written.
    WriteFault,
}

impl ConnectionEnd {
    /// Returns whether the response was written completely.
    pub(crate) fn is_answered(self) -> bool
        ensures { result ≡ is_complete self }
    {
        match self {
            ConnectionEnd::Answered(_) => true,
            ConnectionEnd::WriteFault | ConnectionEnd::Cut | ConnectionEnd::ReadFault => false,
        }
    }

    /// Returns the number of exchanges in the connection: 1 if a request was answered, also if the
    /// response couldn't be written, or 0.
    pub(crate) fn exchange_count(self) -> u32
        ensures { result ≡ exchange_count self }
    {
        match self {
            ConnectionEnd::Answered(_) | ConnectionEnd::WriteFault => 1,
            ConnectionEnd::Cut | ConnectionEnd::ReadFault => 0,
        }
    }
}

// Returns the routes, with whether the service takes plans.
fn paths_of<'r, S: Service>(routes: &'r Routes, service: &S) -> Paths<'r>
    ensures { result.takes_plans ≡ S.behaviour.requests.takes_plans service.now }
{
    Paths {
        routes,
        takes_plans: service.takes_plans(),
    }
}

// Reads the request, performs it, and returns the response; problems, form faults and faults are
// responses as well.
fn answer<R: Read, S: Service>(
    alloc: Global,
    routes: Option<&Routes>,
    reader: &mut Pipe<R>,
    budget: &mut Budget,
    service: &mut S,
) -> Result<Response, InputFault>
    requires reader { IsFresh reader.old }
    requires open { S.is_open service.old ≡ true }
    ensures { RequestOutcome R.remaining S.behaviour reader.old reader.new budget.old budget.new
        service.old service.new result }
{
    let (Some(routes), Ok(mut inbox)) = (routes, Inbox::new(alloc)) else {
        return Ok(Response::fault(Fault::OutOfMemory));
    };
    let mut headers = [EMPTY_HEADER_SPAN; 64];
    let spans = match inbox.read_head(reader, budget, &mut headers) {
        Ok(spans) => spans,
        Err(HeadStop::Bad) => return Ok(Response::problem(Problem::BadHead)),
        Err(HeadStop::InputFault(gone)) => return Err(gone),
    };
    let paths = paths_of(routes, service);
    let want = match request_of_head(alloc, paths, inbox.head_bytes(), spans, &headers) {
        Ok(want) => want,
        Err(problem) => return Ok(Response::problem(problem)),
    };
    let start = inbox.bytes_after(spans.len);
    let mut body = Vec::new(alloc);
    match read_body(reader, budget, start, want.body as usize, &mut body) {
        Ok(()) => Ok(act(alloc, service, want, &body)),
        Err(BodyStop::OutOfMemory) => Ok(Response::fault(Fault::OutOfMemory)),
        Err(BodyStop::InputFault(gone)) => Err(gone),
    }
}

/// Reads one request, performs it, and writes the response. The routes are made once, for all
/// connections; `None` in their place means that memory for them ran out, and the response is
/// `OutOfMemory`.
///
/// The budget of both pipes together is 100,000,000 reads and writes.
pub fn serve_one<R: Read, W: Write, S: Service>(
    alloc: Global,
    routes: Option<&Routes>,
    reader: &mut Pipe<R>,
    writer: &mut Pipe<W>,
    service: &mut S,
) -> ConnectionEnd
    requires fresh { IsFreshSession (session reader.old writer.old service.old) }
    requires open { S.is_open service.old ≡ true }
    ensures outcome { EndsAs R.remaining W.contents S.behaviour
        (session reader.old writer.old service.old) (session reader.new writer.new service.new)
        result }
    ensures calls { KeepsSharedCallLimit reader.old reader.new writer.old writer.new }
{
    let mut budget = Budget::new();
    let response = match answer(alloc, routes, reader, &mut budget, service) {
        Ok(response) => response,
        Err(InputFault::Cut) => return ConnectionEnd::Cut,
        Err(InputFault::ReadFault) => return ConnectionEnd::ReadFault,
    };
    match response.write(writer, &mut budget) {
        Ok(()) => ConnectionEnd::Answered(response.status),
        Err(_) => ConnectionEnd::WriteFault,
    }
}
