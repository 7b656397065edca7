//! A service whose only state is a count.
ghost use Rattle.std.specs.Prelude.{false, true};
ghost use Rattle.thes_base.specs.Pipe.{IsFresh};

use std::alloc::Global;
use std::io::{Read, Write};
use thes_base::fault::{Fault, Refusal};
use thes_base::pipe::Pipe;
use thes_base::request::{Answer, Command};
use thes_http::connection::{ConnectionEnd, serve_one};
use thes_http::service::Service;
use thes_http_request::endpoint::Routes;
use thes_plans::plan::{PlanOutcome, PlanRequest, PlanRun};
use thes_plans::report::ChangeReport;
use thes_requests::handler::{QueryAnswer, RequestHandler};
use thes_requests::page::Page;
use thes_requests::request::{DisplayRequest, Query};

/// The text of a display that is too long to be written together with the head of its response.
pub static PAGE: [u8; 600] = [b'x'; 600];

/// A service that counts withdrawals and imports, and refuses all other commands. It has the
/// schemes 1 and 3; the display of scheme 3 is long.
#[derive(Drop)]
pub struct CountingService {
    pub performed: u32,
}

impl RequestHandler for CountingService {
    ghost requests = { record {
      performs = λ _ _ _ _. Unit {0};
      reports = λ _ _ _ _ _. Unit {0};
      shows = λ _ _ _ _. Unit {0};
      takes_plans = λ _. false;
      performs_plan = λ _ _ _ _. Unit {0};
      reports_plan = λ _ _ _ _ _ _. Unit {0};
    } };

    ghost is_open = { λ _. true };

    fn perform(&mut self, command: &Command) -> Result<Answer, Fault> {
        match command {
            Command::Withdraw(_) => {
                self.performed = self.performed.saturating_add(1);
                Ok(Answer::Number(self.performed))
            }
            _ => Ok(Answer::No(Refusal::SameResource)),
        }
    }

    // Answers totals with a fixed line, and refuses every other query.
    fn show(&mut self, alloc: Global, query: &Query) -> Result<QueryAnswer, Fault> {
        match query {
            Query::Totals => {
                let line = b"{\"accepted\":0,\"standing\":0,\"withdrawn\":0}\n";
                Ok(QueryAnswer::Page(Page::new(Vec::from_slice(alloc, line)?)))
            }
            _ => Ok(QueryAnswer::No(Refusal::UnknownResource)),
        }
    }

    // Never called, since this service takes no plans.
    fn perform_plan(&mut self, plan: Vec<PlanRequest>) -> Result<PlanOutcome, Fault> {
        let _ = plan;
        Err(Fault::OutOfMemory)
    }

    // Never called, since this service takes no plans.
    fn report<R: ChangeReport>(
        &mut self,
        _command: &Command,
        _report: &mut R,
    ) -> Result<Answer, Fault> {
        Err(Fault::OutOfMemory)
    }

    // Never called, since this service takes no plans.
    fn report_plan<R: ChangeReport>(
        &mut self,
        _run: PlanRun,
        plan: Vec<PlanRequest>,
        _report: &mut R,
    ) -> Result<PlanOutcome, Fault> {
        let _ = plan;
        Err(Fault::OutOfMemory)
    }

    fn takes_plans(&self) -> bool {
        false
    }

    fn is_open(&self) -> bool {
        true
    }
}

impl Service for CountingService {
    ghost use Rattle.std.specs.Prelude.{refl};

    ghost behaviour = { record {
      requests = Self.requests;
      imports = λ _ _ _ _. Unit {0};
      exports = λ _ _ _. Unit {0};
      displays = λ _ _ _ _ _ _. Unit {0};
    } };

    ghost does_requests = { record {
      performs = λ _ _ _ _ does. does;
      reports = λ _ _ _ _ _ does. does;
      shows = λ _ _ _ _ does. does;
      takes_plans = λ _. refl;
      performs_plan = λ _ _ _ _ does. does;
      reports_plan = λ _ _ _ _ _ _ does. does;
    } };

    fn import(&mut self, alloc: Global, file: &[u8]) -> Result<Option<Page>, Fault> {
        if file.is_empty() {
            return Ok(None);
        }
        self.performed = self.performed.saturating_add(1);
        Ok(Some(Page::new(Vec::from_slice(alloc, file)?)))
    }

    fn export(&mut self, alloc: Global) -> Result<Page, Fault> {
        Ok(Page::new(Vec::from_slice(alloc, b"<a:b> <a:c> <a:d> .\n")?))
    }

    fn display(
        &mut self,
        alloc: Global,
        wanted: &DisplayRequest<'_>,
    ) -> Result<QueryAnswer, Fault> {
        let text = match wanted.scheme.get() {
            1 => wanted.tag.as_str().as_bytes(),
            3 => &PAGE,
            _ => return Ok(QueryAnswer::No(Refusal::UnknownResource)),
        };
        Ok(QueryAnswer::Page(Page::new(Vec::from_slice(alloc, text)?)))
    }
}

/// Makes the routes, serves one connection, and returns the outcome of the connection.
pub fn serve_counting<R: Read, W: Write>(
    alloc: Global,
    reader: &mut Pipe<R>,
    writer: &mut Pipe<W>,
    counter: &mut CountingService,
) -> ConnectionEnd
    requires reader { IsFresh reader.old }
    requires writer { IsFresh writer.old }
{
    let routes = Routes::new(alloc).ok();
    serve_one(alloc, routes.as_ref(), reader, writer, counter)
}
