//! A handler with fixed answers, which no store gives.
ghost use Rattle.std.specs.Prelude.{false, not};

use std::alloc::Global;
use std::io::{Read, Write};
use thes_base::fault::{Fault, PipeFault, Refusal, Table};
use thes_base::pipe::Pipe;
use thes_base::request::{Answer, Command};
use thes_plans::plan::{PlanOutcome, PlanRequest, PlanRun};
use thes_plans::report::ChangeReport;
use thes_requests::handler::{QueryAnswer, RequestHandler};
use thes_requests::page::Page;
use thes_requests::request::Query;
use thes_requests::script::{ScriptEnd, script};

/// A handler whose answer to a withdrawal depends only on the number of the posting, and which
/// refuses all other commands. The withdrawal of posting 7 runs out of memory; that of a posting
/// with a greater number also closes the handler.
#[derive(Drop)]
pub struct FixedAnswers {
    is_closed: bool,
}

impl FixedAnswers {
    /// Creates an open handler.
    pub fn new() -> FixedAnswers {
        FixedAnswers { is_closed: false }
    }

    /// Serves a script, and returns the writer and how the script ended.
    pub fn serve<R: Read + Drop, W: Write>(
        mut self,
        alloc: Global,
        input: R,
        output: W,
    ) -> (W, Result<ScriptEnd, PipeFault>) {
        if self.is_closed {
            return (output, Err(PipeFault::Fault(Fault::OutOfMemory)));
        }
        let mut reader = Pipe::new(input);
        let mut writer = Pipe::new(output);
        let ended = script(alloc, &mut reader, &mut writer, &mut self);
        (writer.into_device(), ended)
    }
}

fn answer_to(number: u32) -> Result<Answer, Fault> {
    match number {
        1 => Ok(Answer::Number(1)),
        2 => Ok(Answer::Parted(4294967295, 4294967295)),
        3 => Err(Fault::Store),
        4 => Err(Fault::BadStore(Table::Posting)),
        5 => Err(Fault::NewerStore),
        6 => Err(Fault::OlderStore),
        _ => Err(Fault::OutOfMemory),
    }
}

impl RequestHandler for FixedAnswers {
    ghost requests = { record {
      performs = λ _ _ _ _. Unit {0};
      reports = λ _ _ _ _ _. Unit {0};
      shows = λ _ _ _ _. Unit {0};
      takes_plans = λ _. false;
      performs_plan = λ _ _ _ _. Unit {0};
      reports_plan = λ _ _ _ _ _ _. Unit {0};
    } };

    ghost is_open = { λ handler. not handler.is_closed };

    fn perform(&mut self, command: &Command) -> Result<Answer, Fault> {
        let Command::Withdraw(posting) = command else {
            return Ok(Answer::No(Refusal::WrongKind));
        };
        let number = posting.get();
        self.is_closed = number > 7;
        answer_to(number)
    }

    fn show(&mut self, alloc: Global, query: &Query) -> Result<QueryAnswer, Fault> {
        match query {
            Query::Totals => Ok(QueryAnswer::Page(Page::new(Vec::from_slice(alloc, b"{}\n")?))),
            _ => Ok(QueryAnswer::No(Refusal::UnknownResource)),
        }
    }

    // Never called, since this handler takes no plans.
    fn perform_plan(&mut self, plan: Vec<PlanRequest>) -> Result<PlanOutcome, Fault> {
        let _ = plan;
        Err(Fault::OutOfMemory)
    }

    // Never called, since this handler takes no plans.
    fn report<R: ChangeReport>(
        &mut self,
        _command: &Command,
        _report: &mut R,
    ) -> Result<Answer, Fault> {
        Err(Fault::OutOfMemory)
    }

    // Never called, since this handler takes no plans.
    fn report_plan<R: ChangeReport>(
        &mut self,
        _run: PlanRun,
        plan: Vec<PlanRequest>,
        _report: &mut R,
    ) -> Result<PlanOutcome, Fault> {
        let _ = plan;
        Err(Fault::OutOfMemory)
    }

    fn takes_plans(&self) -> bool {
        false
    }

    fn is_open(&self) -> bool {
        !self.is_closed
    }
}
