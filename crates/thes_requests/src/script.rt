//! Scripts: one request or plan a line, each answered with a line before the next one is performed.
ghost use Rattle.std.specs.Prelude.{◌≡◌, true, IfOk, IfErr, OnOk};
ghost use Rattle.thes_base.specs.Pipe.{IsFresh, PaysCalls, KeepsSharedCallLimit};
ghost use Rattle.thes_requests.specs.Script.{session, EndsScript, IsFreshSession};
ghost use Rattle.thes_requests.specs.ScriptEnds.{end_after_answer, end_after_outcome, end_after_report, end_without_lines};
ghost use Rattle.thes_requests.specs.Serving.{Serves};
ghost use Rattle.thes_requests.specs.ScriptSteps.{OutcomeWritten, StopsWithOutcome};

use crate::answer::Reply;
use crate::handler::RequestHandler;
use crate::line_buffer::LineSearch;
use crate::line_serving::{LineAnswer, LineOutcome, serve_line};
use crate::plan_reply::{PlanReply, Report};
use crate::script_lines::ScriptLines;
use crate::tree::JsonScratch;
use std::alloc::Global;
use std::io::{Read, Write};
use thes_base::fault::{Fault, PipeFault};
use thes_base::pipe::{Budget, Pipe};
use thes_base::request::Answer;

/// A summary of a script's answers, from which the program determines its exit status.
#[derive(Clone, Copy, PartialEq, Eq)]
pub struct ScriptEnd {
    /// Whether an answer was a refusal or a form fault.
    pub refused: bool,
    /// The last fault that was written in place of an answer.
    pub fault: Option<Fault>,
}

impl ScriptEnd {
    /// Returns the end of a script without lines: no refusal and no fault.
    pub(crate) fn new() -> ScriptEnd
        ensures { result ≡ end_without_lines }
    {
        ScriptEnd {
            refused: false,
            fault: None,
        }
    }

    /// Records an answer: that it is a refusal or a form fault, or the fault that replaces it.
    pub(crate) fn note_answer(&mut self, answer: &LineAnswer)
        ensures { self.new ≡ end_after_answer self.old answer.now }
    {
        match answer {
            LineAnswer::Reply(Reply::Answer(Answer::No(_)) | Reply::Bad(_))
            | LineAnswer::Plan(PlanReply::Refused(..) | PlanReply::Bad(_)) => self.refused = true,
            LineAnswer::Reply(Reply::Fault(fault)) => self.fault = Some(*fault),
            LineAnswer::Plan(PlanReply::Reported(report)) => self.note_report(report),
            LineAnswer::Reply(Reply::Answer(_))
            | LineAnswer::View(_)
            | LineAnswer::Plan(PlanReply::Done(_)) => {}
        }
    }

    // Records the answers in a report.
    fn note_report(&mut self, report: &Report)
        ensures { self.new ≡ end_after_report self.old report.now.end }
    {
        self.refused = self.refused || report.end.refused;
        if let Some(fault) = report.end.fault {
            self.fault = Some(fault);
        }
    }

    // Records the outcome of a script's line: its answer, or that memory for the line ran out.
    fn note(&mut self, outcome: &LineOutcome)
        ensures { self.new ≡ end_after_outcome self.old outcome.now }
    {
        match outcome {
            LineOutcome::Answered(answer) => self.note_answer(answer),
            LineOutcome::Unheld => self.fault = Some(Fault::OutOfMemory),
            LineOutcome::Skipped => {}
        }
    }
}

// Records the outcome of a script's line in `ended`, and writes the line's answer, if it has one.
// Fails if the writer fails or no write is left. If the handler has closed, which means that a call
// ran out of memory, fails with `OutOfMemory` after the answer.
fn write_outcome<W: Write, D: RequestHandler>(
    writer: &mut Pipe<W>,
    budget: &mut Budget,
    handler: &D,
    outcome: &LineOutcome,
    ended: &mut ScriptEnd,
) -> Result<(), PipeFault>
    requires { IsFresh writer.old }
    ensures ok { OnOk result (OutcomeWritten W.contents D.is_open handler.now
        writer.old writer.new outcome.now ended.old ended.new) }
    ensures stopped { IfErr result (StopsWithOutcome W.contents D.is_open handler.now
        writer.old writer.new outcome.now) }
    ensures paid { PaysCalls writer.old writer.new budget.old budget.new }
{
    ended.note(outcome);
    if let Err(stop) = outcome.write(writer, budget) {
        return Err(stop.writer_fault());
    }
    if !handler.is_open() {
        return Err(PipeFault::Fault(Fault::OutOfMemory));
    }
    Ok(())
}

/// Serves the lines of the input, and writes the answer to each before it serves the next.
///
/// A line has at most 1,048,576 bytes, and a script at most 1,000,000 lines, blank ones included.
/// `TooLong` is returned only if the input exceeds these limits, after all earlier lines are
/// answered, or if all of the 100,000,000 reads and writes are used up. `OutOfMemory` is returned
/// only before the first line, or after the handler has closed.
pub fn script<R: Read, W: Write, D: RequestHandler>(
    alloc: Global,
    reader: &mut Pipe<R>,
    writer: &mut Pipe<W>,
    handler: &mut D,
) -> Result<ScriptEnd, PipeFault>
    requires fresh { IsFreshSession (session reader.old writer.old handler.old) }
    requires open { D.is_open handler.old ≡ true }
    ensures ends { EndsScript R.remaining W.contents (Serves D.requests) D.is_open
        (session reader.old writer.old handler.old) (session reader.new writer.new handler.new)
        result }
    ensures calls { KeepsSharedCallLimit reader.old reader.new writer.old writer.new }
{
    let mut lines = ScriptLines::new(alloc)?;
    let mut memory = JsonScratch::new(alloc);
    let mut budget = Budget::new();
    let mut ended = ScriptEnd::new();
    let mut outcome = LineOutcome::Skipped;
    while !reader.ended() {
        let found = match lines.next_line(reader, &mut budget) {
            Ok(found) => found,
            Err(stop) => return Err(stop.reader_fault()),
        };
        if found == LineSearch::End {
            return Ok(ended);
        }
        // The assignment frees the previous answer only after it has made the new one. Freed
        // earlier, the previous answer would often be the last block of the heap, which costs more
        // to free.
        outcome = serve_line(&mut memory, handler, &lines.line, found);
        // The answer is written before the next line is served, since the client may be waiting for
        // it (DECISIONS.md, Scripts).
        write_outcome(writer, &mut budget, handler, &outcome, &mut ended)?;
    }
    Ok(ended)
}
