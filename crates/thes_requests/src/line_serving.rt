//! Serves one line of a script: reads its request or plan, and answers it.
ghost use Rattle.std.specs.Prelude.{◌≡◌, ℕ, List, Some, true, false, OnOk, OnErr};
ghost use Rattle.std.specs.Io.KnownBytes.{Appends};
ghost use Rattle.thes_base.specs.Pipe.{failed_of, written_bytes, AppendsPrefix};
ghost use Rattle.thes_base.specs.PipeFrames.{WriteFrame};
ghost use Rattle.thes_requests.specs.Script.{is_blank, outcome_text, StepLine};
ghost use Rattle.thes_requests.specs.Serving.{Serves, command_answer, is_plan_line, plan_answer, query_answer, stop_answer};
ghost use Rattle.thes_requests.specs.Requests.{json_in};
ghost use Rattle.thes_requests.specs.Tree.{view};

use crate::answer::{Reply, reply_line};
use crate::handler::{QueryAnswer, RequestHandler};
use crate::line_buffer::LineSearch;
use crate::page::Page;
use crate::plan_form::is_plan_value;
use crate::plan_reply::PlanReply;
use crate::plan_serving::serve_plan_value;
use crate::request::{Request, request_in};
use crate::tree::{JsonScratch, Value, parse_json};
use std::alloc::Global;
use std::io::Write;
use thes_base::fault::{Fault, ReadStop};
use thes_base::pipe::{Budget, Pipe, Stop};
use thes_base::request::Answer;

/// The answer to a line of a script: the reply to a request, the line of a view, or the reply to a
/// plan.
#[derive(Drop)]
pub enum LineAnswer {
    Reply(Reply),
    View(Page),
    Plan(PlanReply),
}

impl LineAnswer {
    /// Returns the answer or fault of a command as a reply.
    pub(crate) fn for_command(given: Result<Answer, Fault>) -> LineAnswer
        ensures { result ≡ command_answer given }
    {
        match given {
            Ok(answer) => LineAnswer::Reply(Reply::Answer(answer)),
            Err(fault) => LineAnswer::Reply(Reply::Fault(fault)),
        }
    }

    /// Returns the line of a view, or the refusal or fault of its query as a reply.
    pub(crate) fn for_query(given: Result<QueryAnswer, Fault>) -> LineAnswer
        ensures { result ≡ query_answer given }
    {
        match given {
            Ok(QueryAnswer::Page(page)) => LineAnswer::View(page),
            Ok(QueryAnswer::No(refusal)) => LineAnswer::Reply(Reply::Answer(Answer::No(refusal))),
            Err(fault) => LineAnswer::Reply(Reply::Fault(fault)),
        }
    }

    /// Returns the form fault of a line that isn't a request, or `OutOfMemory`, as a reply.
    pub(crate) fn for_stop(stop: ReadStop) -> LineAnswer
        ensures { result ≡ stop_answer stop }
    {
        match stop {
            ReadStop::Form(fault) => LineAnswer::Reply(Reply::Bad(fault)),
            ReadStop::OutOfMemory => LineAnswer::Reply(Reply::Fault(Fault::OutOfMemory)),
        }
    }

    // Returns the reply to a plan, or its fault as a reply.
    fn for_plan(given: Result<PlanReply, Fault>) -> LineAnswer
        ensures { result ≡ plan_answer given }
    {
        match given {
            Ok(reply) => LineAnswer::Plan(reply),
            Err(fault) => LineAnswer::Reply(Reply::Fault(fault)),
        }
    }
}

/// The outcome of a line of a script: skipped, since it is blank; not held, since memory for it ran
/// out; or answered.
#[derive(Drop)]
pub enum LineOutcome {
    Skipped,
    Unheld,
    Answered(LineAnswer),
}

impl LineOutcome {
    /// Writes the answer, if there is one, with one call to the pipe; allocates nothing. A line
    /// that isn't held is answered with `OutOfMemory`.
    pub fn write<W: Write>(&self, writer: &mut Pipe<W>, budget: &mut Budget) -> Result<(), Stop>
        requires { failed_of writer.old ≡ false }
        ensures ok { OnOk result (Appends (written_bytes W.contents writer.old)
            (written_bytes W.contents writer.new) (outcome_text self.now)) }
        ensures err { OnErr result (AppendsPrefix (written_bytes W.contents writer.old)
            (written_bytes W.contents writer.new) (outcome_text self.now)) }
        ensures frame { WriteFrame writer.old writer.new budget.old budget.new result }
    {
        match self {
            LineOutcome::Skipped => Ok(()),
            LineOutcome::Unheld => {
                writer.write_all(
                    budget,
                    reply_line(Reply::Fault(Fault::OutOfMemory)).as_bytes(),
                )
            }
            LineOutcome::Answered(LineAnswer::Reply(reply)) => {
                writer.write_all(budget, reply_line(*reply).as_bytes())
            }
            LineOutcome::Answered(LineAnswer::View(line)) => {
                writer.write_all(budget, line.as_bytes())
            }
            LineOutcome::Answered(LineAnswer::Plan(reply)) => reply.write(writer, budget),
        }
    }
}

// Returns whether the line holds only spaces and tabs.
fn is_blank(line: &[u8]) -> bool
    ensures { result ≡ is_blank line.now }
{
    line.iter().all(|byte| *byte == b' ' || *byte == b'\t')
}

// Reads the request in a JSON value, and performs its command or answers its query. If the value
// isn't a request, performs nothing.
fn serve_request<D: RequestHandler>(alloc: Global, handler: &mut D, value: Value<'_>) -> LineAnswer
    requires { D.is_open handler.old ≡ true }
    ensures { (line : List ℕ) → json_in line ≡ Some (view value.entry)
        → is_plan_line (D.requests.takes_plans handler.old) line ≡ false
        → Serves D.requests handler.old line result handler.new }
{
    let request = request_in(alloc, &value);
    drop(value);
    match request {
        Ok(Request::Do(command)) => LineAnswer::for_command(handler.perform(&command)),
        Ok(Request::Get(query)) => LineAnswer::for_query(handler.show(alloc, &query)),
        Err(stop) => LineAnswer::for_stop(stop),
    }
}

// Performs or tries the requests in a JSON value. If the value isn't a plan, performs nothing.
fn serve_plan_line<D: RequestHandler>(
    alloc: Global,
    handler: &mut D,
    value: Value<'_>,
) -> LineAnswer
    requires { D.is_open handler.old ≡ true }
    ensures { (line : List ℕ) → json_in line ≡ Some (view value.entry)
        → is_plan_line (D.requests.takes_plans handler.old) line ≡ true
        → Serves D.requests handler.old line result handler.new }
{
    LineAnswer::for_plan(serve_plan_value(alloc, handler, value))
}

// Answers a line that isn't blank: a plan if it is an array, or an object with a member of plans,
// and the handler takes plans; else a request.
fn answer_line<D: RequestHandler>(
    memory: &mut JsonScratch,
    handler: &mut D,
    line: &[u8],
) -> LineAnswer
    requires { D.is_open handler.old ≡ true }
    ensures { Serves D.requests handler.old line.now result handler.new }
{
    let alloc = memory.alloc;
    match parse_json(alloc, line, &mut memory.scratch) {
        Ok(value) => {
            if handler.takes_plans() && is_plan_value(&value) {
                serve_plan_line(alloc, handler, value)
            } else {
                serve_request(alloc, handler, value)
            }
        }
        Err(stop) => LineAnswer::for_stop(stop),
    }
}

/// Serves a line of a script: skips a blank one, and performs the request in any other, or the plan
/// if the line has one and the handler takes plans. Nothing is performed for a line with a form
/// fault, or for one that didn't fit into memory.
pub fn serve_line<D: RequestHandler>(
    memory: &mut JsonScratch,
    handler: &mut D,
    line: &[u8],
    found: LineSearch,
) -> LineOutcome
    requires { D.is_open handler.old ≡ true }
    ensures { (text : List ℕ) → (found ≡ LineSearch.Line → text ≡ line.now) →
        StepLine (Serves D.requests) handler.old text result handler.new }
{
    if found != LineSearch::Line {
        return LineOutcome::Unheld;
    }
    if is_blank(line) {
        return LineOutcome::Skipped;
    }
    LineOutcome::Answered(answer_line(memory, handler, line))
}
