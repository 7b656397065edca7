//! Performs requests one after another, each by itself, and reports their changes of rows.
ghost use Rattle.std.specs.Prelude.{◌≡◌, ◌+◌, ◌-◌, ◌*◌, ◌^◌, ◌≤◌, ◌<◌, ◌++◌, length, take, true, IfOk, IsTrue, vec_capacity, vec_len};
ghost use Rattle.serde_json.specs.Data.{array};
ghost use Rattle.thes_requests.specs.EachSteps.{HasRoom, IsKept, IsNewReport, IsReplyOf, IsRoomForItem, KeepsAnswer, PushesAnswer, ReportsCommand, ReportsElement, ServesNext};
ghost use Rattle.thes_requests.specs.LineTexts.{line_item_text};
ghost use Rattle.thes_requests.specs.PlanForms as form;
ghost use Rattle.thes_requests.specs.PlanTexts.{separator_before};
ghost use Rattle.thes_requests.specs.Serving.{ServesEach, is_fault};
ghost use Rattle.thes_requests.specs.Tree.{items_view, view};

use crate::answer::{Reply, reply_line};
use crate::change_list::ChangeList;
use crate::handler::RequestHandler;
use crate::line_serving::LineAnswer;
use crate::page::Page;
use crate::plan::PlanFault;
use crate::plan_reply::{PlanReply, Report, append, append_separator, room_for_answers};
use crate::request::{Request, request_in};
use crate::script::ScriptEnd;
use crate::tree::Value;
use std::alloc::{AllocError, Global};
use thes_base::fault::{Fault, FormFault};
use thes_base::request::Command;

/// The greatest number of requests of `each`.
pub const EACH_LIMIT: usize = 1_024;

// The greatest length of an answer that isn't a view, and of the comma before it.
const ITEM_LIMIT: usize = 72;

// The changes and the answers of requests so far. The line of the answers has room for those to the
// requests that are left, unless they are views.
#[derive(Drop)]
struct EachReport {
    list: ChangeList,
    line: Vec<u8>,
    count: usize,
    end: ScriptEnd,
}

// Returns whether an answer is a fault, after which no request is performed.
fn is_fault(answer: &LineAnswer) -> bool
    ensures { result ≡ is_fault answer.now }
{
    matches!(answer, LineAnswer::Reply(Reply::Fault(_)))
}

// Appends a line without its line feed, for which there must be room.
fn append_line(line: &mut Vec<u8>, bytes: &[u8])
    requires { vec_len line.old + (length bytes.now - 1) ≤ vec_capacity line.old }
    ensures items { line.new.items
        ≡ line.old.items ++ take (length bytes.now - 1) bytes.now }
    ensures len { vec_len line.new ≡ vec_len line.old + (length bytes.now - 1) }
    ensures capacity { vec_capacity line.new ≡ vec_capacity line.old }
{
    append(line, &bytes[..bytes.len().saturating_sub(1)]);
}

// Appends a comma, unless it is the first answer, and an answer without its line feed. There must
// be room for it, for the answers to `left` more requests, and for the end of the line.
fn append_item(line: &mut Vec<u8>, count: usize, answer: &LineAnswer, left: usize)
    requires { IsRoomForItem (vec_len line.old) (vec_capacity line.old) answer.now left }
    ensures items { line.new.items
        ≡ line.old.items ++ (separator_before count ++ line_item_text answer.now) }
    ensures room { vec_len line.new + 72 * left + 3 ≤ vec_capacity line.new }
{
    append_separator(line, count);
    match answer {
        LineAnswer::Reply(reply) => append_line(line, reply_line(*reply).as_bytes()),
        LineAnswer::View(page) => append_line(line, page.as_bytes()),
        LineAnswer::Plan(_) => {}
    }
}

// Reserves memory for a comma, for these bytes, and for the answers to `left` more requests;
// returns whether there is enough.
fn has_room(line: &mut Vec<u8>, bytes: usize, left: usize) -> bool
    ensures items { line.new.items ≡ line.old.items }
    ensures len { vec_len line.new ≡ vec_len line.old }
    ensures grows { vec_capacity line.old ≤ vec_capacity line.new }
    ensures room { IsTrue result
        → vec_len line.new + bytes + 72 * left + 4 ≤ vec_capacity line.new }
{
    let Some(others) = left.checked_mul(ITEM_LIMIT) else {
        return false;
    };
    let Some(size) = others.checked_add(bytes) else {
        return false;
    };
    match size.checked_add(4) {
        Some(size) => line.try_reserve(size).is_ok(),
        None => false,
    }
}

// Returns the answer, or `OutOfMemory` if it is a view for which memory runs out.
fn kept_answer(line: &mut Vec<u8>, answer: LineAnswer, left: usize) -> LineAnswer
    requires { vec_len line.old + 72 * (left + 1) + 3 ≤ vec_capacity line.old }
    ensures items { line.new.items ≡ line.old.items }
    ensures len { vec_len line.new ≡ vec_len line.old }
    ensures room { IsRoomForItem (vec_len line.new) (vec_capacity line.new) result left }
    ensures kept { IsKept answer result }
{
    match answer {
        LineAnswer::View(page) => {
            if has_room(line, page.as_bytes().len(), left) {
                LineAnswer::View(page)
            } else {
                LineAnswer::Reply(Reply::Fault(Fault::OutOfMemory))
            }
        }
        LineAnswer::Reply(reply) => LineAnswer::Reply(reply),
        LineAnswer::Plan(reply) => LineAnswer::Plan(reply),
    }
}

impl EachReport {
    // Returns a report without answers, with memory for those to `count` requests, views aside.
    fn new(alloc: Global, count: usize) -> Result<EachReport, AllocError>
        ensures { IfOk result (λ report. IsNewReport report count) }
    {
        let mut line = room_for_answers(alloc, count)?;
        append(&mut line, b"],\"each\":[");
        Ok(EachReport {
            list: ChangeList::new(alloc)?,
            line,
            count: 0,
            end: ScriptEnd::new(),
        })
    }

    // Appends an answer for which there is room; returns whether it is a fault.
    fn push(&mut self, answer: &LineAnswer, left: usize) -> bool
        requires room { IsRoomForItem (vec_len self.old.line) (vec_capacity self.old.line)
            answer.now left }
        requires short { self.old.count < 2 ^ 32 }
        ensures { PushesAnswer self.old answer.now left result self.new }
    {
        append_item(&mut self.line, self.count, answer, left);
        self.count += 1;
        self.end.note_answer(answer);
        is_fault(answer)
    }

    // Appends an answer, or `OutOfMemory` if memory for a view runs out; returns whether it is a
    // fault.
    fn keep(&mut self, answer: LineAnswer, left: usize) -> bool
        requires room { HasRoom self.old (left + 1) }
        requires short { self.old.count < 2 ^ 32 }
        ensures { KeepsAnswer self.old answer left result self.new }
    {
        let kept = kept_answer(&mut self.line, answer, left);
        self.push(&kept, left)
    }

    // Returns the reply with the changes and the answers.
    fn into_reply(self) -> PlanReply
        requires { HasRoom self 0 }
        ensures { IsReplyOf self result }
    {
        let EachReport {
            list,
            mut line,
            count: _,
            end,
        } = self;
        append(&mut line, b"]}\n");
        PlanReply::Reported(Report {
            changes: list.into_page(),
            answers: Page::new(line),
            end,
        })
    }
}

// Performs a command, and adds its changes to the list; on a fault the list is as it was before.
fn report_command<D: RequestHandler>(
    handler: &mut D,
    command: &Command,
    list: &mut ChangeList,
) -> LineAnswer
    requires { D.is_open handler.old ≡ true }
    ensures { ReportsCommand D.requests handler.old command.now list.old result list.new
        handler.new }
{
    let before = list.len();
    let given = handler.report(command, list);
    if given.is_err() {
        list.truncate(before);
    }
    LineAnswer::for_command(given)
}

// Performs one of the requests, and adds its changes to the list. A handler that has closed, since
// memory ran out, performs none.
fn report_element<D: RequestHandler>(
    alloc: Global,
    handler: &mut D,
    value: Value<'_>,
    list: &mut ChangeList,
) -> LineAnswer
    ensures { ReportsElement D.requests handler.old (view value.entry) list.old result list.new
        handler.new }
{
    if !handler.is_open() {
        return LineAnswer::Reply(Reply::Fault(Fault::OutOfMemory));
    }
    let request = request_in(alloc, &value);
    drop(value);
    match request {
        Ok(Request::Do(command)) => report_command(handler, &command, list),
        Ok(Request::Get(query)) => LineAnswer::for_query(handler.show(alloc, &query)),
        Err(stop) => LineAnswer::for_stop(stop),
    }
}

// Performs one of the requests, and adds its changes and its answer to the report; returns whether
// the answer is a fault.
fn serve_next<D: RequestHandler>(
    alloc: Global,
    handler: &mut D,
    value: Value<'_>,
    report: &mut EachReport,
    left: usize,
) -> bool
    requires room { HasRoom report.old (left + 1) }
    requires short { report.old.count < 2 ^ 32 }
    ensures { ServesNext D.requests handler.old (view value.entry) left report.old result
        report.new handler.new }
{
    let answer = report_element(alloc, handler, value, &mut report.list);
    report.keep(answer, left)
}

// Performs the requests in these values, up to the first fault, and reports their changes and
// answers. Memory for the answers, views aside, is had before.
fn serve_values<D: RequestHandler>(
    alloc: Global,
    handler: &mut D,
    values: Vec<Value<'_>>,
) -> Result<PlanReply, Fault>
    requires some { 0 < length values.items }
    requires few { length values.items ≤ form.each_limit }
    ensures { ServesEach D.requests handler.old (array (items_view values.entry.items)) result
        handler.new }
{
    let mut left = values.len();
    let Ok(mut report) = EachReport::new(alloc, left) else {
        return Err(Fault::OutOfMemory);
    };
    for value in values {
        left -= 1;
        if serve_next(alloc, handler, value, &mut report, left) {
            return Ok(report.into_reply());
        }
    }
    Ok(report.into_reply())
}

// Performs the requests in these values, of which there must be 1 to 1,024.
#[tactic(auto, using(crate::proofs::EachLemmas::each_array_length))]
fn serve_array<D: RequestHandler>(
    alloc: Global,
    handler: &mut D,
    values: Vec<Value<'_>>,
) -> Result<PlanReply, Fault>
    ensures { ServesEach D.requests handler.old (array (items_view values.entry.items)) result
        handler.new }
{
    if values.is_empty() || values.len() > EACH_LIMIT {
        return Ok(PlanReply::Bad(PlanFault::Whole(FormFault::BadShape)));
    }
    serve_values(alloc, handler, values)
}

/// Performs the requests in an array, each by itself, and reports their changes of rows. A value
/// that isn't an array of 1 to 1,024 elements is `BadShape`, and nothing is performed.
pub fn serve_each<D: RequestHandler>(
    alloc: Global,
    handler: &mut D,
    value: Value<'_>,
) -> Result<PlanReply, Fault>
    ensures { ServesEach D.requests handler.old (view value.entry) result handler.new }
{
    match value {
        Value::Array(values) => serve_array(alloc, handler, values),
        _ => Ok(PlanReply::Bad(PlanFault::Whole(FormFault::BadShape))),
    }
}
