//! Replies to plans as lines of JSON.
ghost use Rattle.std.specs.Prelude.{◌≡◌, ◌≤◌, ◌+◌, ◌*◌, ◌++◌, [], List, length, codes, false, IfOk, OnOk, OnErr, vec_capacity, vec_len};
ghost use Rattle.std.specs.Io.KnownBytes.{Appends};
ghost use Rattle.thes_base.specs.Pipe.{failed_of, written_bytes, AppendsPrefix};
ghost use Rattle.thes_base.specs.PipeFrames.{WriteFrame};
ghost use Rattle.thes_tables.specs.declared.change.Change.{Change};
ghost use Rattle.thes_requests.specs.ChangeTexts.{AddsItems, list_opening};
ghost use Rattle.thes_requests.specs.PlanTexts.{answers_text, item_text, items_text, place_text, plan_fault_text, plan_refusal_text, plan_reply_text, reply_of_outcome, report_text, reported_outcome, separator_before, IsRoomFor};

use crate::answer::{Reply, reply_line};
use crate::change_list::ChangeList;
use crate::page::Page;
use crate::plan::PlanFault;
use crate::script::ScriptEnd;
use crate::short_line::ShortLine;
use std::alloc::{AllocError, Global};
use std::io::Write;
use thes_base::fault::Refusal;
use thes_base::pipe::{Budget, Pipe, Stop};
use thes_base::request::Answer;
use thes_plans::plan::PlanOutcome;

// The greatest length of the line of an answer in bytes.
const ANSWER_LIMIT: usize = 72;

/// A report of requests: the changes of rows that they make, their answers, and a summary of these.
#[derive(Drop)]
pub struct Report {
    /// The beginning of the line, with the changes.
    pub changes: Page,
    /// The rest of the line, with the answers.
    pub answers: Page,
    /// Which kinds of answers there are.
    pub end: ScriptEnd,
}

impl Report {
    /// Writes the line of the report with two calls to the pipe; allocates nothing.
    fn write<W: Write>(&self, writer: &mut Pipe<W>, budget: &mut Budget) -> Result<(), Stop>
        requires { failed_of writer.old ≡ false }
        ensures ok { OnOk result (Appends (written_bytes W.contents writer.old)
            (written_bytes W.contents writer.new) (report_text self.now)) }
        ensures err { OnErr result (AppendsPrefix (written_bytes W.contents writer.old)
            (written_bytes W.contents writer.new) (report_text self.now)) }
        ensures frame { WriteFrame writer.old writer.new budget.old budget.new result }
    {
        writer.write_all(budget, self.changes.as_bytes())?;
        writer.write_all(budget, self.answers.as_bytes())
    }
}

/// The reply to a plan: the line of the answers to all its requests, perhaps with their changes of
/// rows; the refusal of one of them; or the reason why the text isn't a plan.
#[derive(Drop)]
pub enum PlanReply {
    Done(Page),
    Reported(Report),
    /// The place of the first request that is refused, counted from 1, and its refusal.
    Refused(usize, Refusal),
    Bad(PlanFault),
}

impl PlanReply {
    /// Writes the line of the reply; allocates nothing.
    pub fn write<W: Write>(&self, writer: &mut Pipe<W>, budget: &mut Budget) -> Result<(), Stop>
        requires { failed_of writer.old ≡ false }
        ensures ok { OnOk result (Appends (written_bytes W.contents writer.old)
            (written_bytes W.contents writer.new) (plan_reply_text self.now)) }
        ensures err { OnErr result (AppendsPrefix (written_bytes W.contents writer.old)
            (written_bytes W.contents writer.new) (plan_reply_text self.now)) }
        ensures frame { WriteFrame writer.old writer.new budget.old budget.new result }
    {
        match self {
            PlanReply::Done(line) => writer.write_all(budget, line.as_bytes()),
            PlanReply::Reported(report) => report.write(writer, budget),
            PlanReply::Refused(place, refusal) => {
                writer.write_all(budget, plan_refusal_line(*place, *refusal).as_bytes())
            }
            PlanReply::Bad(fault) => writer.write_all(budget, plan_fault_line(*fault).as_bytes()),
        }
    }
}

// Returns the beginning of a line for the request at the place K of its plan: `{"at":K,`.
fn place_line(place: usize) -> ShortLine
    ensures text { result ≡ place_text place }
    ensures short { length result ≤ 27 }
{
    let mut line = ShortLine::from_text("{\"at\":");
    line.push_place(place);
    line.push(",");
    line
}

// Returns the line for the request at a place, with `before`, a name, a closing quote and brace,
// and a line feed.
fn place_name_line(place: usize, before: &str, name: &str) -> ShortLine
    requires { length before.now + length name.now ≤ 42 }
    ensures { result ≡ place_text place ++ before.now ++ name.now ++ codes "\"}\n" }
{
    let mut line = place_line(place);
    line.push(before);
    line.push(name);
    line.push("\"}\n");
    line
}

// Returns the line for a request at a place that is refused because an outside concept, whose
// number is given, already has its IRI.
fn outside_known_line(place: usize, number: u32) -> ShortLine
    ensures { result ≡ plan_refusal_text place (Refusal.OutsideKnown number) }
{
    let mut line = place_line(place);
    line.push("\"no\":\"OutsideKnown\",\"number\":");
    line.push_number(number);
    line.push("}\n");
    line
}

/// Returns the line of JSON for the refusal of the request at a place of its plan.
pub fn plan_refusal_line(place: usize, refusal: Refusal) -> ShortLine
    ensures { result ≡ plan_refusal_text place refusal }
{
    match refusal {
        Refusal::OutsideKnown(number) => outside_known_line(place, number),
        _ => place_name_line(place, "\"no\":\"", refusal.name()),
    }
}

/// Returns the line of JSON for the reason why a text isn't a plan.
pub fn plan_fault_line(fault: PlanFault) -> ShortLine
    ensures { result ≡ plan_fault_text fault }
{
    match fault {
        PlanFault::Whole(fault) => reply_line(Reply::Bad(fault)),
        PlanFault::Request(place, fault) => place_name_line(place, "\"bad\":\"", fault.name()),
        PlanFault::Reference(place) => place_name_line(place, "\"bad\":\"", "BadReference"),
    }
}

/// Appends bytes to the line of a reply to a plan. The line's capacity must suffice, so that no
/// memory is allocated.
pub fn append(line: &mut Vec<u8>, bytes: &[u8])
    requires { vec_len line.old + length bytes.now ≤ vec_capacity line.old }
    ensures items { line.new.items ≡ line.old.items ++ bytes.now }
    ensures len { vec_len line.new ≡ vec_len line.old + length bytes.now }
    ensures capacity { vec_capacity line.new ≡ vec_capacity line.old }
{
    for byte in bytes {
        line.push_reserved(*byte);
    }
}

// Appends an answer to the line of a plan's answers: its own line without the line feed.
fn append_answer(line: &mut Vec<u8>, answer: Answer)
    requires { vec_len line.old + 71 ≤ vec_capacity line.old }
    ensures items { line.new.items ≡ line.old.items ++ item_text answer }
    ensures len { vec_len line.new ≤ vec_len line.old + 71 }
    ensures capacity { vec_capacity line.new ≡ vec_capacity line.old }
{
    let text = reply_line(Reply::Answer(answer));
    let bytes = text.as_bytes();
    append(line, &bytes[..bytes.len().saturating_sub(1)]);
}

/// Appends the comma before the answer at this index, or nothing before the first, at 0.
pub fn append_separator(line: &mut Vec<u8>, index: usize)
    requires { vec_len line.old + 1 ≤ vec_capacity line.old }
    ensures items { line.new.items ≡ line.old.items ++ separator_before index }
    ensures len { vec_len line.new ≤ vec_len line.old + 1 }
    ensures capacity { vec_capacity line.new ≡ vec_capacity line.old }
{
    if index > 0 {
        append(line, b",");
    }
}

// Appends answers, with a comma before each but the first.
fn append_answers(line: &mut Vec<u8>, answers: &[Answer])
    requires { vec_len line.old + 72 * length answers.now ≤ vec_capacity line.old }
    ensures items { line.new.items ≡ line.old.items ++ items_text answers.now }
    ensures len { vec_len line.new ≤ vec_len line.old + 72 * length answers.now }
    ensures capacity { vec_capacity line.new ≡ vec_capacity line.old }
{
    for index in 0..answers.len() {
        append_separator(line, index);
        append_answer(line, answers[index]);
    }
}

// Returns the end of a line that begins with `opening`, of these answers to a plan, in the memory
// of `room`, whose capacity must suffice.
fn answers_page(room: Vec<u8>, opening: &[u8], answers: &[Answer]) -> Page
    requires empty { room.items ≡ [] }
    requires room { 72 * length answers.now + length opening.now + 3 ≤ vec_capacity room }
    ensures { result ≡ opening.now ++ items_text answers.now ++ codes "]}\n" }
{
    let mut bytes = room;
    append(&mut bytes, opening);
    append_answers(&mut bytes, answers);
    append(&mut bytes, b"]}\n");
    Page::new(bytes)
}

/// Reserves memory for the line of the answers to `count` requests: 72 bytes for each, and 13 more.
pub fn room_for_answers(alloc: Global, count: usize) -> Result<Vec<u8>, AllocError>
    ensures empty { IfOk result (λ room. room.items ≡ []) }
    ensures room { IfOk result (λ room. 72 * count + 13 ≤ vec_capacity room) }
{
    let Some(answers) = count.checked_mul(ANSWER_LIMIT) else {
        return Err(AllocError);
    };
    let Some(size) = answers.checked_add(13) else {
        return Err(AllocError);
    };
    Vec::with_capacity(alloc, size)
}

/// Returns the reply for the outcome of a plan. The line of answers is made in `room`, the memory
/// that `room_for_answers` reserved.
pub fn reply_in_room(room: Vec<u8>, outcome: PlanOutcome) -> PlanReply
    requires empty { room.items ≡ [] }
    requires room { IsRoomFor (vec_capacity room) outcome }
    ensures { result ≡ reply_of_outcome outcome }
{
    match outcome {
        PlanOutcome::Done(answers) => {
            PlanReply::Done(answers_page(room, b"{\"done\":[", &answers))
        }
        PlanOutcome::Refused(place, refusal) => PlanReply::Refused(place, refusal),
    }
}

/// Returns the reply for the outcome of a plan whose changes were added to `list`. The answers are
/// written into `room`, the memory that `room_for_answers` reserved.
pub fn report_in_room(room: Vec<u8>, list: ChangeList, outcome: PlanOutcome) -> PlanReply
    requires empty { room.items ≡ [] }
    requires room { IsRoomFor (vec_capacity room) outcome }
    ensures { (changes : List Change) → AddsItems list_opening changes list
        → result ≡ reported_outcome changes outcome }
{
    match outcome {
        PlanOutcome::Done(answers) => PlanReply::Reported(Report {
            changes: list.into_page(),
            answers: answers_page(room, b"],\"done\":[", &answers),
            end: ScriptEnd::new(),
        }),
        PlanOutcome::Refused(place, refusal) => PlanReply::Refused(place, refusal),
    }
}
