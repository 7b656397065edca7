//! Performs plans over a request handler.
ghost use Rattle.std.specs.Prelude.{◌≡◌, true, Some};
ghost use Rattle.serde_json.specs.Data.{Data};
ghost use Rattle.thes_requests.specs.PlanReadings.{GivesPlan, PlanValueReadsAs};
ghost use Rattle.thes_requests.specs.Requests.{json_in};
ghost use Rattle.thes_requests.specs.Serving.{PerformsPlan, ReportsPlanRun, ServesArray, ServesPlan, ServesReport};
ghost use Rattle.thes_requests.specs.Tree.{view};

use crate::change_list::ChangeList;
use crate::each::serve_each;
use crate::handler::RequestHandler;
use crate::plan::{PlanFault, PlanStop, plan_in};
use crate::plan_form::{PlanForm, sole_member};
use crate::plan_reply::{PlanReply, reply_in_room, report_in_room, room_for_answers};
use crate::tree::{JsonScratch, Value, parse_json};
use std::alloc::Global;
use thes_base::fault::{Fault, ReadStop};
use thes_plans::plan::{PlanRequest, PlanRun};

// Performs a plan, and returns its reply. Reserves memory for the line of the reply first, so that
// memory can't run out after the plan is performed.
fn perform_plan<D: RequestHandler>(
    alloc: Global,
    handler: &mut D,
    plan: Vec<PlanRequest>,
) -> Result<PlanReply, Fault>
    requires { D.is_open handler.old ≡ true }
    ensures { PerformsPlan D.requests handler.old plan.items result handler.new }
{
    let Ok(room) = room_for_answers(alloc, plan.len()) else {
        return Err(Fault::OutOfMemory);
    };
    match handler.perform_plan(plan) {
        Ok(outcome) => Ok(reply_in_room(room, outcome)),
        Err(fault) => Err(fault),
    }
}

// Performs or only tries a plan, and returns its reply, with its changes of rows. Memory for the
// reply is had before anything is changed.
fn report_plan<D: RequestHandler>(
    alloc: Global,
    handler: &mut D,
    run: PlanRun,
    plan: Vec<PlanRequest>,
) -> Result<PlanReply, Fault>
    requires { D.is_open handler.old ≡ true }
    ensures { ReportsPlanRun D.requests run handler.old plan.items result handler.new }
{
    let Ok(room) = room_for_answers(alloc, plan.len()) else {
        return Err(Fault::OutOfMemory);
    };
    let Ok(mut list) = ChangeList::new(alloc) else {
        return Err(Fault::OutOfMemory);
    };
    match handler.report_plan(run, plan, &mut list) {
        Ok(outcome) => Ok(report_in_room(room, list, outcome)),
        Err(fault) => Err(fault),
    }
}

// Performs the plan in an array, and returns its reply. If the value isn't a plan, performs
// nothing, and returns a reply with the reason.
fn serve_array<D: RequestHandler>(
    alloc: Global,
    handler: &mut D,
    value: Value<'_>,
) -> Result<PlanReply, Fault>
    requires { D.is_open handler.old ≡ true }
    ensures { ServesArray D.requests handler.old (Some (view value.entry)) result handler.new }
{
    match plan_in(alloc, value) {
        Ok(plan) => perform_plan(alloc, handler, plan),
        Err(PlanStop::Bad(fault)) => Ok(PlanReply::Bad(fault)),
        Err(PlanStop::OutOfMemory) => Err(Fault::OutOfMemory),
    }
}

// Performs or only tries the plan in an array, and returns its reply, with its changes of rows. If
// the value isn't a plan, performs nothing, and returns a reply with the reason.
fn serve_report<D: RequestHandler>(
    alloc: Global,
    handler: &mut D,
    run: PlanRun,
    value: Value<'_>,
) -> Result<PlanReply, Fault>
    requires { D.is_open handler.old ≡ true }
    ensures { ServesReport D.requests run handler.old (view value.entry) result handler.new }
{
    match plan_in(alloc, value) {
        Ok(plan) => report_plan(alloc, handler, run, plan),
        Err(PlanStop::Bad(fault)) => Ok(PlanReply::Bad(fault)),
        Err(PlanStop::OutOfMemory) => Err(Fault::OutOfMemory),
    }
}

/// Performs or tries the requests in a value: an array, or an object with the member `perform`,
/// `try` or `each`. Any other value has no effect.
pub fn serve_plan_value<D: RequestHandler>(
    alloc: Global,
    handler: &mut D,
    value: Value<'_>,
) -> Result<PlanReply, Fault>
    requires { D.is_open handler.old ≡ true }
    ensures { ServesPlan D.requests handler.old (Some (view value.entry)) result handler.new }
{
    match PlanForm::from_value(&value) {
        PlanForm::Array => serve_array(alloc, handler, value),
        PlanForm::Perform => {
            serve_report(
                alloc,
                handler,
                PlanRun::Perform,
                sole_member("perform", value),
            )
        }
        PlanForm::Try => serve_report(alloc, handler, PlanRun::Try, sole_member("try", value)),
        PlanForm::Each => serve_each(alloc, handler, sole_member("each", value)),
    }
}

/// Performs or tries the requests in the bytes of a text, and returns the reply. A text that isn't
/// a plan has no effect.
pub fn serve_plan<D: RequestHandler>(
    memory: &mut JsonScratch,
    handler: &mut D,
    bytes: &[u8],
) -> Result<PlanReply, Fault>
    requires { D.is_open handler.old ≡ true }
    ensures { ServesPlan D.requests handler.old (json_in bytes.now) result handler.new }
{
    match parse_json(memory.alloc, bytes, &mut memory.scratch) {
        Ok(value) => serve_plan_value(memory.alloc, handler, value),
        Err(ReadStop::Form(fault)) => Ok(PlanReply::Bad(PlanFault::Whole(fault))),
        Err(ReadStop::OutOfMemory) => Err(Fault::OutOfMemory),
    }
}
