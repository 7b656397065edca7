//! Reads a plan from JSON: an array of requests, in which numbers may be references.
ghost use Rattle.std.specs.Prelude.{◌≡◌, ◌≤◌, length, map};
ghost use Rattle.serde_json.specs.Data.{Data, array};
ghost use Rattle.thes_requests.specs.PlanReadings as plan;
ghost use Rattle.thes_requests.specs.PlanReadings.{GivesPlan, GivesPlanRequest, IsPlanOfRequests, PlanReadsAs, PlanValueReadsAs, RequestsReadAs};
ghost use Rattle.thes_requests.specs.Tree.{view, items_view};

use crate::keywords::CommandKeyword;
use crate::members::{BAD_SHAPE, command_keyword_at};
use crate::references::{
    first_name, listed_references, reference_at, second_name, without_references,
};
use crate::request::command_in;
use crate::tree::{JsonScratch, Value, parse_json};
use std::alloc::{AllocError, Global};
use thes_base::fault::{FormFault, ReadStop};
use thes_plans::plan::{PlanRequest, REQUEST_LIMIT};
use thes_plans::references::first_bad_reference;

/// The first reason why a text isn't a plan. The whole text is checked first, then each request in
/// order, and then the references.
#[derive(Clone, Copy, Debug, PartialEq, Eq)]
pub enum PlanFault {
    /// The text isn't JSON (`NotJson`), or isn't an array of 1 to 128 values (`BadShape`).
    Whole(FormFault),
    /// The request at this place, counted from 1, has this form fault; a query has `BadShape`.
    Request(usize, FormFault),
    /// The request at this place, counted from 1, has a bad reference: it is to no earlier request,
    /// or to one that doesn't make the resource or posting that the reference stands for.
    Reference(usize),
}

/// The reason why reading a plan failed.
#[derive(Clone, Copy, Debug, PartialEq, Eq)]
pub enum PlanStop {
    /// The text isn't a plan.
    Bad(PlanFault),
    /// Memory ran out.
    OutOfMemory,
}

/// Reports a failed allocation as `OutOfMemory`.
impl From<AllocError> for PlanStop {
    ghost use Rattle.thes_requests.specs.declared.plan.PlanStop.TheVariants.{OutOfMemory};

    ghost from_gives = { λ _ stop. stop ≡ OutOfMemory };

    fn from(_error: AllocError) -> PlanStop {
        PlanStop::OutOfMemory
    }
}

/// Wraps the fault of a text that isn't a plan.
impl From<PlanFault> for PlanStop {
    ghost use Rattle.thes_requests.specs.declared.plan.PlanStop.TheVariants.{Bad};

    ghost from_gives = { λ fault stop. stop ≡ Bad fault };

    fn from(fault: PlanFault) -> PlanStop {
        PlanStop::Bad(fault)
    }
}

// Reads a request of a plan: a command, in which each number may be a reference.
fn plan_request_in(alloc: Global, value: Value<'_>) -> Result<PlanRequest, ReadStop>
    ensures { GivesPlanRequest (view value.entry) result }
{
    let Some(verb) = value.get("do").and_then(command_keyword_at) else {
        return Err(BAD_SHAPE);
    };
    let first = reference_at(first_name(verb), &value);
    let second = reference_at(second_name(verb), &value);
    let postings = listed_references(alloc, verb, &value)?;
    let value = without_references(alloc, value)?;
    Ok(PlanRequest {
        command: command_in(alloc, verb, &value)?,
        first,
        second,
        postings,
    })
}

// Reads the requests of a plan in their order, up to the first form fault.
fn requests_in(alloc: Global, items: Vec<Value<'_>>) -> Result<Vec<PlanRequest>, PlanStop>
    requires { length items.items ≤ plan.request_limit }
    ensures { GivesPlan (RequestsReadAs (map view items.entry.items)) result }
{
    let mut plan = Vec::with_capacity(alloc, items.len())?;
    for item in items {
        match plan_request_in(alloc, item) {
            Ok(asked) => plan.push(asked).map_err(AllocError::from)?,
            Err(ReadStop::Form(fault)) => {
                return Err(PlanStop::Bad(PlanFault::Request(plan.len() + 1, fault)));
            }
            Err(ReadStop::OutOfMemory) => return Err(PlanStop::OutOfMemory),
        }
    }
    Ok(plan)
}

// Returns the plan, or the fault of the first request with a bad reference
// (`PlanFault::Reference`).
fn with_good_references(plan: Vec<PlanRequest>) -> Result<Vec<PlanRequest>, PlanStop>
    ensures { (d : Data) → IsPlanOfRequests d plan.items
        → GivesPlan (PlanValueReadsAs d) result }
{
    match first_bad_reference(&plan) {
        None => Ok(plan),
        Some(place) => Err(PlanStop::Bad(PlanFault::Reference(place))),
    }
}

// Reads a plan from the items of an array, of which there must be 1 to 128.
#[tactic(auto, using(crate::proofs::PlanReadingLemmas::plan_array_length))]
fn plan_of_items(alloc: Global, items: Vec<Value<'_>>) -> Result<Vec<PlanRequest>, PlanStop>
    ensures { GivesPlan (PlanValueReadsAs (array (items_view items.entry.items))) result }
{
    if items.is_empty() || items.len() > REQUEST_LIMIT {
        return Err(PlanStop::Bad(PlanFault::Whole(FormFault::BadShape)));
    }
    with_good_references(requests_in(alloc, items)?)
}

/// Reads a plan from a JSON value, which must be an array of 1 to 128 requests.
pub fn plan_in(alloc: Global, value: Value<'_>) -> Result<Vec<PlanRequest>, PlanStop>
    ensures { GivesPlan (PlanValueReadsAs (view value.entry)) result }
{
    match value {
        Value::Array(items) => plan_of_items(alloc, items),
        _ => Err(PlanStop::Bad(PlanFault::Whole(FormFault::BadShape))),
    }
}

/// Reads a plan from the bytes of a text, or returns its first fault, or `OutOfMemory`.
pub fn read_plan(memory: &mut JsonScratch, bytes: &[u8]) -> Result<Vec<PlanRequest>, PlanStop>
    ensures { GivesPlan (PlanReadsAs bytes.now) result }
{
    match parse_json(memory.alloc, bytes, &mut memory.scratch) {
        Ok(value) => plan_in(memory.alloc, value),
        Err(ReadStop::Form(fault)) => Err(PlanStop::Bad(PlanFault::Whole(fault))),
        Err(ReadStop::OutOfMemory) => Err(PlanStop::OutOfMemory),
    }
}
