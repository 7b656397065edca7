//! A plan over an office: four requests as one, performed once, and refused when sent again.
use crate::commands::{concept, post};
use crate::failure::Failure;
use crate::office_example::{keeper_after, open};
use std::alloc::{AllocError, Global};
use std::fmt::Write;
use thesaurus::{
    Command, Fault, JsonScratch, Keeper, LinkKind, Office, PlanFault, PlanOutcome, PlanRequest,
    PlanStop, PostNo, REQUEST_LIMIT, ReadStop, ResNo, first_bad_reference, read_plan,
};

// The number of commands that are performed before the plan.
const BEFORE: usize = 6;

// Returns the command at a place of the plan, and the place of the earlier request that makes the
// resource or posting for the command's first number. The four make the concept Dogs, put it below
// Mammals, post a record to it, and withdraw that posting.
fn command_at(alloc: Global, place: usize) -> Result<(Command, Option<u32>), ReadStop> {
    let (any, mammals) = (ResNo::new(1), ResNo::new(3));
    match place {
        1 => Ok((concept(alloc, "Dogs")?, None)),
        2 => Ok((Command::Link(LinkKind::Broader, any, mammals), Some(1))),
        3 => Ok((post(alloc, "k2", "r2", any)?, Some(1))),
        _ => Ok((Command::Withdraw(PostNo::new(1)), Some(3))),
    }
}

// Returns the request at a place of the plan.
fn request_at(alloc: Global, place: usize) -> Result<PlanRequest, ReadStop> {
    let (command, first) = command_at(alloc, place)?;
    Ok(PlanRequest {
        command,
        first,
        second: None,
        postings: Vec::new(alloc),
    })
}

// Appends a request to a plan.
fn push_request(plan: &mut Vec<PlanRequest>, request: PlanRequest) -> Result<(), AllocError> {
    plan.push(request)?;
    Ok(())
}

// Returns the plan of the four requests.
fn plan(alloc: Global) -> Result<Vec<PlanRequest>, Failure> {
    let mut plan = Vec::new(alloc);
    for place in 1..5 {
        let request = request_at(alloc, place)?;
        push_request(&mut plan, request)?;
    }
    Ok(plan)
}

// Checks whether a list is short enough for a plan, and each reference in it leads to an earlier
// request that makes what is referred to.
fn is_plan(plan: &[PlanRequest]) -> bool {
    plan.len() <= REQUEST_LIMIT && first_bad_reference(plan).is_none()
}

// Reads a line of JSON, and returns in words that it is a plan, or why it isn't.
fn plan_name(memory: &mut JsonScratch, line: &str) -> &'static str {
    match read_plan(memory, line.as_bytes()) {
        Ok(_) => "a plan",
        Err(PlanStop::Bad(PlanFault::Whole(fault))) => fault.name(),
        Err(PlanStop::Bad(PlanFault::Request(_, fault))) => fault.name(),
        Err(PlanStop::Bad(PlanFault::Reference(_))) => "a reference to nothing",
        Err(PlanStop::OutOfMemory) => Fault::OutOfMemory.name(),
    }
}

// Appends what `plan_name` returns for a plan, and for a list without requests.
fn write_names(alloc: Global, report: &mut String) -> Result<(), Failure> {
    let mut memory = JsonScratch::new(alloc);
    let name = plan_name(&mut memory, r#"[{"do":"withdraw","posting":1}]"#);
    let other = plan_name(&mut memory, "[]");
    drop(memory);
    Ok(writeln!(report, "{name}, {other}")?)
}

// Performs a plan in an office.
fn apply<K: Keeper>(office: &mut Office<K>, plan: Vec<PlanRequest>) -> Result<PlanOutcome, Fault> {
    office.run_plan(plan)
}

// Appends what became of a plan.
fn write_outcome(outcome: Result<PlanOutcome, Fault>, report: &mut String) -> Result<(), Failure> {
    let outcome = outcome?;
    Ok(writeln!(report, "{outcome:?}")?)
}

// Performs the plan in an office, and appends what became of it.
fn perform<K: Keeper>(
    alloc: Global,
    office: &mut Office<K>,
    report: &mut String,
) -> Result<(), Failure> {
    let plan = plan(alloc)?;
    write_outcome(apply(office, plan), report)
}

/// Performs the first commands and then the plan twice, and appends the answers and both outcomes:
/// the second time the plan is refused, since the name of its concept is taken. Also appends
/// whether the list of its requests is a plan, and what two lines are read as.
pub fn run(alloc: Global, report: &mut String) -> Result<(), Failure> {
    let mut office = open(alloc, keeper_after(alloc, BEFORE, report)?)?;
    writeln!(report, "{}", is_plan(&plan(alloc)?))?;
    perform(alloc, &mut office, report)?;
    perform(alloc, &mut office, report)?;
    write_names(alloc, report)
}
