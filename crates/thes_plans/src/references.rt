//! Checks of the references in a plan, which need only its requests, and no state.
ghost use Rattle.std.specs.Prelude.{◌≡◌, ◌↔◌, IsTrue};
ghost use Rattle.std.specs.Option.{option_copied};
ghost use Rattle.thes_base.specs.Resources.{entry_at};
ghost use Rattle.thes_plans.specs.References.{FirstBadReference, HasGoodReferences, IsGoodReference};
ghost use Rattle.thes_plans.specs.References.{MakesPosting, MakesResource, MakesFirst};

use crate::plan::PlanRequest;
use thes_base::request::Command;

// Checks whether the request creates a resource, if it is accepted.
fn makes_resource(command: &Command) -> bool
    ensures { IsTrue result ↔ MakesResource command.now }
{
    matches!(
        command,
        Command::Scheme(..)
            | Command::Concept(..)
            | Command::Collection(..)
            | Command::Outside(..)
            | Command::Split(..)
    )
}

// Checks whether the request makes or finds a posting, if it isn't refused.
fn makes_posting(command: &Command) -> bool
    ensures { IsTrue result ↔ MakesPosting command.now }
{
    matches!(command, Command::Post(..))
}

// Returns the request at the place (from 1), if there is one.
fn request_at(plan: &[PlanRequest], place: u32) -> Option<&PlanRequest>
    ensures { option_copied result ≡ entry_at plan.now place }
{
    plan.get((place as usize).checked_sub(1)?)
}

// Returns whether there is no reference, or one to an earlier request that creates a resource.
fn refers_to_resource(earlier: &[PlanRequest], reference: Option<u32>) -> bool
    ensures { IsTrue result ↔ IsGoodReference MakesResource earlier.now reference }
{
    let Some(place) = reference else {
        return true;
    };
    match request_at(earlier, place) {
        Some(made) => makes_resource(&made.command),
        None => false,
    }
}

// Returns whether there is no reference, or one to an earlier request that makes or finds a
// posting.
fn refers_to_posting(earlier: &[PlanRequest], reference: Option<u32>) -> bool
    ensures { IsTrue result ↔ IsGoodReference MakesPosting earlier.now reference }
{
    let Some(place) = reference else {
        return true;
    };
    match request_at(earlier, place) {
        Some(made) => makes_posting(&made.command),
        None => false,
    }
}

// Returns whether the command's first number has no reference, or one to an earlier request that
// creates a resource, or, for a Withdraw, makes or finds a posting.
fn has_good_first(earlier: &[PlanRequest], asked: &PlanRequest) -> bool
    ensures { IsTrue result
        ↔ IsGoodReference (MakesFirst asked.now.command) earlier.now asked.now.first }
{
    match &asked.command {
        Command::Withdraw(_) => refers_to_posting(earlier, asked.first),
        _ => refers_to_resource(earlier, asked.first),
    }
}

// Returns whether each reference of the request is to an earlier request that creates a resource
// or, for the number of a posting, makes or finds a posting.
fn has_good_references(earlier: &[PlanRequest], asked: &PlanRequest) -> bool
    ensures { IsTrue result ↔ HasGoodReferences earlier.now asked.now }
{
    has_good_first(earlier, asked)
        && refers_to_resource(earlier, asked.second)
        && asked
            .postings
            .iter()
            .all(|reference| refers_to_posting(earlier, *reference))
}

/// Returns the place (from 1) of the first request of a plan with a bad reference; `None` if all
/// references are good. A good reference is to an earlier request that creates a resource or, for
/// the number of a posting, makes or finds a posting.
#[tactic(auto, using(crate::proofs::ReferenceLemmas::good_empty))]
pub fn first_bad_reference(plan: &[PlanRequest]) -> Option<usize>
    ensures { FirstBadReference plan.now result }
{
    for index in 0..plan.len() {
        if !has_good_references(&plan[..index], &plan[index]) {
            return Some(index + 1);
        }
    }
    None
}
