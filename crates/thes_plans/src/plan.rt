//! The requests of a plan, whether it is performed or only tried, and its outcome.
use thes_base::fault::Refusal;
use thes_base::request::{Answer, Command};

/// The greatest number of requests in a plan.
pub const REQUEST_LIMIT: usize = 128;

/// A request of a plan: a command, in which numbers may refer to what earlier requests of the plan
/// make.
#[derive(Debug, Drop)]
pub struct PlanRequest {
    /// The command. If one of its numbers has a reference below, that number is replaced when the
    /// plan is performed.
    pub command: Command,
    /// The place (from 1) of the request that makes the resource or posting for the command's first
    /// number; `None` if that number stays.
    pub first: Option<u32>,
    /// The place of the request that makes the resource for the command's second number (Link,
    /// Unlink, Merge); `None` if that number stays.
    pub second: Option<u32>,
    /// For each posting that a Split lists, the place of the request that makes the posting, or
    /// `None` if the listed number stays; empty for any other command.
    pub postings: Vec<Option<u32>>,
}

/// Whether a plan is performed or only tried.
#[derive(Clone, Copy, Debug, PartialEq, Eq)]
pub enum PlanRun {
    /// The plan is performed: its changes are committed if no request is refused.
    Perform,
    /// The plan is tried: its outcome and its changes are those that it would have if it were
    /// performed, and nothing is changed.
    Try,
}

/// The outcome of a plan, which is accepted or refused as a whole.
#[derive(Debug, Drop)]
pub enum PlanOutcome {
    /// All requests are accepted or repeat a known key: the answer to each, in order.
    Done(Vec<Answer>),
    /// The place (from 1) of the first refused request, and its refusal. Nothing is changed.
    Refused(usize, Refusal),
}
