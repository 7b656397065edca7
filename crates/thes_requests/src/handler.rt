//! The trait of an object that performs commands and plans, and answers queries.
ghost use Rattle.std.specs.Prelude.{◌≡◌, true, Bool, IfOk};
ghost use Rattle.thes_plans.specs.Plans.{HasEachAnswer};
ghost use Rattle.thes_plans.specs.Reports.{IsReported};
ghost use Rattle.thes_requests.specs.RequestBehaviour.{RequestBehaviour};

use crate::page::Page;
use crate::request::Query;
use std::alloc::Global;
use thes_base::fault::{Fault, Refusal};
use thes_base::request::{Answer, Command};
use thes_plans::plan::{PlanOutcome, PlanRequest, PlanRun};
use thes_plans::report::ChangeReport;

/// The answer to a request for a view or a display: its text, or the refusal of the number in the
/// request.
#[derive(Drop)]
pub enum QueryAnswer {
    Page(Page),
    No(Refusal),
}

/// A handler of requests: it performs commands and plans, and answers queries, over a state in
/// memory or over shared storage.
pub trait RequestHandler {
    // The effect and the result of each call. (This is a trait so that proofs about scripts and
    // connections don't depend on the office: DECISIONS.md, The office.)
    ghost requests: { RequestBehaviour Self };

    ghost is_open: { Self → Bool };

    /// Performs a command, and returns its answer, which may be a refusal.
    fn perform(&mut self, command: &Command) -> Result<Answer, Fault>
        requires { is_open self.old ≡ true }
        ensures { requests.performs self.old command.now result self.new };

    /// Performs a command, and returns its answer. Its changes of rows are added to the report
    /// before they are made.
    fn report<R: ChangeReport>(
        &mut self,
        command: &Command,
        report: &mut R,
    ) -> Result<Answer, Fault>
        requires { is_open self.old ≡ true }
        ensures { IsReported R.adds report.old result report.new
            (λ changes. requests.reports self.old command.now result changes self.new) };

    /// Answers a query with the line of a view, or with a refusal.
    fn show(&mut self, alloc: Global, query: &Query) -> Result<QueryAnswer, Fault>
        requires { is_open self.old ≡ true }
        ensures { requests.shows self.old query.now result self.new };

    /// Performs a plan, and returns its outcome: the answers to all its requests, or the refusal of
    /// the first that is refused.
    fn perform_plan(&mut self, plan: Vec<PlanRequest>) -> Result<PlanOutcome, Fault>
        requires { is_open self.old ≡ true }
        ensures performs { requests.performs_plan self.old plan.items result self.new }
        ensures each { IfOk result (λ outcome. HasEachAnswer plan.items outcome) };

    /// Performs or only tries a plan, and returns its outcome. Its changes of rows are added to the
    /// report before they are made; those of a plan that is tried aren't made.
    fn report_plan<R: ChangeReport>(
        &mut self,
        run: PlanRun,
        plan: Vec<PlanRequest>,
        report: &mut R,
    ) -> Result<PlanOutcome, Fault>
        requires { is_open self.old ≡ true }
        ensures reported { IsReported R.adds report.old result report.new
            (λ changes. requests.reports_plan self.old run plan.items result changes self.new) }
        ensures each { IfOk result (λ outcome. HasEachAnswer plan.items outcome) };

    /// Returns whether the handler accepts plans from scripts and connections.
    fn takes_plans(&self) -> bool
        ensures { result ≡ requests.takes_plans self.now };

    /// Returns whether the handler still accepts calls: running out of memory in a call can close
    /// it for good.
    fn is_open(&self) -> bool
        ensures { result ≡ is_open self.now };
}
