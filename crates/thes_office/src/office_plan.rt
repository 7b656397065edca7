//! `Office::run_plan` and `Office::report_plan`, which perform plans or try them, and answer them.
ghost use Rattle.std.specs.Prelude.{IfOk};
ghost use Rattle.thes_plans.specs.Plans.{HasEachAnswer};
ghost use Rattle.thes_plans.specs.Reports.{IsReported};
ghost use Rattle.thes_office.specs.Office.{FaultBehaviour};
ghost use Rattle.thes_office.specs.Plans.{RunPlanResult};
ghost use Rattle.thes_office.specs.Reports.{ReportPlanResult};

use crate::office::Office;
use crate::plan::{AskedPlan, perform_plan};
use thes_base::fault::Fault;
use thes_plans::plan::{PlanOutcome, PlanRequest, PlanRun};
use thes_plans::report::{ChangeReport, NoReport};
use thes_store::keeper::Keeper;

impl<K: Keeper> Office<K> {
    /// Performs the requests of a plan in order, with each reference replaced by the number that an
    /// earlier request made. If each is accepted or repeats a known key, all changes are committed
    /// in one transaction; else the outcome is the first refusal, and nothing is changed. On a
    /// fault the tables are unchanged, if the storage is still up. Any list may be a plan; where a
    /// reference leads to no number, the command's own number stays.
    pub fn run_plan(&mut self, plan: Vec<PlanRequest>) -> Result<PlanOutcome, Fault>
        ensures fault_behaviour { FaultBehaviour K.view self.old self.new result }
        ensures performed { RunPlanResult K.view self.old plan.items result self.new }
        ensures each { IfOk result (λ outcome. HasEachAnswer plan.items outcome) }
    {
        self.report_plan(PlanRun::Perform, plan, &mut NoReport)
    }

    /// Performs a plan, as `run_plan` does, or only tries it: then its outcome and its changes are
    /// those that it would have, and the tables are unchanged. The changes of rows, in the order in
    /// which they are made, are reported before they are committed, so that memory for the report
    /// never runs out after a commit; if it runs out before, nothing is changed.
    pub fn report_plan<R: ChangeReport>(
        &mut self,
        run: PlanRun,
        plan: Vec<PlanRequest>,
        report: &mut R,
    ) -> Result<PlanOutcome, Fault>
        ensures fault_behaviour { FaultBehaviour K.view self.old self.new result }
        ensures reported { IsReported R.adds report.old result report.new
            (λ changes. ReportPlanResult K.view self.old run plan.items result changes self.new) }
        ensures each { IfOk result (λ outcome. HasEachAnswer plan.items outcome) }
    {
        self.refresh()?;
        let asked = AskedPlan {
            run,
            requests: plan,
        };
        match perform_plan(self.alloc, &mut self.keeper, &mut self.core, asked, report) {
            Ok(outcome) => {
                self.stale = self.core.is_spent();
                Ok(outcome)
            }
            Err(fault) => {
                self.stale = true;
                Err(fault)
            }
        }
    }
}
