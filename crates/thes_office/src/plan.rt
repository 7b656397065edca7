//! Plans: each request is decided in the state after those before it, and the changes of all are
//! committed in one transaction. A request is moved from its plan into the log, and never copied.
ghost use Rattle.std.specs.Prelude.{◌≡◌, ◌≤◌, ◌++◌, ◌∷◌, [], List, drop, length, false, true, IfOk, IfErr, OnOk, OnErr};
ghost use Rattle.thes_base.specs.declared.request.Answer.{Answer};
ghost use Rattle.thes_plans.specs.Plans.{HasEachAnswer};
ghost use Rattle.thes_plans.specs.Resolving.{resolved_command};
ghost use Rattle.thes_base.specs.State.{State};
ghost use Rattle.thes_core.specs.CoreView.{IsViewOf};
ghost use Rattle.thes_core.specs.Facts.{AreFacts};
ghost use Rattle.thes_core.specs.UndoLogs.{IsLogOf};
ghost use Rattle.thes_plans.specs.Reports.{IsReported};
ghost use Rattle.thes_store.specs.Storage.{CommitFrame, DeltaFitsStorage, QueryFrame};
ghost use Rattle.thes_office.specs.Office.{IsCopy};
ghost use Rattle.thes_office.specs.PlanDecisions.{DecidesRequest, EndsPlan, HasEachDecision, HasLogOf};
ghost use Rattle.thes_office.specs.PlanDecisions.{IsDecidedAndLogged, IsPlanDecision, IsUsableAfter};
ghost use Rattle.thes_office.specs.PlanDecisions.{MayDecidePlan, ReportsPlan, refusal_in};

use crate::commit::{Decided, commit_changes, report_changes};
use crate::plan_facts::facts_in_plan;
use std::alloc::Global;
use thes_base::fault::{Fault, Refusal};
use thes_base::request::{Answer, Command};
use thes_core::{Core, Facts, UndoLog, Verdict};
use thes_plan_postings::plan_postings::PlanPostings;
use thes_plans::plan::{PlanOutcome, PlanRequest, PlanRun};
use thes_plans::report::ChangeReport;
use thes_plans::resolving::resolve;
use thes_store::keeper::Keeper;
use thes_tables::change::Change;
use thes_tables::delta::Delta;

/// The decisions on the requests of a plan so far.
#[derive(Drop)]
pub struct PlanProgress {
    // The answers to these requests, and their changes of rows.
    decided: Decided,
    // The postings that these requests have changed.
    postings: PlanPostings,
    // The requests that the core has applied.
    log: UndoLog,
}

/// A plan, and whether it is performed or only tried.
#[derive(Drop)]
pub struct AskedPlan {
    pub run: PlanRun,
    pub requests: Vec<PlanRequest>,
}

/// The decision on a plan, before anything is committed.
#[derive(Drop)]
pub enum PlanDecision {
    /// The answers to all requests, their changes of rows, and the log by which the core can take
    /// them back.
    Accepted(Vec<Answer>, Delta, UndoLog),
    /// The place of the first refused request, counted from 1, and its refusal.
    Refused(usize, Refusal),
}

// Returns the refusal that is the last answer; None if the last answer isn't a refusal.
fn last_refusal(answers: &[Answer]) -> Option<Refusal>
    ensures { (before : List Answer) (last : Answer) → answers.now ≡ before ++ last ∷ []
        → result ≡ refusal_in last }
{
    match answers.last() {
        Some(Answer::No(refusal)) => Some(*refusal),
        _ => None,
    }
}

// Returns the number of changes of rows that the requests of a plan have made so far.
fn change_count(delta: &Delta) -> usize
    ensures { result ≡ length delta.now }
{
    delta.as_slice().len()
}

// Returns the changes of rows of a plan from an index on.
fn changes_from(delta: &Delta, index: usize) -> &[Change]
    requires { index ≤ length delta.now }
    ensures { result.now ≡ drop index delta.now }
{
    &delta.as_slice()[index..]
}

// Decides one more command of a plan on its facts. If it is accepted, applies it to the core and
// appends it to the log. If memory runs out, the core may be ahead of the tables.
fn decide_and_log(
    core: &mut Core,
    command: Command,
    facts: &Facts,
    progress: &mut PlanProgress,
) -> Result<(), Fault>
    requires { core.old.spent ≡ false }
    ensures decides { OnOk result ((answer : Answer) × (progress.new.decided.answers.items
        ≡ progress.old.decided.answers.items ++ answer ∷ [])
        × ((s : State) → IsViewOf core.old s → AreFacts command s.histories facts.now
        → IsDecidedAndLogged core.old.setting s command answer progress.old progress.new
        core.new)) }
    ensures grows { OnOk result (length progress.old.decided.delta
        ≤ length progress.new.decided.delta) }
    ensures kept { OnOk result (progress.new.postings ≡ progress.old.postings) }
    ensures usable { OnOk result ((core.new.spent ≡ false)
        × (core.new.setting ≡ core.old.setting)) }
    ensures logs { OnOk result (IsLogOf progress.old.log core.old
        → IsLogOf progress.new.log core.new) }
    ensures err { IfErr result (λ fault. fault ≡ Fault.OutOfMemory) }
{
    match core.decide(&command, facts)? {
        Verdict::Settled(answer) => {
            progress.decided.answers.push(answer)?;
            Ok(())
        }
        Verdict::Accepted(answer, delta) => {
            core.apply_logged(command, facts, &mut progress.log)?;
            progress.decided.append(answer, delta)?;
            Ok(())
        }
    }
}

// Decides one more command of a plan in the state after those before it, which the core holds. If
// the command is accepted, applies it to the core and records the postings that it changes. On a
// fault the core may be ahead of the tables.
fn decide_and_record<K: Keeper>(
    alloc: Global,
    keeper: &mut K,
    core: &mut Core,
    command: Command,
    progress: &mut PlanProgress,
) -> Result<(), Fault>
    requires { core.old.spent ≡ false }
    ensures decides { OnOk result ((answer : Answer) × (progress.new.decided.answers.items
        ≡ progress.old.decided.answers.items ++ answer ∷ []) × ((K.view keeper.new).is_up
        → DecidesRequest (K.view keeper.old).rows progress.old progress.new core.old core.new
        command answer)) }
    ensures usable { OnOk result ((core.new.spent ≡ false)
        × (core.new.setting ≡ core.old.setting)) }
    ensures logs { OnOk result (IsLogOf progress.old.log core.old
        → IsLogOf progress.new.log core.new) }
    ensures asks { QueryFrame (K.view keeper.old) (K.view keeper.new) result }
{
    let facts = match facts_in_plan(alloc, keeper, &progress.postings, &command) {
        Ok(facts) => facts,
        Err(fault) => return Err(fault),
    };
    let before = change_count(&progress.decided.delta);
    decide_and_log(core, command, &facts, progress)?;
    let changes = changes_from(&progress.decided.delta, before);
    match progress.postings.record_changes(keeper, changes) {
        Ok(()) => Ok(()),
        Err(fault) => Err(fault),
    }
}

// Decides one more request of a plan, with its references replaced by numbers. If the request is
// accepted, applies it to the core and records the postings that it changes; if it is refused,
// returns the refusal.
fn decide_request<K: Keeper>(
    alloc: Global,
    keeper: &mut K,
    core: &mut Core,
    asked: PlanRequest,
    progress: &mut PlanProgress,
) -> Result<Option<Refusal>, Fault>
    requires { core.old.spent ≡ false }
    ensures decides { IfOk result (λ refusal. (answer : Answer) × (refusal ≡ refusal_in answer)
        × (progress.new.decided.answers.items
        ≡ progress.old.decided.answers.items ++ answer ∷ []) × ((K.view keeper.new).is_up
        → DecidesRequest (K.view keeper.old).rows progress.old progress.new core.old core.new
        (resolved_command progress.old.decided.answers.items asked) answer)) }
    ensures usable { OnOk result ((core.new.spent ≡ false)
        × (core.new.setting ≡ core.old.setting)) }
    ensures logs { OnOk result (IsLogOf progress.old.log core.old
        → IsLogOf progress.new.log core.new) }
    ensures asks { QueryFrame (K.view keeper.old) (K.view keeper.new) result }
{
    let command = resolve(alloc, progress.decided.answers.as_slice(), asked)?;
    match decide_and_record(alloc, keeper, core, command, progress) {
        Ok(()) => Ok(last_refusal(progress.decided.answers.as_slice())),
        Err(fault) => Err(fault),
    }
}

// Decides the requests of a plan in order, and applies them to the core. At the first refusal the
// requests before it are taken back in the core, which is unusable if that fails.
fn decide_plan<K: Keeper>(
    alloc: Global,
    keeper: &mut K,
    core: &mut Core,
    plan: Vec<PlanRequest>,
) -> Result<PlanDecision, Fault>
    requires { MayDecidePlan (K.view keeper.old) core.old }
    ensures decides { IfOk result (λ decision. (K.view keeper.new).is_up
        → IsPlanDecision (K.view keeper.old).rows core.old.setting plan.items decision core.new) }
    ensures each { IfOk result (HasEachDecision plan.items) }
    ensures usable { IfOk result (IsUsableAfter core.old core.new) }
    ensures logs { IfOk result (HasLogOf core.new) }
    ensures asks { QueryFrame (K.view keeper.old) (K.view keeper.new) result }
{
    let answers = Vec::with_capacity(alloc, plan.len())?;
    let mut progress = PlanProgress {
        decided: Decided {
            answers,
            delta: Delta::new(alloc),
        },
        postings: PlanPostings::new(alloc),
        log: UndoLog::new(alloc),
    };
    for asked in plan {
        match decide_request(alloc, keeper, core, asked, &mut progress) {
            Ok(None) => {}
            Ok(Some(refusal)) => {
                let place = progress.decided.answers.len();
                core.take_back(&progress.log);
                return Ok(PlanDecision::Refused(place, refusal));
            }
            Err(fault) => return Err(fault),
        }
    }
    let PlanProgress {
        decided,
        postings: _,
        log,
    } = progress;
    let Decided { answers, delta } = decided;
    Ok(PlanDecision::Accepted(answers, delta, log))
}

// Commits the changes of an accepted plan, or, if the plan is only tried, takes it back in the
// core, which is unusable if that fails.
fn end_plan<K: Keeper>(
    keeper: &mut K,
    core: &mut Core,
    run: PlanRun,
    delta: Delta,
    log: &UndoLog,
) -> Result<(), Fault>
    requires fits { DeltaFitsStorage delta (K.view keeper.old) }
    requires unspent { core.old.spent ≡ false }
    requires logged { IsLogOf log.now core.old }
    ensures ends { OnOk result (EndsPlan run (K.view keeper.old) (K.view keeper.new) delta log.now
        core.old core.new) }
    ensures keeps { CommitFrame (K.view keeper.old) (K.view keeper.new) result }
{
    match run {
        PlanRun::Perform => commit_changes(keeper, delta),
        PlanRun::Try => {
            core.take_back(log);
            Ok(())
        }
    }
}

/// Performs or tries the requests of a plan in order: each is decided in the state that the core
/// holds after those before it. If none is refused, their changes are reported, and then committed
/// in one transaction; if the plan is only tried, the requests are taken back in the core. If one
/// is refused, those before it are taken back. The core is unusable until reloaded if taking back
/// fails, or after a fault. After a refusal, a fault or a try the tables are unchanged, if the
/// storage is still up.
pub fn perform_plan<K: Keeper, R: ChangeReport>(
    alloc: Global,
    keeper: &mut K,
    core: &mut Core,
    asked: AskedPlan,
    report: &mut R,
) -> Result<PlanOutcome, Fault>
    requires { MayDecidePlan (K.view keeper.old) core.old }
    ensures reported { IsReported R.adds report.old result report.new
        (ReportsPlan asked (K.view keeper.old) (K.view keeper.new) core.old.setting.limits result) }
    ensures copies { OnOk result (core.new.spent ≡ false → (K.view keeper.new).is_up
        → IsCopy (K.view keeper.new).rows core.old.setting.limits core.new) }
    ensures each { IfOk result (HasEachAnswer asked.requests.items) }
    ensures spent { OnErr result (core.new.spent ≡ true) }
    ensures keeps { CommitFrame (K.view keeper.old) (K.view keeper.new) result }
{
    let AskedPlan { run, requests } = asked;
    match decide_plan(alloc, keeper, core, requests) {
        Ok(PlanDecision::Accepted(answers, delta, log)) => {
            if let Err(fault) = report_changes(report, &delta) {
                core.mark_spent();
                return Err(fault);
            }
            if let Err(fault) = end_plan(keeper, core, run, delta, &log) {
                core.mark_spent();
                return Err(fault);
            }
            Ok(PlanOutcome::Done(answers))
        }
        Ok(PlanDecision::Refused(place, refusal)) => Ok(PlanOutcome::Refused(place, refusal)),
        Err(fault) => {
            core.mark_spent();
            Err(fault)
        }
    }
}
