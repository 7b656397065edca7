//! The commit of what a group or a plan has decided: its answers and changes of rows (`Decided`).
ghost use Rattle.std.specs.Prelude.{◌≡◌, ◌++◌, ◌∷◌, [], OnOk, OnErr, IfErr};
ghost use Rattle.thes_store.specs.Storage.{CommitFrame, DeltaFitsStorage, RawAfterChanges};

use std::alloc::AllocError;
use thes_base::fault::Fault;
use thes_base::request::Answer;
use thes_plans::report::ChangeReport;
use thes_store::keeper::Keeper;
use thes_tables::delta::Delta;

/// The answers to the requests of a group or a plan that are decided so far, and their changes of
/// rows.
#[derive(Drop)]
pub struct Decided {
    pub answers: Vec<Answer>,
    pub delta: Delta,
}

impl Decided {
    /// Appends the answer to one more request and the changes of rows that the request makes.
    pub fn append(&mut self, answer: Answer, delta: Delta) -> Result<(), AllocError>
        ensures answers { OnOk result
            (self.new.answers.items ≡ self.old.answers.items ++ answer ∷ []) }
        ensures changes { OnOk result (self.new.delta ≡ self.old.delta ++ delta) }
    {
        append_changes(&mut self.delta, delta)?;
        self.answers.push(answer)?;
        Ok(())
    }
}

// Appends the changes of rows of one more request to those of the requests before it.
#[tactic(auto, using(std::proofs::Common::append_assoc))]
fn append_changes(delta: &mut Delta, more: Delta) -> Result<(), AllocError>
    ensures { OnOk result (delta.new ≡ delta.old ++ more) }
{
    for change in more.into_changes() {
        delta.push(change)?;
    }
    Ok(())
}

/// Adds changes of rows to a report; if memory runs out, the report is unchanged.
pub fn report_changes<R: ChangeReport>(report: &mut R, delta: &Delta) -> Result<(), Fault>
    ensures ok { OnOk result (R.adds report.old delta.now report.new) }
    ensures err { OnErr result (report.new ≡ report.old) }
    ensures fault { IfErr result (λ fault. fault ≡ Fault.OutOfMemory) }
{
    report.add(delta.as_slice())?;
    Ok(())
}

/// Commits changes of rows to the storage in one transaction, if there are any.
pub fn commit_changes<K: Keeper>(keeper: &mut K, delta: Delta) -> Result<(), Fault>
    requires { DeltaFitsStorage delta (K.view keeper.old) }
    ensures ok { OnOk result ((K.view keeper.new).is_up
        → RawAfterChanges delta (K.view keeper.old).rows (K.view keeper.new).rows) }
    ensures keeps { CommitFrame (K.view keeper.old) (K.view keeper.new) result }
{
    // Requests that change nothing need no commit (DECISIONS.md, The office).
    if delta.as_slice().is_empty() {
        return Ok(());
    }
    keeper.commit(delta)
}
