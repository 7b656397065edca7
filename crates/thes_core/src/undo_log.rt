//! Takes back requests that were applied to a core.
ghost use Rattle.std.specs.Prelude.{◌≡◌, ◌⊎◌, [], false, true, IfErr, IfOk, OnErr, OnOk};
ghost use Rattle.thes_base.specs.Machine.{next_state};
ghost use Rattle.thes_base.specs.State.{State};
ghost use Rattle.thes_core.specs.CoreDecisions.{IsAccepted, MayApply};
ghost use Rattle.thes_core.specs.CoreView.{IsViewOf, with_histories, without_postings};
ghost use Rattle.thes_core.specs.Facts.{AreFacts};
ghost use Rattle.thes_core.specs.Losses.{IsLostFromParts, IsLostFromPostings};
ghost use Rattle.thes_core.specs.UndoLogs.{IsLogOf, IsTakenBack, LeadsWithoutPostings};
ghost use Rattle.thes_core.specs.UndoLogs.{IsUndoStep, StepsLead};

use crate::facts::Facts;
use crate::losses::Lost;
use crate::machine::Core;
use std::alloc::Global;
use std::marker::Model;
use thes_base::fault::Fault;
use thes_base::request::Command;

/// A request that was applied to a core, with what it removed or added without naming it in its
/// arguments.
#[derive(Debug, Drop)]
pub struct UndoStep {
    pub(crate) command: Command,
    pub(crate) lost: Lost,
}

/// The requests that were applied to a core one after another, so that they can be taken back.
#[derive(Debug, Drop)]
pub struct UndoLog {
    steps: Vec<UndoStep>,
}

impl Model for UndoLog {
    ghost use Rattle.std.specs.Prelude.{List};
    ghost use Rattle.thes_core.specs.declared.undo_log.UndoStep.{UndoStep};

    ghost Value = { List UndoStep };

    ghost view = { λ a. a.steps.items };
}

impl UndoLog {
    /// Creates an empty log without allocating.
    pub fn new(alloc: Global) -> UndoLog
        ensures { result ≡ [] }
    {
        UndoLog {
            steps: Vec::new(alloc),
        }
    }
}

impl Core {
    // Returns what an accepted request removes from the state, or adds to it, without naming it in
    // its arguments.
    fn lost_by_request(&self, command: &Command, facts: &Facts) -> Result<Lost, Fault>
        requires unspent { self.now.spent ≡ false }
        requires may { MayApply self.now command.now }
        ensures parts { IfOk result (IsLostFromParts command.now (with_histories [] self.now)) }
        ensures postings { IfOk result (λ lost. (s : State)
            → IsAccepted self.now.setting s command.now
            → AreFacts command.now s.histories facts.now
            → IsLostFromPostings command.now s lost) }
        ensures err { IfErr result (λ fault. fault ≡ Fault.OutOfMemory) }
    {
        Ok(self.thesaurus.lost_by(command, facts)?)
    }

    /// Applies an accepted request, and appends it to a log. If memory runs out, the core is
    /// unchanged or unusable (`is_spent`).
    pub fn apply_logged(
        &mut self,
        command: Command,
        facts: &Facts,
        log: &mut UndoLog,
    ) -> Result<(), Fault>
        requires unspent { self.old.spent ≡ false }
        requires may { MayApply self.old command }
        ensures made { (s : State) → IsViewOf self.old s → AreFacts command s.histories facts.now
            → IsAccepted self.old.setting s command
            → OnOk result (IsViewOf self.new (next_state command s)) }
        ensures usable { OnOk result ((self.new.spent ≡ false)
            × (self.new.setting ≡ self.old.setting)) }
        ensures err { IfErr result (λ fault. fault ≡ Fault.OutOfMemory) }
        ensures failed { OnErr result ((self.new ≡ self.old) ⊎ (self.new.spent ≡ true)) }
        ensures logs { OnOk result (IsLogOf log.old self.old → IsLogOf log.new self.new) }
        ensures steps { (first s : State) → IsViewOf self.old s
            → AreFacts command s.histories facts.now → IsAccepted self.old.setting s command
            → StepsLead (IsUndoStep self.old.setting) first log.old s
            → OnOk result (StepsLead (IsUndoStep self.old.setting) first log.new
            (next_state command s)) }
    {
        let lost = self.lost_by_request(&command, facts)?;
        self.apply(&command, facts)?;
        match log.steps.push(UndoStep { command, lost }) {
            Ok(()) => {}
            Err(_) => {
                self.spent = true;
                return Err(Fault::OutOfMemory);
            }
        }
        Ok(())
    }

    // Takes back the request that was applied last. If memory runs out, the core is unusable.
    fn take_back_step(&mut self, step: &UndoStep)
        requires unspent { self.old.spent ≡ false }
        requires applied { (s : State) × LeadsWithoutPostings self.old.setting s step.now
            (with_histories [] self.old) }
        ensures setting { self.new.spent ≡ false → self.new.setting ≡ self.old.setting }
        ensures parts { self.new.spent ≡ false → (s : State)
            → LeadsWithoutPostings self.old.setting s step.now
            (with_histories [] self.old) → with_histories [] self.new ≡ without_postings s }
        ensures view { self.new.spent ≡ false → (s t : State)
            → IsUndoStep self.old.setting s step.now t → IsViewOf self.old t
            → IsViewOf self.new s }
    {
        self.spent = true;
        if let Ok(()) = self.thesaurus.take_back(&step.command, &step.lost) {
            self.spent = false;
        }
    }

    /// Takes back the requests of a log, the last one first, so that the core has the state before
    /// them again. If memory runs out, the core is unusable (`is_spent`).
    pub fn take_back(&mut self, log: &UndoLog)
        requires unspent { self.old.spent ≡ false }
        requires logged { IsLogOf log.now self.old }
        ensures { self.new.spent ≡ false → IsTakenBack log.now self.old self.new }
    {
        let steps = log.steps.as_slice();
        let mut left = steps.len();
        'undoing: while left > 0 {
            if self.spent {
                return;
            }
            left -= 1;
            self.take_back_step(&steps[left]);
        }
    }
}
