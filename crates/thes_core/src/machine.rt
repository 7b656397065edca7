//! The machine: the answer to each request and the state after it, with counts in place of the
//! histories of postings.
ghost use Rattle.std.specs.Prelude.{◌≡◌, false, [], IfOk, OnOk};
ghost use Rattle.thes_base.specs.State.{State, empty_state};
ghost use Rattle.thes_base.specs.Headline.{IsConsistentState};
ghost use Rattle.thes_base.specs.Machine.{next_state};
ghost use Rattle.thes_core.specs.Facts.{AreFacts};
ghost use Rattle.thes_core.specs.CoreView.{IsUsableWith, IsViewOf, with_histories};
ghost use Rattle.thes_core.specs.CoreDecisions.{IsAccepted, IsAppliedWithoutPostings, DecideResult, MayApply, ApplyFrame, CoreStepResult, VerdictMayApply};

use crate::facts::Facts;
use crate::thesaurus::Thesaurus;
use crate::verdict::Verdict;
use std::alloc::Global;
use std::marker::Model;
use thes_base::data::Limits;
use thes_base::fault::Fault;
use thes_base::request::{Answer, Command};
use thes_base::text::Base;
use thes_graph::graph::Graph;
use thes_post::book::Book;
use thes_vocab::Vocab;

/// The state of a thesaurus, with the counts of its postings in place of their histories.
#[derive(Drop)]
pub struct Core {
    pub(crate) thesaurus: Thesaurus,
    // Whether the core is unusable: running out of memory has left the parts inconsistent, or
    // `mark_spent` was called.
    pub(crate) spent: bool,
}

impl Model for Core {
    ghost use Rattle.std.specs.Prelude.{◌≡◌, false, []};
    ghost use Rattle.std.specs.Coded.{codes};
    ghost use Rattle.std.specs.FinSet as set;
    ghost use Rattle.std.specs.FinMap as dict;
    ghost use Rattle.thes_core.specs.CoreView.{CoreView};
    ghost use Rattle.thes_core.specs.PartsView.{parts_view, AreLegal};

    ghost Value = { CoreView };

    ghost coded = { Prim.hlevel (codes, set.code, dict.code) };

    ghost view = { λ a. parts_view a.thesaurus a.spent };

    ghost invariant = { λ a. a.spent ≡ false → AreLegal a.thesaurus [] };
}

impl Core {
    /// Creates a core with the empty state, the base and the limits.
    pub fn new(alloc: Global, base: Base, limits: Limits) -> Core
        ensures holds { IsViewOf result empty_state }
        ensures usable { IsUsableWith base limits result }
    {
        // No effect; states the form of the base for the proof.
        let _ = base.as_str();
        Core {
            thesaurus: Thesaurus {
                alloc,
                vocab: Vocab::new(alloc, base),
                graph: Graph::new(alloc),
                book: Book::new(alloc),
                limits,
            },
            spent: false,
        }
    }

    /// Decides a request without changing anything, and returns its answer and, if it is accepted,
    /// its changes of rows. The verdict is right if the facts are those of the postings.
    pub fn decide(&self, command: &Command, facts: &Facts) -> Result<Verdict, Fault>
        requires { self.now.spent ≡ false }
        ensures decides { DecideResult self.now command.now facts.now result }
        ensures may { IfOk result (VerdictMayApply self.now command.now) }
        ensures in_order { (s : State) → IsViewOf self.now s
            → IsConsistentState self.now.setting.base s }
    {
        if let Some(answer) = facts.known_answer(command) {
            return Ok(Verdict::Settled(answer));
        }
        match self.thesaurus.check_request(command, facts)? {
            Some(refusal) => Ok(Verdict::Settled(Answer::No(refusal))),
            None => Ok(self.thesaurus.accepted(command, facts)?),
        }
    }

    /// Applies an accepted request. If memory runs out, the core is unusable (`is_spent`).
    pub fn apply(&mut self, command: &Command, facts: &Facts) -> Result<(), Fault>
        requires unspent { self.old.spent ≡ false }
        requires may { MayApply self.old command.now }
        ensures made { (s : State) → IsViewOf self.old s
            → AreFacts command.now s.histories facts.now
            → IsAccepted self.old.setting s command.now
            → OnOk result (IsViewOf self.new (next_state command.now s)) }
        ensures frame { ApplyFrame self.old result self.new }
        ensures parts { OnOk result (IsAppliedWithoutPostings self.old.setting
            (with_histories [] self.old) command.now (with_histories [] self.new)) }
    {
        // No effect; states the form of each text for the proof.
        command.learn_forms();
        // The core stays unusable unless the whole change succeeds: half a change can't be undone
        // without memory (DECISIONS.md, The core).
        self.spent = true;
        self.thesaurus.change(command, facts)?;
        self.spent = false;
        Ok(())
    }

    /// Performs a request, and returns its answer. The state after it is consistent: each posting
    /// that isn't withdrawn is assigned to exactly one live concept, the counts add up, and the
    /// triples meet the conditions of SKOS. If memory runs out, the core is unchanged or unusable
    /// (`is_spent`).
    pub fn step(&mut self, command: &Command, facts: &Facts) -> Result<Answer, Fault>
        requires { self.old.spent ≡ false }
        ensures performs { (s : State) → IsViewOf self.old s
            → AreFacts command.now s.histories facts.now
            → CoreStepResult self.old s command.now result self.new }
        ensures in_order { OnOk result ((s : State) → IsViewOf self.new s
            → IsConsistentState self.new.setting.base s) }
    {
        match self.decide(command, facts)? {
            Verdict::Settled(answer) => Ok(answer),
            Verdict::Accepted(answer, _delta) => {
                self.apply(command, facts)?;
                Ok(answer)
            }
        }
    }
}
