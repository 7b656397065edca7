//! `Office`: opens over a storage, and performs requests, singly and as lists.
ghost use Rattle.std.specs.Prelude.{◌≡◌, ◌⊎◌, ◌∷◌, [], false, IfOk, List, length, ℕ, MatchResult};
ghost use Rattle.thes_base.specs.Headline.{IsConsistentState};
ghost use Rattle.thes_base.specs.State.{State};
ghost use Rattle.thes_office.specs.Office.{FaultBehaviour, OfficeQueryFrame, PerformResult, RunResult};
ghost use Rattle.thes_office.specs.FoundStates.{FindsLegalState, IsFaultOfFound};
ghost use Rattle.thes_office.specs.Groups.{GroupResult, IsGroup};
ghost use Rattle.thes_office.specs.Opening.{IsOpened, IsUnopened};
ghost use Rattle.thes_office.specs.QueryFrames.{FactsInTables};
ghost use Rattle.thes_office.specs.Reports.{ReportResult};
ghost use Rattle.thes_plans.specs.Reports.{IsReported};
ghost use Rattle.thes_office.specs.TablesOfState.{TablesOfState};

use crate::commit::report_changes;
use crate::facts::facts_of;
use crate::group::{group_length, perform_group};
use crate::keeper_load::load;
use std::alloc::Global;
use std::marker::Model;
use thes_base::data::Limits;
use thes_base::fault::Fault;
use thes_base::request::{Answer, Command};
use thes_core::{Core, Facts, Verdict};
use thes_plans::report::{ChangeReport, NoReport};
use thes_store::keeper::Keeper;

/// The storage of the tables, with a copy of their vocabulary, links and counts in memory.
#[derive(Drop)]
pub struct Office<K: Keeper> {
    pub(crate) alloc: Global,
    pub(crate) keeper: K,
    pub(crate) core: Core,
    pub(crate) limits: Limits,
    pub(crate) stale: bool,
}

impl<K: Keeper> Model for Office<K> {
    ghost use Rattle.std.specs.Coded.{codes};
    ghost use Rattle.thes_office.specs.Office.{OfficeView, IsConsistent};

    ghost Value = { OfficeView K };

    ghost coded = { Prim.hlevel (codes, K.code) };

    ghost view = { λ a. record { keeper = a.keeper; limits = a.limits; stale = a.stale } };

    ghost invariant = { λ a.
        IsConsistent K.view a.keeper a.core a.limits a.stale };
}

impl<K: Keeper> Office<K> {
    ghost use Rattle.thes_office.specs.contracts.office.Office.{the_row};
    ghost use Rattle.std.specs.Borrow.{sem};
    ghost use Rattle.std.specs.Io.BufRead.{Rests};
    ghost use Rattle.thes_office.specs.Office.{ReadyResult};

    /// Loads the tables of a storage and opens an office over it. A fault is returned with the
    /// storage: OutOfMemory, Store, or what is wrong with the rows.
    pub fn start(alloc: Global, mut keeper: K, limits: Limits) -> Result<Office<K>, (Fault, K)>
        ensures opened { MatchResult result (IsOpened K.view limits keeper)
            (λ e. IsUnopened K.view keeper e.0 e.1) }
        ensures found { MatchResult result
            (λ o. K.is_open o.keeper → FindsLegalState (K.finds keeper))
            (λ e. K.is_open e.1 → IsFaultOfFound (K.finds keeper) e.0) }
    {
        match load(alloc, &mut keeper, limits) {
            Ok(core) => Ok(Office {
                alloc,
                keeper,
                core,
                limits,
                stale: false,
            }),
            Err(fault) => Err((fault, keeper)),
        }
    }

    /// Returns whether the copy may differ from the tables, so that the next call reloads it. While
    /// the storage is up, the tables are consistent either way.
    pub fn is_stale(&self) -> bool
        ensures value { result ≡ self.now.stale }
        ensures shows { (K.view self.now.keeper).is_up
            → (base : List ℕ) × (s : State) × TablesOfState (K.view self.now.keeper).rows base s
            × IsConsistentState base s }
    {
        self.stale
    }

    /// Returns the storage, and drops the copy.
    pub fn into_keeper(self) -> K
        ensures { result ≡ self.keeper }
    {
        let Office {
            alloc: _,
            keeper,
            core: _,
            limits: _,
            stale: _,
        } = self;
        keeper
    }

    // Reloads the copy from the tables if it is stale; after a fault it is still stale.
    pub(crate) fn refresh(&mut self) -> Result<(), Fault>
        ensures { OfficeQueryFrame K.view self.old self.new result }
    {
        if !self.stale {
            return Ok(());
        }
        match load(self.alloc, &mut self.keeper, self.limits) {
            Ok(core) => self.core = core,
            Err(fault) => return Err(fault),
        }
        self.stale = false;
        Ok(())
    }

    // Reloads the copy if it is stale, and queries the storage for the facts about postings that
    // the check of a request needs. A `Store` fault makes the copy stale.
    fn gather_facts(&mut self, command: &Command) -> Result<Facts, Fault>
        ensures frame { OfficeQueryFrame K.view self.old self.new result }
        ensures in_tables { IfOk result (λ facts. (K.view self.new.keeper).is_up
            → FactsInTables (K.view self.new.keeper).rows command.now facts) }
    {
        self.refresh()?;
        match facts_of(self.alloc, &mut self.keeper, command) {
            Ok(facts) => Ok(facts),
            Err(fault) => {
                self.stale = fault == Fault::Store;
                Err(fault)
            }
        }
    }

    /// Performs a request and returns its answer: a refusal if the request breaks a rule. On a
    /// fault the tables are unchanged, if the storage is still up. If memory runs out after the
    /// commit, the answer is returned, and the copy is stale.
    pub fn perform(&mut self, command: &Command) -> Result<Answer, Fault>
        ensures fault_behaviour { FaultBehaviour K.view self.old self.new result }
        ensures performed { PerformResult K.view self.old command.now result self.new }
    {
        self.report(command, &mut NoReport)
    }

    /// Performs a request, as `perform` does, and reports its changes of rows, in the order in
    /// which they are made, before they are committed; so memory for the report never runs out
    /// after the commit. If it runs out before, nothing is changed.
    pub fn report<R: ChangeReport>(
        &mut self,
        command: &Command,
        report: &mut R,
    ) -> Result<Answer, Fault>
        ensures fault_behaviour { FaultBehaviour K.view self.old self.new result }
        ensures reported { IsReported R.adds report.old result report.new
            (λ changes. ReportResult K.view self.old command.now result changes self.new) }
    {
        let facts = self.gather_facts(command)?;
        match self.core.decide(command, &facts)? {
            Verdict::Settled(answer) => Ok(answer),
            Verdict::Accepted(answer, delta) => {
                report_changes(report, &delta)?;
                if let Err(fault) = self.keeper.commit(delta) {
                    self.stale = fault == Fault::Store;
                    return Err(fault);
                }
                // No effect; states the forms of the command's texts for the proof.
                command.learn_forms();
                // The request is committed, so a failure of `apply` is no fault.
                let _ = self.core.apply(command, &facts);
                self.stale = self.core.is_spent();
                Ok(answer)
            }
        }
    }

    // Performs one request, and appends its answer.
    #[tactic(auto, using(crate::proofs::OfficeViewLemmas::one_completes))]
    fn run_one(&mut self, command: &Command, answers: &mut Vec<Answer>) -> Result<(), Fault>
        ensures fault_behaviour { FaultBehaviour K.view self.old self.new result }
        ensures ran { GroupResult K.view self.old (command.now ∷ [])
            answers.old.items answers.new.items result self.new }
    {
        if answers.try_reserve(1).is_err() {
            return Err(Fault::OutOfMemory);
        }
        match self.perform(command) {
            Ok(answer) => answers.push(answer).unwrap(),
            Err(fault) => return Err(fault),
        }
        Ok(())
    }

    // Performs the requests of a group in one transaction, with a copy that isn't stale, and
    // appends their answers. A fault makes the copy stale, unless no memory could be reserved for
    // the answers.
    fn run_group(&mut self, group: &[Command], answers: &mut Vec<Answer>) -> Result<(), Fault>
        requires fresh { self.old.stale ≡ false }
        requires group { IsGroup group.now }
        ensures fault_behaviour { FaultBehaviour K.view self.old self.new result }
        ensures ran { GroupResult K.view self.old group.now
            answers.old.items answers.new.items result self.new }
    {
        if answers.try_reserve(group.len()).is_err() {
            return Err(Fault::OutOfMemory);
        }
        match perform_group(self.alloc, &mut self.keeper, &mut self.core, group) {
            Ok(mut given) => {
                answers.append(&mut given).unwrap();
                Ok(())
            }
            Err(fault) => {
                self.stale = true;
                Err(fault)
            }
        }
    }

    // Performs a single request, or the requests of a group in one transaction, and appends their
    // answers.
    #[tactic(auto, using(crate::proofs::GroupLemmas::group_after_reload))]
    fn run_prefix(&mut self, prefix: &[Command], answers: &mut Vec<Answer>) -> Result<(), Fault>
        requires { IsGroup prefix.now ⊎ (length prefix.now ≡ 1) }
        ensures fault_behaviour { FaultBehaviour K.view self.old self.new result }
        ensures ran { GroupResult K.view self.old prefix.now
            answers.old.items answers.new.items result self.new }
    {
        if prefix.len() == 1 {
            return self.run_one(&prefix[0], answers);
        }
        self.refresh()?;
        self.run_group(prefix, answers)
    }

    /// Performs requests in order, and appends their answers. Up to 128 posts in a row with
    /// different keys are performed in one transaction: all or none. A fault stops the run; the
    /// requests answered before it stay performed. If the storage is still up, the tables after the
    /// run are consistent. Each posting accepted and not withdrawn is assigned to exactly one live
    /// concept, to which its moves lead from its first concept. The counts of live concepts add up
    /// to the number of such postings. The triples meet the conditions of SKOS.
    pub fn run(&mut self, commands: &[Command], answers: &mut Vec<Answer>) -> Result<(), Fault>
        ensures fault_behaviour { FaultBehaviour K.view self.old self.new result }
        ensures ran { RunResult K.view self.old commands.now
            answers.old.items answers.new.items result self.new }
    {
        // No effect; states the invariant of the office for the proof.
        let _stale = self.stale;
        let mut rest = commands;
        'groups: while !rest.is_empty() {
            let (prefix, later) = rest.split_at(group_length(rest));
            match self.run_prefix(prefix, answers) {
                Ok(()) => {}
                Err(fault) => return Err(fault),
            }
            rest = later;
        }
        Ok(())
    }

    /// Returns the copy of the tables, reloaded first if it was stale. While the copy is in use,
    /// the office can't be called; the contract states what holds of the office afterwards.
    pub fn ready(&mut self) -> Result<&Core, Fault>
        ensures* after { sem 𝓛 (Rests (the_row K.row K.Keeper) self.entry
            (λ office. ReadyResult K.view self.old result office)) }
    {
        self.refresh()?;
        Ok(&self.core)
    }
}
