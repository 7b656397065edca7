//! A storage of which one call fails.
ghost use Rattle.std.specs.Prelude.{◌≡◌};
ghost use Rattle.thes_base.specs.declared.fault.Fault.{Fault};
ghost use Rattle.thes_store.specs.Causes.{IsCounted};
ghost use Rattle.test_keeper.specs.declared.fail_once.Next.{Next};

use thes_base::fault::Fault;
use thes_base::number::{PostNo, ResNo};
use thes_base::text::Key;
use thes_store::keeper::{Keeper, Posting};
use thes_store::mem::MemKeeper;
use thes_store::sink::{PostingSink, RowSink};
use thes_tables::delta::Delta;
use thes_tables::rows::PostingRow;

/// The kind of call that fails next, with the fault `Store`.
#[derive(Clone, Copy, Debug, PartialEq, Eq)]
pub enum Next {
    /// No call fails from now on.
    Nothing,
    /// The next `load` fails.
    Load,
    /// The next `commit` fails.
    Commit,
    /// The next `find` fails.
    Find,
    /// The next `posting` fails.
    Posting,
    /// The next `row` fails.
    Row,
    /// The next `standing` fails.
    Standing,
    /// The next `standing_numbers` fails.
    StandingNumbers,
}

/// Storage in memory that fails the next call of the kind `next`, and no call after it.
#[derive(Drop)]
pub struct FailOnce {
    pub keeper: MemKeeper,
    pub next: Next,
    pub failures: u64,
}

impl FailOnce {
    // Returns the fault `Store`, counts the failure, and lets no later call fail.
    fn fail(&mut self) -> Fault
        ensures fault { result ≡ Fault.Store }
        ensures same { self.new.keeper ≡ self.old.keeper }
        ensures once { self.new.next ≡ Next.Nothing }
        ensures counted { IsCounted self.old.failures self.new.failures result }
    {
        self.next = Next::Nothing;
        self.failures = self.failures.saturating_add(1);
        Fault::Store
    }
}

impl Keeper for FailOnce {
    ghost use Rattle.std.specs.Prelude.{◌≡◌};
    ghost use Rattle.thes_tables.specs.Cells.{cells_of_tables};

    ghost view = { λ k.
        record { rows = cells_of_tables k.keeper; is_up = Unit {0}; failures = k.failures } };

    ghost is_open = { λ k. Unit {0} };

    ghost finds = { λ k raw. raw ≡ cells_of_tables k.keeper };

    fn failures(&self) -> u64 {
        self.failures
    }

    #[tactic(auto, using(thes_store::proofs::FoundLemmas::passes_known))]
    fn load<S: RowSink>(&mut self, sink: &mut S) -> Result<(), Fault> {
        if self.next == Next::Load {
            return Err(self.fail());
        }
        self.keeper.load(sink)
    }

    fn commit(&mut self, delta: Delta) -> Result<(), Fault> {
        if self.next == Next::Commit {
            return Err(self.fail());
        }
        self.keeper.commit(delta)
    }

    fn find(&mut self, key: &Key) -> Result<Option<PostingRow>, Fault> {
        if self.next == Next::Find {
            return Err(self.fail());
        }
        self.keeper.find(key)
    }

    fn posting(&mut self, number: PostNo) -> Result<Option<Posting>, Fault> {
        if self.next == Next::Posting {
            return Err(self.fail());
        }
        self.keeper.posting(number)
    }

    fn row(&mut self, number: PostNo) -> Result<Option<PostingRow>, Fault> {
        if self.next == Next::Row {
            return Err(self.fail());
        }
        self.keeper.row(number)
    }

    fn standing<S: PostingSink>(&mut self, concept: ResNo, sink: &mut S) -> Result<(), Fault> {
        if self.next == Next::Standing {
            return Err(self.fail());
        }
        self.keeper.standing(concept, sink)
    }

    fn standing_numbers(&mut self, concept: ResNo) -> Result<Vec<PostNo>, Fault> {
        if self.next == Next::StandingNumbers {
            return Err(self.fail());
        }
        self.keeper.standing_numbers(concept)
    }
}
