//! A storage in memory of which a few calls fail.
ghost use Rattle.std.specs.Prelude.{◌≡◌};
ghost use Rattle.thes_base.specs.declared.fault.Fault.{Fault};
ghost use Rattle.thes_store.specs.Causes.{IsCounted};

use test_keeper::fail_once::Next;
use thes_base::fault::Fault;
use thes_base::number::{PostNo, ResNo};
use thes_base::text::Key;
use thes_store::keeper::{Keeper, Posting};
use thes_store::mem::MemKeeper;
use thes_store::sink::{PostingSink, RowSink};
use thes_tables::delta::Delta;
use thes_tables::rows::PostingRow;

/// A storage in memory of which `before` calls work, the next `times` calls fail, and all others
/// work.
#[derive(Drop)]
pub struct Faltering {
    pub keeper: MemKeeper,
    before: u32,
    times: u32,
    pub failures: u64,
    /// The kind of the first call that failed.
    pub first: Next,
}

impl Faltering {
    /// Returns a storage of these tables of which `before` calls work and the next `times` fail.
    pub fn new(keeper: MemKeeper, before: u32, times: u32) -> Faltering {
        Faltering {
            keeper,
            before,
            times,
            failures: 0,
            first: Next::Nothing,
        }
    }

    // Counts a call of this kind, and returns whether it must fail.
    fn is_due(&mut self, call: Next) -> bool
        ensures same { self.new.keeper ≡ self.old.keeper }
        ensures failures { self.new.failures ≡ self.old.failures }
    {
        if self.before > 0 {
            self.before -= 1;
            return false;
        }
        if self.times == 0 {
            return false;
        }
        self.times -= 1;
        if self.first == Next::Nothing {
            self.first = call;
        }
        true
    }

    // Counts a failure, and returns the fault `Store`.
    fn fail(&mut self) -> Fault
        ensures fault { result ≡ Fault.Store }
        ensures same { self.new.keeper ≡ self.old.keeper }
        ensures counted { IsCounted self.old.failures self.new.failures result }
    {
        self.failures = self.failures.saturating_add(1);
        Fault::Store
    }
}

impl Keeper for Faltering {
    ghost use Rattle.std.specs.Prelude.{◌≡◌};
    ghost use Rattle.thes_tables.specs.Cells.{cells_of_tables};

    ghost view = { λ k.
        record { rows = cells_of_tables k.keeper; is_up = Unit {0}; failures = k.failures } };

    ghost is_open = { λ k. Unit {0} };

    ghost finds = { λ k raw. raw ≡ cells_of_tables k.keeper };

    fn failures(&self) -> u64 {
        self.failures
    }

    fn load<S: RowSink>(&mut self, sink: &mut S) -> Result<(), Fault> {
        if self.is_due(Next::Load) {
            return Err(self.fail());
        }
        self.keeper.load(sink)
    }

    fn commit(&mut self, delta: Delta) -> Result<(), Fault> {
        if self.is_due(Next::Commit) {
            return Err(self.fail());
        }
        self.keeper.commit(delta)
    }

    fn find(&mut self, key: &Key) -> Result<Option<PostingRow>, Fault> {
        if self.is_due(Next::Find) {
            return Err(self.fail());
        }
        self.keeper.find(key)
    }

    fn posting(&mut self, number: PostNo) -> Result<Option<Posting>, Fault> {
        if self.is_due(Next::Posting) {
            return Err(self.fail());
        }
        self.keeper.posting(number)
    }

    fn row(&mut self, number: PostNo) -> Result<Option<PostingRow>, Fault> {
        if self.is_due(Next::Row) {
            return Err(self.fail());
        }
        self.keeper.row(number)
    }

    fn standing<S: PostingSink>(&mut self, concept: ResNo, sink: &mut S) -> Result<(), Fault> {
        if self.is_due(Next::Standing) {
            return Err(self.fail());
        }
        self.keeper.standing(concept, sink)
    }

    fn standing_numbers(&mut self, concept: ResNo) -> Result<Vec<PostNo>, Fault> {
        if self.is_due(Next::StandingNumbers) {
            return Err(self.fail());
        }
        self.keeper.standing_numbers(concept)
    }
}
