//! Storage in a database that is opened again after a failure of its disk has shut it.
ghost use Rattle.std.specs.Prelude.{◌≡◌, false, None, Some, IfSome, OnOk, IsTrue};
ghost use Rattle.sqlite.specs.Held.{state};
ghost use Rattle.thes_store.specs.Storage.{CommitFrame, DeltaFitsStorage, RawAfterChanges};
ghost use Rattle.thes_sqlite.specs.DatabaseFiles.{ServesFiles};
ghost use Rattle.thes_sqlite.specs.KeeperView.{KeeperView};
ghost use Rattle.thes_sqlite.specs.Reopening.{IsKeeperStillUp, rows_still, storage_still};
ghost use Rattle.thes_sqlite.specs.Reopening.{IsLostShut, KeepsStill};
ghost use Rattle.thes_sqlite.specs.Reopening.{LeavesFirst, ReturnsFirst, LosesShut, view_of_connection};
ghost use Rattle.thes_sqlite.specs.Reopening.{StaysUnwritten, EndsCommit, Becomes};
ghost use Rattle.thes_sqlite.specs.Reopening.{MakesAtMost, OnlyReads, connection_of};
ghost use Rattle.thes_sqlite.specs.Reopenings.{next_count};
ghost use Rattle.thes_sqlite.specs.Commits.{MakesAll, MakesNone};

mod open_storage;

use crate::cause::{Cause, FaultCause};
use crate::faults::{count_fault, count_fault_in};
use crate::keeper::SqlKeeper;
use crate::opener::RecordedOpener;
pub use crate::opener::{HeldImage, Reopen};
use crate::progress::Progress;
use sqlite::{Alter, Connection};
use std::alloc::Global;
use std::marker::Model;
use std::snapshot::Snapshot;
use thes_base::fault::Fault;
use thes_base::number::{PostNo, ResNo};
use thes_base::text::Key;
use thes_store::keeper::{Keeper, Posting};
use thes_store::sink::{PostingSink, RowSink};
use thes_tables::delta::Delta;
use thes_tables::rows::PostingRow;

/// Storage that keeps its tables in a database, opens the database again after a failure has shut
/// it, and reports its progress. Contracts describe its rows up to the first such failure; after
/// that, only its faults, and what a commit's answer means. They don't mention the reports.
pub struct ReopeningKeeper<S: Alter, O: Reopen<Connection<S>> + HeldImage, L> {
    // The storage over the open connection; None while the database can't be opened.
    storage: Option<SqlKeeper<S>>,
    // Whether a failure has shut the first connection.
    is_reopened: bool,
    // The storage over the first connection, as it was when that connection was found shut; only
    // contracts use it.
    loss: Snapshot<Option<SqlKeeper<S>>>,
    opener: RecordedOpener<Connection<S>, O>,
    progress: L,
    // The number of look-ups of postings by their keys; it saturates.
    lookups: u64,
    // The number of failures other than running out of memory, over all connections; it saturates.
    failures: u64,
    // Whether a commit that returned `Store` may have been performed.
    is_in_doubt: bool,
    // The cause of the last error in a load, or in opening the database again; `Other` before the
    // first.
    cause: Cause,
    alloc: Global,
}

impl<S: Alter, O: Reopen<Connection<S>> + HeldImage, L> Model for ReopeningKeeper<S, O, L> {
    ghost use Rattle.thes_sqlite.specs.Reopening.{IsCertain, IsKeptOrLost, IsOfFiles, ReopeningView, first_storage};
    ghost use Rattle.thes_sqlite.specs.Reopening.{closed_if, opened_if, reopening_view_code};

    ghost Value = { ReopeningView S };

    ghost coded = { reopening_view_code S.code };

    ghost view = { λ k. record {
      first = first_storage k.is_reopened k.storage;
      failures = k.failures;
      storage = k.storage;
      is_in_doubt = k.is_in_doubt;
      reopenings = k.opener.reopenings;
      closed = closed_if k.is_reopened k.opener.closed.value;
      opened = opened_if k.is_reopened k.opener.opened.value;
    } };

    ghost invariant = { λ k. IsOfFiles S.Store O.image (first_storage k.is_reopened k.storage)
        × (IsCertain (first_storage k.is_reopened k.storage) k.is_in_doubt
        × IsKeptOrLost S.Store O.image k.is_reopened k.storage k.loss.value) };
}

/// What `ReopeningKeeper::leave` returns: its connection, whether that is still the first one, and
/// whether a request is in doubt.
pub struct Leaving<S: Alter> {
    /// The connection; None if the database is shut and can't be opened again.
    pub conn: Option<Connection<S>>,
    /// Whether a request whose answer was the fault `Store` may have been performed.
    pub is_in_doubt: bool,
    /// Whether a failure has shut the first connection.
    pub is_reopened: bool,
}

impl<S: Alter + Drop, O: Reopen<Connection<S>> + HeldImage, L: Progress> ReopeningKeeper<S, O, L> {
    /// Takes over a connection without reading from it. Loads and look-ups of postings by their
    /// keys are reported to `progress`.
    pub fn new(
        alloc: Global,
        conn: Connection<S>,
        opener: O,
        progress: L,
    ) -> ReopeningKeeper<S, O, L>
        requires idle { conn.in_transaction ≡ false }
        requires of_files { ServesFiles O.image (state S.Store conn) }
        ensures { result ≡ view_of_connection conn }
    {
        let storage = Some(SqlKeeper::adopt(alloc, conn));
        let loss = Snapshot::of(&storage);
        ReopeningKeeper {
            storage,
            is_reopened: false,
            loss,
            opener: RecordedOpener::new(opener),
            progress,
            lookups: 0,
            failures: 0,
            is_in_doubt: false,
            cause: Cause::Other,
            alloc,
        }
    }

    /// Returns the connection, whether a failure has shut the first, and whether a request is in
    /// doubt.
    pub fn leave(self) -> Leaving<S>
    where
        O: Drop,
        ensures first { IfSome self.first (λ k. (result.conn ≡ Some k.conn)
            × (result.is_reopened ≡ false)) }
        ensures returns { result.is_reopened ≡ false
            → ReturnsFirst S.Store O.image self result.conn }
        ensures certain { result.is_reopened ≡ false → result.is_in_doubt ≡ false }
        ensures doubt { result.is_in_doubt ≡ self.is_in_doubt }
        ensures lost { IsTrue result.is_reopened
            → (k : KeeperView S) × LosesShut S.Store O.image k }
    {
        let ReopeningKeeper {
            storage,
            is_reopened,
            loss: _,
            opener: _,
            progress: _,
            lookups: _,
            failures: _,
            is_in_doubt,
            cause: _,
            alloc: _,
        } = self;
        let (conn, is_reopened) = match storage {
            Some(keeper) => (Some(keeper.into_connection()), is_reopened),
            None => (None, true),
        };
        Leaving {
            conn,
            is_in_doubt,
            is_reopened,
        }
    }

    // Removes the storage if a failure has shut its connection. Returns whether there is no storage
    // now, and the connection that was removed.
    fn take_shut(&mut self) -> (bool, Option<Connection<S>>)
        ensures keeps { KeepsStill S.Store self.old self.new }
        ensures leaves { LeavesFirst S.Store self.old self.new }
        ensures gone { IsTrue result.0 → self.new.first ≡ None }
        ensures shut { IsTrue result.0 → IfSome self.old.first (λ k.
            IsLostShut S.Store k result.1) }
        ensures stays { result.0 ≡ false
            → StaysUnwritten S.Store self.old.storage self.new.storage }
        ensures none { IsTrue result.0 → self.new.storage ≡ None }
        ensures taken { IsTrue result.0
            → Becomes S.Store MakesNone self.old.storage result.1 }
        ensures kept { result.0 ≡ false
            → Becomes S.Store MakesNone self.old.storage (connection_of self.new.storage) }
        ensures count { self.new.reopenings ≡ self.old.reopenings }
        ensures doubt { self.new.is_in_doubt ≡ self.old.is_in_doubt }
    {
        if let Some(keeper) = &mut self.storage {
            if !keeper.is_shut() {
                return (false, None);
            }
        }
        if !self.is_reopened {
            self.loss = Snapshot::of(&self.storage);
        }
        self.is_reopened = true;
        let Some(keeper) = self.storage.take() else {
            return (true, None);
        };
        (true, Some(keeper.into_connection()))
    }

    // Opens the database again if a failure has shut it, and returns whether it was shut. If it
    // can't be opened, there is no storage afterwards, and the cause is recorded.
    #[tactic(auto, using(crate::proofs::ReopeningLemmas::is_lost))]
    fn reopen_if_shut(&mut self) -> bool
        ensures keeps { KeepsStill S.Store self.old self.new }
        ensures leaves { LeavesFirst S.Store self.old self.new }
        ensures gone { IsTrue result → self.new.first ≡ None }
        ensures stays { result ≡ false → StaysUnwritten S.Store self.old.storage self.new.storage }
        ensures kept { result ≡ false
            → Becomes S.Store MakesNone self.old.storage (connection_of self.new.storage) }
        ensures again { IsTrue result → Becomes S.Store MakesNone self.old.storage self.new.closed
            × OnlyReads S.Store self.new.opened self.new.storage }
        ensures count { result ≡ false → self.new.reopenings ≡ self.old.reopenings }
        ensures once { IsTrue result → self.new.reopenings ≡ next_count self.old.reopenings }
        ensures doubt { self.new.is_in_doubt ≡ self.old.is_in_doubt }
    {
        let (is_gone, lost) = self.take_shut();
        if !is_gone {
            return false;
        }
        self.is_reopened = true;
        match self.opener.reopen(lost) {
            Ok(conn) => self.storage = SqlKeeper::adopt_if_idle(self.alloc, conn),
            Err(cause) => self.cause = cause,
        }
        true
    }
}

/// The cause may also be that of a failure to open the database again.
impl<S: Alter, O: Reopen<Connection<S>> + HeldImage, L> FaultCause for ReopeningKeeper<S, O, L> {
    fn cause(&self) -> Cause {
        self.cause
    }
}

/// A load, or a commit that fails, opens the database again if a failure has shut it; look-ups
/// don't. Loads and look-ups by key are reported.
impl<S: Alter + Drop, O: Reopen<Connection<S>> + HeldImage, L: Progress> Keeper
    for ReopeningKeeper<S, O, L> {
    ghost use Rattle.thes_sqlite.specs.Reopening.{storage_still, IsStillOpen, FindsStill};

    ghost view = { λ k. storage_still S.Store k };

    ghost is_open = { λ k. IsStillOpen S.Store k };

    ghost finds = { λ k. FindsStill S.Store k };

    fn failures(&self) -> u64 {
        self.failures
    }

    fn load<R: RowSink>(&mut self, sink: &mut R) -> Result<(), Fault> {
        self.reopen_if_shut();
        let loaded = self.load_now(sink);
        count_fault_in(&mut self.failures, loaded)
    }

    #[tactic(auto, using(crate::proofs::ReopeningLemmas::ends_fault, crate::proofs::ReopeningLemmas::makes_now, crate::proofs::ReopeningLemmas::makes_then))]
    fn commit(&mut self, delta: Delta) -> Result<(), Fault>
        requires fits { DeltaFitsStorage delta (storage_still S.Store self.old) }
        ensures ok { OnOk result (IsKeeperStillUp S.Store self.new
            → RawAfterChanges delta (rows_still S.Store self.old)
            (rows_still S.Store self.new)) }
        ensures keeps { CommitFrame (storage_still S.Store self.old)
            (storage_still S.Store self.new) result }
        ensures ends { EndsCommit S.Store delta self.old self.new result }

        // The changes are made all or not at all, also those of a request in doubt.
        ensures whole { MakesAtMost S.Store (MakesAll delta) self.old self.new }
    {
        let changes = delta.as_slice();
        match self.commit_now(changes) {
            Ok(()) => Ok(()),
            Err(fault) => {
                if self.shows_changes(changes) {
                    return Ok(());
                }
                Err(count_fault(&mut self.failures, fault))
            }
        }
    }

    fn find(&mut self, key: &Key) -> Result<Option<PostingRow>, Fault> {
        self.progress.report_lookups(self.lookups);
        self.lookups = self.lookups.saturating_add(1);
        let Some(keeper) = &mut self.storage else {
            return Err(count_fault(&mut self.failures, Fault::Store));
        };
        let found = keeper.find(key);
        count_fault_in(&mut self.failures, found)
    }

    fn posting(&mut self, number: PostNo) -> Result<Option<Posting>, Fault> {
        let Some(keeper) = &mut self.storage else {
            return Err(count_fault(&mut self.failures, Fault::Store));
        };
        let found = keeper.posting(number);
        count_fault_in(&mut self.failures, found)
    }

    fn row(&mut self, number: PostNo) -> Result<Option<PostingRow>, Fault> {
        let Some(keeper) = &mut self.storage else {
            return Err(count_fault(&mut self.failures, Fault::Store));
        };
        let found = keeper.row(number);
        count_fault_in(&mut self.failures, found)
    }

    fn standing<P: PostingSink>(&mut self, concept: ResNo, sink: &mut P) -> Result<(), Fault> {
        let Some(keeper) = &mut self.storage else {
            return Err(count_fault(&mut self.failures, Fault::Store));
        };
        let passed = keeper.standing(concept, sink);
        count_fault_in(&mut self.failures, passed)
    }

    fn standing_numbers(&mut self, concept: ResNo) -> Result<Vec<PostNo>, Fault> {
        let Some(keeper) = &mut self.storage else {
            return Err(count_fault(&mut self.failures, Fault::Store));
        };
        let numbers = keeper.standing_numbers(concept);
        count_fault_in(&mut self.failures, numbers)
    }
}
