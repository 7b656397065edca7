//! Loads and commits over the open connection, if there is one, and the check after a failed
//! commit.
ghost use Rattle.std.specs.Prelude.{◌≡◌, None, IfErr, OnOk, OnErr, IsTrue};
ghost use Rattle.thes_store.specs.FoundLoads.{PassesFound};
ghost use Rattle.thes_store.specs.Sinks.{SinkOutcome, sink_rows};
ghost use Rattle.thes_store.specs.Storage.{DeltaFitsStorage, RawAfterChanges};
ghost use Rattle.thes_sqlite.specs.Faults.{IsKeeperFault};
ghost use Rattle.thes_sqlite.specs.Reopening.{IsKeeperStillUp, rows_still, storage_still};
ghost use Rattle.thes_sqlite.specs.Reopening.{FindsOfFirst, IsStillOpen, KeepsOnFault, KeepsStill};
ghost use Rattle.thes_sqlite.specs.Reopening.{StaysUnwritten, AppliesOpen, ShowsChanges, Becomes};
ghost use Rattle.thes_sqlite.specs.Reopening.{MakesAtMost, connection_of};
ghost use Rattle.thes_sqlite.specs.Commits.{MakesAll, MakesNone};

use crate::cause::FaultCause;
use crate::opener::{HeldImage, Reopen};
use crate::progress::Progress;
use crate::progress::counting_sink::load_counted;
use crate::reopening::ReopeningKeeper;
use sqlite::{Alter, Connection};
use thes_base::fault::Fault;
use thes_store::sink::RowSink;
use thes_tables::change::Change;

impl<S: Alter + Drop, O: Reopen<Connection<S>> + HeldImage, L: Progress> ReopeningKeeper<S, O, L> {
    // Opens the database again if the failed commit of these changes has shut it, and returns
    // whether they were made nevertheless. Returns false if the database wasn't shut. If it can't
    // be checked whether they were made, sets `is_in_doubt` and returns false.
    #[tactic(auto, using(crate::proofs::ReopeningLemmas::shows_answer))]
    pub(super) fn shows_changes(&mut self, changes: &[Change]) -> bool
        ensures keeps { KeepsStill S.Store self.old self.new }
        ensures gone { IsTrue result → self.new.first ≡ None }
        ensures shows { ShowsChanges S.Store changes.now self.old self.new result }
        ensures whole { MakesAtMost S.Store MakesNone self.old self.new }
    {
        if !self.reopen_if_shut() {
            return false;
        }
        let was_in_doubt = self.is_in_doubt;
        self.is_in_doubt = true;
        let Some(keeper) = &mut self.storage else {
            return false;
        };
        let Some(found) = keeper.has_changes(changes) else {
            return false;
        };
        self.is_in_doubt = was_in_doubt;
        found
    }

    // Passes all rows of the open database to a sink, and reports their number to the listener. The
    // fault is `Store` if no database is open.
    pub(super) fn load_now<R: RowSink>(&mut self, sink: &mut R) -> Result<(), Fault>
        ensures yields { IsKeeperStillUp S.Store self.new
            → SinkOutcome R.gives sink.old (sink_rows (rows_still S.Store self.old)) result
            sink.new }
        ensures keeps { KeepsStill S.Store self.old self.new }
        ensures kind { IfErr result IsKeeperFault }
        ensures found { PassesFound (IsStillOpen S.Store) (FindsOfFirst S.Store) R.gives
            self.old self.new sink.old result sink.new }
    {
        let Some(keeper) = &mut self.storage else {
            return Err(Fault::Store);
        };
        let loaded = load_counted(keeper, sink, &mut self.progress);
        self.cause = keeper.cause();
        loaded
    }

    // Applies changes atomically. The fault is `Store`, and nothing changes, if the file of the
    // database was moved away or no database is open.
    #[tactic(auto, using(crate::proofs::ReopeningLemmas::becomes_itself, crate::proofs::ReopeningLemmas::stays_itself))]
    pub(super) fn commit_now(&mut self, changes: &[Change]) -> Result<(), Fault>
        requires { DeltaFitsStorage changes.now (storage_still S.Store self.old) }
        ensures ok { OnOk result (IsKeeperStillUp S.Store self.new
            → RawAfterChanges changes.now (rows_still S.Store self.old)
            (rows_still S.Store self.new)) }
        ensures keeps { KeepsOnFault (storage_still S.Store self.old)
            (storage_still S.Store self.new) result }
        ensures applies { OnOk result (AppliesOpen S.Store changes.now self.old.storage
            self.new.storage) }
        ensures stays { OnErr result (StaysUnwritten S.Store self.old.storage self.new.storage) }
        ensures whole { Becomes S.Store (MakesAll changes.now) self.old.storage
            (connection_of self.new.storage) }
        ensures count { self.new.reopenings ≡ self.old.reopenings }
        ensures kind { IfErr result IsKeeperFault }
    {
        if !self.opener.is_in_place() {
            return Err(Fault::Store);
        }
        let Some(keeper) = &mut self.storage else {
            return Err(Fault::Store);
        };
        // The changes needn't fit what a reopened database has.
        if self.is_reopened {
            keeper.commit_anew(changes)
        } else {
            keeper.commit_changes(changes)
        }
    }
}
