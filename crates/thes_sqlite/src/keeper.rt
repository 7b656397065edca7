//! Storage of the tables in a database.
ghost use Rattle.std.specs.Prelude.{◌≡◌, ◌⊎◌, false, Some, IsTrue, OnOk, IfOk, IfErr, IfSome};
ghost use Rattle.thes_base.specs.Resources.{entry_at};
ghost use Rattle.thes_tables.specs.Tables.{Tables};
ghost use Rattle.thes_tables.specs.Cells.{cells_of_tables};
ghost use Rattle.thes_sql.specs.Schema.{empty_schema};
ghost use Rattle.thes_sql.specs.TransactionEffects.{IsEmpty};
ghost use Rattle.thes_base.specs.declared.fault.Table.{Table};
ghost use Rattle.thes_store.specs.Causes.{HasCause};
ghost use Rattle.thes_store.specs.FoundLoads.{PassesFound};
ghost use Rattle.thes_store.specs.Sinks.{SinkOutcome, sink_rows_of_table, sink_rows, sink_rows_of_tables};
ghost use Rattle.thes_store.specs.Reading.{IsPostingOfKey, IsPostingOfNumber, assigned_posting_rows, assigned_row_numbers};
ghost use Rattle.thes_store.specs.Storage.{DeltaFitsStorage, KeepsStorage, RawAfterChanges};
ghost use Rattle.thes_sqlite.specs.KeeperView.{IsUp, IsStore, IsKeeperState, IsKeeperUp, IsNewKeeper, KeeperQueryFrame};
ghost use Rattle.thes_sqlite.specs.KeeperView.{raw_table, raw_of_keeper, storage_view};
ghost use Rattle.thes_sqlite.specs.MigrationEffects.{Migrates, HasCountedCause, ServesAfterMigration, LeavesUnwritten};
ghost use Rattle.thes_sqlite.specs.Commits.{AppliesAll, DatabaseFrame, KeeperCommitFrame, IsCrashSafe};
ghost use Rattle.thes_sqlite.specs.Commits.{MakesAll, MakesNone};
ghost use Rattle.thes_sqlite.specs.CommitEvidence.{IsRightAnswer};
ghost use Rattle.thes_sqlite.specs.FoundRows.{IsKeeperOpen, FindsInKeeper, PassesTable, PassesNamed};
ghost use Rattle.thes_sql.specs.Reads.{LeavesTables};
ghost use Rattle.sqlite.specs.Held.{state};
ghost use Rattle.sqlite.specs.State.{HasCleanDisk, Survives};

use crate::cause::{Cause, FaultCause};
use crate::commit_evidence::has_changes;
use crate::faults::{count_fault, count_if_store, fault_of};
use crate::migrating::migrate_database;
use crate::posting_look_ups::{find_posting, find_row, find_with_moves};
use crate::row_streams::{collect_numbers, yield_postings, yield_table_rows};
use sqlite::{Alter, Connection};
use std::alloc::Global;
use std::marker::Model;
use std::snapshot::Snapshot;
use thes_base::fault::{Fault, Table};
use thes_base::number::{PostNo, ResNo};
use thes_base::text::{Base, Key};
use thes_sql::commit::commit_all;
use thes_sql::create::create_tables;
use thes_sql::outcome::is_shut;
use thes_store::keeper::{Keeper, Posting};
use thes_store::sink::{PostingSink, RowSink};
use thes_tables::change::Change;
use thes_tables::delta::Delta;
use thes_tables::order::tables_in_order;
use thes_tables::rows::PostingRow;

/// Storage that keeps its tables in a database, over one connection.
#[derive(Drop)]
pub struct SqlKeeper<S: Alter> {
    conn: Connection<S>,
    failures: u64,
    // The connection at the start, or after the last `migrate` or `commit_anew`; only contracts use
    // it.
    first: Snapshot<Connection<S>>,
    // The cause of the database's last error in a load or a migration; `Other` before the first.
    cause: Cause,
    alloc: Global,
}

impl<S: Alter> Model for SqlKeeper<S> {
    ghost use Rattle.sqlite.specs.Held.{state};
    ghost use Rattle.thes_sqlite.specs.KeeperView.{KeeperView, keeper_view_code, IsKeeperState};

    ghost Value = { KeeperView S };

    ghost coded = { keeper_view_code S.code };

    ghost view = { λ k. record { conn = k.conn; failures = k.failures; first = k.first.value } };

    ghost invariant = { λ k. IsKeeperState (state S.Store k.first.value) (state S.Store k.conn) };
}

impl<S: Alter> SqlKeeper<S> {
    /// Creates the tables of a new store in a database without tables. The error is the fault, with
    /// the connection, whose database is unchanged if it is still open.
    pub fn create(
        alloc: Global,
        mut conn: Connection<S>,
        base: &Base,
    ) -> Result<SqlKeeper<S>, (Fault, Connection<S>)>
        requires idle { conn.in_transaction ≡ false }
        ensures made { IsEmpty empty_schema (state S.Store conn).now
            → IfOk result (IsNewKeeper S.Store base.now) }
        ensures back { IfErr result (λ e. IsUp (state S.Store e.1)
            → (state S.Store e.1).now ≡ (state S.Store conn).now) }
        ensures cause { IfErr result (λ e. (e.0 ≡ Fault.OutOfMemory) ⊎ (e.0 ≡ Fault.Store)) }
    {
        match create_tables(&mut conn, base) {
            Ok(_) => Ok(SqlKeeper::adopt(alloc, conn)),
            Err(error) => Err((fault_of(error), conn)),
        }
    }

    /// Takes over a database without reading it. If the database isn't a store, a load passes on
    /// whatever rows it has.
    pub fn adopt(alloc: Global, conn: Connection<S>) -> SqlKeeper<S>
        requires { conn.in_transaction ≡ false }
        ensures is { result ≡ record { conn = conn; failures = 0; first = conn } }
        ensures serves { IsStore (state S.Store conn) → IsUp (state S.Store conn)
            → IsKeeperUp S.Store result }
    {
        let first = Snapshot::of(&conn);
        SqlKeeper {
            conn,
            failures: 0,
            first,
            cause: Cause::Other,
            alloc,
        }
    }

    /// Takes over a connection as `adopt` does; None if it is in a transaction.
    pub(crate) fn adopt_if_idle(alloc: Global, conn: Connection<S>) -> Option<SqlKeeper<S>>
    where
        S: Drop,
        ensures adopts { conn.in_transaction ≡ false
            → result ≡ Some (record { conn = conn; failures = 0; first = conn }) }
        ensures same { IfSome result (λ k. k.conn ≡ conn) }
    {
        if !conn.is_autocommit() {
            return None;
        }
        Some(SqlKeeper::adopt(alloc, conn))
    }

    /// Migrates the database from version 1 of the tables to version 2, and returns 2. A database
    /// of version 2 is left unchanged. So is one that can't be migrated, for which the fault is
    /// `BadStore` or `NewerStore`. After success the storage serves the store of version 2.
    pub fn migrate(&mut self) -> Result<u32, Fault>
        ensures migrates { Migrates S.Store self.old.conn self.new.conn result }
        ensures serves { ServesAfterMigration S.Store self.old self.new result }
        ensures first { self.new.first ≡ self.new.conn }
        ensures cause { HasCountedCause self.old.failures self.new.failures result }
    {
        let ended = migrate_database(self.alloc, &mut self.conn, &mut self.cause);
        self.first = Snapshot::of(&self.conn);
        match ended {
            Ok(version) => Ok(version),
            Err(fault) => Err(count_if_store(&mut self.failures, fault)),
        }
    }

    /// Returns the connection, and drops the rest.
    pub fn into_connection(self) -> Connection<S>
        ensures is { result ≡ self.conn }
        ensures kept { IsKeeperState (state S.Store self.first) (state S.Store self.conn) }
    {
        let SqlKeeper {
            conn,
            failures: _,
            first: _,
            cause: _,
            alloc: _,
        } = self;
        conn
    }

    /// Queries the database to check whether a failure has shut it.
    #[tactic(auto, using(crate::proofs::FoundRowLemmas::unwritten))]
    pub(crate) fn is_shut(&mut self) -> bool
        ensures keeps { KeepsStorage (storage_view S.Store self.old)
            (storage_view S.Store self.new) }
        ensures first { self.new.first ≡ self.old.first }
        ensures leaves { LeavesUnwritten S.Store self.old.conn self.new.conn }
        ensures crash { Survives (state S.Store self.old.conn) (state S.Store self.new.conn)
            (MakesNone (state S.Store self.old.conn)) }
        ensures shut { IsTrue result → HasCleanDisk (state S.Store self.new.conn)
            → (state S.Store self.old.conn).is_open ≡ false }
    {
        let settled = self.conn.is_autocommit();
        prove!(settled);
        is_shut(&mut self.conn)
    }

    /// Applies all changes in one transaction, or returns a fault. Then an open database is
    /// unchanged; one that the failure has shut holds all the changes or none.
    pub fn commit_changes(&mut self, changes: &[Change]) -> Result<(), Fault>
        requires { DeltaFitsStorage changes.now (storage_view S.Store self.old) }
        ensures ok { OnOk result (IsKeeperUp S.Store self.new
            → RawAfterChanges changes.now
            (raw_of_keeper S.Store self.old) (raw_of_keeper S.Store self.new)) }
        ensures applies { OnOk result (AppliesAll S.Store changes.now self.old.conn self.new.conn) }
        ensures frame { KeeperCommitFrame S.Store self.old self.new result }
        ensures crash { IsCrashSafe S.Store changes.now self.old self.new result }
        ensures whole { Survives (state S.Store self.old.conn) (state S.Store self.new.conn)
            (MakesAll changes.now (state S.Store self.old.conn)) }
    {
        match commit_all(&mut self.conn, changes) {
            Ok(_) => Ok(()),
            Err(error) => Err(count_fault(&mut self.failures, fault_of(error))),
        }
    }

    /// Applies changes as `commit_changes` does, but they needn't fit the tables. So what contracts
    /// promise of the storage begins anew, from the database that the call leaves.
    pub(crate) fn commit_anew(&mut self, changes: &[Change]) -> Result<(), Fault>
        ensures applies { OnOk result (AppliesAll S.Store changes.now self.old.conn self.new.conn) }
        ensures database { DatabaseFrame S.Store self.old.conn self.new.conn result }
        ensures whole { Survives (state S.Store self.old.conn) (state S.Store self.new.conn)
            (MakesAll changes.now (state S.Store self.old.conn)) }
        ensures first { self.new.first ≡ self.new.conn }
        ensures cause { HasCause self.old.failures self.new.failures result }
    {
        let ended = commit_all(&mut self.conn, changes);
        self.first = Snapshot::of(&self.conn);
        match ended {
            Ok(_) => Ok(()),
            Err(error) => Err(count_fault(&mut self.failures, fault_of(error))),
        }
    }

    /// Checks whether changes were made although their commit failed; None if the database's rows
    /// don't show this, or can't be queried.
    #[tactic(auto, using(crate::proofs::FoundRowLemmas::unwritten))]
    pub(crate) fn has_changes(&mut self, changes: &[Change]) -> Option<bool>
        ensures answer { IsUp (state S.Store self.new.conn)
            → IsRightAnswer changes.now (state S.Store self.new.conn).now result }
        ensures keeps { KeepsStorage (storage_view S.Store self.old)
            (storage_view S.Store self.new) }
        ensures first { self.new.first ≡ self.old.first }
        ensures leaves { LeavesUnwritten S.Store self.old.conn self.new.conn }
    {
        let settled = self.conn.is_autocommit();
        prove!(settled);
        has_changes(&mut self.conn, changes)
    }

    // Passes the rows of a table to a sink, in their order.
    fn yield_table<R: RowSink>(&mut self, name: Table, sink: &mut R) -> Result<(), Fault>
        ensures yields { IsKeeperUp S.Store self.new → SinkOutcome R.gives sink.old
            (sink_rows_of_table name (raw_table name (state S.Store self.old.conn).now.trees))
            result sink.new }
        ensures frame { KeeperQueryFrame S.Store self.old self.new result }
        ensures passes { OnOk result (IsUp (state S.Store self.new.conn)
            → PassesTable R.gives name (state S.Store self.old.conn).now sink.old sink.new) }
        ensures leaves { LeavesTables S.Store self.old.conn self.new.conn }
    {
        match yield_table_rows(self.alloc, &mut self.conn, name, sink, &mut self.cause) {
            Ok(_) => Ok(()),
            Err(fault) => Err(count_fault(&mut self.failures, fault)),
        }
    }

    // Passes the rows of these tables to a sink, table after table.
    fn yield_tables<R: RowSink>(&mut self, names: &[Table], sink: &mut R) -> Result<(), Fault>
        ensures yields { IsKeeperUp S.Store self.new → SinkOutcome R.gives sink.old
            (sink_rows_of_tables (raw_of_keeper S.Store self.old) names.now)
            result sink.new }
        ensures frame { KeeperQueryFrame S.Store self.old self.new result }
        ensures passes { OnOk result (IsUp (state S.Store self.new.conn)
            → (state S.Store self.old.conn).now ≡ (state S.Store self.old.conn).committed
            → PassesNamed R.gives names.now (state S.Store self.old.conn).now sink.old sink.new) }
        ensures leaves { LeavesTables S.Store self.old.conn self.new.conn }
    {
        for name in names {
            if let Err(fault) = self.yield_table(*name, sink) {
                return Err(fault);
            }
        }
        Ok(())
    }
}

impl<S: Alter> FaultCause for SqlKeeper<S> {
    fn cause(&self) -> Cause {
        self.cause
    }
}

/// Loads and look-ups are queries of the database, and each commit is one transaction.
impl<S: Alter> Keeper for SqlKeeper<S> {
    ghost use Rattle.thes_sqlite.specs.FoundRows.{IsKeeperOpen, FindsInKeeper};
    ghost use Rattle.thes_sqlite.specs.KeeperView.{storage_view};

    ghost view = { λ k. storage_view S.Store k };

    ghost is_open = { λ k. IsKeeperOpen S.Store k };

    ghost finds = { λ k. FindsInKeeper S.Store k };

    fn failures(&self) -> u64 {
        self.failures
    }

    fn load<R: RowSink>(&mut self, sink: &mut R) -> Result<(), Fault>
        ensures yields { IsKeeperUp S.Store self.new
            → SinkOutcome R.gives sink.old
            (sink_rows (raw_of_keeper S.Store self.old)) result sink.new }
        ensures frame { KeeperQueryFrame S.Store self.old self.new result }

        // Whatever the database holds, a load leaves it unchanged, and passes the rows that the
        // queries of the tables find.
        ensures leaves { LeavesUnwritten S.Store self.old.conn self.new.conn }
        ensures found { PassesFound (IsKeeperOpen S.Store) (FindsInKeeper S.Store) R.gives
            self.old self.new sink.old result sink.new }
    {
        let settled = self.conn.is_autocommit();
        prove!(settled);
        self.yield_tables(&tables_in_order(), sink)
    }

    fn commit(&mut self, delta: Delta) -> Result<(), Fault>
        requires fits { DeltaFitsStorage delta (storage_view S.Store self.old) }
        ensures ok { OnOk result (IsKeeperUp S.Store self.new
            → RawAfterChanges delta
            (raw_of_keeper S.Store self.old) (raw_of_keeper S.Store self.new)) }
        ensures frame { KeeperCommitFrame S.Store self.old self.new result }
        ensures crash { IsCrashSafe S.Store delta self.old self.new result }
    {
        self.commit_changes(delta.as_slice())
    }

    #[tactic(auto, using(crate::proofs::KeeperLemmas::kept_of_raw))]
    fn find(&mut self, key: &Key) -> Result<Option<PostingRow>, Fault>
        ensures ok { IfOk result (λ found. IsKeeperUp S.Store self.new → (t : Tables)
            → raw_of_keeper S.Store self.old ≡ cells_of_tables t
            → IsPostingOfKey key.now t.posting found) }
        ensures frame { KeeperQueryFrame S.Store self.old self.new result }
    {
        match find_posting(self.alloc, &mut self.conn, key) {
            Ok(found) => Ok(found),
            Err(error) => Err(count_fault(&mut self.failures, fault_of(error))),
        }
    }

    #[tactic(auto, using(crate::proofs::KeeperLemmas::kept_of_raw))]
    fn posting(&mut self, number: PostNo) -> Result<Option<Posting>, Fault>
        ensures ok { IfOk result (λ told. IsKeeperUp S.Store self.new → (t : Tables)
            → raw_of_keeper S.Store self.old ≡ cells_of_tables t
            → IsPostingOfNumber number t told) }
        ensures frame { KeeperQueryFrame S.Store self.old self.new result }
    {
        match find_with_moves(self.alloc, &mut self.conn, number) {
            Ok(told) => Ok(told),
            Err(error) => Err(count_fault(&mut self.failures, fault_of(error))),
        }
    }

    #[tactic(auto, using(crate::proofs::KeeperLemmas::kept_of_raw))]
    fn row(&mut self, number: PostNo) -> Result<Option<PostingRow>, Fault>
        ensures ok { IfOk result (λ row. IsKeeperUp S.Store self.new → (t : Tables)
            → raw_of_keeper S.Store self.old ≡ cells_of_tables t
            → row ≡ entry_at t.posting number) }
        ensures frame { KeeperQueryFrame S.Store self.old self.new result }
    {
        match find_row(self.alloc, &mut self.conn, number) {
            Ok(row) => Ok(row),
            Err(error) => Err(count_fault(&mut self.failures, fault_of(error))),
        }
    }

    #[tactic(auto, using(crate::proofs::KeeperLemmas::kept_of_raw))]
    fn standing<P: PostingSink>(&mut self, concept: ResNo, sink: &mut P) -> Result<(), Fault>
        ensures yields { IsKeeperUp S.Store self.new
            → (t : Tables) → raw_of_keeper S.Store self.old ≡ cells_of_tables t
            → SinkOutcome P.gives sink.old (assigned_posting_rows concept t.posting) result
            sink.new }
        ensures frame { KeeperQueryFrame S.Store self.old self.new result }
    {
        match yield_postings(self.alloc, &mut self.conn, concept, sink) {
            Ok(_) => Ok(()),
            Err(fault) => Err(count_fault(&mut self.failures, fault)),
        }
    }

    #[tactic(auto, using(crate::proofs::KeeperLemmas::kept_of_raw))]
    fn standing_numbers(&mut self, concept: ResNo) -> Result<Vec<PostNo>, Fault>
        ensures ok { IfOk result (λ numbers. IsKeeperUp S.Store self.new → (t : Tables)
            → raw_of_keeper S.Store self.old ≡ cells_of_tables t
            → numbers.items ≡ assigned_row_numbers concept t.posting) }
        ensures frame { KeeperQueryFrame S.Store self.old self.new result }
    {
        match collect_numbers(self.alloc, &mut self.conn, concept) {
            Ok(numbers) => Ok(numbers),
            Err(fault) => Err(count_fault(&mut self.failures, fault)),
        }
    }
}
