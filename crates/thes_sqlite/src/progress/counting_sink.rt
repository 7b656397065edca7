//! A sink that counts the rows that it passes on, and a load through it.
ghost use Rattle.thes_sqlite.specs.FoundRows.{FindsInKeeper, IsKeeperOpen};
ghost use Rattle.thes_sqlite.specs.KeeperView.{IsKeeperUp, KeeperQueryFrame, raw_of_keeper};
ghost use Rattle.thes_sqlite.specs.MigrationEffects.{LeavesUnwritten};
ghost use Rattle.thes_store.specs.FoundLoads.{PassesFound};
ghost use Rattle.thes_store.specs.Sinks.{SinkOutcome, sink_rows};

use crate::keeper::SqlKeeper;
use crate::progress::Progress;
use sqlite::Alter;
use thes_base::fault::{Fault, Table};
use thes_store::keeper::Keeper;
use thes_store::sink::RowSink;
use thes_tables::cells::Cell;

/// A sink that passes each row to an inner sink, and reports the number of rows so far.
pub(crate) struct CountingSink<'a, R, L> {
    sink: &'a mut R,
    progress: L,
    // The number of rows passed so far; it saturates.
    rows: u64,
}

/// A table that can't be queried is reported to the inner sink, and not counted.
impl<R: RowSink, L: Progress> RowSink for CountingSink<'_, R, L> {
    ghost use Rattle.thes_sqlite.specs.Passing.{Passes};

    ghost gives = { Passes R.gives };

    fn row(&mut self, table: Table, row: &[Cell]) -> Result<(), Fault> {
        self.rows = self.rows.saturating_add(1);
        self.progress.report_rows(self.rows);
        self.sink.row(table, row)
    }

    fn report_unqueried(&mut self, table: Table) -> Result<(), Fault> {
        self.sink.report_unqueried(table)
    }
}

/// Loads the storage into a sink, and reports to a listener the number of rows passed so far.
pub(crate) fn load_counted<S: Alter, R: RowSink, L: Progress>(
    keeper: &mut SqlKeeper<S>,
    sink: &mut R,
    progress: &mut L,
) -> Result<(), Fault>
    ensures yields { IsKeeperUp S.Store keeper.new
        → SinkOutcome R.gives sink.old (sink_rows (raw_of_keeper S.Store keeper.old)) result
        sink.new }
    ensures frame { KeeperQueryFrame S.Store keeper.old keeper.new result }
    ensures leaves { LeavesUnwritten S.Store keeper.old.conn keeper.new.conn }
    ensures found { PassesFound (IsKeeperOpen S.Store) (FindsInKeeper S.Store) R.gives keeper.old
        keeper.new sink.old result sink.new }
{
    let mut counting = CountingSink {
        sink,
        progress: *progress,
        rows: 0,
    };
    let loaded = keeper.load(&mut counting);
    let CountingSink {
        sink,
        progress: counted,
        rows: _,
    } = counting;
    // No effect; states the sink's final value for the proof.
    let _ = &*sink;
    *progress = counted;
    loaded
}
