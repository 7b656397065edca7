//! The operations of a load: adding a row, stopping out of memory or at a table that the database
//! can't query, and finishing.
ghost use Rattle.std.specs.Prelude.{◌≡◌, ◌≤◌, IfOk, OnOk};
ghost use Rattle.thes_base.specs.declared.fault.Fault.TheVariants.{BadStore};
ghost use Rattle.thes_tables.specs.Cells.{Raw};
ghost use Rattle.thes_load_rows.specs.declared.stage.Stage.TheVariants as stage;
ghost use Rattle.thes_tables.specs.TableOrder.{table_no};
ghost use Rattle.thes_load_rows.specs.Progress.{stage_table, HasRead, HasRow, HasUnqueried, ReachesTable};
ghost use Rattle.thes_load_rows.specs.LoadResults.{LoadResult};

use crate::closing::close_moves;
use crate::links::LinkedVocab;
use crate::stage::Stage;
use std::alloc::{AllocError, Global};
use std::mem;
use thes_base::fault::{Fault, Table};
use thes_post::book::Book;
use thes_tables::cells::Cell;

/// The parts of a state that loaded rows encode: the vocabulary with its links, and the counts of
/// postings.
#[derive(Drop)]
pub struct LoadedParts {
    pub linked_vocab: LinkedVocab,
    pub book: Book,
}

impl Stage {
    /// Closes the tables before `table`, and adds the next row of `table`. If the row can't follow
    /// those read so far, stops with `BadStore`; keeps an earlier fault.
    pub fn row(&mut self, alloc: Global, table: Table, cells: &[Cell]) -> Result<(), AllocError>
        requires { table_no (stage_table self.old) ≤ table_no table }
        ensures { OnOk result (HasRow self.old self.new table cells.now) }
    {
        self.advance(alloc, table)?;
        match self.read(alloc, cells) {
            Ok(true) => Ok(()),
            Ok(false) => {
                self.stop(table);
                Ok(())
            }
            Err(error) => Err(error),
        }
    }

    // Closes the tables before `table`, by a check of each, and makes `table` the current one.
    fn advance(&mut self, alloc: Global, table: Table) -> Result<(), AllocError>
        requires { table_no (stage_table self.old) ≤ table_no table }
        ensures { OnOk result (ReachesTable self.old self.new table) }
    {
        if self.current_table() == table {
            return Ok(());
        }
        self.close_earlier(alloc, table)
    }

    // Closes the tables before `table`, and makes `table` the current one. A stage is large, so it
    // is moved only here, where the table changes.
    fn close_earlier(&mut self, alloc: Global, table: Table) -> Result<(), AllocError>
        requires { table_no (stage_table self.old) ≤ table_no table }
        ensures { OnOk result (ReachesTable self.old self.new table) }
    {
        let stage = mem::replace(self, Stage::Stopped(Fault::OutOfMemory, table));
        let next = stage.reach(alloc, table)?;
        drop(mem::replace(self, next));
        Ok(())
    }

    // Stops the load with `BadStore` of the table.
    fn stop(&mut self, table: Table)
        ensures { self.new ≡ stage.Stopped (BadStore table) table }
    {
        drop(mem::replace(self, Stage::Stopped(Fault::BadStore(table), table)));
    }

    /// Closes the tables before `table`, which the database can't query, and stops with `BadStore`;
    /// keeps an earlier fault.
    pub fn report_unqueried(self, alloc: Global, table: Table) -> Result<Stage, AllocError>
        requires { table_no (stage_table self) ≤ table_no table }
        ensures { IfOk result (λ next. HasUnqueried self next table) }
    {
        let stage = self.reach(alloc, table)?;
        if stage.is_stopped() {
            return Ok(stage);
        }
        drop(stage);
        Ok(Stage::Stopped(Fault::BadStore(table), table))
    }

    /// Closes all tables, and returns the parts of the state, or the first fault. The outer error
    /// is a failed allocation.
    pub fn finish(self, alloc: Global) -> Result<Result<LoadedParts, Fault>, AllocError>
        ensures { IfOk result (λ answer. (raw : Raw) → HasRead self raw → LoadResult raw answer) }
    {
        match self.reach(alloc, Table::Move)? {
            Stage::Move(linked_vocab, placed, load) => Ok(close_moves(linked_vocab, placed, load)),
            Stage::Stopped(fault, _) => Ok(Err(fault)),
            other => {
                drop(other);
                Ok(Err(Fault::BadStore(Table::Move)))
            }
        }
    }
}

/// Stops a load with `OutOfMemory`.
pub fn stop_out_of_memory(stage: &mut Stage)
    ensures { stage.new ≡ Stage.Stopped Fault.OutOfMemory Table.Meta }
{
    drop(mem::replace(stage, Stage::Stopped(Fault::OutOfMemory, Table::Meta)));
}
