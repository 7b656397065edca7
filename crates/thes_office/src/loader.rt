//! `Loader`, a sink for the rows of a store, which builds a core from them.
ghost use Rattle.std.specs.Prelude.{◌≡◌, ◌⊎◌, false, Err, IfOk, IfErr};
ghost use Rattle.thes_base.specs.declared.fault.Fault.TheVariants as faults;
ghost use Rattle.thes_tables.specs.Cells.{Raw};
ghost use Rattle.thes_load_rules.specs.Verdicts.{HasVerdict};
ghost use Rattle.thes_load_rows.specs.Turns.{IsOfRows};
ghost use Rattle.thes_office.specs.LoaderFeed.{IsBegun, KnowsRows, FeedResult};
ghost use Rattle.thes_office.specs.LoadedCore.{IsLoaded};

use std::alloc::Global;
use std::marker::Model;
use std::mem;
use thes_base::data::Limits;
use thes_base::fault::{Fault, Table};
use thes_core::Core;
use thes_load_rows::stage::Stage;
use thes_load_rows::stage_steps::stop_out_of_memory;
use thes_load_rows::turns::{add_row, stage_after_unqueried};
use thes_store::sink::RowSink;
use thes_tables::cells::Cell;

/// A sink that receives the rows of a store one by one, and builds a core from them: vocabulary,
/// links and counts, but neither postings nor moves. If memory runs out, the loader stops with that
/// fault.
#[derive(Drop)]
pub struct Loader {
    alloc: Global,
    stage: Stage,
    limits: Limits,
}

impl Model for Loader {
    ghost use Rattle.std.specs.Coded.{codes};
    ghost use Rattle.std.specs.FinMap as dict;
    ghost use Rattle.std.specs.FinSet as set;
    ghost use Rattle.thes_load_rows.specs.Turns.{IsOfRows};
    ghost use Rattle.thes_office.specs.LoaderView.{LoaderView};

    ghost Value = { LoaderView };

    ghost coded = { Prim.hlevel (codes, set.code, dict.code) };

    ghost view = { λ a. record { stage = a.stage; limits = a.limits } };

    ghost invariant = { λ a. IsOfRows a.stage };
}

impl Loader {
    /// Returns a loader without rows, for a core with these limits.
    pub fn new(alloc: Global, limits: Limits) -> Loader
        ensures { IsBegun limits result }
    {
        Loader {
            alloc,
            stage: Stage::Meta(None),
            limits,
        }
    }

    // Moves the stage out, and leaves a stage stopped by OutOfMemory, which remains if the next
    // stage can't be allocated.
    fn take_stage(&mut self) -> Stage
        ensures taken { result ≡ self.old.stage }
        ensures left { self.new
            ≡ record self.old { stage = Stage.Stopped Fault.OutOfMemory Table.Meta } }
        ensures rows { IsOfRows result }
    {
        mem::replace(
            &mut self.stage,
            Stage::Stopped(Fault::OutOfMemory, Table::Meta),
        )
    }

    // Replaces the stage, and drops the old one.
    fn put(&mut self, stage: Stage)
        requires { IsOfRows stage }
        ensures { self.new ≡ record self.old { stage = stage } }
    {
        drop(mem::replace(&mut self.stage, stage));
    }

    /// Builds a core from the rows received; any fault but OutOfMemory is the verdict on them.
    pub fn finish(self) -> Result<Core, Fault>
        ensures ok { IfOk result (λ core. (raw : Raw) → KnowsRows self raw → IsLoaded raw core) }
        ensures limits { IfOk result (λ core. core.setting.limits ≡ self.limits) }
        ensures spent { IfOk result (λ core. core.spent ≡ false) }
        ensures err { IfErr result (λ fault. (fault ≡ faults.OutOfMemory)
            ⊎ ((raw : Raw) → KnowsRows self raw → HasVerdict raw (Err fault))) }
    {
        match self.stage {
            Stage::Stopped(fault, _) => Err(fault),
            stage => match stage.finish(self.alloc)? {
                Ok(parts) => {
                    let linked_vocab = parts.linked_vocab;
                    let core = Core::of_parts(
                        self.alloc,
                        linked_vocab.vocab,
                        linked_vocab.graph,
                        parts.book,
                        self.limits,
                    );
                    Ok(core)
                }
                Err(fault) => Err(fault),
            },
        }
    }
}

/// Adds each row to the load. A faulty row stops the load, and `finish` returns its fault.
impl RowSink for Loader {
    ghost gives = { FeedResult };

    // A row that comes after rows of a later table is a fault of its own table (DECISIONS.md,
    // Loading).
    fn row(&mut self, table: Table, row: &[Cell]) -> Result<(), Fault> {
        if add_row(&mut self.stage, self.alloc, table, row).is_err() {
            stop_out_of_memory(&mut self.stage);
            return Err(Fault::OutOfMemory);
        }
        Ok(())
    }

    fn report_unqueried(&mut self, table: Table) -> Result<(), Fault> {
        let next = stage_after_unqueried(self.take_stage(), self.alloc, table)?;
        self.put(next);
        Ok(())
    }
}
