//! The order in which rows of tables may come: a load that is past a table is stopped by a row of
//! that table, or by the report that the table can't be queried.
ghost use Rattle.std.specs.Prelude.{◌≡◌, IsTrue, false, None, Some, IfOk, OnOk, MatchOption};
ghost use Rattle.thes_load_rows.specs.Progress.{is_stopped};
ghost use Rattle.thes_load_rows.specs.Turns.{IsInTurn, IsOfRows, NextStage};

use crate::stage::Stage;
use std::alloc::{AllocError, Global};
use std::mem;
use thes_base::fault::{Fault, Table};
use thes_tables::cells::Cell;

// Returns the stopped stage after a row of this table, or the report that it can't be queried, if
// the load is past the table or has already stopped with a fault; else None.
fn stage_after_stop(stage: &Stage, table: Table) -> Option<Stage>
    ensures { MatchOption result
        (IsInTurn table stage.now × (is_stopped stage.now ≡ false))
        (λ new. ((news : _) → NextStage table news stage.now new) × IsOfRows new) }
{
    if stage.is_past(table) {
        let current_table = stage.current_table();
        return Some(Stage::Stopped(Fault::BadStore(table), current_table));
    }
    match stage {
        Stage::Stopped(fault, _) => Some(Stage::Stopped(*fault, table)),
        _ => None,
    }
}

// Checks whether the load hasn't stopped and isn't past the table.
fn is_open(stage: &Stage, table: Table) -> bool
    ensures open { IsTrue result
        → IsInTurn table stage.now × (is_stopped stage.now ≡ false) }
    ensures closed { result ≡ false → IsInTurn table stage.now → is_stopped stage.now ≡ false → ⊥ }
{
    !stage.is_past(table) && !stage.is_stopped()
}

// Stops the load with `BadStore` if it is past the table; otherwise the load has stopped before,
// and keeps its fault.
fn stop_after(stage: &mut Stage, table: Table)
    requires closed { IsInTurn table stage.old → is_stopped stage.old ≡ false → ⊥ }
    ensures follows { (news : _) → NextStage table news stage.old stage.new }
    ensures rows { IsOfRows stage.new }
{
    match stage_after_stop(stage, table) {
        Some(stopped) => drop(mem::replace(stage, stopped)),
        None => {}
    }
}

/// Adds a row of a table to the stage. A stage that is past the table stops with `BadStore`; any
/// other that has stopped keeps its fault.
pub fn add_row(
    stage: &mut Stage,
    alloc: Global,
    table: Table,
    row: &[Cell],
) -> Result<(), AllocError>
    requires { IsOfRows stage.old }
    ensures follows { OnOk result (NextStage table (Some row.now) stage.old stage.new) }
    ensures rows { OnOk result (IsOfRows stage.new) }
{
    if is_open(stage, table) {
        return stage.row(alloc, table, row);
    }
    stop_after(stage, table);
    Ok(())
}

/// Returns the stage after the report that a table can't be queried: stopped, with `BadStore` of
/// the table or an earlier fault.
pub fn stage_after_unqueried(stage: Stage, alloc: Global, table: Table) -> Result<Stage, AllocError>
    requires { IsOfRows stage }
    ensures follows { IfOk result (NextStage table None stage) }
    ensures rows { IfOk result IsOfRows }
{
    match stage_after_stop(&stage, table) {
        Some(stage_after_stop) => {
            drop(stage);
            Ok(stage_after_stop)
        }
        None => stage.report_unqueried(alloc, table),
    }
}
