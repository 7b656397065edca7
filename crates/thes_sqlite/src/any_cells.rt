//! Reads cells from a database that may have any rows and values.
ghost use Rattle.std.specs.Prelude.{◌≡◌, map, IfOk};
ghost use Rattle.sqlite_value.specs.Value.{owned};
ghost use Rattle.thes_sqlite.specs.ValueCells.{cell_of};

use sqlite::Row;
use sqlite::types::ValueRef;
use std::alloc::{AllocError, Global};
use thes_tables::cells::{Cell, CellText};

// Returns a value of the database as a cell. A value that no row of a store has becomes -1, which
// no column accepts (DECISIONS.md, Storage).
#[tactic(auto, using(crate::proofs::ValueLemmas::text_cell, crate::proofs::ValueLemmas::no_text))]
fn any_cell_of(alloc: Global, value: ValueRef<'_>) -> Result<Cell, AllocError>
    ensures { IfOk result (λ cell. cell ≡ cell_of (owned value.entry)) }
{
    match value {
        ValueRef::Null => Ok(Cell::Null),
        ValueRef::Int(n) => Ok(Cell::Int(n)),
        ValueRef::Text(bytes) => match std::str::from_utf8(bytes) {
            Ok(text) => Ok(Cell::Text(CellText::new(alloc, text)?)),
            Err(_) => Ok(Cell::Int(-1)),
        },
        ValueRef::Real(_) | ValueRef::Blob(_) => Ok(Cell::Int(-1)),
    }
}

/// Returns the cells of a database's row, which may have any values; a value that no row of a store
/// has becomes -1.
pub(crate) fn any_cells_of(alloc: Global, row: &Row) -> Result<Vec<Cell>, AllocError>
    ensures { IfOk result (λ cells. cells.items ≡ map cell_of row.now) }
{
    let mut cells = Vec::new(alloc);
    'columns: for at in 0..row.column_count() {
        if let Ok(value) = row.get_ref(at) {
            cells.push(any_cell_of(alloc, value)?)?;
        }
    }
    Ok(cells)
}
