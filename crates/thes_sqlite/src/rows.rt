//! Parses rows of the database as rows of the tables.
ghost use Rattle.std.specs.Prelude.{◌≡◌, List, map, pos, IfOk, IfSome};
ghost use Rattle.thes_tables.specs.declared.rows.MoveRow.{MoveRow};
ghost use Rattle.thes_tables.specs.Cells.{posting_cells, move_cells};
ghost use Rattle.thes_tables.specs.Tables.{recorded_move};
ghost use Rattle.thes_sql.specs.StoredRows.{value_of, values};
ghost use Rattle.sqlite.specs.Order.{column};
ghost use Rattle.sqlite.specs.declared.types.Value.TheVariants.{Int};
ghost use Rattle.sqlite_value.specs.Value.{owned};

use sqlite::types::ValueRef;
use sqlite::{Error, ErrorCode, Row};
use std::alloc::{AllocError, Global};
use thes_base::data::{Move, Moves};
use thes_base::number::PostNo;
use thes_load_rows::rows::{move_in, posting_in};
use thes_tables::cells::{Cell, CellText};
use thes_tables::rows::{MoveRow, PostingRow};

// Returns a value of the database as a cell; None for a value that no table has (a real, a blob, or
// a text that isn't UTF-8).
fn stored_cell_of(alloc: Global, value: ValueRef<'_>) -> Result<Option<Cell>, AllocError>
    ensures { IfOk result (λ cell. IfSome cell (λ c. value_of c ≡ owned value.entry)) }
{
    match value {
        ValueRef::Null => Ok(Some(Cell::Null)),
        ValueRef::Int(n) => Ok(Some(Cell::Int(n))),
        ValueRef::Text(bytes) => match std::str::from_utf8(bytes) {
            Ok(text) => Ok(Some(Cell::Text(CellText::new(alloc, text)?))),
            Err(_) => Ok(None),
        },
        ValueRef::Real(_) | ValueRef::Blob(_) => Ok(None),
    }
}

// Reads the cells of a row of the database; None if one of its values is a real, a blob, or a text
// that isn't UTF-8.
fn cells_of(alloc: Global, row: &Row) -> Result<Option<Vec<Cell>>, AllocError>
    ensures { IfOk result (λ cells. IfSome cells (λ c. values c.items ≡ row.now)) }
{
    let mut cells = Vec::new(alloc);
    'columns: for at in 0..row.column_count() {
        let Ok(value) = row.get_ref(at) else {
            return Ok(None);
        };
        match stored_cell_of(alloc, value)? {
            Some(cell) => cells.push(cell)?,
            None => return Ok(None),
        }
    }
    Ok(Some(cells))
}

/// Parses a row of table posting. A row of another form, which another program may have written, is
/// the error `DatabaseCorrupt`.
pub(crate) fn read_posting(alloc: Global, row: &Row) -> Result<PostingRow, Error>
    ensures { IfOk result (λ x. row.now ≡ values (posting_cells x)) }
{
    if let Some(cells) = cells_of(alloc, row)? {
        if let Some(found) = posting_in(alloc, cells.as_slice())? {
            return Ok(found);
        }
    }
    Err(Error::SqliteFailure(ErrorCode::DatabaseCorrupt))
}

/// Reads a posting's number from the first column of a row of the database. Another value, which
/// another program may have written, is the error `DatabaseCorrupt`.
pub(crate) fn read_number(row: &Row) -> Result<PostNo, Error>
    ensures { IfOk result (λ n. column row.now 0 ≡ Int (pos n)) }
{
    match row.get_ref(0) {
        Ok(ValueRef::Int(n)) if 1 <= n && n <= 4_294_967_295 => Ok(PostNo::new(n as u32)),
        _ => Err(Error::SqliteFailure(ErrorCode::DatabaseCorrupt)),
    }
}

// Parses a row of table move. A row of another form is the error `DatabaseCorrupt`.
fn read_move(alloc: Global, row: &Row) -> Result<MoveRow, Error>
    ensures { IfOk result (λ x. row.now ≡ values (move_cells x)) }
{
    if let Some(cells) = cells_of(alloc, row)? {
        if let Some(found) = move_in(cells.as_slice()) {
            return Ok(found);
        }
    }
    Err(Error::SqliteFailure(ErrorCode::DatabaseCorrupt))
}

/// Parses rows of table move as the moves of a posting, in their order.
#[tactic(auto, using(crate::proofs::PostingLookUpLemmas::one_step, crate::proofs::PostingLookUpLemmas::same_length, std::proofs::lemmas::List::take_all))]
pub(crate) fn read_moves(alloc: Global, rows: &[Row]) -> Result<Moves, Error>
    ensures { IfOk result (λ moves. (steps : List MoveRow)
        → rows.now ≡ map values (map move_cells steps) → moves ≡ map recorded_move steps) }
{
    let mut moves = Moves::new(alloc);
    for row in rows {
        let step = read_move(alloc, row)?;
        moves.push(Move {
            number: step.number,
            source: step.source,
            target: step.target,
        })?;
    }
    Ok(moves)
}
