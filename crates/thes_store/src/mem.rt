//! Storage of the tables in memory, without a file.
ghost use Rattle.std.specs.Prelude.{◌≡◌, ◌≢◌, ◌++◌, ℕ, map, slice_get, option_copied, Some, IfSome, IfNone, IfOk, IfErr, OnOk};
ghost use Rattle.thes_base.specs.declared.fault.Fault.{Fault};
ghost use Rattle.thes_tables.specs.declared.rows.PostingRow.{PostingRow};
ghost use Rattle.thes_tables.specs.Tables.{IsIn, is_assigned_row, empty_tables, recorded_move};
ghost use Rattle.thes_store.specs.Keys.{KeyHasPosition};
ghost use Rattle.thes_store.specs.RowsAtPositions.{is_move_of, filtered_option, rows_at_positions};
ghost use Rattle.thes_store.specs.Reading.{IsPostingOfKey, row_number};
ghost use Rattle.thes_store.specs.Sinks.{SinkOutcome};

use crate::keeper::{Keeper, Posting};
use crate::keys::Keys;
use crate::posting_indexes::{PostingIndexes, cover_all};
use crate::row_encoding::yield_all;
use crate::sink::{PostingSink, RowSink};
use crate::tables::MemTables;
use std::alloc::{AllocError, Global};
use std::marker::Model;
use thes_base::data::{Move, Moves};
use thes_base::fault::Fault;
use thes_base::number::{PostNo, ResNo};
use thes_base::text::{Base, Key};
use thes_tables::delta::Delta;
use thes_tables::rows::{MoveRow, PostingRow};

/// Storage with its tables and indexes in memory. Its only fault is running out of memory.
#[derive(Drop)]
pub struct MemKeeper {
    alloc: Global,
    tables: MemTables,
    indexes: PostingIndexes,
}

impl Model for MemKeeper {
    ghost use Rattle.std.specs.Coded.{codes};
    ghost use Rattle.thes_tables.specs.Tables.{Tables};
    ghost use Rattle.thes_store.specs.Covers.{Covers};
    ghost use Rattle.thes_store.specs.Room.{tables_in_memory, AllIndexed};

    ghost Value = { Tables };

    ghost coded = { Prim.hlevel codes };

    ghost view = { λ a. tables_in_memory a.tables };

    ghost invariant = { λ a. Covers a.indexes (tables_in_memory a.tables) × AllIndexed a.tables };
}

impl MemKeeper {
    /// Creates the storage of a new store: the base, and tables without rows.
    pub fn new(alloc: Global, base: Base) -> MemKeeper
        ensures { result ≡ empty_tables base }
    {
        MemKeeper {
            alloc,
            tables: MemTables::new(alloc, base),
            indexes: PostingIndexes::new(alloc),
        }
    }
}

// Returns the posting at a position, None past the end.
fn posting_at(rows: &[PostingRow], position: usize) -> Option<&PostingRow>
    ensures { option_copied result ≡ slice_get rows.now position }
{
    rows.get(position)
}

// Returns the posting at a position if it has the key; under a digest, the index may have the
// position of another key's posting.
fn row_with_key<'a>(
    rows: &'a [PostingRow],
    position: Option<usize>,
    key: &Key,
) -> Option<&'a PostingRow>
    ensures some { IfSome result (λ row. IsIn row.now rows.now × (row.now.key ≡ key.now)) }
    ensures none { IfNone result ((i : ℕ) (row : PostingRow) → position ≡ Some i
        → slice_get rows.now i ≡ Some row → row.key ≢ key.now) }
{
    let row = posting_at(rows, position?)?;
    if row.key == *key { Some(row) } else { None }
}

// Returns the posting that has the key, if there is one. The index must have each row's position
// under its key.
fn row_of_key<'a>(rows: &'a [PostingRow], keys: &Keys, key: &Key) -> Option<&'a PostingRow>
    ensures { ((i : ℕ) (row : PostingRow) → slice_get rows.now i ≡ Some row
        → KeyHasPosition keys.now row.key i) → IsPostingOfKey key.now rows.now
        (option_copied result) }
{
    match row_with_key(rows, keys.position_by_digest(key), key) {
        Some(row) => Some(row),
        None => row_with_key(rows, keys.position_by_text(key), key),
    }
}

// Allocates a copy of a posting, if there is one.
fn copy_row(alloc: Global, row: Option<&PostingRow>) -> Result<Option<PostingRow>, AllocError>
    ensures { IfOk result (λ copy. copy ≡ option_copied row.entry) }
{
    match row {
        Some(row) => Ok(Some(row.try_clone(alloc)?)),
        None => Ok(None),
    }
}

// Returns the move at a position, None past the end.
fn move_at(rows: &[MoveRow], position: usize) -> Option<&MoveRow>
    ensures { option_copied result ≡ slice_get rows.now position }
{
    rows.get(position)
}

// Returns the moves at these positions that are moves of the posting, in the order of the
// positions.
fn moves_at(
    alloc: Global,
    rows: &[MoveRow],
    positions: &[usize],
    posting: PostNo,
) -> Result<Moves, AllocError>
    ensures { IfOk result (λ moves. moves
        ≡ map recorded_move (rows_at_positions (is_move_of posting) rows.now positions.now)) }
{
    let mut moves = Moves::new(alloc);
    for position in positions {
        push_move(&mut moves, move_at(rows, *position), posting)?;
    }
    Ok(moves)
}

// Appends the move in `row`, unless `row` is None or the move is that of another posting.
fn push_move(moves: &mut Moves, row: Option<&MoveRow>, posting: PostNo) -> Result<(), AllocError>
    ensures { OnOk result (moves.new
        ≡ moves.old
        ++ map recorded_move (filtered_option (is_move_of posting) (option_copied row.entry))) }
{
    match row {
        Some(row) if row.posting == posting => moves.push(Move {
            number: row.number,
            source: row.source,
            target: row.target,
        }),
        _ => Ok(()),
    }
}

// Appends the number of the posting in `row`, unless `row` is None or the posting isn't assigned to
// the concept.
fn push_number(
    numbers: &mut Vec<PostNo>,
    row: Option<&PostingRow>,
    concept: ResNo,
) -> Result<(), AllocError>
    ensures { OnOk result (numbers.new.items ≡ numbers.old.items
        ++ map row_number (filtered_option (is_assigned_row concept) (option_copied row.entry))) }
{
    match row {
        Some(row) if !row.withdrawn && row.place == concept => {
            numbers.push(row.number)?;
            Ok(())
        }
        _ => Ok(()),
    }
}

// Returns the numbers of the postings at these positions that are assigned to the concept, in the
// order of the positions.
fn numbers_at(
    alloc: Global,
    rows: &[PostingRow],
    positions: &[usize],
    concept: ResNo,
) -> Result<Vec<PostNo>, AllocError>
    ensures { IfOk result (λ numbers. numbers.items
        ≡ map row_number (rows_at_positions (is_assigned_row concept) rows.now positions.now)) }
{
    let mut numbers = Vec::new(alloc);
    for position in positions {
        push_number(&mut numbers, posting_at(rows, *position), concept)?;
    }
    Ok(numbers)
}

// Passes the posting in `row` to a sink, unless `row` is None or the posting isn't assigned to the
// concept.
fn yield_if_assigned<S: PostingSink>(
    row: Option<&PostingRow>,
    concept: ResNo,
    sink: &mut S,
) -> Result<(), Fault>
    ensures yields { SinkOutcome S.gives sink.old
        (filtered_option (is_assigned_row concept) (option_copied row.entry))
        result sink.new }
    ensures err { IfErr result (λ fault. fault ≡ Fault.OutOfMemory) }
{
    match row {
        Some(row) if !row.withdrawn && row.place == concept => sink.posting(row),
        _ => Ok(()),
    }
}

// Passes to a sink the postings at these positions that are assigned to the concept, in the order
// of the positions.
fn yield_postings<S: PostingSink>(
    rows: &[PostingRow],
    positions: &[usize],
    concept: ResNo,
    sink: &mut S,
) -> Result<(), Fault>
    ensures yields { SinkOutcome S.gives sink.old
        (rows_at_positions (is_assigned_row concept) rows.now positions.now)
        result sink.new }
    ensures err { IfErr result (λ fault. fault ≡ Fault.OutOfMemory) }
{
    for position in positions {
        if let Err(fault) = yield_if_assigned(posting_at(rows, *position), concept, sink) {
            return Err(fault);
        }
    }
    Ok(())
}

/// Storage in memory is always up, and counts no failures.
impl Keeper for MemKeeper {
    ghost use Rattle.std.specs.Prelude.{◌≡◌};
    ghost use Rattle.thes_tables.specs.Cells.{cells_of_tables};

    ghost view = { λ k. record { rows = cells_of_tables k; is_up = Unit {0}; failures = 0 } };

    ghost is_open = { λ k. Unit {0} };

    ghost finds = { λ k raw. raw ≡ cells_of_tables k };

    fn failures(&self) -> u64 {
        0
    }

    #[tactic(auto, using(crate::proofs::FoundLemmas::passes_known))]
    fn load<S: RowSink>(&mut self, sink: &mut S) -> Result<(), Fault> {
        yield_all(self.alloc, &self.tables, sink)
    }

    fn commit(&mut self, delta: Delta) -> Result<(), Fault> {
        let changes = delta.into_changes();
        let given = changes.as_slice();
        // All memory is allocated before any row changes, so that the changes can't fail
        // (DECISIONS.md, Storage).
        self.tables.make_room(given)?;
        let moves = self.tables.steps.len();
        cover_all(&mut self.indexes, self.alloc, given, moves)?;
        self.tables.apply_changes(changes, &self.indexes.standing);
        Ok(())
    }

    fn find(&mut self, key: &Key) -> Result<Option<PostingRow>, Fault> {
        let rows = self.tables.posting.as_slice();
        Ok(copy_row(self.alloc, row_of_key(rows, &self.indexes.keys, key))?)
    }

    fn posting(&mut self, number: PostNo) -> Result<Option<Posting>, Fault> {
        let position = number.get() as usize - 1;
        let Some(row) = posting_at(self.tables.posting.as_slice(), position) else {
            return Ok(None);
        };
        let row = row.try_clone(self.alloc)?;
        let positions = self.indexes.moves.positions(number.get())?;
        let moves = moves_at(
            self.alloc,
            self.tables.steps.as_slice(),
            positions.as_slice(),
            number,
        )?;
        Ok(Some(Posting { row, moves }))
    }

    fn row(&mut self, number: PostNo) -> Result<Option<PostingRow>, Fault> {
        let row = posting_at(self.tables.posting.as_slice(), number.get() as usize - 1);
        Ok(copy_row(self.alloc, row)?)
    }

    fn standing<S: PostingSink>(&mut self, concept: ResNo, sink: &mut S) -> Result<(), Fault> {
        let positions = self.indexes.standing.positions(concept.get())?;
        yield_postings(
            self.tables.posting.as_slice(),
            positions.as_slice(),
            concept,
            sink,
        )
    }

    fn standing_numbers(&mut self, concept: ResNo) -> Result<Vec<PostNo>, Fault> {
        let at_concept = self.indexes.standing.positions(concept.get())?;
        let rows = self.tables.posting.as_slice();
        Ok(numbers_at(self.alloc, rows, at_concept.as_slice(), concept)?)
    }
}
