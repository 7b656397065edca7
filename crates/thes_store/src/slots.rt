//! A list of rows in insertion order, with an index by number, from which rows can be removed.
ghost use Rattle.std.specs.Prelude.{◌≡◌, ◌<◌, ◌+◌, ◌^◌, ◌∷◌, [], ℕ, Option, Bool, None, true, false, length, slice_get, vec_len, option_map, Some, IfSome, IfNone, IfOk, OnOk};
ghost use Rattle.thes_store.specs.AddedRow.{rows_added_by};
ghost use Rattle.thes_store.specs.PositionLists.{HasListedPosition, KeepsOtherPositions};
ghost use Rattle.thes_store.specs.RowsAtPositions.{rows_after_change_at, KeepsRoom};
ghost use Rattle.thes_store.specs.Slots.{rows_in, AreIndexedBy, AreExpected, IsReady, is_same_row};
ghost use Rattle.thes_store.specs.Slots.{AppendsRow, RemovesRow, GrowsIndex};

use crate::added_row::{AddedRow, count_added};
use crate::position_lists::PositionLists;
use std::alloc::{AllocError, Global};
use thes_tables::change::Change;

/// A row that is indexed under a number, such as a label under that of its owner.
pub trait IndexedRow: AddedRow {
    // The number under which the row is indexed.
    ghost number_of: { Self → ℕ };

    // Whether two rows are equal.
    ghost same: { Self → Self → Bool };

    /// Returns the number under which the row is indexed.
    fn index_number(&self) -> u32
        ensures { result ≡ number_of self.now };

    /// Returns the number under which the row that the change inserts into this table is indexed,
    /// or None if it inserts none.
    fn number_of_added_row(change: &Change) -> Option<u32>
        ensures { result ≡ option_map number_of (Self.added_row change.now) };

    /// Checks whether both rows are equal.
    fn is_same(&self, other: &Self) -> bool
        ensures { result ≡ same self.now other.now };

    // Equal rows are indexed under the same number.
    ghost agree: { (x y : Self) → same x y ≡ true → number_of x ≡ number_of y };
}

/// Rows in insertion order, with an index. A removed row leaves a gap, so that the positions of
/// other rows don't change.
#[derive(Drop)]
pub struct Slots<T> {
    rows: Vec<Option<T>>,
    index: PositionLists,
}

impl<T: IndexedRow + Drop> Slots<T> {
    /// Creates an empty list without allocating.
    pub fn new(alloc: Global) -> Slots<T>
        ensures rows { rows_in result ≡ [] }
        ensures found { AreIndexedBy T.number_of result }
    {
        Slots {
            rows: Vec::new(alloc),
            index: PositionLists::new(alloc),
        }
    }

    /// Returns the rows in their order, with None for each gap.
    pub fn as_slice(&self) -> &[Option<T>]
        ensures { result.now ≡ self.now.rows.items }
    {
        self.rows.as_slice()
    }

    /// Reserves memory for the rows that the changes insert, and indexes their positions, so that
    /// inserting them can't fail.
    pub fn make_room(&mut self, changes: &[Change]) -> Result<(), AllocError>
        requires { vec_len self.old.rows + length changes.now < 2 ^ 64 }
        ensures rows { rows_in self.new ≡ rows_in self.old }
        ensures found { AreIndexedBy T.number_of self.old → AreIndexedBy T.number_of self.new }
        ensures ready { OnOk result
            (IsReady T.number_of self.new (rows_added_by T.added_row changes.now)) }
    {
        self.rows.try_reserve(count_added::<T>(changes))?;
        self.expect(changes)
    }

    // Indexes the positions of the rows that the changes will insert.
    fn expect(&mut self, changes: &[Change]) -> Result<(), AllocError>
        requires { vec_len self.old.rows + length changes.now < 2 ^ 64 }
        ensures keeps { GrowsIndex self.old self.new }
        ensures ok { OnOk result
            (AreExpected T.number_of self.new (rows_added_by T.added_row changes.now)) }
    {
        let mut position = self.rows.len();
        for change in changes {
            position = self.expect_one(change, position)?;
        }
        Ok(())
    }

    // Indexes the position as that of the row that a change will insert, and returns the next
    // position. If the change inserts no row into this table, does nothing and returns the same
    // position.
    fn expect_one(&mut self, change: &Change, position: usize) -> Result<usize, AllocError>
        requires { position + 1 < 2 ^ 64 }
        ensures keeps { GrowsIndex self.old self.new }
        ensures ok { OnOk result ((row : T) → T.added_row change.now ≡ Some row
            → HasListedPosition self.new.index (T.number_of row) position) }
        ensures next { IfOk result (λ next. next
            ≡ position + length (rows_added_by T.added_row (change.now ∷ []))) }
    {
        let Some(number) = T::number_of_added_row(change) else {
            return Ok(position);
        };
        self.index.insert(number, position)?;
        Ok(position + 1)
    }

    /// Appends a row whose memory is reserved and whose position is indexed; never fails.
    pub fn push(&mut self, row: T)
        requires { IsReady T.number_of self.old (row ∷ []) }
        ensures { AppendsRow T.number_of row self.old self.new }
    {
        self.rows.push_reserved(Some(row));
    }

    /// Removes all rows that are equal to this one, and leaves gaps at their positions.
    pub fn remove(&mut self, row: &T)
        requires { AreIndexedBy T.number_of self.old }
        ensures { RemovesRow T.number_of T.same row.now self.old self.new }
    {
        'removing: while let Some(position) = self.position_of(row) {
            self.empty(row.index_number(), position);
        }
    }

    // Returns the position of a row that is equal to this one, if there is one.
    fn position_of(&self, row: &T) -> Option<usize>
        ensures some { IfSome result
            (λ position. is_same_row T.same (slice_get self.now.rows.items position) row.now
            ≡ true) }
        ensures none { IfNone result (AreIndexedBy T.number_of self.now → (position : ℕ)
            → is_same_row T.same (slice_get self.now.rows.items position) row.now ≡ false) }
    {
        for position in self.index.positions(row.index_number()) {
            if self.has(*position, row) {
                return Some(*position);
            }
        }
        None
    }

    // Checks whether the row at a position is equal to this one; false for a gap and past the end.
    fn has(&self, position: usize, row: &T) -> bool
        ensures { result ≡ is_same_row T.same (slice_get self.now.rows.items position) row.now }
    {
        match self.rows.get(position) {
            Some(Some(there)) => there.is_same(row),
            _ => false,
        }
    }

    // Removes the row at a position, and its position from the index under this number.
    fn empty(&mut self, number: u32, position: usize)
        ensures rows { self.new.rows.items
            ≡ rows_after_change_at (λ slot. None) position self.old.rows.items }
        ensures room { KeepsRoom self.old.rows self.new.rows }
        ensures index { KeepsOtherPositions position self.old.index self.new.index }
    {
        if let Some(slot) = self.rows.get_mut(position) {
            *slot = None;
        }
        self.index.remove(number, position);
    }
}
