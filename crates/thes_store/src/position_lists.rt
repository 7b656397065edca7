//! An index from numbers to the positions of rows, for tables in which few rows share a number.
ghost use Rattle.std.specs.Prelude.{◌≡◌, ◌≢◌, ◌++◌, ◌∷◌, [], ℕ, true, false, OnOk, OnErr};
ghost use Rattle.thes_store.specs.PositionLists.{has_position, listed_positions, HasListedPosition, HasPositionList, KeepsListedPositions, KeepsOtherPositions};

use std::alloc::{AllocError, Global};
use std::marker::Model;

/// For each number, a list of the positions at which its rows may be. A look-up checks the row at a
/// position, so superfluous positions do no harm. The lists are in a vector by number, so memory
/// grows with the greatest number in use; resources are numbered without gaps.
#[derive(Drop)]
pub struct PositionLists {
    alloc: Global,
    lists: Vec<RowPositions>,
}

/// The positions of the rows of one number, in the order in which they were inserted.
#[derive(Drop)]
pub struct RowPositions {
    positions: Vec<usize>,
}

impl Model for RowPositions {
    ghost use Rattle.std.specs.Prelude.{List, ℕ};

    ghost Value = { List ℕ };

    ghost view = { λ a. a.positions.items };
}

impl RowPositions {
    // Appends the position of a row, even if the list has it already.
    fn push(&mut self, position: usize) -> Result<(), AllocError>
        ensures keeps { (q : ℕ) → has_position q self.old ≡ true → has_position q self.new ≡ true }
        ensures ok { OnOk result (has_position position self.new ≡ true) }
    {
        append(&mut self.positions, position)
    }

    // Removes the position of a row, as often as the list has it.
    fn remove(&mut self, position: usize)
        ensures keeps { (q : ℕ) → q ≢ position → has_position q self.old ≡ true
            → has_position q self.new ≡ true }
        ensures gone { has_position position self.new ≡ false }
    {
        self.positions.retain(|q| *q != position);
    }

    // Returns the positions of the rows, in the order in which they were inserted.
    fn as_slice(&self) -> &[usize]
        ensures { result.now ≡ self.now }
    {
        self.positions.as_slice()
    }
}

impl PositionLists {
    /// Creates an empty index without allocating.
    pub fn new(alloc: Global) -> PositionLists {
        PositionLists {
            alloc,
            lists: Vec::new(alloc),
        }
    }

    /// Inserts a position under a number.
    pub fn insert(&mut self, n: u32, position: usize) -> Result<(), AllocError>
        ensures keeps { KeepsListedPositions self.old self.new }
        ensures ok { OnOk result (HasListedPosition self.new n position) }
    {
        self.open(n)?;
        self.insert_in(n, position)
    }

    // Adds empty lists of positions until the number has one; does nothing if it has one already.
    fn open(&mut self, n: u32) -> Result<(), AllocError>
        ensures keeps { KeepsListedPositions self.old self.new }
        ensures list { OnOk result (HasPositionList self.new n) }
    {
        'opening: while self.lists.len() <= n as usize {
            self.lists.push(RowPositions {
                positions: Vec::new(self.alloc),
            })?;
        }
        Ok(())
    }

    // Appends the position of a row to the list of a number, which must have one.
    fn insert_in(&mut self, n: u32, position: usize) -> Result<(), AllocError>
        requires { HasPositionList self.old n }
        ensures keeps { KeepsListedPositions self.old self.new }
        ensures ok { OnOk result (HasListedPosition self.new n position) }
    {
        if let Some(list) = self.lists.get_mut(n as usize) {
            list.push(position)?;
        }
        Ok(())
    }

    /// Removes a position from the list of a number, if it is there.
    pub fn remove(&mut self, n: u32, position: usize)
        ensures keeps { KeepsOtherPositions position self.old self.new }
        ensures gone { ¬ HasListedPosition self.new n position }
    {
        if let Some(list) = self.lists.get_mut(n as usize) {
            list.remove(position);
        }
    }

    /// Returns the positions under a number.
    pub fn positions(&self, n: u32) -> &[usize]
        ensures { result.now ≡ listed_positions self.now n }
    {
        match self.lists.get(n as usize) {
            Some(list) => list.as_slice(),
            None => &[],
        }
    }
}

// Appends a position to a list. A full list of n positions gets room for 3 + n / 4 more, since the
// allocator has no block for fewer than three.
fn append(positions: &mut Vec<usize>, position: usize) -> Result<(), AllocError>
    ensures ok { OnOk result (positions.new.items ≡ positions.old.items ++ position ∷ []) }
    ensures err { OnErr result (positions.new.items ≡ positions.old.items) }
{
    if positions.len() == positions.capacity() {
        positions.reserve_exact(3 + positions.len() / 4)?;
    }
    positions.push(position)?;
    Ok(())
}
