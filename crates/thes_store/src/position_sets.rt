//! An index from numbers to the positions of rows, for tables in which many rows share a number.
ghost use Rattle.std.specs.Prelude.{◌≡◌, ℕ, slice_get, IfOk, OnOk};
ghost use Rattle.std.specs.List.Sorted.{IsStrictlySortedBy};
ghost use Rattle.std.specs.Option.{option_copied};
ghost use Rattle.std.specs.Ordering.{nat_cmp};
ghost use Rattle.thes_tables.specs.Tables.{IsIn};
ghost use Rattle.thes_store.specs.PositionSets.{HasPosition, HasSet, KeepsPositions, ArePositions};

use std::alloc::{AllocError, Global};
use std::collections::BTreeSet;

/// For each number, the positions at which its rows may be. A look-up checks the row at a position,
/// so superfluous positions do no harm. The sets are in a vector by number, so memory grows with
/// the greatest number in use; resources and postings are numbered without gaps.
#[derive(Drop)]
pub struct PositionSets {
    alloc: Global,
    sets: Vec<BTreeSet<usize>>,
}

impl PositionSets {
    /// Creates an empty index without allocating.
    pub fn new(alloc: Global) -> PositionSets {
        PositionSets {
            alloc,
            sets: Vec::new(alloc),
        }
    }

    /// Inserts a position under a number, unless the number has it already.
    pub fn insert(&mut self, n: u32, position: usize) -> Result<(), AllocError>
        ensures keeps { KeepsPositions self.old self.new }
        ensures ok { OnOk result (HasPosition self.new n position) }
    {
        self.open(n)?;
        self.insert_in(n, position)
    }

    // Adds empty sets of positions until the number has one; does nothing if it has one already.
    fn open(&mut self, n: u32) -> Result<(), AllocError>
        ensures keeps { KeepsPositions self.old self.new }
        ensures set { OnOk result (HasSet self.new n) }
    {
        'opening: while self.sets.len() <= n as usize {
            self.sets.push(BTreeSet::new(self.alloc))?;
        }
        Ok(())
    }

    // Inserts the position of a row into the set of a number, which must have one.
    fn insert_in(&mut self, n: u32, position: usize) -> Result<(), AllocError>
        requires { HasSet self.old n }
        ensures keeps { KeepsPositions self.old self.new }
        ensures ok { OnOk result (HasPosition self.new n position) }
    {
        if let Some(set) = self.sets.get_mut(n as usize) {
            set.insert(position)?;
        }
        Ok(())
    }

    /// Inserts several positions under a number; if memory runs out, perhaps only some of them.
    pub fn insert_all(&mut self, n: u32, positions: &[usize]) -> Result<(), AllocError>
        ensures keeps { KeepsPositions self.old self.new }
        ensures ok { OnOk result ((position : ℕ) → IsIn position positions.now
            → HasPosition self.new n position) }
    {
        for position in positions {
            self.insert(n, *position)?;
        }
        Ok(())
    }

    /// Returns the positions under a number, or None if it has no set.
    pub fn positions_at(&self, n: u32) -> Option<&BTreeSet<usize>>
        ensures { option_copied result ≡ slice_get self.now.sets.items n }
    {
        self.sets.get(n as usize)
    }

    /// Returns the positions under a number in ascending order, as a list.
    pub fn positions(&self, n: u32) -> Result<Vec<usize>, AllocError>
        ensures { IfOk result (λ positions. ArePositions self.now n positions.items) }
    {
        match self.positions_at(n) {
            Some(set) => {
                let positions = collect_positions(self.alloc, set)?;
                Ok(positions)
            }
            None => Ok(Vec::new(self.alloc)),
        }
    }
}

// Returns the positions of rows in a set as a list, in ascending order.
fn collect_positions(alloc: Global, set: &BTreeSet<usize>) -> Result<Vec<usize>, AllocError>
    ensures positions { IfOk result (λ positions. positions.items ≡ set.now.keys) }
    ensures rises { IsStrictlySortedBy nat_cmp set.now.keys }
{
    let mut positions = Vec::new(alloc);
    positions.extend(set.iter().copied())?;
    Ok(positions)
}
