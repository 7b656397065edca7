//! The indexes of the tables in memory, by which look-ups find postings and moves.
ghost use Rattle.std.specs.Prelude.{◌≡◌, ◌≢◌, ◌+◌, ◌<◌, ◌^◌, ℕ, length, IfOk, OnOk};
ghost use Rattle.thes_tables.specs.Tables.{Tables};
ghost use Rattle.thes_tables.specs.Rows.{ChangeFits, DeltaFits};
ghost use Rattle.thes_store.specs.Covers.{Covers, CoversBoth, CoversChange, IsIndexedAt, IndexesGrow, IndexesGrowBy, added_move_count};

use crate::keys::Keys;
use crate::position_sets::PositionSets;
use std::alloc::{AllocError, Global};
use thes_tables::change::Change;
use thes_tables::rows::PostingRow;

/// The positions of postings by key and by place, and of moves by posting.
#[derive(Drop)]
pub struct PostingIndexes {
    pub keys: Keys,
    pub standing: PositionSets,
    pub moves: PositionSets,
}

impl PostingIndexes {
    /// Creates empty indexes without allocating.
    pub fn new(alloc: Global) -> PostingIndexes {
        PostingIndexes {
            keys: Keys::new(alloc),
            standing: PositionSets::new(alloc),
            moves: PositionSets::new(alloc),
        }
    }

    /// Inserts the positions of the posting or move that a change will insert, and of the postings
    /// that the change will assign to another concept. A move that it inserts will have position
    /// `step`. Returns the position of the next move.
    pub fn cover(
        &mut self,
        alloc: Global,
        change: &Change,
        step: usize,
    ) -> Result<usize, AllocError>
        requires { step + 1 < 2 ^ 64 }
        ensures grows { IndexesGrow change.now self.old self.new }
        ensures reaches { OnOk result ((t : Tables) → ChangeFits change.now t → Covers self.old t
            → CoversChange self.new change.now t step) }
        ensures next { IfOk result (λ next. next ≡ step + added_move_count change.now) }
    {
        match change {
            Change::AddPosting(row) => self.cover_posting(alloc, row)?,
            Change::SetPlace(n, place) => {
                self.standing.insert(place.get(), n.get() as usize - 1)?;
            }
            Change::MoveAll(source, target) => {
                let positions = self.standing.positions(source.get())?;
                self.standing
                    .insert_all(target.get(), positions.as_slice())?;
            }
            Change::AddMove(row) => {
                self.moves.insert(row.posting.get(), step)?;
                return Ok(step + 1);
            }
            _ => {}
        }
        Ok(step)
    }

    // Inserts the position of a new posting, under its key and under its place.
    fn cover_posting(&mut self, alloc: Global, row: &PostingRow) -> Result<(), AllocError>
        ensures grows { IndexesGrowBy (λ key. key ≢ row.now.key) self.old self.new }
        ensures reaches { OnOk result ((i : ℕ) → row.now.number ≡ i + 1
            → IsIndexedAt self.new row.now i) }
    {
        let position = row.number.get() as usize - 1;
        self.standing.insert(row.place.get(), position)?;
        self.keys.insert(alloc, &row.key, position)
    }
}

/// Inserts the positions of the postings and moves that the changes will insert, and of the
/// postings that they will assign to other concepts. Table move has `moves` rows. If memory runs
/// out, some of these positions may remain; they do no harm.
pub fn cover_all(
    indexes: &mut PostingIndexes,
    alloc: Global,
    changes: &[Change],
    moves: usize,
) -> Result<(), AllocError>
    requires { moves + length changes.now + 1 < 2 ^ 64 }
    ensures { (t : Tables) → DeltaFits changes.now t → length t.move ≡ moves → Covers indexes.old t
        → CoversBoth indexes.new changes.now t result }
{
    let mut step = moves;
    for change in changes {
        step = indexes.cover(alloc, change, step)?;
    }
    Ok(())
}
