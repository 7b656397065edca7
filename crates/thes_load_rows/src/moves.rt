//! The rows of table move, and the check that they lead postings to their places.
ghost use Rattle.std.specs.Prelude.{◌≡◌, ◌<◌, ◌↔◌, List, IsTrue, length, map, ◌^◌};
ghost use Rattle.thes_base.specs.declared.data.Resource.{Resource};
ghost use Rattle.thes_base.specs.Resources.{entry_at};
ghost use Rattle.thes_tables.specs.declared.rows.PostingRow.{PostingRow};
ghost use Rattle.thes_tables.specs.declared.rows.MoveRow.{MoveRow};
ghost use Rattle.thes_load_rules.specs.Rules.{PostingRule, MoveRule};
ghost use Rattle.thes_load_rows.specs.Forms.{HasMoveForm};
ghost use Rattle.thes_tables.specs.Cells.{move_cells};
ghost use Rattle.thes_load_rows.specs.ReadResults.{ReadResult};
ghost use Rattle.thes_load_rows.specs.RowsSoFar.{TakeResult, HasMoves, IsNextMove, HasStoredPlaces};

use crate::ends::is_concept;
use crate::rows::move_in;
use thes_base::data::Resource;
use thes_base::number::{PostNo, ResNo};
use thes_tables::cells::Cell;
use thes_tables::rows::MoveRow;

/// The number of rows of table move read so far, and the place of each posting after their moves.
#[derive(Drop)]
pub struct MoveLoad {
    pub places: Vec<ResNo>,
    pub taken: u64,
    ghost few: { taken < 2 ^ 32 },
}

// Returns the place of a posting after the moves read so far; None if no posting has the number.
fn place_at(places: &[ResNo], number: PostNo) -> Option<ResNo>
    ensures { result ≡ entry_at places.now number }
{
    places.get(number.get() as usize - 1).copied()
}

impl MoveLoad {
    // Checks whether a row of table move may be the next one: it has the next number, starts at its
    // posting's place after the moves so far, and ends at another concept.
    fn is_next(&self, resources: &[Resource], step: &MoveRow) -> bool
        ensures { IsTrue result
            ↔ IsNextMove resources.now self.now.places.items self.now.taken step.now }
    {
        u64::from(step.number.get()) == self.taken + 1
            && place_at(self.places.as_slice(), step.posting) == Some(step.source)
            && step.source != step.target
            && is_concept(resources, step.target)
    }

    /// Applies a move to the place of its posting; changes nothing and returns false if the move
    /// can't be the next one.
    #[tactic(auto, using(thes_base::proofs::NumberedLemmas::numbered_bound))]
    pub fn take(&mut self, resources: &[Resource], step: &MoveRow) -> bool
        requires { HasMoveForm step.now }
        ensures { (postings : List PostingRow) (rows : List MoveRow)
            → HasMoves resources.now postings self.old.taken self.old.places.items rows
            → TakeResult (HasMoves resources.now postings self.new.taken self.new.places.items)
            (MoveRule resources.now postings) rows step.now result }
    {
        if self.is_next(resources, step) {
            self.places[step.posting.get() as usize - 1] = step.target;
            self.taken += 1;
            true
        } else {
            false
        }
    }

    /// Parses the next row of table move and applies its move; returns false if the row can't
    /// follow the rows read so far in a table that meets its rule.
    pub fn read(&mut self, resources: &[Resource], cells: &[Cell]) -> bool
        requires { length resources.now < 2 ^ 32 }
        ensures { (postings : List PostingRow) (rows : List MoveRow)
            → PostingRule resources.now postings
            → HasMoves resources.now postings self.old.taken self.old.places.items rows
            → ReadResult (map move_cells)
            (HasMoves resources.now postings self.new.taken self.new.places.items)
            (MoveRule resources.now postings) rows cells.now result }
    {
        match move_in(cells) {
            Some(row) => self.take(resources, &row),
            None => false,
        }
    }

    /// Checks whether the moves lead each posting to its place in `stored_places`, which comes from
    /// table posting.
    pub fn close(&self, stored_places: &[ResNo]) -> bool
        ensures { (resources : List Resource) (postings : List PostingRow) (rows : List MoveRow)
            → HasMoves resources postings self.now.taken self.now.places.items rows
            → stored_places.now ≡ map (λ (p : PostingRow). p.place) postings
            → IsTrue result ↔ MoveRule resources postings rows }
    {
        has_stored_places(self.places.as_slice(), stored_places)
    }
}

// Checks whether each stored place is at the same index in `places`.
fn has_stored_places(places: &[ResNo], stored_places: &[ResNo]) -> bool
    ensures { IsTrue result ↔ HasStoredPlaces places.now stored_places.now }
{
    for i in 0..stored_places.len() {
        if places.get(i).copied() != Some(stored_places[i]) {
            return false;
        }
    }
    true
}
