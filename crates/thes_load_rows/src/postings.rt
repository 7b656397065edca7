//! The rows of table posting, and their checks.
ghost use Rattle.std.specs.Prelude.{◌≤◌, ◌<◌, ◌↔◌, List, IsTrue, IfOk, length, map, ◌^◌, ◌≡◌, []};
ghost use Rattle.thes_base.specs.declared.data.Resource.{Resource};
ghost use Rattle.thes_tables.specs.declared.rows.PostingRow.{PostingRow};
ghost use Rattle.thes_load_rules.specs.Rules.{PostingRule};
ghost use Rattle.thes_load_rows.specs.Forms.{HasPostingForm};
ghost use Rattle.thes_tables.specs.Cells.{posting_cells};
ghost use Rattle.thes_load_rows.specs.ReadResults.{ReadResult};
ghost use Rattle.thes_load_rows.specs.PostingPlaces.{ArePlaced};
ghost use Rattle.thes_load_rows.specs.RowsSoFar.{TakeResult, HasPostings, HasMoves, IsNextPosting, KeyInsertResult};

use crate::ends::{is_concept, is_live};
use crate::moves::MoveLoad;
use crate::rows::posting_in;
use std::alloc::{AllocError, Global};
use std::collections::BTreeSet;
use thes_base::data::Resource;
use thes_base::number::ResNo;
use thes_base::text::Key;
use thes_post::loaded_counts::LoadedCounts;
use thes_tables::cells::Cell;
use thes_tables::rows::PostingRow;

/// The rows of table posting read so far: their keys, first concepts and places, and the counts of
/// their postings.
#[derive(Drop)]
pub struct PostingLoad {
    pub keys: BTreeSet<Key>,
    pub firsts: Vec<ResNo>,
    pub stored_places: Vec<ResNo>,
    pub tally: LoadedCounts,
    ghost few: { length firsts.items < 2 ^ 32 },
    ghost told: { tally.accepted ≤ length firsts.items },
}

/// The place that table posting states for each posting, and the counts of postings.
#[derive(Drop)]
pub struct PlacedPostings {
    pub stored_places: Vec<ResNo>,
    pub tally: LoadedCounts,
}

// Checks whether a row of table posting may be the next one after `taken` rows, if its key is new:
// it has the next number, its first concept and its place are concepts, and the place is live
// unless the posting was withdrawn.
fn is_next(resources: &[Resource], taken: usize, row: &PostingRow) -> bool
    requires { taken < usize.MAX }
    ensures { IsTrue result ↔ IsNextPosting resources.now taken row.now }
{
    row.number.get() as usize == taken + 1
        && is_concept(resources, row.first)
        && is_concept(resources, row.place)
        && (row.withdrawn || is_live(resources, row.place))
}

// Inserts the key of a posting, and returns whether no row before has it.
fn add_key(keys: &mut BTreeSet<Key>, key: Key) -> Result<bool, AllocError>
    ensures { IfOk result (KeyInsertResult keys.old.keys keys.new.keys key) }
{
    let fresh = keys.insert(key)?;
    Ok(fresh)
}

impl PostingLoad {
    /// Creates a load without rows.
    #[tactic(auto, using(crate::proofs::PostingLoadLemmas::postings_none))]
    pub fn new(alloc: Global) -> PostingLoad
        ensures { (resources : List Resource)
            → HasPostings resources result.keys.keys result.firsts.items
            result.stored_places.items result.tally [] }
    {
        PostingLoad {
            keys: BTreeSet::new(alloc),
            firsts: Vec::new(alloc),
            stored_places: Vec::new(alloc),
            tally: LoadedCounts::new(alloc),
        }
    }

    /// Adds the next row of table posting; returns false if it can't follow the rows added so far
    /// in a table that meets its rule.
    pub fn take(&mut self, resources: &[Resource], row: PostingRow) -> Result<bool, AllocError>
        requires { HasPostingForm row }
        ensures { IfOk result (λ good. (rows : List PostingRow)
            → HasPostings resources.now self.old.keys.keys self.old.firsts.items
            self.old.stored_places.items self.old.tally rows
            → TakeResult (HasPostings resources.now self.new.keys.keys self.new.firsts.items
            self.new.stored_places.items self.new.tally)
            (PostingRule resources.now) rows row good) }
    {
        if is_next(resources, self.firsts.len(), &row) {
            let first = row.first;
            let place = row.place;
            let withdrawn = row.withdrawn;
            if add_key(&mut self.keys, row.key)? {
                self.firsts.push(first)?;
                self.stored_places.push(place)?;
                self.tally.count_posting(place, withdrawn)?;
                Ok(true)
            } else {
                Ok(false)
            }
        } else {
            Ok(false)
        }
    }

    /// Parses the next row of table posting and adds it; returns false if the row can't follow the
    /// rows read so far in a table that meets its rule.
    pub fn read(
        &mut self,
        alloc: Global,
        resources: &[Resource],
        cells: &[Cell],
    ) -> Result<bool, AllocError>
        requires { length resources.now < 2 ^ 32 }
        ensures { IfOk result (λ good. (rows : List PostingRow)
            → HasPostings resources.now self.old.keys.keys self.old.firsts.items
            self.old.stored_places.items self.old.tally rows
            → ReadResult (map posting_cells)
            (HasPostings resources.now self.new.keys.keys self.new.firsts.items
            self.new.stored_places.items self.new.tally)
            (PostingRule resources.now) rows cells.now good) }
    {
        match posting_in(alloc, cells)? {
            Some(row) => {
                let good = self.take(resources, row)?;
                Ok(good)
            }
            None => Ok(false),
        }
    }

    /// Splits the load after the last row of table posting. The first result has the first
    /// concepts, at which moves start; the second has the counts, and the places at which moves
    /// must end.
    pub fn close(self) -> (MoveLoad, PlacedPostings)
        ensures { (resources : List Resource) (rows : List PostingRow)
            → HasPostings resources self.keys.keys self.firsts.items
            self.stored_places.items self.tally rows
            → HasMoves resources rows result.0.taken result.0.places.items []
            × ArePlaced result.1 rows }
    {
        let moves = MoveLoad {
            places: self.firsts,
            taken: 0,
        };
        let placed = PlacedPostings {
            stored_places: self.stored_places,
            tally: self.tally,
        };
        (moves, placed)
    }
}
