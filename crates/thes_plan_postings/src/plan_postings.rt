//! The postings that the requests of a plan have added, moved or withdrawn so far. The tables of
//! the storage are still as they were before the plan.
ghost use Rattle.std.specs.Prelude.{◌≡◌, ◌||◌, ◌++◌, ℕ, List, IfOk, OnOk, option_map};
ghost use Rattle.std.specs.BTreeMap.{keys};
ghost use Rattle.std.specs.BTreeSet.{contains};
ghost use Rattle.std.specs.List.Sorted.{IsStrictlySortedBy};
ghost use Rattle.std.specs.Ordering.{nat_cmp};
ghost use Rattle.thes_base.specs.Resources.{entry_at};
ghost use Rattle.thes_tables.specs.declared.rows.PostingRow.{PostingRow};
ghost use Rattle.thes_store.specs.Reading.{IsPostingOfKey, assigned_row_numbers};
ghost use Rattle.thes_store.specs.Storage.{QueryFrame};
ghost use Rattle.thes_plan_postings.specs.PlanPostings.{AreAssigned, AreNumbered, ArePlanRows, InBaseRows};
ghost use Rattle.thes_plan_postings.specs.PlanPostings.{InPlanRows, IsRowOfNumber, is_assigned_by};
ghost use Rattle.thes_plan_postings.specs.PlanPostings.{is_assigned_candidate, placement_of, row_placed};

use std::alloc::{AllocError, Global};
use std::collections::{BTreeMap, BTreeSet};
use thes_base::fault::Fault;
use thes_base::number::{PostNo, ResNo};
use thes_base::text::Key;
use thes_store::keeper::Keeper;
use thes_tables::rows::PostingRow;

/// The place of a posting, and whether it is withdrawn.
#[derive(Drop)]
pub struct Placement {
    pub(crate) place: ResNo,
    pub(crate) withdrawn: bool,
}

/// The changes of postings that the requests of a plan have made so far.
#[derive(Drop)]
pub struct PlanPostings {
    pub(crate) alloc: Global,
    // The rows of the postings that the plan has added, in order, each with the place that it had
    // when it was added.
    pub(crate) added: Vec<PostingRow>,
    // The placement of each posting that the plan has added, moved or withdrawn.
    pub(crate) placements: BTreeMap<PostNo, Placement>,
}

impl PlanPostings {
    /// Creates the record of a plan that has changed no posting yet.
    pub fn new(alloc: Global) -> PlanPostings
        ensures { (rows : List PostingRow) → AreNumbered rows → ArePlanRows rows rows result }
    {
        PlanPostings {
            alloc,
            added: Vec::new(alloc),
            placements: BTreeMap::new(alloc),
        }
    }

    // Returns the placement of a posting, if the plan has added, moved or withdrawn it.
    fn placement(&self, number: PostNo) -> Option<Placement>
        ensures { result ≡ placement_of self.now number }
    {
        match self.placements.get(&number) {
            Some(placement) => Some(Placement {
                place: placement.place,
                withdrawn: placement.withdrawn,
            }),
            None => None,
        }
    }

    // Looks up the row of a posting in the tables, or else among those that the plan has added,
    // without the placement that the plan has given it.
    fn base_row<K: Keeper>(
        &self,
        keeper: &mut K,
        number: PostNo,
    ) -> Result<Option<PostingRow>, Fault>
        ensures in_base { IfOk result (λ row. (K.view keeper.new).is_up
            → InBaseRows (K.view keeper.old).rows self.now (λ rows. row ≡ entry_at rows number)) }
        ensures asks { QueryFrame (K.view keeper.old) (K.view keeper.new) result }
    {
        match keeper.row(number) {
            Ok(Some(row)) => Ok(Some(row)),
            Ok(None) => Ok(row_of_number(self.alloc, self.added.as_slice(), number)?),
            Err(fault) => Err(fault),
        }
    }

    /// Looks up the row of the posting with the number, as the plan has changed it.
    pub fn row<K: Keeper>(
        &self,
        keeper: &mut K,
        number: PostNo,
    ) -> Result<Option<PostingRow>, Fault>
        ensures in_plan { IfOk result (λ row. (K.view keeper.new).is_up
            → InPlanRows (K.view keeper.old).rows self.now (λ rows. row ≡ entry_at rows number)) }
        ensures asks { QueryFrame (K.view keeper.old) (K.view keeper.new) result }
    {
        match self.base_row(keeper, number) {
            Ok(row) => Ok(place_row(row, self.placement(number))),
            Err(fault) => Err(fault),
        }
    }

    // Looks up the row of the posting with the key in the tables, or else among those that the plan
    // has added, without the placement that the plan has given it.
    fn base_row_of_key<K: Keeper>(
        &self,
        keeper: &mut K,
        key: &Key,
    ) -> Result<Option<PostingRow>, Fault>
        ensures in_base { IfOk result (λ found. (K.view keeper.new).is_up
            → InBaseRows (K.view keeper.old).rows self.now
            (λ rows. IsPostingOfKey key.now rows found)) }
        ensures asks { QueryFrame (K.view keeper.old) (K.view keeper.new) result }
    {
        match keeper.find(key) {
            Ok(Some(row)) => Ok(Some(row)),
            Ok(None) => Ok(row_of_key(self.alloc, self.added.as_slice(), key)?),
            Err(fault) => Err(fault),
        }
    }

    /// Looks up the row of the posting with the key, as the plan has changed it.
    pub fn find<K: Keeper>(&self, keeper: &mut K, key: &Key) -> Result<Option<PostingRow>, Fault>
        ensures in_plan { IfOk result (λ found. (K.view keeper.new).is_up
            → InPlanRows (K.view keeper.old).rows self.now
            (λ rows. IsPostingOfKey key.now rows found)) }
        ensures asks { QueryFrame (K.view keeper.old) (K.view keeper.new) result }
    {
        match self.base_row_of_key(keeper, key) {
            Ok(Some(row)) => {
                let placement = self.placement(row.number);
                Ok(place_row(Some(row), placement))
            }
            Ok(None) => Ok(None),
            Err(fault) => Err(fault),
        }
    }

    // Checks whether a posting is assigned to the concept after the plan's changes so far. If the
    // plan hasn't changed the posting, returns `by_tables`, which says whether the tables assign it
    // to the concept.
    fn is_assigned(&self, number: PostNo, concept: ResNo, by_tables: bool) -> bool
        ensures { result ≡ is_assigned_by concept by_tables (placement_of self.now number) }
    {
        match self.placement(number) {
            Some(placement) => !placement.withdrawn && placement.place == concept,
            None => by_tables,
        }
    }

    // Inserts into the set the candidates that are assigned to the concept after the plan's changes
    // so far. For candidates that the plan hasn't changed, `by_tables` says whether the tables
    // assign them to the concept.
    fn insert_assigned(
        &self,
        numbers: &mut BTreeSet<PostNo>,
        candidates: &[PostNo],
        concept: ResNo,
        by_tables: bool,
    ) -> Result<(), AllocError>
        ensures { OnOk result ((n : ℕ) → contains nat_cmp numbers.new n
            ≡ (contains nat_cmp numbers.old n
            || is_assigned_candidate self.now candidates.now concept by_tables n)) }
    {
        for number in candidates {
            if self.is_assigned(*number, concept, by_tables) {
                numbers.insert(*number)?;
            }
        }
        Ok(())
    }

    // Returns the numbers of the postings that the plan has added, moved or withdrawn, in
    // increasing order.
    fn changed_numbers(&self) -> Result<Vec<PostNo>, AllocError>
        ensures { IfOk result (λ numbers. numbers.items ≡ keys self.now.placements) }
    {
        let mut numbers = Vec::new(self.alloc);
        numbers.extend(self.placements.keys().copied())?;
        Ok(numbers)
    }

    // Returns the numbers of the postings that are assigned to the concept after the plan's changes
    // so far, in increasing order. `standing` are the numbers of those that the tables assign to
    // it.
    fn assigned_from(&self, concept: ResNo, standing: &[PostNo]) -> Result<Vec<PostNo>, AllocError>
        ensures { IfOk result (λ numbers.
            AreAssigned self.now concept standing.now numbers.items) }
    {
        let mut numbers = BTreeSet::new(self.alloc);
        self.insert_assigned(&mut numbers, standing, concept, true)?;
        let changed = self.changed_numbers()?;
        self.insert_assigned(&mut numbers, changed.as_slice(), concept, false)?;
        let assigned = collect_numbers(self.alloc, &numbers)?;
        Ok(assigned)
    }

    /// Looks up the numbers of the postings that are assigned to the concept after the plan's
    /// changes so far, in increasing order.
    pub fn assigned_numbers<K: Keeper>(
        &self,
        keeper: &mut K,
        concept: ResNo,
    ) -> Result<Vec<PostNo>, Fault>
        ensures in_plan { IfOk result (λ numbers. (K.view keeper.new).is_up
            → InPlanRows (K.view keeper.old).rows self.now
            (λ rows. numbers.items ≡ assigned_row_numbers concept rows)) }
        ensures asks { QueryFrame (K.view keeper.old) (K.view keeper.new) result }
    {
        match keeper.standing_numbers(concept) {
            Ok(standing) => Ok(self.assigned_from(concept, standing.as_slice())?),
            Err(fault) => Err(fault),
        }
    }
}

// Returns a copy of the row with the number, if one of the postings that a plan has added has that
// number.
fn row_of_number(
    alloc: Global,
    rows: &[PostingRow],
    number: PostNo,
) -> Result<Option<PostingRow>, AllocError>
    ensures { IfOk result (λ found. IsRowOfNumber number rows.now found) }
{
    for row in rows {
        if row.number == number {
            let found = row.try_clone(alloc)?;
            return Ok(Some(found));
        }
    }
    Ok(None)
}

// Returns a copy of the row with the key, if one of the postings that a plan has added has that
// key.
fn row_of_key(
    alloc: Global,
    rows: &[PostingRow],
    key: &Key,
) -> Result<Option<PostingRow>, AllocError>
    ensures { IfOk result (λ found. IsPostingOfKey key.now rows.now found) }
{
    for row in rows {
        if row.key == *key {
            let found = row.try_clone(alloc)?;
            return Ok(Some(found));
        }
    }
    Ok(None)
}

// Returns the row of a posting with this placement in place of its own; the row is unchanged if
// `placement` is None.
fn place_row(row: Option<PostingRow>, placement: Option<Placement>) -> Option<PostingRow>
    ensures { result ≡ option_map (row_placed placement) row }
{
    let Some(placement) = placement else {
        return row;
    };
    let row = row?;
    Some(PostingRow {
        key: row.key,
        rec: row.rec,
        number: row.number,
        first: row.first,
        place: placement.place,
        withdrawn: placement.withdrawn,
    })
}

// Returns the numbers in a set of postings as a list, in increasing order.
fn collect_numbers(alloc: Global, set: &BTreeSet<PostNo>) -> Result<Vec<PostNo>, AllocError>
    ensures numbers { IfOk result (λ numbers. numbers.items ≡ set.now.keys) }
    ensures rises { IsStrictlySortedBy nat_cmp set.now.keys }
{
    let mut numbers = Vec::new(alloc);
    numbers.extend(set.iter().copied())?;
    Ok(numbers)
}
