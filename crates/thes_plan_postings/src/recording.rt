//! Records the changes that the requests of a plan make to the rows of postings.
ghost use Rattle.std.specs.Prelude.{◌≡◌, OnOk};
ghost use Rattle.thes_tables.specs.Cells.{cells_of_tables};
ghost use Rattle.thes_tables.specs.Rows.{ChangeFits, DeltaFits, tables_after_change, tables_after_delta};
ghost use Rattle.thes_tables.specs.Tables.{Tables};
ghost use Rattle.thes_tables.specs.declared.change.Change.TheVariants as change;
ghost use Rattle.thes_store.specs.Storage.{QueryFrame};
ghost use Rattle.thes_plan_postings.specs.PlanPostings.{AddsPosting, ArePlanRows, PlacesAll};

use crate::plan_postings::{Placement, PlanPostings};
use std::alloc::AllocError;
use thes_base::fault::Fault;
use thes_base::number::{PostNo, ResNo};
use thes_store::keeper::Keeper;
use thes_tables::change::Change;
use thes_tables::rows::PostingRow;

impl PlanPostings {
    // Records this placement for each of the postings: its place, and whether it is withdrawn.
    #[tactic(auto, using(crate::proofs::PlanChangeLemmas::places_none, crate::proofs::PlanChangeLemmas::places_all))]
    fn place_all(
        &mut self,
        numbers: &[PostNo],
        place: ResNo,
        withdrawn: bool,
    ) -> Result<(), AllocError>
        ensures { OnOk result (PlacesAll self.old self.new numbers.now
            (record { place = place; withdrawn = withdrawn })) }
    {
        for number in numbers {
            let placement = Placement { place, withdrawn };
            self.placements.insert(*number, placement)?;
        }
        Ok(())
    }

    // Records that the plan adds a posting, with the placement that its row has.
    fn add(&mut self, row: &PostingRow) -> Result<(), AllocError>
        ensures { OnOk result (AddsPosting self.old self.new row.now) }
    {
        self.added.push(row.try_clone(self.alloc)?)?;
        let placement = Placement {
            place: row.place,
            withdrawn: row.withdrawn,
        };
        self.placements.insert(row.number, placement)?;
        Ok(())
    }

    // Records that the plan withdraws a posting; does nothing if there is none with the number.
    fn withdraw<K: Keeper>(&mut self, keeper: &mut K, number: PostNo) -> Result<(), Fault>
        ensures in_plan { OnOk result ((K.view keeper.new).is_up → (t now : Tables)
            → (K.view keeper.old).rows ≡ cells_of_tables t
            → ArePlanRows t.posting now.posting self.old → ArePlanRows t.posting
            (tables_after_change (change.Withdraw number) now).posting self.new) }
        ensures asks { QueryFrame (K.view keeper.old) (K.view keeper.new) result }
    {
        match self.row(keeper, number) {
            Ok(Some(row)) => Ok(self.place_all(&[number], row.place, true)?),
            Ok(None) => Ok(()),
            Err(fault) => Err(fault),
        }
    }

    // Records that the plan changes the place of a posting; does nothing if there is none with the
    // number.
    fn set_place<K: Keeper>(
        &mut self,
        keeper: &mut K,
        number: PostNo,
        place: ResNo,
    ) -> Result<(), Fault>
        ensures in_plan { OnOk result ((K.view keeper.new).is_up → (t now : Tables)
            → (K.view keeper.old).rows ≡ cells_of_tables t
            → ArePlanRows t.posting now.posting self.old → ArePlanRows t.posting
            (tables_after_change (change.SetPlace number place) now).posting self.new) }
        ensures asks { QueryFrame (K.view keeper.old) (K.view keeper.new) result }
    {
        match self.row(keeper, number) {
            Ok(Some(row)) => Ok(self.place_all(&[number], place, row.withdrawn)?),
            Ok(None) => Ok(()),
            Err(fault) => Err(fault),
        }
    }

    // Records that the plan moves the postings that are assigned to the source to the target.
    fn move_all<K: Keeper>(
        &mut self,
        keeper: &mut K,
        source: ResNo,
        target: ResNo,
    ) -> Result<(), Fault>
        ensures in_plan { OnOk result ((K.view keeper.new).is_up → (t now : Tables)
            → (K.view keeper.old).rows ≡ cells_of_tables t
            → ArePlanRows t.posting now.posting self.old → ArePlanRows t.posting
            (tables_after_change (change.MoveAll source target) now).posting self.new) }
        ensures asks { QueryFrame (K.view keeper.old) (K.view keeper.new) result }
    {
        match self.assigned_numbers(keeper, source) {
            Ok(numbers) => Ok(self.place_all(numbers.as_slice(), target, false)?),
            Err(fault) => Err(fault),
        }
    }

    // Records a change of table posting that the plan makes; ignores changes of other tables.
    fn record_change<K: Keeper>(&mut self, keeper: &mut K, change: &Change) -> Result<(), Fault>
        ensures in_plan { OnOk result ((K.view keeper.new).is_up → (t now : Tables)
            → (K.view keeper.old).rows ≡ cells_of_tables t → ChangeFits change.now now
            → ArePlanRows t.posting now.posting self.old
            → ArePlanRows t.posting (tables_after_change change.now now).posting self.new) }
        ensures asks { QueryFrame (K.view keeper.old) (K.view keeper.new) result }
    {
        match change {
            Change::AddPosting(row) => Ok(self.add(row)?),
            Change::Withdraw(number) => self.withdraw(keeper, *number),
            Change::SetPlace(number, place) => self.set_place(keeper, *number, *place),
            Change::MoveAll(source, target) => self.move_all(keeper, *source, *target),
            _ => Ok(()),
        }
    }

    /// Records the changes of rows that the plan's next request makes.
    pub fn record_changes<K: Keeper>(
        &mut self,
        keeper: &mut K,
        changes: &[Change],
    ) -> Result<(), Fault>
        ensures in_plan { OnOk result ((K.view keeper.new).is_up → (t now : Tables)
            → (K.view keeper.old).rows ≡ cells_of_tables t → DeltaFits changes.now now
            → ArePlanRows t.posting now.posting self.old
            → ArePlanRows t.posting (tables_after_delta changes.now now).posting self.new) }
        ensures asks { QueryFrame (K.view keeper.old) (K.view keeper.new) result }
    {
        for change in changes {
            match self.record_change(keeper, change) {
                Ok(()) => {}
                Err(fault) => return Err(fault),
            }
        }
        Ok(())
    }
}
