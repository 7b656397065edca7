//! The tables in memory, and how changes are applied to them.
ghost use Rattle.std.specs.Prelude.{◌≡◌, ◌∷◌, [], List, map, OnOk};
ghost use Rattle.thes_base.specs.Changes.{resources_after_death};
ghost use Rattle.thes_tables.specs.declared.change.Change.{Change};
ghost use Rattle.thes_tables.specs.Tables.{empty_tables};
ghost use Rattle.thes_tables.specs.Rows.{tables_after_change, tables_after_delta, with_posting, row_after_withdrawal, row_at_place, row_after_move_all};
ghost use Rattle.thes_base.specs.Labels.{Label};
ghost use Rattle.thes_store.specs.Covers.{IndexesByPlace, IndexesByPlaceThroughout};
ghost use Rattle.thes_store.specs.Numbers.{owner_of, is_same_label};
ghost use Rattle.thes_store.specs.RowsAtPositions.{rows_after_change_at, rows_after_changes_at, KeepsRoom};
ghost use Rattle.thes_store.specs.Room.{tables_in_memory, AllIndexed, HasRoomForRows, IsReadyForChanges};
ghost use Rattle.thes_store.specs.Slots.{AreIndexedBy, IsReady, AppendsRow, RemovesRow};

use crate::added_row::make_room;
use crate::packed_label::{PackedLabel, pack_labels};
use crate::position_sets::PositionSets;
use crate::slots::Slots;
use std::alloc::{AllocError, Global};
use std::collections::{BTreeSet, VecDeque};
use thes_base::data::{Link, Resource};
use thes_base::number::{PostNo, ResNo};
use thes_base::text::Base;
use thes_tables::change::Change;
use thes_tables::rows::{HierRow, LabelRow, MoveRow, OutsideRow, PostingRow};

/// The rows of all tables in memory. Deleted rows of the tables label, link and hier leave gaps.
#[derive(Drop)]
pub struct MemTables {
    alloc: Global,
    pub base: Base,
    pub resource: Vec<Resource>,
    pub outside: Vec<OutsideRow>,
    pub label: Slots<PackedLabel>,
    pub link: Slots<Link>,
    pub hier: Slots<HierRow>,
    pub posting: Vec<PostingRow>,
    pub steps: Vec<MoveRow>,
    // Copies of the labels that the next changes insert or delete, in the order of the changes.
    label_copies: VecDeque<PackedLabel>,
}

impl MemTables {
    /// Creates the tables of a new store: the base, and no rows.
    pub fn new(alloc: Global, base: Base) -> MemTables
        ensures tables { tables_in_memory result ≡ empty_tables base }
        ensures found { AllIndexed result }
    {
        MemTables {
            alloc,
            base,
            resource: Vec::new(alloc),
            outside: Vec::new(alloc),
            label: Slots::new(alloc),
            link: Slots::new(alloc),
            hier: Slots::new(alloc),
            posting: Vec::new(alloc),
            steps: Vec::new(alloc),
            label_copies: VecDeque::new(alloc),
        }
    }

    /// Reserves memory for all rows that the changes insert, so that `apply_changes` can't fail.
    pub fn make_room(&mut self, changes: &[Change]) -> Result<(), AllocError>
        ensures same { tables_in_memory self.new ≡ tables_in_memory self.old }
        ensures found { AllIndexed self.old → AllIndexed self.new }
        ensures room { OnOk result (HasRoomForRows changes.now self.new) }
    {
        pack_labels(&mut self.label_copies, self.alloc, changes)?;
        make_room(&mut self.resource, changes)?;
        make_room(&mut self.outside, changes)?;
        self.label.make_room(changes)?;
        self.link.make_room(changes)?;
        self.hier.make_room(changes)?;
        make_room(&mut self.posting, changes)?;
        make_room(&mut self.steps, changes)
    }

    /// Applies a change. `standing` is an index of the postings by place before the change.
    pub fn apply_change(&mut self, change: Change, standing: &PositionSets)
        requires ready { IsReadyForChanges (change ∷ []) self.old }
        requires standing { IndexesByPlace standing.now self.old.posting.items }
        ensures tables { tables_in_memory self.new ≡ tables_after_change change
            (tables_in_memory self.old) }
        ensures ready { (rest : List Change) → IsReadyForChanges (change ∷ rest) self.old
            → IsReadyForChanges rest self.new }
    {
        match change {
            Change::AddResource(_, resource) => self.resource.push_reserved(resource),
            Change::Retire(n) => mark_dead(&mut self.resource, n, None),
            Change::Replace(n, by) => mark_dead(&mut self.resource, n, Some(by)),
            Change::AddOutside(number, iri) => {
                self.outside.push_reserved(OutsideRow { number, iri })
            }
            Change::AddLabel(row) => push_label(&mut self.label, &mut self.label_copies, row),
            Change::DropLabel(row) => remove_label(&mut self.label, &mut self.label_copies, row),
            Change::AddLink(link) => self.link.push(link),
            Change::DropLink(link) => self.link.remove(&link),
            Change::AddHier(row) => self.hier.push(row),
            Change::DropHier(row) => self.hier.remove(&row),
            Change::AddPosting(row) => self.posting.push_reserved(row),
            Change::Withdraw(n) => withdraw(&mut self.posting, n),
            Change::SetPlace(n, place) => set_place(&mut self.posting, n, place),
            Change::MoveAll(source, target) => {
                move_all(&mut self.posting, standing, source, target)
            }
            Change::AddMove(row) => self.steps.push_reserved(row),
        }
    }

    /// Applies changes in order. `standing` is an index that has each posting under its place
    /// before each of the changes.
    pub fn apply_changes(&mut self, changes: Vec<Change>, standing: &PositionSets)
        requires ready { IsReadyForChanges changes.items self.old }
        requires standing { IndexesByPlaceThroughout
            standing.now changes.items (tables_in_memory self.old) }
        ensures tables { tables_in_memory self.new
            ≡ tables_after_delta changes.items (tables_in_memory self.old) }
        ensures found { AllIndexed self.new }
    {
        for change in changes {
            self.apply_change(change, standing);
        }
    }
}

// Appends the row of a label. Uses up the first of `copies`, which is its copy in one block of
// memory, made before the change.
fn push_label(labels: &mut Slots<PackedLabel>, copies: &mut VecDeque<PackedLabel>, row: LabelRow)
    requires next { (rest : List Label) × (copies.old.items ≡ row ∷ rest) }
    requires ready { IsReady owner_of labels.old (row ∷ []) }
    ensures appends { AppendsRow owner_of row labels.old labels.new }
    ensures copies { copies.old.items ≡ row ∷ copies.new.items }
{
    if let Some(copy) = copies.pop_front() {
        labels.push(copy);
    }
    drop(row)
}

// Removes the row of a label. Uses up the first of `copies`, which is its copy in one block of
// memory, made before the change.
fn remove_label(labels: &mut Slots<PackedLabel>, copies: &mut VecDeque<PackedLabel>, row: LabelRow)
    requires next { (rest : List Label) × (copies.old.items ≡ row ∷ rest) }
    requires index { AreIndexedBy owner_of labels.old }
    ensures removes { RemovesRow owner_of is_same_label row labels.old labels.new }
    ensures copies { copies.old.items ≡ row ∷ copies.new.items }
{
    if let Some(copy) = copies.pop_front() {
        labels.remove(&copy);
    }
    drop(row)
}

// Marks a resource as dead, with its replacement if it was merged.
fn mark_dead(resources: &mut Vec<Resource>, n: ResNo, replaced: Option<ResNo>)
    ensures items { resources.new.items ≡ resources_after_death n replaced resources.old.items }
    ensures room { KeepsRoom resources.old resources.new }
{
    if let Some(resource) = resources.get_mut(n.get() as usize - 1) {
        resource.live = false;
        resource.replaced = replaced;
    }
}

// Marks the posting with the number as withdrawn.
fn withdraw(postings: &mut Vec<PostingRow>, n: PostNo)
    ensures items { postings.new.items ≡ with_posting row_after_withdrawal n postings.old.items }
    ensures room { KeepsRoom postings.old postings.new }
{
    if let Some(row) = postings.get_mut(n.get() as usize - 1) {
        row.withdrawn = true;
    }
}

// Sets the place of the posting with the number, withdrawn or not.
fn set_place(postings: &mut Vec<PostingRow>, n: PostNo, place: ResNo)
    ensures items { postings.new.items ≡ with_posting (row_at_place place) n postings.old.items }
    ensures room { KeepsRoom postings.old postings.new }
{
    if let Some(row) = postings.get_mut(n.get() as usize - 1) {
        row.place = place;
    }
}

// Assigns a posting to the target if it is assigned to the source.
fn move_row(row: &mut PostingRow, source: ResNo, target: ResNo)
    ensures { row.new ≡ row_after_move_all source target row.old }
{
    if !row.withdrawn && row.place == source {
        row.place = target;
    }
}

// Assigns the posting at a position to the target if it is assigned to the source.
fn move_posting_at(postings: &mut Vec<PostingRow>, position: usize, source: ResNo, target: ResNo)
    ensures items { postings.new.items
        ≡ rows_after_change_at (row_after_move_all source target) position postings.old.items }
    ensures room { KeepsRoom postings.old postings.new }
{
    if let Some(row) = postings.get_mut(position) {
        move_row(row, source, target);
    }
}

// Assigns the postings at these positions to the target if they are assigned to the source.
fn move_at_positions(
    postings: &mut Vec<PostingRow>,
    positions: &BTreeSet<usize>,
    source: ResNo,
    target: ResNo,
)
    ensures items { postings.new.items
        ≡ rows_after_changes_at (row_after_move_all source target) positions.now.keys
        postings.old.items }
    ensures room { KeepsRoom postings.old postings.new }
{
    for position in positions.iter() {
        move_posting_at(postings, *position, source, target);
    }
}

// Assigns all postings assigned to the source to the target. `standing` is an index of the postings
// by place.
fn move_all(postings: &mut Vec<PostingRow>, standing: &PositionSets, source: ResNo, target: ResNo)
    requires { IndexesByPlace standing.now postings.old.items }
    ensures items { postings.new.items ≡ map (row_after_move_all source target) postings.old.items }
    ensures room { KeepsRoom postings.old postings.new }
{
    if let Some(positions) = standing.positions_at(source.get()) {
        move_at_positions(postings, positions, source, target);
    }
}
