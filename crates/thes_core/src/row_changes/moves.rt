//! The changes of rows that posts and splits make.
ghost use Rattle.std.specs.Prelude.{◌≡◌, ◌≤◌, ◌+◌, ◌++◌, ◌^◌, IfOk, OnOk, List, [], map, length};
ghost use Rattle.thes_base.specs.declared.data.History.{History};
ghost use Rattle.thes_base.specs.declared.request.Command.TheVariants as request;
ghost use Rattle.thes_base.specs.Postings.{moves_along};
ghost use Rattle.thes_core.specs.Deltas.{move_rows, place_change};
ghost use Rattle.thes_core.specs.Requests.{PartsAccept};
ghost use Rattle.thes_core.specs.PartsView.{parts_state};
ghost use Rattle.thes_post.specs.PostingCounts.{ArePostingCounts};
ghost use Rattle.thes_tables.specs.declared.change.Change.TheVariants as change;
ghost use Rattle.thes_tables.specs.Changes.{changes_of, move_row};

use crate::thesaurus::Thesaurus;
use std::alloc::AllocError;
use thes_base::data::{Resource, ResourceKind};
use thes_base::number::{MoveNo, PostNo, ResNo};
use thes_base::text::{Key, RecordName, Tag, Text};
use thes_post::rising::sorted_numbers;
use thes_tables::change::Change;
use thes_tables::delta::Delta;
use thes_tables::rows::{MoveRow, PostingRow};

// Returns the items if the numbers of their moves, from `first` on, fit in 32 bits, or else an
// empty slice.
pub(super) fn items_within_numbers<T>(first: u64, items: &[T]) -> &[T]
    requires { first ≤ 2 ^ 32 }
    ensures fits { first + length result.now ≤ 2 ^ 32 }
    ensures whole { first + length items.now ≤ 2 ^ 32 → result.now ≡ items.now }
{
    if items.len() as u64 <= (1 << 32) - first {
        items
    } else {
        &items[..0]
    }
}

// Appends the insertion of a move from the source to the target for each posting, numbered from
// `first` on.
pub(super) fn push_moves(
    delta: &mut Delta,
    first: u64,
    source: ResNo,
    target: ResNo,
    postings: &[PostNo],
) -> Result<(), AllocError>
    requires least { 1 ≤ first }
    requires room { first + length postings.now ≤ 2 ^ 32 }
    ensures { OnOk result (delta.new ≡ delta.old
        ++ map change.AddMove (move_rows first source target postings.now)) }
{
    for i in 0..postings.len() {
        let row = MoveRow {
            number: MoveNo::new((first + i as u64) as u32),
            posting: postings[i],
            source,
            target,
        };
        delta.push(Change::AddMove(row))?;
    }
    Ok(())
}

// Appends, for each posting, the change that sets its place to the target.
fn push_places(delta: &mut Delta, target: ResNo, postings: &[PostNo]) -> Result<(), AllocError>
    ensures { OnOk result (delta.new ≡ delta.old ++ map (place_change target) postings.now) }
{
    for posting in postings {
        delta.push(Change::SetPlace(*posting, target))?;
    }
    Ok(())
}

// Appends the insertions of the posting's moves from `from` along the concepts of `way`, numbered
// from `first` on.
fn push_way(
    delta: &mut Delta,
    posting: PostNo,
    first: u64,
    from: ResNo,
    way: &[ResNo],
) -> Result<(), AllocError>
    requires least { 1 ≤ first }
    requires room { first + length way.now ≤ 2 ^ 32 }
    ensures { let rows = map (move_row posting) (moves_along first from way.now) in
        OnOk result (delta.new ≡ delta.old ++ map change.AddMove rows) }
{
    let mut source = from;
    for i in 0..way.len() {
        let target = way[i];
        let row = MoveRow {
            number: MoveNo::new((first + i as u64) as u32),
            posting,
            source,
            target,
        };
        delta.push(Change::AddMove(row))?;
        source = target;
    }
    Ok(())
}

impl Thesaurus {
    // Returns the changes of a new posting: its row, and its moves along the replacements of its
    // concept.
    pub(super) fn changes_of_post(
        &self,
        key: &Key,
        rec: &RecordName,
        concept: ResNo,
    ) -> Result<Delta, AllocError>
        ensures { IfOk result (λ delta. (histories : List History)
            → PartsAccept self.now histories (request.Post key.now rec.now concept)
            → ArePostingCounts histories self.now.book
            → delta ≡ changes_of (request.Post key.now rec.now concept)
            (parts_state self.now histories)) }
    {
        let number = PostNo::new(self.book.accepted().saturating_add(1));
        let way = self.vocab.replacements(self.alloc, concept)?;
        let row = PostingRow {
            number,
            key: key.try_clone(self.alloc)?,
            rec: rec.try_clone(self.alloc)?,
            first: concept,
            place: self.vocab.forwarding(concept).place,
            withdrawn: false,
        };
        let mut delta = Delta::new(self.alloc);
        delta.push(Change::AddPosting(row))?;
        let first = u64::from(self.book.moves()) + 1;
        push_way(
            &mut delta,
            number,
            first,
            concept,
            items_within_numbers(first, way.as_slice()),
        )?;
        Ok(delta)
    }

    // Returns the changes of a split: the new concept with its label, and the new places and the
    // moves of the listed postings.
    pub(super) fn changes_of_split(
        &self,
        source: ResNo,
        tag: &Tag,
        text: &Text,
        postings: &[PostNo],
    ) -> Result<Delta, AllocError>
        requires { PartsAccept self.now [] (request.Split source tag.now text.now []) }
        ensures { IfOk result (λ delta. (histories : List History)
            → PartsAccept self.now histories (request.Split source tag.now text.now postings.now)
            → ArePostingCounts histories self.now.book
            → delta ≡ changes_of (request.Split source tag.now text.now postings.now)
            (parts_state self.now histories)) }
    {
        let resource = Resource::new(ResourceKind::Concept, Some(self.scheme(source)));
        let mut delta = self.changes_of_new_resource(resource, tag, text)?;
        let concept = self.next_resource_number();
        let moving = sorted_numbers(self.alloc, postings)?;
        push_places(&mut delta, concept, moving.as_slice())?;
        let first = u64::from(self.book.moves()) + 1;
        push_moves(
            &mut delta,
            first,
            source,
            concept,
            items_within_numbers(first, moving.as_slice()),
        )?;
        Ok(delta)
    }
}
