//! Checks whether changes whose commit failed were made. All of them were made or none, so the
//! database is asked for the trace of a single change, which is chosen here.
ghost use mathlib.Core.Logic.{inl, inr};
ghost use Rattle.std.specs.Prelude.{◌≡◌, Some};
ghost use Rattle.std.specs.List.{list_any, find};
ghost use Rattle.std.specs.Option.{option_copied};
ghost use Rattle.sqlite.specs.Held.{state};
ghost use Rattle.sqlite.specs.State.{HasCleanDisk};
ghost use Rattle.thes_sql.specs.Reads.{LeavesTables};
ghost use Rattle.thes_sql.specs.Traces.{row_of};
ghost use Rattle.thes_sqlite.specs.CommitEvidence as evidence;
ghost use Rattle.thes_sqlite.specs.CommitEvidence.{are_same, IsRightAnswer};

use sqlite::{Alter, Connection};
use thes_base::data::Link;
use thes_sql::outcome::has_change;
use thes_tables::change::Change;
use thes_tables::rows::{HierRow, LabelRow};

// Returns whether a change inserts a row that is never deleted, so that the row shows after a
// failed commit whether the change was made.
fn inserts_for_good(change: &Change) -> bool
    ensures { result ≡ evidence.inserts_for_good change.now }
{
    match change {
        Change::AddResource(_, _)
        | Change::AddOutside(_, _)
        | Change::AddPosting(_)
        | Change::AddMove(_) => true,
        _ => false,
    }
}

// Returns whether a change marks a row, and no other change removes the mark, so that the mark
// shows after a failed commit whether the change was made.
fn marks_for_good(change: &Change) -> bool
    ensures { result ≡ evidence.marks_for_good change.now }
{
    match change {
        Change::Retire(_) | Change::Replace(_, _) | Change::Withdraw(_) => true,
        _ => false,
    }
}

// Returns whether a change sets the places of postings, and inserts no move, so that no row shows
// after a failed commit whether the change was made.
fn sets_places(change: &Change) -> bool
    ensures { result ≡ evidence.sets_places change.now }
{
    match change {
        Change::SetPlace(_, _) | Change::MoveAll(_, _) => true,
        _ => false,
    }
}

// Returns whether a change inserts or deletes this row of table label.
fn is_of_label(row: &LabelRow, change: &Change) -> bool
    ensures { result ≡ are_same (row_of change.now) (Some (inl row.now)) }
{
    match change {
        Change::AddLabel(other) | Change::DropLabel(other) => other.is_same(row),
        _ => false,
    }
}

// Returns whether a change inserts or deletes this row of table link.
fn is_of_link(link: &Link, change: &Change) -> bool
    ensures { result ≡ are_same (row_of change.now) (Some (inr (inl link.now))) }
{
    match change {
        Change::AddLink(other) | Change::DropLink(other) => *other == *link,
        _ => false,
    }
}

// Returns whether a change inserts or deletes this row of table hier.
fn is_of_hier(row: &HierRow, change: &Change) -> bool
    ensures { result ≡ are_same (row_of change.now) (Some (inr (inr row.now))) }
{
    match change {
        Change::AddHier(other) | Change::DropHier(other) => *other == *row,
        _ => false,
    }
}

// Returns whether a change inserts or deletes the same row of label, link or hier as another change
// does.
fn is_of_same_row(change: &Change, other: &Change) -> bool
    ensures { result ≡ are_same (row_of change.now) (row_of other.now) }
{
    match other {
        Change::AddLabel(row) | Change::DropLabel(row) => is_of_label(row, change),
        Change::AddLink(link) | Change::DropLink(link) => is_of_link(link, change),
        Change::AddHier(row) | Change::DropHier(row) => is_of_hier(row, change),
        _ => false,
    }
}

// Returns whether the changes as a whole add or remove the row of one of them: whether they insert
// or delete it an odd number of times, since insertions and deletions of a row alternate.
fn changes_its_row(changes: &[Change], change: &Change) -> bool
    ensures { result ≡ evidence.turns changes.now (row_of change.now) }
{
    let mut is_changed = false;
    for other in changes {
        if is_of_same_row(other, change) {
            is_changed = !is_changed;
        }
    }
    is_changed
}

// Returns the first change that inserts a row for good, for a look-up after a failed commit.
fn first_insert(changes: &[Change]) -> Option<&Change>
    ensures { option_copied result ≡ find evidence.inserts_for_good changes.now }
{
    for change in changes {
        if inserts_for_good(change) {
            return Some(change);
        }
    }
    None
}

// Returns the first change that marks a row for good, for a look-up after a failed commit.
fn first_mark(changes: &[Change]) -> Option<&Change>
    ensures { option_copied result ≡ find evidence.marks_for_good changes.now }
{
    for change in changes {
        if marks_for_good(change) {
            return Some(change);
        }
    }
    None
}

// Returns the last change whose row the changes as a whole add or remove, for a look-up after a
// failed commit.
fn last_turning(changes: &[Change]) -> Option<&Change>
    ensures { option_copied result ≡ evidence.last_turning changes.now changes.now }
{
    let mut last = None;
    for change in changes {
        if changes_its_row(changes, change) {
            last = Some(change);
        }
    }
    last
}

// Returns the change whose trace in a database shows that all changes were made: one that no other
// change undoes, since a plan may remove what it has made. None if no row shows it.
fn evidence_change(changes: &[Change]) -> Option<&Change>
    ensures { option_copied result ≡ evidence.evidence changes.now }
{
    if let Some(change) = first_insert(changes) {
        return Some(change);
    }
    if let Some(change) = first_mark(changes) {
        return Some(change);
    }
    last_turning(changes)
}

// Returns whether some change sets the places of postings, and inserts no move.
fn set_places(changes: &[Change]) -> bool
    ensures { result ≡ list_any evidence.sets_places changes.now }
{
    for change in changes {
        if sets_places(change) {
            return true;
        }
    }
    false
}

/// Checks whether changes whose commit failed were made; None if the database can't be queried, or
/// if places of postings are all that they change. Changes that leave the rows as they were count
/// as made, an empty list of changes as not made.
#[tactic(auto, using(crate::proofs::CommitEvidenceLemmas::right_answer_by_change, crate::proofs::CommitEvidenceLemmas::right_without_answer, crate::proofs::CommitEvidenceLemmas::right_answer_without_evidence))]
pub(crate) fn has_changes<S: Alter>(conn: &mut Connection<S>, changes: &[Change]) -> Option<bool>
    ensures answer { HasCleanDisk (state S.Store conn.new)
        → IsRightAnswer changes.now (state S.Store conn.old).now result }
    ensures leaves { LeavesTables S.Store conn.old conn.new }
{
    let Some(change) = evidence_change(changes) else {
        if set_places(changes) {
            return None;
        }
        return Some(!changes.is_empty());
    };
    match has_change(conn, change) {
        Ok(found) => Some(found),
        Err(_) => None,
    }
}
