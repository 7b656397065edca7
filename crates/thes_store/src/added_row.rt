//! The rows that changes insert into each table, and room for them.
ghost use Rattle.std.specs.Prelude.{◌≡◌, ◌≤◌, ◌+◌, List, Option, length, vec_len, is_some, OnOk};
ghost use Rattle.std.specs.Vec.{vec_capacity};
ghost use Rattle.thes_tables.specs.declared.change.Change.{Change};
ghost use Rattle.thes_store.specs.AddedRow.{rows_added_by};

use crate::packed_label::PackedLabel;
use std::alloc::AllocError;
use thes_base::data::{Link, Resource};
use thes_tables::change::Change;
use thes_tables::rows::{HierRow, MoveRow, OutsideRow, PostingRow};

/// A row of one table, which one kind of change inserts.
pub trait AddedRow {
    // The row that the change inserts into this table, if any.
    ghost added_row: { Change → Option Self };

    /// Checks whether the change inserts a row into this table.
    fn inserts_row(change: &Change) -> bool
        ensures { result ≡ is_some (added_row change.now) };
}

/// Only `AddResource` inserts a row of table resource.
impl AddedRow for Resource {
    ghost use Rattle.thes_store.specs.AddedRow.{added_resource};

    ghost added_row = { added_resource };

    fn inserts_row(change: &Change) -> bool {
        matches!(change, Change::AddResource(_, _))
    }
}

/// Only `AddOutside` inserts a row of table outside.
impl AddedRow for OutsideRow {
    ghost use Rattle.thes_store.specs.AddedRow.{added_outside};

    ghost added_row = { added_outside };

    fn inserts_row(change: &Change) -> bool {
        matches!(change, Change::AddOutside(_, _))
    }
}

/// Only `AddLabel` inserts a row of table label.
impl AddedRow for PackedLabel {
    ghost use Rattle.thes_store.specs.AddedRow.{added_label};

    ghost added_row = { added_label };

    fn inserts_row(change: &Change) -> bool {
        matches!(change, Change::AddLabel(_))
    }
}

/// Only `AddLink` inserts a row of table link.
impl AddedRow for Link {
    ghost use Rattle.thes_store.specs.AddedRow.{inserted_link};

    ghost added_row = { inserted_link };

    fn inserts_row(change: &Change) -> bool {
        matches!(change, Change::AddLink(_))
    }
}

/// Only `AddHier` inserts a row of table hier.
impl AddedRow for HierRow {
    ghost use Rattle.thes_store.specs.AddedRow.{added_hier};

    ghost added_row = { added_hier };

    fn inserts_row(change: &Change) -> bool {
        matches!(change, Change::AddHier(_))
    }
}

/// Only `AddPosting` inserts a row of table posting.
impl AddedRow for PostingRow {
    ghost use Rattle.thes_store.specs.AddedRow.{added_posting};

    ghost added_row = { added_posting };

    fn inserts_row(change: &Change) -> bool {
        matches!(change, Change::AddPosting(_))
    }
}

/// Only `AddMove` inserts a row of table move.
impl AddedRow for MoveRow {
    ghost use Rattle.thes_store.specs.AddedRow.{added_move};

    ghost added_row = { added_move };

    fn inserts_row(change: &Change) -> bool {
        matches!(change, Change::AddMove(_))
    }
}

/// Returns the number of rows that the changes insert into the table of `T`.
pub fn count_added<T: AddedRow>(changes: &[Change]) -> usize
    ensures { result ≡ length (rows_added_by T.added_row changes.now) }
{
    let mut count = 0;
    for change in changes {
        if T::inserts_row(change) {
            count += 1;
        }
    }
    count
}

/// Reserves memory in a table for all rows that the changes insert, so that inserting them can't
/// fail.
pub fn make_room<T: AddedRow>(rows: &mut Vec<T>, changes: &[Change]) -> Result<(), AllocError>
    ensures items { rows.new.items ≡ rows.old.items }
    ensures room { OnOk result
        (vec_len rows.new + length (rows_added_by T.added_row changes.now)
        ≤ vec_capacity rows.new) }
{
    rows.try_reserve(count_added::<T>(changes))
}
