//! Performs each kind of change with one statement.
ghost use Rattle.std.specs.Prelude.{◌≡◌};
ghost use Rattle.thes_tables.specs.declared.change.Change.TheVariants as change;
ghost use Rattle.thes_sql.specs.TransactionEffects.{AppliesChange, SucceedsInside, StaysInside};

use crate::values::{
    hier_values, label_values, link_values, move_values, outside_values, posting_values,
    resource_values,
};
use sqlite::{Alter, Error, Transaction, params};
use thes_base::data::{Link, Resource};
use thes_base::number::{PostNo, ResNo};
use thes_base::text::Iri;
use thes_tables::change::Change;
use thes_tables::rows::{HierRow, LabelRow, MoveRow, PostingRow};

// Inserts the row of a resource, and returns the count of inserted rows.
fn add_resource<S: Alter>(
    tx: &mut Transaction<'_, S>,
    n: ResNo,
    resource: &Resource,
) -> Result<usize, Error>
    ensures same_reference { tx.new.conn.ghost_name ≡ tx.old.conn.ghost_name }
    ensures does { SucceedsInside S.Store (AppliesChange (change.AddResource n resource.now))
        tx.old.conn tx.new.conn result }
    ensures stays { StaysInside S.Store tx.old.conn tx.new.conn }
{
    tx.execute(
        "INSERT INTO resource (num, kind, scheme, live, replaced) VALUES (?1, ?2, ?3, ?4, ?5)",
        &resource_values(n, resource),
    )
}

// Marks the resource with the number as dead, without a replacement, and returns the count of
// changed rows.
fn retire<S: Alter>(tx: &mut Transaction<'_, S>, n: ResNo) -> Result<usize, Error>
    ensures same_reference { tx.new.conn.ghost_name ≡ tx.old.conn.ghost_name }
    ensures does { SucceedsInside S.Store (AppliesChange (change.Retire n))
        tx.old.conn tx.new.conn result }
    ensures stays { StaysInside S.Store tx.old.conn tx.new.conn }
{
    tx.execute(
        "UPDATE resource SET live = 0, replaced = NULL WHERE num = ?1",
        params![n.get()],
    )
}

// Marks the resource with the number as dead, with `by` as its replacement, and returns the count
// of changed rows.
fn replace<S: Alter>(tx: &mut Transaction<'_, S>, n: ResNo, by: ResNo) -> Result<usize, Error>
    ensures same_reference { tx.new.conn.ghost_name ≡ tx.old.conn.ghost_name }
    ensures does { SucceedsInside S.Store (AppliesChange (change.Replace n by))
        tx.old.conn tx.new.conn result }
    ensures stays { StaysInside S.Store tx.old.conn tx.new.conn }
{
    tx.execute(
        "UPDATE resource SET live = 0, replaced = ?2 WHERE num = ?1",
        params![n.get(), by.get()],
    )
}

// Inserts the row of an outside concept, its number and its IRI, and returns the count of inserted
// rows.
fn add_outside<S: Alter>(tx: &mut Transaction<'_, S>, n: ResNo, iri: &Iri) -> Result<usize, Error>
    ensures same_reference { tx.new.conn.ghost_name ≡ tx.old.conn.ghost_name }
    ensures does { SucceedsInside S.Store (AppliesChange (change.AddOutside n iri.now))
        tx.old.conn tx.new.conn result }
    ensures stays { StaysInside S.Store tx.old.conn tx.new.conn }
{
    tx.execute(
        "INSERT INTO outside (num, iri) VALUES (?1, ?2)",
        &outside_values(n, iri),
    )
}

// Inserts the row of a label, and returns the count of inserted rows.
fn add_label<S: Alter>(tx: &mut Transaction<'_, S>, row: &LabelRow) -> Result<usize, Error>
    ensures same_reference { tx.new.conn.ghost_name ≡ tx.old.conn.ghost_name }
    ensures does { SucceedsInside S.Store (AppliesChange (change.AddLabel row.now))
        tx.old.conn tx.new.conn result }
    ensures stays { StaysInside S.Store tx.old.conn tx.new.conn }
{
    tx.execute(
        "INSERT INTO label (owner, kind, tag, text) VALUES (?1, ?2, ?3, ?4)",
        &label_values(row),
    )
}

// Deletes the row of a label, and returns the count of deleted rows.
fn drop_label<S: Alter>(tx: &mut Transaction<'_, S>, row: &LabelRow) -> Result<usize, Error>
    ensures same_reference { tx.new.conn.ghost_name ≡ tx.old.conn.ghost_name }
    ensures does { SucceedsInside S.Store (AppliesChange (change.DropLabel row.now))
        tx.old.conn tx.new.conn result }
    ensures stays { StaysInside S.Store tx.old.conn tx.new.conn }
{
    tx.execute(
        "DELETE FROM label WHERE owner = ?1 AND kind = ?2 AND tag = ?3 AND text = ?4",
        &label_values(row),
    )
}

// Inserts the row of a link that isn't hierarchical, and returns the count of inserted rows.
fn add_link<S: Alter>(tx: &mut Transaction<'_, S>, link: &Link) -> Result<usize, Error>
    ensures same_reference { tx.new.conn.ghost_name ≡ tx.old.conn.ghost_name }
    ensures does { SucceedsInside S.Store (AppliesChange (change.AddLink link.now))
        tx.old.conn tx.new.conn result }
    ensures stays { StaysInside S.Store tx.old.conn tx.new.conn }
{
    tx.execute(
        "INSERT INTO link (kind, a, b) VALUES (?1, ?2, ?3)",
        &link_values(link),
    )
}

// Deletes the row of a link that isn't hierarchical, and returns the count of deleted rows.
fn drop_link<S: Alter>(tx: &mut Transaction<'_, S>, link: &Link) -> Result<usize, Error>
    ensures same_reference { tx.new.conn.ghost_name ≡ tx.old.conn.ghost_name }
    ensures does { SucceedsInside S.Store (AppliesChange (change.DropLink link.now))
        tx.old.conn tx.new.conn result }
    ensures stays { StaysInside S.Store tx.old.conn tx.new.conn }
{
    tx.execute(
        "DELETE FROM link WHERE kind = ?1 AND a = ?2 AND b = ?3",
        &link_values(link),
    )
}

// Inserts the row of a hierarchical link, and returns the count of inserted rows.
fn add_hier<S: Alter>(tx: &mut Transaction<'_, S>, row: &HierRow) -> Result<usize, Error>
    ensures same_reference { tx.new.conn.ghost_name ≡ tx.old.conn.ghost_name }
    ensures does { SucceedsInside S.Store (AppliesChange (change.AddHier row.now))
        tx.old.conn tx.new.conn result }
    ensures stays { StaysInside S.Store tx.old.conn tx.new.conn }
{
    tx.execute(
        "INSERT INTO hier (a, b, typ) VALUES (?1, ?2, ?3)",
        &hier_values(row),
    )
}

// Deletes the row of a hierarchical link, and returns the count of deleted rows.
fn drop_hier<S: Alter>(tx: &mut Transaction<'_, S>, row: &HierRow) -> Result<usize, Error>
    ensures same_reference { tx.new.conn.ghost_name ≡ tx.old.conn.ghost_name }
    ensures does { SucceedsInside S.Store (AppliesChange (change.DropHier row.now))
        tx.old.conn tx.new.conn result }
    ensures stays { StaysInside S.Store tx.old.conn tx.new.conn }
{
    tx.execute(
        "DELETE FROM hier WHERE a = ?1 AND b = ?2 AND typ = ?3",
        &hier_values(row),
    )
}

// Inserts the row of a posting, and returns the count of inserted rows.
fn add_posting<S: Alter>(tx: &mut Transaction<'_, S>, row: &PostingRow) -> Result<usize, Error>
    ensures same_reference { tx.new.conn.ghost_name ≡ tx.old.conn.ghost_name }
    ensures does { SucceedsInside S.Store (AppliesChange (change.AddPosting row.now))
        tx.old.conn tx.new.conn result }
    ensures stays { StaysInside S.Store tx.old.conn tx.new.conn }
{
    tx.execute(
        "INSERT INTO posting (num, pkey, record, first_at, at, withdrawn) VALUES (?1, ?2, ?3, ?4, ?5, ?6)",
        &posting_values(row),
    )
}

// Marks the posting with the number as withdrawn, and returns the count of changed rows.
fn withdraw<S: Alter>(tx: &mut Transaction<'_, S>, n: PostNo) -> Result<usize, Error>
    ensures same_reference { tx.new.conn.ghost_name ≡ tx.old.conn.ghost_name }
    ensures does { SucceedsInside S.Store (AppliesChange (change.Withdraw n))
        tx.old.conn tx.new.conn result }
    ensures stays { StaysInside S.Store tx.old.conn tx.new.conn }
{
    tx.execute(
        "UPDATE posting SET withdrawn = 1 WHERE num = ?1",
        params![n.get()],
    )
}

// Sets the place of the posting with the number, withdrawn or not, and returns the count of changed
// rows.
fn set_place<S: Alter>(tx: &mut Transaction<'_, S>, n: PostNo, place: ResNo) -> Result<usize, Error>
    ensures same_reference { tx.new.conn.ghost_name ≡ tx.old.conn.ghost_name }
    ensures does { SucceedsInside S.Store (AppliesChange (change.SetPlace n place))
        tx.old.conn tx.new.conn result }
    ensures stays { StaysInside S.Store tx.old.conn tx.new.conn }
{
    tx.execute(
        "UPDATE posting SET at = ?2 WHERE num = ?1",
        params![n.get(), place.get()],
    )
}

// Assigns each posting that is assigned to the source, and isn't withdrawn, to the target. Returns
// the count of changed rows.
fn move_all<S: Alter>(
    tx: &mut Transaction<'_, S>,
    source: ResNo,
    target: ResNo,
) -> Result<usize, Error>
    ensures same_reference { tx.new.conn.ghost_name ≡ tx.old.conn.ghost_name }
    ensures does { SucceedsInside S.Store (AppliesChange (change.MoveAll source target))
        tx.old.conn tx.new.conn result }
    ensures stays { StaysInside S.Store tx.old.conn tx.new.conn }
{
    tx.execute(
        "UPDATE posting SET at = ?2 WHERE at = ?1 AND withdrawn = 0",
        params![source.get(), target.get()],
    )
}

// Inserts the row of a move, and returns the count of inserted rows.
fn add_move<S: Alter>(tx: &mut Transaction<'_, S>, row: &MoveRow) -> Result<usize, Error>
    ensures same_reference { tx.new.conn.ghost_name ≡ tx.old.conn.ghost_name }
    ensures does { SucceedsInside S.Store (AppliesChange (change.AddMove row.now))
        tx.old.conn tx.new.conn result }
    ensures stays { StaysInside S.Store tx.old.conn tx.new.conn }
{
    tx.execute(
        "INSERT INTO move (num, posting, source, target) VALUES (?1, ?2, ?3, ?4)",
        &move_values(row),
    )
}

/// Performs one change with one statement, inside the transaction, and returns the number of rows
/// changed.
pub(crate) fn apply<S: Alter>(tx: &mut Transaction<'_, S>, change: &Change) -> Result<usize, Error>
    ensures same_reference { tx.new.conn.ghost_name ≡ tx.old.conn.ghost_name }
    ensures does { SucceedsInside S.Store (AppliesChange change.now)
        tx.old.conn tx.new.conn result }
    ensures stays { StaysInside S.Store tx.old.conn tx.new.conn }
{
    match change {
        Change::AddResource(n, resource) => add_resource(tx, *n, resource),
        Change::Retire(n) => retire(tx, *n),
        Change::Replace(n, by) => replace(tx, *n, *by),
        Change::AddOutside(n, iri) => add_outside(tx, *n, iri),
        Change::AddLabel(row) => add_label(tx, row),
        Change::DropLabel(row) => drop_label(tx, row),
        Change::AddLink(link) => add_link(tx, link),
        Change::DropLink(link) => drop_link(tx, link),
        Change::AddHier(row) => add_hier(tx, row),
        Change::DropHier(row) => drop_hier(tx, row),
        Change::AddPosting(row) => add_posting(tx, row),
        Change::Withdraw(n) => withdraw(tx, *n),
        Change::SetPlace(n, place) => set_place(tx, *n, *place),
        Change::MoveAll(source, target) => move_all(tx, *source, *target),
        Change::AddMove(row) => add_move(tx, row),
    }
}
