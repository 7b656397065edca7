//! Checks whether a commit that failed has taken effect.
ghost use mathlib.Core.Logic.{inl, inr};
ghost use Rattle.std.specs.Prelude.{◌≡◌, false, IfOk, IsTrue};
ghost use Rattle.sqlite.specs.Held.{state};
ghost use Rattle.sqlite.specs.State.{HasCleanDisk, Survives};
ghost use Rattle.sqlite.specs.Values.{bound};
ghost use Rattle.thes_sql.specs.Queries.{IsQuery};
ghost use Rattle.thes_sql.specs.Reads.{LeavesTables};
ghost use Rattle.thes_sql.specs.Traces as traces;
ghost use Rattle.thes_sql.specs.Traces.{IsAnswered, ShowsTrace};

use crate::values::{hier_values, label_values, link_values};
use crate::versions::version_rows;
use sqlite::types::ValueRef;
use sqlite::{Alter, Connection, Error, ErrorCode, params};
use thes_base::data::Link;
use thes_base::number::{MoveNo, PostNo, ResNo};
use thes_tables::change::Change;
use thes_tables::rows::{HierRow, LabelRow};

/// Queries the database to check whether an earlier failure has shut the connection. Returns false
/// if the query succeeds, or fails for any other reason.
#[tactic(auto, using(crate::proofs::ReadFrameLemmas::shut_before))]
pub fn is_shut<S: Alter>(conn: &mut Connection<S>) -> bool
    ensures leaves { LeavesTables S.Store conn.old conn.new }
    ensures crash { Survives (state S.Store conn.old) (state S.Store conn.new) (λ _. ⊥) }
    ensures shut { IsTrue result → HasCleanDisk (state S.Store conn.new)
        → (state S.Store conn.old).is_open ≡ false }
{
    match version_rows(conn) {
        Err(Error::SqliteFailure(ErrorCode::Closed)) => true,
        _ => false,
    }
}

// Checks whether a query returns at least one row.
fn has_row<S: Alter>(
    conn: &mut Connection<S>,
    sql: &str,
    params: &[ValueRef<'_>],
) -> Result<bool, Error>
    requires { IsQuery sql.now }
    ensures answers { HasCleanDisk (state S.Store conn.new) → IfOk result (IsAnswered sql.now
        (bound params.now) (state S.Store conn.old) (state S.Store conn.new)) }
    ensures leaves { LeavesTables S.Store conn.old conn.new }
{
    Ok(!conn.query_all(sql, params)?.is_empty())
}

// Checks by a query whether there is a resource with the number.
fn has_resource<S: Alter>(conn: &mut Connection<S>, n: ResNo) -> Result<bool, Error>
    ensures shows { ShowsTrace S.Store (traces.has_resource n) conn.old conn.new result }
    ensures leaves { LeavesTables S.Store conn.old conn.new }
{
    has_row(
        conn,
        "SELECT num FROM resource WHERE num = ?1 ORDER BY num",
        params![n.get()],
    )
}

// Checks by a query whether there is a dead resource with the number.
fn has_dead<S: Alter>(conn: &mut Connection<S>, n: ResNo) -> Result<bool, Error>
    ensures shows { ShowsTrace S.Store (traces.has_dead n) conn.old conn.new result }
    ensures leaves { LeavesTables S.Store conn.old conn.new }
{
    has_row(
        conn,
        "SELECT num FROM resource WHERE num = ?1 AND live = 0 ORDER BY num",
        params![n.get()],
    )
}

// Checks by a query whether there is an outside concept with the number.
fn has_outside<S: Alter>(conn: &mut Connection<S>, n: ResNo) -> Result<bool, Error>
    ensures shows { ShowsTrace S.Store (traces.has_outside n) conn.old conn.new result }
    ensures leaves { LeavesTables S.Store conn.old conn.new }
{
    has_row(
        conn,
        "SELECT num FROM outside WHERE num = ?1 ORDER BY num",
        params![n.get()],
    )
}

// Checks by a query whether table label has the row.
fn has_label<S: Alter>(conn: &mut Connection<S>, row: &LabelRow) -> Result<bool, Error>
    ensures shows { ShowsTrace S.Store (traces.has_listed (inl row.now)) conn.old conn.new result }
    ensures leaves { LeavesTables S.Store conn.old conn.new }
{
    has_row(
        conn,
        "SELECT owner FROM label WHERE owner = ?1 AND kind = ?2 AND tag = ?3 AND text = ?4 ORDER BY rowid",
        &label_values(row),
    )
}

// Checks by a query whether table link has the row.
fn has_link<S: Alter>(conn: &mut Connection<S>, link: &Link) -> Result<bool, Error>
    ensures shows { ShowsTrace S.Store (traces.has_listed (inr (inl link.now))) conn.old conn.new
        result }
    ensures leaves { LeavesTables S.Store conn.old conn.new }
{
    has_row(
        conn,
        "SELECT kind FROM link WHERE kind = ?1 AND a = ?2 AND b = ?3 ORDER BY rowid",
        &link_values(link),
    )
}

// Checks by a query whether table hier has the row.
fn has_hier<S: Alter>(conn: &mut Connection<S>, row: &HierRow) -> Result<bool, Error>
    ensures shows { ShowsTrace S.Store (traces.has_listed (inr (inr row.now))) conn.old conn.new
        result }
    ensures leaves { LeavesTables S.Store conn.old conn.new }
{
    has_row(
        conn,
        "SELECT a FROM hier WHERE a = ?1 AND b = ?2 AND typ = ?3 ORDER BY rowid",
        &hier_values(row),
    )
}

// Checks by a query whether there is a posting with the number.
fn has_posting<S: Alter>(conn: &mut Connection<S>, n: PostNo) -> Result<bool, Error>
    ensures shows { ShowsTrace S.Store (traces.has_posting n) conn.old conn.new result }
    ensures leaves { LeavesTables S.Store conn.old conn.new }
{
    has_row(
        conn,
        "SELECT num FROM posting WHERE num = ?1 ORDER BY num",
        params![n.get()],
    )
}

// Checks by a query whether there is a withdrawn posting with the number.
fn has_withdrawn<S: Alter>(conn: &mut Connection<S>, n: PostNo) -> Result<bool, Error>
    ensures shows { ShowsTrace S.Store (traces.has_withdrawn n) conn.old conn.new result }
    ensures leaves { LeavesTables S.Store conn.old conn.new }
{
    has_row(
        conn,
        "SELECT num FROM posting WHERE num = ?1 AND withdrawn = 1 ORDER BY num",
        params![n.get()],
    )
}

// Checks by a query whether there is a move with the number.
fn has_move<S: Alter>(conn: &mut Connection<S>, n: MoveNo) -> Result<bool, Error>
    ensures shows { ShowsTrace S.Store (traces.has_move n) conn.old conn.new result }
    ensures leaves { LeavesTables S.Store conn.old conn.new }
{
    has_row(
        conn,
        "SELECT num FROM move WHERE num = ?1 ORDER BY num",
        params![n.get()],
    )
}

// Checks by a query whether table label, link or hier has the row that a change inserts or deletes
// there; false for a change of another table.
fn has_listed<S: Alter>(conn: &mut Connection<S>, change: &Change) -> Result<bool, Error>
    ensures shows { ShowsTrace S.Store (traces.has_row (traces.row_of change.now)) conn.old conn.new
        result }
    ensures leaves { LeavesTables S.Store conn.old conn.new }
{
    match change {
        Change::AddLabel(row) | Change::DropLabel(row) => has_label(conn, row),
        Change::AddLink(link) | Change::DropLink(link) => has_link(conn, link),
        Change::AddHier(row) | Change::DropHier(row) => has_hier(conn, row),
        _ => Ok(false),
    }
}

/// Checks whether a database shows a change: has the row that the change inserts, found by its
/// number if it has one; lacks the row that it deletes; or has the mark, dead or withdrawn, that it
/// sets. Returns false for `SetPlace` and `MoveAll`, after which the places may be the same as
/// before.
pub fn has_change<S: Alter>(conn: &mut Connection<S>, change: &Change) -> Result<bool, Error>
    ensures shows { ShowsTrace S.Store (traces.shows_change change.now) conn.old conn.new result }
    ensures leaves { LeavesTables S.Store conn.old conn.new }
{
    match change {
        Change::AddResource(n, _) => has_resource(conn, *n),
        Change::Retire(n) | Change::Replace(n, _) => has_dead(conn, *n),
        Change::AddOutside(n, _) => has_outside(conn, *n),
        Change::AddLabel(_) | Change::AddLink(_) | Change::AddHier(_) => has_listed(conn, change),
        Change::DropLabel(_) | Change::DropLink(_) | Change::DropHier(_) => {
            Ok(!has_listed(conn, change)?)
        }
        Change::AddPosting(row) => has_posting(conn, row.number),
        Change::Withdraw(n) => has_withdrawn(conn, *n),
        Change::AddMove(row) => has_move(conn, row.number),
        Change::SetPlace(_, _) | Change::MoveAll(_, _) => Ok(false),
    }
}
