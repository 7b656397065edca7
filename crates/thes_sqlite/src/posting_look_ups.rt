//! Look-ups of postings in the database.
ghost use Rattle.std.specs.Prelude.{◌≡◌, IfOk};
ghost use Rattle.thes_base.specs.Resources.{entry_at};
ghost use Rattle.thes_tables.specs.Tables.{Tables};
ghost use Rattle.thes_sql.specs.StoredRows.{Keeps};
ghost use Rattle.thes_sql.specs.Reads.{LeavesTables};
ghost use Rattle.thes_store.specs.Reading.{IsPostingOfKey, IsPostingOfNumber};
ghost use Rattle.thes_sqlite.specs.KeeperView.{IsUp};
ghost use Rattle.sqlite.specs.State.{HasCleanDisk};
ghost use Rattle.sqlite.specs.Held.{state};

use crate::rows::{read_moves, read_posting};
use sqlite::{Alter, Connection, Error};
use std::alloc::Global;
use thes_base::number::PostNo;
use thes_base::text::Key;
use thes_sql::reads::{move_rows_of_posting, posting_rows_with_key, posting_rows_with_number};
use thes_store::keeper::Posting;
use thes_tables::rows::PostingRow;

/// Returns the row of the posting that has the key, if the database has one.
pub(crate) fn find_posting<S: Alter>(
    alloc: Global,
    conn: &mut Connection<S>,
    key: &Key,
) -> Result<Option<PostingRow>, Error>
    ensures ok { HasCleanDisk (state S.Store conn.new) → IfOk result (λ found. (t : Tables)
        → Keeps (state S.Store conn.old).now t → IsPostingOfKey key.now t.posting found) }
    ensures leaves { LeavesTables S.Store conn.old conn.new }
{
    let rows = posting_rows_with_key(conn, key)?;
    let Some(row) = rows.first() else {
        return Ok(None);
    };
    Ok(Some(read_posting(alloc, row)?))
}

/// Returns the row of the posting that has the number, if the database has one.
#[tactic(auto, using(crate::proofs::PostingLookUpLemmas::finds_no_row, crate::proofs::PostingLookUpLemmas::finds_row))]
pub(crate) fn find_row<S: Alter>(
    alloc: Global,
    conn: &mut Connection<S>,
    number: PostNo,
) -> Result<Option<PostingRow>, Error>
    ensures ok { HasCleanDisk (state S.Store conn.new) → IfOk result (λ row. (t : Tables)
        → Keeps (state S.Store conn.old).now t → row ≡ entry_at t.posting number) }
    ensures leaves { LeavesTables S.Store conn.old conn.new }
{
    let rows = posting_rows_with_number(conn, number)?;
    let Some(first) = rows.first() else {
        return Ok(None);
    };
    Ok(Some(read_posting(alloc, first)?))
}

/// Returns the posting that has the number, with its moves, if the database has one.
#[tactic(auto, using(crate::proofs::PostingLookUpLemmas::finds_posting_with_moves))]
pub(crate) fn find_with_moves<S: Alter>(
    alloc: Global,
    conn: &mut Connection<S>,
    number: PostNo,
) -> Result<Option<Posting>, Error>
    ensures ok { IsUp (state S.Store conn.new) → IfOk result (λ told. (t : Tables)
        → Keeps (state S.Store conn.old).now t
        → (state S.Store conn.old).now ≡ (state S.Store conn.old).committed
        → IsPostingOfNumber number t told) }
    ensures leaves { LeavesTables S.Store conn.old conn.new }
{
    let Some(row) = find_row(alloc, conn, number)? else {
        return Ok(None);
    };
    let steps = move_rows_of_posting(conn, number)?;
    let moves = read_moves(alloc, steps.as_slice())?;
    Ok(Some(Posting { row, moves }))
}
