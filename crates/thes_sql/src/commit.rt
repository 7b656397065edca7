//! Commits changes to the tables of a database, all in one transaction.
ghost use Rattle.std.specs.Prelude.{◌≡◌, IfOk, IsTrue};
ghost use Rattle.thes_tables.specs.Tables.{Tables};
ghost use Rattle.thes_tables.specs.Rows.{tables_after_delta, DeltaFits};
ghost use Rattle.thes_sql.specs.Additions.{LeavesUserTables};
ghost use Rattle.thes_sql.specs.StoredRows.{Keeps, KeepsIn, Hold};
ghost use Rattle.thes_sql.specs.TransactionEffects.{AppliesChanges, SucceedsInside, StaysInside, IsOwnTransaction};
ghost use Rattle.sqlite.specs.State.{HasCleanDisk, Survives};
ghost use Rattle.sqlite.specs.Held.{state};

use crate::writes::apply;
use sqlite::{Alter, Connection, Error, Transaction};
use thes_tables::change::Change;

// Applies the changes in order, inside the transaction.
fn apply_all<S: Alter>(tx: &mut Transaction<'_, S>, changes: &[Change]) -> Result<(), Error>
    ensures same_reference { tx.new.conn.ghost_name ≡ tx.old.conn.ghost_name }
    ensures does { SucceedsInside S.Store (AppliesChanges changes.now)
        tx.old.conn tx.new.conn result }
    ensures stays { StaysInside S.Store tx.old.conn tx.new.conn }
{
    for change in changes {
        apply(tx, change)?;
    }
    Ok(())
}

/// Applies the changes in one transaction, atomically even if a crash interrupts it. Leaves a
/// user's tables as they are, but for those with foreign keys. Returns false, and changes nothing,
/// if the connection is in a transaction already.
pub fn commit_all<S: Alter>(conn: &mut Connection<S>, changes: &[Change]) -> Result<bool, Error>
    ensures all { HasCleanDisk (state S.Store conn.new) → IfOk result (λ done. IsTrue done
        → (t : Tables) → Keeps (state S.Store conn.old).now t → DeltaFits changes.now t
        → KeepsIn (state S.Store conn.old).now.schema (state S.Store conn.new).committed
        (tables_after_delta changes.now t)
        × KeepsIn (state S.Store conn.old).now.schema (state S.Store conn.new).now
        (tables_after_delta changes.now t)) }
    ensures users { HasCleanDisk (state S.Store conn.new) → IfOk result (λ done. IsTrue done
        → (t : Tables) → Keeps (state S.Store conn.old).now t → DeltaFits changes.now t
        → LeavesUserTables (state S.Store conn.old).now.schema (state S.Store conn.old).now.trees
        (state S.Store conn.new).committed.trees) }
    ensures own { IsOwnTransaction S.Store conn.old conn.new result }
    ensures crash { Survives (state S.Store conn.old) (state S.Store conn.new)
        (λ trees. (t : Tables) → Keeps (state S.Store conn.old).now t → DeltaFits changes.now t
        → Hold trees (tables_after_delta changes.now t)) }
    ensures crash_users { Survives (state S.Store conn.old) (state S.Store conn.new)
        (λ trees. (t : Tables) → Keeps (state S.Store conn.old).now t → DeltaFits changes.now t
        → LeavesUserTables (state S.Store conn.old).now.schema
        (state S.Store conn.old).now.trees trees) }
{
    if !conn.is_autocommit() {
        return Ok(false);
    }
    let mut tx = conn.transaction();
    apply_all(&mut tx, changes)?;
    tx.commit()?;
    Ok(true)
}
