//! Migrates the tables of a store from version 1 to version 2.
ghost use Rattle.std.specs.Prelude.{◌≡◌, ◌≤◌, IfOk, IsTrue};
ghost use Rattle.thes_tables.specs.OldRows.{tables_after_migration};
ghost use Rattle.thes_tables.specs.Tables.{Tables};
ghost use Rattle.thes_sql.specs.Schema.{store_schema};
ghost use Rattle.thes_sql.specs.StoredRows.{KeepsIn, Hold};
ghost use Rattle.thes_sql.specs.OldStore.{KeepsOld, IsOldStore, HasEmptyHier, HasCopiedLinks, HasMovedLinks, IsMigratedStore};
ghost use Rattle.thes_sql.specs.TransactionEffects.{TransformsTables, SucceedsInside, StaysInside, IsOwnTransaction};
ghost use Rattle.sqlite.specs.State.{HasCleanDisk, Survives};
ghost use Rattle.sqlite.specs.Held.{state};
ghost use Rattle.sqlite_trees.specs.View.{doubt};

use crate::create::define_newer;
use sqlite::{Alter, Connection, Error, Transaction};

// Copies the links of kind broader from table link into the empty table hier, untyped and in
// insertion order. Returns the count of copied links.
fn copy_links<S: Alter>(tx: &mut Transaction<'_, S>) -> Result<usize, Error>
    ensures same_reference { tx.new.conn.ghost_name ≡ tx.old.conn.ghost_name }
    ensures does { SucceedsInside S.Store (TransformsTables HasEmptyHier HasCopiedLinks)
        tx.old.conn tx.new.conn result }
    ensures stays { StaysInside S.Store tx.old.conn tx.new.conn }
{
    tx.execute(
        "INSERT INTO hier (a, b, typ) SELECT a, b, 0 FROM link WHERE kind = 1 ORDER BY rowid",
        &[],
    )
}

// Deletes the links of kind broader from table link, and returns the count of deleted links.
fn drop_copied<S: Alter>(tx: &mut Transaction<'_, S>) -> Result<usize, Error>
    ensures same_reference { tx.new.conn.ghost_name ≡ tx.old.conn.ghost_name }
    ensures does { SucceedsInside S.Store (TransformsTables HasCopiedLinks HasMovedLinks)
        tx.old.conn tx.new.conn result }
    ensures stays { StaysInside S.Store tx.old.conn tx.new.conn }
{
    tx.execute("DELETE FROM link WHERE kind = 1", &[])
}

// Moves the links of kind broader from table link to the empty table hier.
fn move_links<S: Alter>(tx: &mut Transaction<'_, S>) -> Result<(), Error>
    ensures same_reference { tx.new.conn.ghost_name ≡ tx.old.conn.ghost_name }
    ensures does { SucceedsInside S.Store (TransformsTables HasEmptyHier HasMovedLinks)
        tx.old.conn tx.new.conn result }
    ensures stays { StaysInside S.Store tx.old.conn tx.new.conn }
{
    copy_links(tx)?;
    drop_copied(tx)?;
    Ok(())
}

// Sets the version in table meta to 2, and returns the count of changed rows.
fn set_version<S: Alter>(tx: &mut Transaction<'_, S>) -> Result<usize, Error>
    ensures same_reference { tx.new.conn.ghost_name ≡ tx.old.conn.ghost_name }
    ensures does { SucceedsInside S.Store (TransformsTables HasMovedLinks IsMigratedStore)
        tx.old.conn tx.new.conn result }
    ensures stays { StaysInside S.Store tx.old.conn tx.new.conn }
{
    tx.execute("UPDATE meta SET version = 2", &[])
}

// Migrates the tables from version 1 to version 2, inside the transaction.
fn migrate_all<S: Alter>(tx: &mut Transaction<'_, S>) -> Result<(), Error>
    ensures same_reference { tx.new.conn.ghost_name ≡ tx.old.conn.ghost_name }
    ensures does { SucceedsInside S.Store (TransformsTables IsOldStore IsMigratedStore)
        tx.old.conn tx.new.conn result }
    ensures stays { StaysInside S.Store tx.old.conn tx.new.conn }
{
    define_newer(tx)?;
    move_links(tx)?;
    set_version(tx)?;
    Ok(())
}

/// Migrates the tables of version 1 to version 2 in one transaction, atomically even if a crash
/// interrupts it. Returns false, and changes nothing, if the connection is in a transaction
/// already.
pub fn migrate_tables<S: Alter>(conn: &mut Connection<S>) -> Result<bool, Error>
    ensures all { HasCleanDisk (state S.Store conn.new) → IfOk result (λ done. IsTrue done
        → (t : Tables) → KeepsOld (state S.Store conn.old).now t
        → KeepsIn store_schema (state S.Store conn.new).committed (tables_after_migration t)
        × KeepsIn store_schema (state S.Store conn.new).now (tables_after_migration t)) }
    ensures own { IsOwnTransaction S.Store conn.old conn.new result }
    ensures clean { doubt (state S.Store conn.old).is_clean
        ≤ doubt (state S.Store conn.new).is_clean }
    ensures crash { Survives (state S.Store conn.old) (state S.Store conn.new)
        (λ trees. (t : Tables) → KeepsOld (state S.Store conn.old).now t
        → Hold trees (tables_after_migration t)) }
{
    if !conn.is_autocommit() {
        return Ok(false);
    }
    let mut tx = conn.transaction();
    migrate_all(&mut tx)?;
    tx.commit()?;
    Ok(true)
}
