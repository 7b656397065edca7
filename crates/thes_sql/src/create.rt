//! Creates the tables and indexes of a store in a database.
ghost use Rattle.std.specs.Prelude.{◌≡◌, ◌∷◌, [], IfOk, IsTrue};
ghost use Rattle.thes_tables.specs.Tables.{empty_tables};
ghost use Rattle.thes_sql.specs.Schema.{empty_schema, schema_without_indexes, store_schema};
ghost use Rattle.thes_sql.specs.StoredRows.{KeepsIn, Hold};
ghost use Rattle.thes_sql.specs.OldStore.{old_schema, IsOldStore, HasEmptyHier};
ghost use Rattle.thes_sql.specs.TransactionEffects.{IsEmpty, Transforms, TransformsTables, ExtendsSchema, RunsOrFailsToCompile, SucceedsInside, StaysInside, IsOwnTransaction};
ghost use Rattle.sqlite.specs.State.{HasCleanDisk, Survives};
ghost use Rattle.sqlite.specs.Held.{state};

use sqlite::{Alter, Connection, Error, Transaction, params};
use thes_base::text::Base;

// Creates the seven tables of version 1, which version 2 also has.
fn define_tables<S: Alter>(tx: &mut Transaction<'_, S>) -> Result<(), Error>
    ensures same_reference { tx.new.conn.ghost_name ≡ tx.old.conn.ghost_name }
    ensures does { SucceedsInside S.Store (Transforms (IsEmpty empty_schema) (IsEmpty old_schema))
        tx.old.conn tx.new.conn result }
    ensures stays { StaysInside S.Store tx.old.conn tx.new.conn }
{
    tx.execute_batch(
        "\
CREATE TABLE meta (one INTEGER PRIMARY KEY, version INTEGER NOT NULL, base TEXT NOT NULL) STRICT;\
CREATE TABLE resource (num INTEGER PRIMARY KEY, kind INTEGER NOT NULL, scheme INTEGER, \
live INTEGER NOT NULL, replaced INTEGER) STRICT;\
CREATE TABLE outside (num INTEGER PRIMARY KEY, iri TEXT NOT NULL UNIQUE) STRICT;\
CREATE TABLE label (owner INTEGER NOT NULL, kind INTEGER NOT NULL, tag TEXT NOT NULL, text TEXT NOT NULL, \
PRIMARY KEY (owner, kind, tag, text)) STRICT;\
CREATE TABLE link (kind INTEGER NOT NULL, a INTEGER NOT NULL, b INTEGER NOT NULL, \
PRIMARY KEY (kind, a, b)) STRICT;\
CREATE TABLE posting (num INTEGER PRIMARY KEY, pkey TEXT NOT NULL UNIQUE, record TEXT NOT NULL, \
first_at INTEGER NOT NULL, at INTEGER NOT NULL, withdrawn INTEGER NOT NULL) STRICT;\
CREATE TABLE move (num INTEGER PRIMARY KEY, posting INTEGER NOT NULL, source INTEGER NOT NULL, \
target INTEGER NOT NULL) STRICT;",
    )
}

// Creates table hier, which version 1 lacks.
fn define_hier<S: Alter>(tx: &mut Transaction<'_, S>) -> Result<(), Error>
    ensures same_reference { tx.new.conn.ghost_name ≡ tx.old.conn.ghost_name }
    ensures does { SucceedsInside S.Store (ExtendsSchema old_schema schema_without_indexes
        (11 ∷ [])) tx.old.conn tx.new.conn result }
    ensures stays { StaysInside S.Store tx.old.conn tx.new.conn }
{
    tx.execute_batch(
        "\
CREATE TABLE hier (a INTEGER NOT NULL, b INTEGER NOT NULL, typ INTEGER NOT NULL, \
PRIMARY KEY (a, b, typ)) STRICT;",
    )
}

// Runs a CREATE INDEX statement; succeeds even if the statement doesn't compile, as when its table
// is missing.
fn try_index<S: Alter>(tx: &mut Transaction<'_, S>, sql: &str) -> Result<(), Error>
    ensures same_reference { tx.new.conn.ghost_name ≡ tx.old.conn.ghost_name }
    ensures does { SucceedsInside S.Store (RunsOrFailsToCompile sql.now)
        tx.old.conn tx.new.conn result }
    ensures stays { StaysInside S.Store tx.old.conn tx.new.conn }
{
    match tx.execute(sql, &[]) {
        Ok(_) => Ok(()),
        Err(Error::SqlInputError(_)) => Ok(()),
        Err(error) => Err(error),
    }
}

// Creates the indexes of postings by place and of moves by posting. Skips an index whose table is
// missing, as it is in some faulty stores of version 1.
fn define_indexes<S: Alter>(tx: &mut Transaction<'_, S>) -> Result<(), Error>
    ensures same_reference { tx.new.conn.ghost_name ≡ tx.old.conn.ghost_name }
    ensures does { SucceedsInside S.Store (ExtendsSchema schema_without_indexes store_schema [])
        tx.old.conn tx.new.conn result }
    ensures stays { StaysInside S.Store tx.old.conn tx.new.conn }
{
    try_index(tx, "CREATE INDEX IF NOT EXISTS posting_at ON posting (at)")?;
    try_index(
        tx,
        "CREATE INDEX IF NOT EXISTS move_posting ON move (posting)",
    )?;
    Ok(())
}

/// Creates table hier, and the indexes of postings and moves, all of which version 1 lacks.
pub(crate) fn define_newer<S: Alter>(tx: &mut Transaction<'_, S>) -> Result<(), Error>
    ensures same_reference { tx.new.conn.ghost_name ≡ tx.old.conn.ghost_name }
    ensures does { SucceedsInside S.Store (Transforms (IsEmpty old_schema) (IsEmpty store_schema))
        tx.old.conn tx.new.conn result }
    ensures renews { SucceedsInside S.Store (TransformsTables IsOldStore HasEmptyHier)
        tx.old.conn tx.new.conn result }
    ensures stays { StaysInside S.Store tx.old.conn tx.new.conn }
{
    define_hier(tx)?;
    define_indexes(tx)?;
    Ok(())
}

// Inserts the row of table meta: key 1, version 2, and the base. Returns the count of inserted
// rows.
fn add_meta<S: Alter>(tx: &mut Transaction<'_, S>, base: &Base) -> Result<usize, Error>
    ensures same_reference { tx.new.conn.ghost_name ≡ tx.old.conn.ghost_name }
    ensures does { SucceedsInside S.Store
        (Transforms (IsEmpty store_schema) (λ db. KeepsIn store_schema db (empty_tables base.now)))
        tx.old.conn tx.new.conn result }
    ensures stays { StaysInside S.Store tx.old.conn tx.new.conn }
{
    tx.execute(
        "INSERT INTO meta (one, version, base) VALUES (?1, ?2, ?3)",
        params![1u32, 2u32, base.as_str()],
    )
}

// Creates all tables and indexes, and inserts the row of table meta, inside the transaction.
fn create_all<S: Alter>(tx: &mut Transaction<'_, S>, base: &Base) -> Result<(), Error>
    ensures same_reference { tx.new.conn.ghost_name ≡ tx.old.conn.ghost_name }
    ensures does { SucceedsInside S.Store
        (Transforms (IsEmpty empty_schema) (λ db. KeepsIn store_schema db (empty_tables base.now)))
        tx.old.conn tx.new.conn result }
    ensures stays { StaysInside S.Store tx.old.conn tx.new.conn }
{
    define_tables(tx)?;
    define_newer(tx)?;
    add_meta(tx, base)?;
    Ok(())
}

/// Creates the tables of a new store in one transaction, atomically even if a crash interrupts it.
/// Returns false, and changes nothing, if the connection is in a transaction already.
pub fn create_tables<S: Alter>(conn: &mut Connection<S>, base: &Base) -> Result<bool, Error>
    ensures all { HasCleanDisk (state S.Store conn.new) → IfOk result (λ done. IsTrue done
        → IsEmpty empty_schema (state S.Store conn.old).now
        → KeepsIn store_schema (state S.Store conn.new).committed (empty_tables base.now)
        × KeepsIn store_schema (state S.Store conn.new).now (empty_tables base.now)) }
    ensures own { IsOwnTransaction S.Store conn.old conn.new result }
    ensures crash { IsEmpty empty_schema (state S.Store conn.old).now
        → Survives (state S.Store conn.old) (state S.Store conn.new)
        (λ trees. Hold trees (empty_tables base.now)) }
{
    if !conn.is_autocommit() {
        return Ok(false);
    }
    let mut tx = conn.transaction();
    create_all(&mut tx, base)?;
    tx.commit()?;
    Ok(true)
}
