//! Queries on a database that may be a store of version 1, a store of version 2, or hold anything
//! else.
ghost use Rattle.std.specs.Prelude.{◌≡◌};
ghost use Rattle.thes_base.specs.declared.fault.Table.TheVariants as table;
ghost use Rattle.thes_sql.specs.OldStore.{links_text, hier_text};
ghost use Rattle.thes_sql.specs.Reads.{read_text, LeavesAlone};
ghost use Rattle.thes_sql.specs.Queries.{FindResult, CompileResult, KeepsDatabase, IsWholeQuery, answer_of_error};

use sqlite::{Alter, Connection, Error, Row};

/// Reads the rows of table meta; a store of either version has exactly one.
pub fn version_rows<S: Alter>(conn: &mut Connection<S>) -> Result<Vec<Row>, Error>
    ensures finds { FindResult S.Store (read_text table.Meta) conn.old conn.new result
        (λ rows. rows.items) }
    ensures kept { KeepsDatabase S.Store conn.old conn.new result }
    ensures leaves { LeavesAlone S.Store conn.old conn.new }
{
    conn.query_all("SELECT one, version, base FROM meta ORDER BY one", &[])
}

// Returns false for the error of a query that doesn't compile; returns any other error unchanged.
fn answer_of(error: Error) -> Result<bool, Error>
    ensures { result ≡ answer_of_error error }
{
    match error {
        Error::SqlInputError(_) => Ok(false),
        other => Err(other),
    }
}

// Checks whether a query without parameters compiles.
fn understands<S: Alter>(conn: &mut Connection<S>, sql: &str) -> Result<bool, Error>
    requires { IsWholeQuery sql.now }
    ensures reports { CompileResult S.Store sql.now conn.old conn.new result }
    ensures kept { KeepsDatabase S.Store conn.old conn.new result }
    ensures leaves { LeavesAlone S.Store conn.old conn.new }
{
    match conn.prepare(sql) {
        Ok(_) => Ok(true),
        Err(error) => answer_of(error),
    }
}

/// Checks whether the three columns of table link can be queried.
pub fn has_links<S: Alter>(conn: &mut Connection<S>) -> Result<bool, Error>
    ensures reports { CompileResult S.Store links_text conn.old conn.new result }
    ensures kept { KeepsDatabase S.Store conn.old conn.new result }
    ensures leaves { LeavesAlone S.Store conn.old conn.new }
{
    understands(conn, "SELECT kind, a, b FROM link")
}

/// Checks whether table hier, which a store of version 1 lacks, can be queried.
pub fn has_hier<S: Alter>(conn: &mut Connection<S>) -> Result<bool, Error>
    ensures reports { CompileResult S.Store hier_text conn.old conn.new result }
    ensures kept { KeepsDatabase S.Store conn.old conn.new result }
    ensures leaves { LeavesAlone S.Store conn.old conn.new }
{
    understands(conn, "SELECT 1 FROM hier")
}
