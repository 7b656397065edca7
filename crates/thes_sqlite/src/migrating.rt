//! Migrates a database from version 1 of the tables to version 2.
ghost use Rattle.std.specs.Prelude.{◌≡◌, ◌⊎◌, Some, Err, IfErr, false};
ghost use Rattle.thes_sqlite.specs.MigrationEffects.{IsMigrateFault, IsMetaVerdict, IsVersionVerdict, IsLinkVerdict, IsMigrationVerdict, VerdictFrame, IsVerdictUnlessFailed, Migrates};
ghost use Rattle.thes_sqlite.specs.MigrationEffects.{meta_fault_of, links_verdict_of, hier_verdict_of};
ghost use Rattle.thes_sqlite.specs.Causes.{error_cause};
ghost use Rattle.thes_sqlite.specs.Versions.{SpellsVersion};
ghost use Rattle.sqlite.specs.Effect.{Database};

use crate::any_cells::any_cells_of;
use crate::cause::{Cause, cause_of};
use crate::faults::{fault_of, fault_with_cause};
use sqlite::{Alter, Connection, Error, ErrorCode, Row};
use std::alloc::Global;
use thes_base::fault::{Fault, Table};
use thes_sql::migrate::migrate_tables;
use thes_sql::versions::{has_hier, has_links, version_rows};
use thes_tables::cells::Cell;

// The version of a store's tables, relative to the current one.
#[derive(Clone, Copy)]
enum Version {
    // Version 1, which can be migrated.
    Older,
    // Version 2, that of this program.
    Current,
    // A version after 2, which this program doesn't know.
    Newer,
}

// Returns the version that the cells of a row of table meta state, whatever the base in them; None
// if they state no version of at least 1.
fn version_in(cells: &[Cell]) -> Option<Version>
    ensures { SpellsVersion cells.now result }
{
    let [one, version, _base] = cells else {
        return None;
    };
    let (Cell::Int(one), Cell::Int(version)) = (one, version) else {
        return None;
    };
    if *one != 1 || *version < 1 {
        return None;
    }
    if *version == 1 {
        return Some(Version::Older);
    }
    if *version > 2 {
        return Some(Version::Newer);
    }
    Some(Version::Current)
}

// Returns whether the rows of the database's table meta state version 1 rather than version 2; rows
// that state neither are a fault.
fn is_version_1(alloc: Global, rows: &[Row]) -> Result<bool, Fault>
    ensures judged { (result ≡ Err Fault.OutOfMemory) ⊎ IsMetaVerdict (Some rows.now) result }
    ensures faults { IfErr result IsMigrateFault }
{
    let [row] = rows else {
        return Err(Fault::BadStore(Table::Meta));
    };
    let cells = any_cells_of(alloc, row)?;
    match version_in(cells.as_slice()) {
        Some(Version::Older) => Ok(true),
        Some(Version::Current) => Ok(false),
        Some(Version::Newer) => Err(Fault::NewerStore),
        None => Err(Fault::BadStore(Table::Meta)),
    }
}

// Maps an error of the query for table meta to a fault, and records the error's cause. The fault is
// `BadStore` if the query finds nothing, and else that of any error of the database.
fn meta_fault(error: Error, cause: &mut Cause) -> Fault
    ensures is { result ≡ meta_fault_of error }
    ensures kind { IsMigrateFault result }
    ensures cause { cause.new ≡ error_cause error }
{
    *cause = cause_of(error);
    match error {
        Error::SqlInputError(_) => Fault::BadStore(Table::Meta),
        Error::SqliteFailure(ErrorCode::TypeMismatch | ErrorCode::IntegerOverflow) => {
            Fault::BadStore(Table::Meta)
        }
        other => fault_of(other),
    }
}

// Returns whether a database has version 1 rather than version 2, by its table meta; anything else
// is a fault.
fn check_version<S: Alter>(
    alloc: Global,
    conn: &mut Connection<S>,
    cause: &mut Cause,
) -> Result<bool, Fault>
    ensures judged { IsVerdictUnlessFailed S.Store IsVersionVerdict conn.old conn.new result }
    ensures frame { VerdictFrame S.Store conn.old conn.new result }
{
    match version_rows(conn) {
        Ok(rows) => is_version_1(alloc, rows.as_slice()),
        Err(error) => Err(meta_fault(error, cause)),
    }
}

// Returns the verdict that follows from whether table link can be queried: `BadStore` of link if it
// can't. Records the cause of an error.
fn links_verdict(there: Result<bool, Error>, cause: &mut Cause) -> Result<(), Fault>
    ensures is { result ≡ links_verdict_of there }
    ensures faults { IfErr result IsMigrateFault }
    ensures cause { IfErr there (λ error. cause.new ≡ error_cause error) }
{
    match there {
        Ok(true) => Ok(()),
        Ok(false) => Err(Fault::BadStore(Table::Link)),
        Err(error) => Err(fault_with_cause(error, cause)),
    }
}

// Returns the verdict that follows from whether there is a table hier: `BadStore` of hier if there
// is. Records the cause of an error.
fn hier_verdict(there: Result<bool, Error>, cause: &mut Cause) -> Result<(), Fault>
    ensures is { result ≡ hier_verdict_of there }
    ensures faults { IfErr result IsMigrateFault }
    ensures cause { IfErr there (λ error. cause.new ≡ error_cause error) }
{
    match there {
        Ok(true) => Err(Fault::BadStore(Table::Hier)),
        Ok(false) => Ok(()),
        Err(error) => Err(fault_with_cause(error, cause)),
    }
}

// Checks that a database has the tables of links of version 1: link can be queried, and there is no
// hier.
fn check_link_tables<S: Alter>(conn: &mut Connection<S>, cause: &mut Cause) -> Result<(), Fault>
    ensures judged { IsVerdictUnlessFailed S.Store (λ (db : Database). IsLinkVerdict db.schema)
        conn.old conn.new result }
    ensures frame { VerdictFrame S.Store conn.old conn.new result }
{
    links_verdict(has_links(conn), cause)?;
    hier_verdict(has_hier(conn), cause)
}

// Returns true for a database of version 1 that can be migrated, and false for one of version 2;
// any other database is a fault.
fn check_migration<S: Alter>(
    alloc: Global,
    conn: &mut Connection<S>,
    cause: &mut Cause,
) -> Result<bool, Fault>
    ensures judged { IsVerdictUnlessFailed S.Store IsMigrationVerdict conn.old conn.new result }
    ensures frame { VerdictFrame S.Store conn.old conn.new result }
{
    if !check_version(alloc, conn, cause)? {
        return Ok(false);
    }
    check_link_tables(conn, cause)?;
    Ok(true)
}

/// Migrates a database from version 1 to version 2 in one transaction, and returns its version, 2.
/// A database of version 2 is left unchanged, and so is one that can't be migrated. Records the
/// cause of an error of the database.
pub(crate) fn migrate_database<S: Alter>(
    alloc: Global,
    conn: &mut Connection<S>,
    cause: &mut Cause,
) -> Result<u32, Fault>
    requires { conn.old.in_transaction ≡ false }
    ensures { Migrates S.Store conn.old conn.new result }
{
    let settled = conn.is_autocommit();
    prove!(settled);
    if !check_migration(alloc, conn, cause)? {
        return Ok(2);
    }
    match migrate_tables(conn) {
        Ok(_) => Ok(2),
        Err(error) => Err(fault_with_cause(error, cause)),
    }
}
