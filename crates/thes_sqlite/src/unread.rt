//! Finds the name of an object in a database's schema that the library sqlite can't read, for a
//! message only; no contract promises anything about the name. It is looked up in copies of the
//! files in memory, since the files themselves may still be open after the failed opening.
ghost use Rattle.std.specs.Prelude.{IfSome, IsTrue};
ghost use Rattle.sqlite_disk.specs.Memory.{memory_is_usable};

use crate::files::options_for;
use crate::head::{FoundFile, find_file};
use crate::page_cache::stated_page_size;
use sqlite_catalog::load::{read, read_table, with_code};
use sqlite_disk::{Disk, Files, Memory};
use sqlite_pager::Pager;
use sqlite_store::Unopened;
use sqlite_trees::sound::bytes_of;
use sqlite_trees::store::Shape;
use sqlite_value::row::Row;
use sqlite_wal::PageSize;
use std::alloc::{AllocError, Global};
use std::fs;

// The positions of columns in a row of the schema: an object's kind, its name, the name of its
// table, and its SQL text.
const KIND: usize = 1;

const NAME: usize = 2;

const TABLE: usize = 3;

const TEXT: usize = 5;

// The size of the largest file that is copied, in bytes: a name isn't worth more memory.
const MOST_COPIED: u64 = 268_435_456;

// Returns a row of the schema without the column of its root page, as the library reads rows.
fn without_root(alloc: Global, row: &Row) -> Result<Row, AllocError> {
    let mut unrooted = Row::new(alloc);
    unrooted.push(row.get(0))?;
    unrooted.push(row.get(KIND))?;
    unrooted.push(row.get(NAME))?;
    unrooted.push(row.get(TABLE))?;
    unrooted.push(row.get(TEXT))?;
    Ok(unrooted)
}

// Returns whether the library can't read this view, tried as the only row of a schema.
fn is_unread_view(alloc: Global, row: &Row) -> Result<bool, AllocError> {
    let unrooted = without_root(alloc, row)?;
    let mut rows = Vec::new(alloc);
    rows.push(with_code(alloc, &unrooted, Shape::Pageless)?)?;
    Ok(read(alloc, rows.as_slice())?.is_none())
}

// Returns whether a row of the schema is that of an object of this kind.
fn is_of_kind(row: &Row, kind: &str) -> bool {
    bytes_of(row.get(KIND)) == kind.as_bytes()
}

// Returns whether a row of the schema is that of a view with this name.
fn is_view_named(row: &Row, name: &[u8]) -> bool {
    is_of_kind(row, "view") && bytes_of(row.get(NAME)) == name
}

// Returns whether a row of the schema is one that the library can't read: that of a view that it
// can't parse, of a trigger on a view, or of a virtual table.
fn is_unread(alloc: Global, rows: &[Row], row: &Row) -> Result<bool, AllocError> {
    if is_of_kind(row, "view") {
        return is_unread_view(alloc, row);
    }
    if is_of_kind(row, "trigger") {
        let table = bytes_of(row.get(TABLE));
        return Ok(rows.iter().any(|other| is_view_named(other, table)));
    }
    Ok(is_of_kind(row, "table") && bytes_of(row.get(TEXT)).starts_with(b"CREATE VIRTUAL TABLE"))
}

// Returns whether a row of the schema is that of a table that can't be read.
fn is_unread_table(alloc: Global, row: &Row) -> Result<bool, AllocError> {
    if !is_of_kind(row, "table") {
        return Ok(false);
    }
    let unrooted = without_root(alloc, row)?;
    Ok(read_table(alloc, &unrooted)?.is_none())
}

// Returns the name of the object that a row of the schema describes; None if the name isn't UTF-8,
// or has ASCII control characters.
fn name_of(alloc: Global, row: &Row) -> Result<Option<String>, AllocError> {
    match std::str::from_utf8(bytes_of(row.get(NAME))) {
        Ok(name) if name.bytes().all(|byte| byte >= b' ' && byte != 0x7f) => {
            Ok(Some(String::from_str(alloc, name)?))
        }
        _ => Ok(None),
    }
}

// Returns the name of the first object in the schema that can't be read. Tables are tried last,
// since some tables that can't be read don't keep the library from reading the schema.
fn first_unread(alloc: Global, rows: &[Row]) -> Result<Option<String>, AllocError> {
    for row in rows {
        if is_unread(alloc, rows, row)? {
            return name_of(alloc, row);
        }
    }
    for row in rows {
        if is_unread_table(alloc, row)? {
            return name_of(alloc, row);
        }
    }
    Ok(None)
}

// Returns a copy of a file in memory; None if it is too large or can't be read, or memory runs out.
fn copy_of(rt: &HostRuntime, path: &str) -> Option<Memory>
    ensures { IfSome result (λ copy. IsTrue (memory_is_usable copy)) }
{
    match fs::metadata(rt, path) {
        Ok(found) if found.len() <= MOST_COPIED => {}
        _ => return None,
    }
    let Ok(bytes) = fs::read(rt, path) else {
        return None;
    };
    let mut copy = Memory::new(rt.alloc());
    match copy.write_at(0, bytes.as_slice()) {
        Ok(()) => Some(copy),
        Err(_) => None,
    }
}

// Returns copies in memory of the two files of a database; None if either can't be copied. The log
// is next to the file to which symbolic links lead.
fn copy_files(rt: &HostRuntime, path: &str) -> Option<Files<Memory>>
    ensures log { IfSome result (λ files. IsTrue (memory_is_usable files.log)) }
    ensures db { IfSome result (λ files. IsTrue (memory_is_usable files.db)) }
{
    let Ok(real) = fs::canonicalize(rt, path) else {
        return None;
    };
    let Ok(log) = format!(in rt.alloc(); "{}-wal", real.as_str()) else {
        return None;
    };
    match (copy_of(rt, log.as_str()), copy_of(rt, real.as_str())) {
        (Some(log), Some(db)) => Some(Files { log, db }),
        _ => None,
    }
}

// Reads the rows of the schema of the database in a file; None if they can't be read.
fn read_catalog(rt: &HostRuntime, path: &str, found: &FoundFile) -> Option<Vec<Row>> {
    let size = PageSize::new(stated_page_size(&found.head) as usize)?;
    let Ok(options) = options_for(rt, found) else {
        return None;
    };
    let files = copy_files(rt, path)?;
    let Ok(pager) = Pager::new(rt.alloc(), files, size, options) else {
        return None;
    };
    let Ok(mut unopened) = Unopened::new(rt.alloc(), pager, &[]) else {
        return None;
    };
    match unopened.read_catalog() {
        Ok(rows) => Some(rows),
        Err(_) => None,
    }
}

/// Returns the name of an object that keeps the schema of the database in a file from being read,
/// if it is found.
pub fn unread_object(rt: &HostRuntime, path: &str) -> Option<String> {
    let Ok(found) = find_file(rt, path) else {
        return None;
    };
    let rows = read_catalog(rt, path, &found)?;
    match first_unread(rt.alloc(), rows.as_slice()) {
        Ok(name) => name,
        Err(_) => None,
    }
}
