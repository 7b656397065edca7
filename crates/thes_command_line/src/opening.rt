//! Decides whether a store is made or the one in its file is used.
ghost use Rattle.std.specs.Prelude.{◌≡◌};
ghost use Rattle.thes_command_line.specs.Opening as choices;
ghost use Rattle.thes_command_line.specs.Opening.{IsFileState};

use crate::trouble::StoreTrouble;
use std::fs::Metadata;
use std::io;
use std::io::ErrorKind;

// The greatest size of a new database without tables, in bytes.
const BLANK_SIZE: u64 = 4_096;

/// The state of a store's file, from its metadata.
#[derive(Clone, Copy, Debug, PartialEq, Eq)]
pub enum FileState {
    /// No file has the name.
    Absent,
    /// A regular file with this number of bytes.
    Bytes(u64),
    /// Not a regular file, or one whose metadata can't be read.
    Other,
}

/// The way to open the store in a file.
#[derive(Clone, Copy, Debug, PartialEq, Eq)]
pub enum Opening {
    /// Makes the store: the file is absent or empty, or the store in it is unfinished.
    New,
    /// Uses the store in the file.
    Existing,
}

/// What to do with the database of a store once it is open.
#[derive(Clone, Copy, Debug, PartialEq, Eq)]
pub enum Preparation {
    /// Makes the tables of a new store, and removes the mark of an unfinished one.
    MakeTables,
    /// Removes the mark of an unfinished store, if the file has one: the store has its tables.
    RemoveMark,
    /// Refuses a database without tables, and changes nothing.
    RefuseBlank,
}

/// Returns the state of a file from its metadata. Only the error NotFound means that there is no
/// file.
pub fn file_state(found: &io::Result<Metadata>) -> FileState
    ensures { IsFileState found.now result }
{
    match found {
        Ok(found) if found.is_file() => FileState::Bytes(found.len()),
        Ok(_) => FileState::Other,
        Err(error) if error.kind() == ErrorKind::NotFound => FileState::Absent,
        Err(_) => FileState::Other,
    }
}

// Returns `New`, or this trouble if the store must exist.
fn new_store(must_exist: bool, trouble: StoreTrouble) -> Result<Opening, StoreTrouble>
    ensures { result ≡ choices.new_store must_exist trouble }
{
    if must_exist {
        Err(trouble)
    } else {
        Ok(Opening::New)
    }
}

// Returns whether making the store in a file was cut short: the file is marked as that of an
// unfinished store, and is no larger than a database without tables.
fn is_unfinished(size: u64, is_marked: bool) -> bool
    ensures { result ≡ choices.is_unfinished size is_marked }
{
    is_marked && size <= BLANK_SIZE
}

// Returns the way to open a file of this size in bytes, which isn't empty. `is_marked` says that
// the file has the mark of an unfinished store.
fn opening_of_file(must_exist: bool, size: u64, is_marked: bool) -> Result<Opening, StoreTrouble>
    ensures { result ≡ choices.opening_of_file must_exist size is_marked }
{
    if !must_exist && is_unfinished(size, is_marked) {
        Ok(Opening::New)
    } else if size == 1 {
        Err(StoreTrouble::NotDatabase)
    } else {
        Ok(Opening::Existing)
    }
}

/// Chooses how a store is opened. None is made if the store must exist, nor in a file of one byte,
/// which SQLite takes for an empty database, unless the file is marked as that of an unfinished
/// store.
pub fn opening_of(
    must_exist: bool,
    found: FileState,
    is_marked: bool,
) -> Result<Opening, StoreTrouble>
    ensures { result ≡ choices.opening_of must_exist found is_marked }
{
    match found {
        FileState::Absent => new_store(must_exist, StoreTrouble::NoFile),
        FileState::Bytes(0) => new_store(must_exist, StoreTrouble::NotDatabase),
        FileState::Bytes(size) => opening_of_file(must_exist, size, is_marked),
        FileState::Other => Ok(Opening::Existing),
    }
}

/// Returns what to do with the database of a store once it is open. If it has no tables
/// (`is_blank`), it gets them if it was opened for a new store, and is refused otherwise.
pub fn preparation_of(opening: Opening, is_blank: bool) -> Preparation
    ensures { result ≡ choices.preparation_of opening is_blank }
{
    match (opening, is_blank) {
        (Opening::New, true) => Preparation::MakeTables,
        (Opening::Existing, true) => Preparation::RefuseBlank,
        (Opening::New | Opening::Existing, false) => Preparation::RemoveMark,
    }
}

/// Returns whether to remove the mark of an unfinished store whose database couldn't be opened: if
/// its file is absent or empty afterwards (`left`), unless another program has the file open, since
/// the mark may be that program's.
pub fn is_mark_void(trouble: StoreTrouble, left: FileState) -> bool
    ensures { result ≡ choices.is_mark_void trouble left }
{
    match (trouble, left) {
        (StoreTrouble::InUse, _) => false,
        (_, FileState::Absent | FileState::Bytes(0)) => true,
        (_, FileState::Bytes(_) | FileState::Other) => false,
    }
}
