//! The causes of failures of storage in a database.
ghost use Rattle.std.specs.Prelude.{◌≡◌};
ghost use Rattle.thes_sqlite.specs.Causes as causes;

use sqlite::{Error, ErrorCode, Leftover};
use sqlite_disk::Disk;
use sqlite_std_file::OpenError;
use std::io::ErrorKind;
use thes_base::fault::Fault;
use thes_store::mem::MemKeeper;

/// The cause of a failure of storage in a database.
#[derive(Clone, Copy, Debug, PartialEq, Eq)]
pub enum Cause {
    /// Memory ran out.
    NoMemory,
    /// Another program has the file open.
    Locked,
    /// The file or its folder doesn't exist, or the name no longer leads to the file that was open.
    Missing,
    /// The name is that of a folder, a pipe or a device.
    NotAFile,
    /// The file has another name, a hard link.
    Linked,
    /// The file can't be read.
    Unreadable,
    /// The file can't be written, or can't be made.
    Unwritable,
    /// SQLite was cut short and left a journal, which only SQLite can read.
    Journal,
    /// The file holds something other than a database.
    NotADatabase,
    /// The schema lists something that can't be read, such as a view.
    UnknownSchema,
    /// The database is damaged.
    Damaged,
    /// The disk is full.
    Full,
    /// Any other failure of the disk or of the database.
    Other,
}

impl Cause {
    /// Returns the fault that has the cause: `OutOfMemory` if memory ran out, and else `Store`.
    pub fn fault(self) -> Fault
        ensures { result ≡ causes.fault_of_cause self }
    {
        match self {
            Cause::NoMemory => Fault::OutOfMemory,
            _ => Fault::Store,
        }
    }
}

/// Storage that remembers why it failed. A fault doesn't say, so that every implementation of
/// `Keeper` returns the same faults.
pub trait FaultCause {
    /// Returns the cause of the database's last error in a load or a migration, to be reported with
    /// the fault `Store`; `Other` before the first.
    fn cause(&self) -> Cause;
}

/// Storage in memory never fails with `Store`.
impl FaultCause for MemKeeper {
    fn cause(&self) -> Cause {
        Cause::Other
    }
}

/// Maps an error of the database to its cause; `Other` for an error without a cause of its own.
pub fn cause_of(error: Error) -> Cause
    ensures { result ≡ causes.error_cause error }
{
    match error {
        Error::SqliteFailure(ErrorCode::OutOfMemory) => Cause::NoMemory,
        Error::SqliteFailure(ErrorCode::DatabaseBusy) => Cause::Locked,
        Error::SqliteFailure(ErrorCode::NotADatabase) => Cause::NotADatabase,
        Error::SqliteFailure(ErrorCode::DatabaseCorrupt) => Cause::Damaged,
        Error::SqliteFailure(ErrorCode::DiskFull) => Cause::Full,
        _ => Cause::Other,
    }
}

/// Returns the cause of an error in opening a database whose files are open. `NotADatabase` becomes
/// a more exact cause if the opening got as far as the schema (`UnknownSchema`) or the rows, which
/// must obey the schema (`Damaged`).
pub(crate) fn cause_of_opening<D: Disk>(error: Error, left: &Leftover<D>) -> Cause
    ensures { result ≡ causes.opening_cause error left.now }
{
    match (cause_of(error), left) {
        (Cause::NotADatabase, Leftover::Unopened(_)) => Cause::UnknownSchema,
        (Cause::NotADatabase, Leftover::Store(_)) => Cause::Damaged,
        (cause, _) => cause,
    }
}

// Returns the cause of an error in opening or making a file for reading and writing.
fn cause_of_kind(kind: ErrorKind) -> Cause
    ensures { result ≡ causes.kind_cause kind }
{
    match kind {
        ErrorKind::OutOfMemory => Cause::NoMemory,
        ErrorKind::NotFound => Cause::Missing,
        ErrorKind::StorageFull => Cause::Full,
        _ => Cause::Unwritable,
    }
}

/// Returns the cause of an error in opening a database's file and its log.
pub(crate) fn cause_of_files(error: &OpenError) -> Cause
    ensures { result ≡ causes.files_cause error.now }
{
    match error {
        OpenError::OutOfMemory => Cause::NoMemory,
        OpenError::Busy => Cause::Locked,
        OpenError::HotJournal => Cause::Journal,
        OpenError::Io(error) => cause_of_kind(error.kind()),
    }
}
