//! Opens and closes the two files of a database: the database file and its log.
ghost use Rattle.std.specs.Prelude.{◌≡◌, true, false, None, IfErr, IfOk, IfSome, IsTrue};
ghost use Rattle.sqlite.specs.Files.{file_state};
ghost use Rattle.sqlite.specs.State.{HasCleanDisk};
ghost use Rattle.sqlite_std_file.specs.File.{file_is_usable, IsFresh};
ghost use Rattle.sqlite_store.specs.FileStore.{view};
ghost use Rattle.sqlite_trees.specs.View.{IsClean};
ghost use Rattle.sqlite_wal.specs.Files.{image_at};
ghost use Rattle.sqlite_wal.specs.Reads.{AreClean};
ghost use Rattle.thes_sqlite.specs.Causes.{PrecedesOpening};
ghost use Rattle.thes_sqlite.specs.DatabaseFiles.{ClosesFiles, FailsToClose, FailsToOpen, OpensFiles};

use crate::cause::{Cause, cause_of_files, cause_of_opening};
use crate::head::{FoundFile, begins_as_database, find_file};
use crate::page_cache::{page_count, stated_page_size};
use sqlite::{Connection, Error, FileFrom, FileStore, Leftover, Options};
use sqlite_disk::{Disk, Files, Start};
use std::fs;
use std::hash::{BuildHasher, RandomState};

// Returns whether the database in a file has a log. The log is next to the file to which symbolic
// links lead; if they lead to none, there is no log.
fn has_log(rt: &HostRuntime, path: &str) -> Result<bool, Cause>
    ensures { IfErr result PrecedesOpening }
{
    let Ok(real) = fs::canonicalize(rt, path) else {
        return Ok(false);
    };
    match format!(in rt.alloc(); "{}-wal", real.as_str()) {
        Ok(log) => Ok(fs::symlink_metadata(rt, log.as_str()).is_ok()),
        Err(_) => Err(Cause::NoMemory),
    }
}

// Checks that a file may be a database: by its first bytes or, since the file may have been cut
// short, by whether it has a log. So no log is made next to a file of another kind.
fn check_head(rt: &HostRuntime, path: &str, head: &[u8]) -> Result<(), Cause>
    ensures { IfErr result PrecedesOpening }
{
    if begins_as_database(head) || has_log(rt, path)? {
        Ok(())
    } else {
        Err(Cause::NotADatabase)
    }
}

/// Returns the options to open a database with: random salts for its log, and a page cache for this
/// file's size.
pub(crate) fn options_for(rt: &HostRuntime, found: &FoundFile) -> Result<Options, Cause>
    ensures { IfErr result PrecedesOpening }
{
    let Ok(state) = RandomState::new(rt) else {
        return Err(Cause::Other);
    };
    let mut options = Options::new(state.hash_one(&0u8));
    options.cache_pages = page_count(found.size, stated_page_size(&found.head)) as usize;
    Ok(options)
}

// Checks the file of a database, and returns the options to open it with. A name that SQLite
// doesn't take for a file's, such as `:memory:`, is the error `Unwritable`.
fn options_at(rt: &HostRuntime, path: &str) -> Result<Options, Cause>
    ensures { IfErr result PrecedesOpening }
{
    if path == ":memory:" || path.starts_with("file:") {
        return Err(Cause::Unwritable);
    }
    let found = find_file(rt, path)?;
    check_head(rt, path, &found.head)?;
    options_for(rt, &found)
}

// Opens a database's file and its log at a path, and makes those that are missing. The error is
// `Locked` if another program has them open.
fn open_pair<S: Start>(rt: &HostRuntime, path: &str, start: S) -> Result<Files<FileFrom<S>>, Cause>
    ensures log { IfOk result (λ files. IsTrue (file_is_usable S.Start files.log)) }
    ensures db { IfOk result (λ files. IsTrue (file_is_usable S.Start files.db)) }
    ensures fresh { IfOk result (λ files. IsFresh true files.log × IsFresh false files.db) }
    ensures early { IfErr result PrecedesOpening }
{
    match sqlite_std_file::open(rt, path, start) {
        Ok(files) => Ok(files),
        Err(error) => Err(cause_of_files(&error)),
    }
}

/// Opens the database in the files at a path. If they hold a store, the connection serves this
/// store. `start` represents their contents, which may be anything. The error is the cause and, if
/// the files were opened, what is left of them, which still holds what they held. `UnknownSchema`
/// and `Damaged` are found only in files that were opened.
pub fn open_files<S: Start>(
    rt: &HostRuntime,
    path: &str,
    start: S,
) -> Result<Connection<FileStore<FileFrom<S>>>, (Cause, Option<Leftover<FileFrom<S>>>)>
    ensures opens { IfOk result (λ conn. HasCleanDisk (file_state conn)
        → OpensFiles (image_at S.Start) (file_state conn)) }
    ensures idle { IfOk result (λ conn. conn.in_transaction ≡ false) }
    ensures fails { IfErr result (λ failed. IfSome failed.1
        (FailsToOpen (λ files. IsFresh true files.log × IsFresh false files.db) failed.0)) }
    ensures early { IfErr result (λ failed. failed.1 ≡ None → PrecedesOpening failed.0) }
{
    let options = match options_at(rt, path) {
        Ok(options) => options,
        Err(cause) => return Err((cause, None)),
    };
    let files = match open_pair(rt, path, start) {
        Ok(files) => files,
        Err(cause) => return Err((cause, None)),
    };
    match Connection::open_files_with(rt.alloc(), files, options, false) {
        Ok(mut conn) => {
            conn.set_clock(rt);
            Ok(conn)
        }
        Err((error, left)) => Err((cause_of_opening(error, &left), Some(left))),
    }
}

/// Closes a database and returns its two files. They hold it, as do those that a crash leaves. An
/// error comes with the part of the connection that has the files: the next opening finds in them
/// what it could have found without the call.
pub fn close_files<D: Disk + Drop>(
    conn: Connection<FileStore<D>>,
) -> Result<Files<D>, (Error, FileStore<D>)>
    ensures closes { IfOk result (λ files. AreClean D.Disk files.log files.db
        → ClosesFiles D.Disk (file_state conn) files) }
    ensures fails { IfErr result (λ failed. IsClean (view failed.1)
        → FailsToClose (file_state conn) failed.1) }
{
    // No effect; for the proof, states that the schema is that which the database lists.
    let _ = conn.schema();
    conn.close_files()
}
