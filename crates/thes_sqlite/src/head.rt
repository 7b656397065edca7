//! The size and the first bytes of a database file, before it is opened as a database.
ghost use Rattle.std.specs.Prelude.{◌≡◌, IfErr};
ghost use Rattle.thes_sqlite.specs.Causes.{PrecedesOpening};
ghost use Rattle.thes_sqlite.specs.Heads as heads;

use crate::cause::Cause;
use std::fs;
use std::fs::File;
use std::io::{ErrorKind, Read};
use std::os::unix::fs::MetadataExt;

// The number of a file's first bytes that are read: they show whether the file may be a database,
// and the size of the database's pages.
const HEAD_SIZE: usize = 18;

// The size of a database's file, in bytes, and its first bytes, before it is opened as a database.
// An absent file has size 0.
#[derive(Clone, Copy)]
pub(crate) struct FoundFile {
    pub(crate) size: u64,
    // The first bytes; zeros where the file has none.
    pub(crate) head: [u8; HEAD_SIZE],
}

// Reads the first bytes of a database's file, and returns them with `size`, the file's size.
fn read_head(rt: &HostRuntime, path: &str, size: u64) -> Result<FoundFile, Cause>
    ensures { IfErr result PrecedesOpening }
{
    let mut head = [0; HEAD_SIZE];
    let Ok(mut file) = File::open(rt, path) else {
        return Err(Cause::Unreadable);
    };
    match file.read(&mut head) {
        Ok(_) => Ok(FoundFile { size, head }),
        Err(_) => Err(Cause::Unreadable),
    }
}

/// Returns the size and the first bytes of a database's file before it is opened as a database.
/// There may be no file, which counts as an empty one. The errors are `NotAFile`, `Linked` for a
/// file with another hard link, and `Unreadable`.
pub(crate) fn find_file(rt: &HostRuntime, path: &str) -> Result<FoundFile, Cause>
    ensures { IfErr result PrecedesOpening }
{
    match fs::metadata(rt, path) {
        Ok(found) if !found.is_file() => Err(Cause::NotAFile),
        Ok(found) if found.nlink() > 1 => Err(Cause::Linked),
        Ok(found) if found.len() > 0 => read_head(rt, path, found.len()),
        Ok(_) => Ok(FoundFile {
            size: 0,
            head: [0; HEAD_SIZE],
        }),
        Err(error) if error.kind() == ErrorKind::NotFound => Ok(FoundFile {
            size: 0,
            head: [0; HEAD_SIZE],
        }),
        Err(_) => Err(Cause::Unreadable),
    }
}

// Returns whether each byte of `head` equals the byte of `text` at the same position, or is zero,
// as where nothing has been written yet. Compares up to the end of the shorter one.
fn agrees(head: &[u8], text: &[u8]) -> bool
    ensures { result ≡ heads.agrees head.now text.now }
{
    match head {
        [] => true,
        [found, head @ ..] => match text {
            [] => true,
            [wanted, text @ ..] => (*found == 0 || found == wanted) && agrees(head, text),
        },
    }
}

/// Returns whether a file may be a database, by its first 16 bytes: each is the same as in every
/// database, or zero, as where a write was cut short.
pub(crate) fn begins_as_database(head: &[u8]) -> bool
    ensures { result ≡ heads.begins_as_database head.now }
{
    agrees(head, b"SQLite format 3\0")
}
