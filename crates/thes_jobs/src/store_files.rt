//! The files of a store, which are opened and closed, and can be opened again by their names.
ghost use Rattle.std.specs.Prelude.{◌≡◌, IfErr, IfOk, option_map};
ghost use Rattle.sqlite.specs.Files.{over_files};
ghost use Rattle.sqlite_wal.specs.Files.{image_at};
ghost use Rattle.thes_sqlite.specs.Faults.{IsKeeperFault};
ghost use Rattle.thes_jobs.specs.Databases.{ClosesFrom, KeepsImage, OpensFrom, files_of_left};

use sqlite::{Connection, FileFrom, FileStore, Leftover, Start, Unknown};
use sqlite_disk::{Disk, Files};
use std::fs;
use std::io::ErrorKind;
use std::marker::PhantomData;
use std::os::unix::fs::MetadataExt;
use thes_base::fault::Fault;
use thes_sqlite::cause::Cause;
use thes_sqlite::files::{close_files, open_files};
use thes_sqlite::reopening::{HeldImage, Reopen};

/// A token that only this module makes, when it opens files again.
#[derive(Drop)]
pub struct ReopeningToken(());

/// The contents of files before they are opened again, as a value for contracts. Making it takes a
/// `Reopening`, so no other code makes a second image of what files held at first.
pub trait ReopenedImage {
    /// Returns the image of files that are opened again.
    fn image_of_reopened(sign: ReopeningToken) -> Self;
}

/// Nothing is known of files that are opened again.
impl ReopenedImage for Unknown {
    fn image_of_reopened(_sign: ReopeningToken) -> Unknown {
        Unknown
    }
}

// Returns the files that a failed opening has left, if it opened them.
fn take_files<D: Disk>(left: Option<Leftover<D>>) -> Option<Files<D>>
    ensures { result ≡ option_map files_of_left left }
{
    match left {
        Some(left) => Some(left.into_files()),
        None => None,
    }
}

/// Opens the database in the files at a path, which may hold anything; if there are none, makes
/// them. The error is the cause, with the files if they were opened; these hold what they held.
pub fn open_database_files<S: Start>(
    rt: &HostRuntime,
    image: S,
    file: &str,
) -> Result<Connection<FileStore<FileFrom<S>>>, (Cause, Option<Files<FileFrom<S>>>)>
    ensures opens { IfOk result (OpensFrom over_files (image_at S.Start)) }
    ensures fails { IfErr result (λ failed.
        KeepsImage ⟦<FileFrom<S> as Disk>⟧ (image_at S.Start) failed.0 failed.1) }
{
    match open_files(rt, file, image) {
        Ok(conn) => Ok(conn),
        Err((cause, left)) => Err((cause, take_files(left))),
    }
}

/// Closes a database and returns its files. The log holds the changes of every request that was
/// answered; if it can't be copied into the file now, the next run copies it.
pub fn close_database_files<D: Disk + Drop>(conn: Connection<FileStore<D>>) -> Files<D>
    ensures { ClosesFrom D.Disk conn result }
{
    match close_files(conn) {
        Ok(files) => files,
        Err((_, store)) => store.close(),
    }
}

// Returns the numbers of a file's device and inode, which identify the file whatever its name; None
// if they can't be read.
fn identity_of(rt: &HostRuntime, path: &str) -> Option<(u64, u64)> {
    match fs::metadata(rt, path) {
        Ok(found) => Some((found.dev(), found.ino())),
        Err(_) => None,
    }
}

/// Returns whether the names of the files next to a store's file are too long for the system. The
/// longest of these names, that of SQLite's journal, decides.
pub fn has_long_name(rt: &HostRuntime, file: &str) -> Result<bool, Fault>
    ensures { IfErr result (λ fault. fault ≡ Fault.OutOfMemory) }
{
    let journal = format!(in rt.alloc(); "{file}-journal")?;
    match fs::symlink_metadata(rt, journal.as_str()) {
        Ok(_) => Ok(false),
        Err(error) => Ok(error.kind() == ErrorKind::InvalidFilename),
    }
}

/// The names of a store's two files, the database and its log, with the identities of the files
/// that are open.
#[derive(Drop)]
pub struct StoreFiles<'r, S> {
    rt: &'r HostRuntime,
    contents: PhantomData<S>,
    file: String,
    log: String,
    open: (Option<(u64, u64)>, Option<(u64, u64)>),
}

impl<'r, S> StoreFiles<'r, S> {
    /// Records the identities of the store's files, which the caller's connection has open. The
    /// fault `Store` means that the file's full path isn't found.
    pub(crate) fn new(rt: &'r HostRuntime, file: &str) -> Result<StoreFiles<'r, S>, Fault>
        ensures { IfErr result IsKeeperFault }
    {
        let Ok(path) = fs::canonicalize(rt, file) else {
            return Err(Fault::Store);
        };
        let log = format!(in rt.alloc(); "{}-wal", path.as_str())?;
        let file = String::from_str(rt.alloc(), file)?;
        let mut files = StoreFiles {
            rt,
            contents: PhantomData,
            file,
            log,
            open: (None, None),
        };
        files.open = files.named_files();
        Ok(files)
    }

    // Returns the identities of the files that have the two names now.
    fn named_files(&self) -> (Option<(u64, u64)>, Option<(u64, u64)>) {
        (
            identity_of(self.rt, self.file.as_str()),
            identity_of(self.rt, self.log.as_str()),
        )
    }
}

impl<S: Start> HeldImage for StoreFiles<'_, S> {
    ghost image = { image_at S.Start };
}

/// The files are opened again only while both names lead to those that were open.
impl<S: Start + ReopenedImage> Reopen<Connection<FileStore<FileFrom<S>>>> for StoreFiles<'_, S> {
    fn is_in_place(&mut self) -> bool {
        self.open.0.is_some() && self.open == self.named_files()
    }

    fn reopen(
        &mut self,
        lost: Option<Connection<FileStore<FileFrom<S>>>>,
    ) -> Result<Connection<FileStore<FileFrom<S>>>, Cause> {
        if let Some(conn) = lost {
            drop(close_database_files(conn));
        }
        if !self.is_in_place() {
            return Err(Cause::Missing);
        }
        let image = S::image_of_reopened(ReopeningToken(()));
        match open_database_files(self.rt, image, self.file.as_str()) {
            Ok(conn) => Ok(conn),
            Err((cause, _)) => Err(cause),
        }
    }
}
