//! Files in memory, one of which stops working after a number of calls.
ghost use Rattle.std.specs.Prelude.{IsTrue};

use crate::stop::TrialStop;
use sqlite::{Connection, FileStore, Files, Options};
use sqlite_disk::{Crash, Disk, Fuse, Memory};
use std::alloc::{AllocError, Global};

/// The two files of a store: its database and its log.
pub type Disks = Files<Fuse<Memory>>;

/// A store in two files. Functions are generic in `D`, since the contract of a file in memory is
/// long and slows their proofs.
pub type Store<D> = Connection<FileStore<D>>;

/// The file that stops working.
#[derive(Clone, Copy)]
pub enum Failing {
    Log,
    Database,
}

impl Failing {
    /// Returns the name of the file, as the outcomes print it.
    pub fn name(self) -> &'static str {
        match self {
            Failing::Log => "the log",
            Failing::Database => "the database file",
        }
    }
}

/// Which file of a store stops working, and after how many calls.
#[derive(Clone, Copy)]
pub struct FailPoint {
    pub file: Failing,
    pub calls: u64,
}

impl FailPoint {
    /// Neither file stops working.
    pub const NEVER: FailPoint = FailPoint {
        file: Failing::Log,
        calls: u64::MAX,
    };

    // Returns the numbers of calls after which the log and the database file fail.
    fn calls_of_files(self) -> (u64, u64) {
        match self.file {
            Failing::Log => (self.calls, u64::MAX),
            Failing::Database => (u64::MAX, self.calls),
        }
    }
}

// Writes bytes to a file and syncs it, and returns whether both succeeded.
fn fill<D: Disk>(disk: &mut D, bytes: &[u8]) -> bool
    requires { IsTrue (D.Disk.is_usable disk.old) }
{
    disk.write_at(0, bytes).is_ok() && disk.sync().is_ok()
}

// Returns a file in memory with these bytes, which are synced.
fn memory_of(alloc: Global, bytes: &[u8]) -> Result<Memory, TrialStop> {
    let mut memory = Memory::new(alloc);
    if fill(&mut memory, bytes) {
        Ok(memory)
    } else {
        Err(TrialStop)
    }
}

/// The contents of the two files of a store.
#[derive(Drop)]
pub struct Image {
    log: Vec<u8>,
    db: Vec<u8>,
}

impl Image {
    // Returns the image of two empty files.
    fn empty(alloc: Global) -> Image {
        Image {
            log: Vec::new(alloc),
            db: Vec::new(alloc),
        }
    }

    /// Returns an image of the files with all bytes that were written, synced or not.
    pub fn of(alloc: Global, files: &Disks) -> Result<Image, AllocError> {
        Ok(Image {
            log: Vec::from_slice(alloc, files.log.inner().bytes())?,
            db: Vec::from_slice(alloc, files.db.inner().bytes())?,
        })
    }

    /// Returns files with these contents, of which one stops working at this point.
    pub fn files(&self, alloc: Global, point: FailPoint) -> Result<Disks, TrialStop> {
        let (log_calls, db_calls) = point.calls_of_files();
        Ok(Files {
            log: Fuse::new(memory_of(alloc, &self.log)?, log_calls),
            db: Fuse::new(memory_of(alloc, &self.db)?, db_calls),
        })
    }

    /// Returns files with these contents that never fail.
    pub fn sound_files(&self, alloc: Global) -> Result<Disks, TrialStop> {
        self.files(alloc, FailPoint::NEVER)
    }
}

/// Returns the files of a new store, of which one stops working at this point.
pub fn new_files(alloc: Global, point: FailPoint) -> Result<Disks, TrialStop> {
    Image::empty(alloc).files(alloc, point)
}

/// Returns the files as the next process finds them after a kill: with all that was written.
pub fn files_after_kill(alloc: Global, files: &Disks) -> Result<Disks, TrialStop> {
    Image::of(alloc, files)?.sound_files(alloc)
}

/// Returns the files as they are after a power cut: with only what was synced.
pub fn cut(mut files: Disks) -> Disks {
    files.log.crash();
    files.db.crash();
    files
}

// Opens the store in usable files. A checkpoint copies the log into the database file once the log
// has 24 pages.
fn open_usable<D: Disk + Drop>(alloc: Global, files: Files<D>) -> Result<Store<D>, Files<D>>
    requires log { IsTrue (D.Disk.is_usable files.log) }
    requires db { IsTrue (D.Disk.is_usable files.db) }
{
    let mut options = Options::new(1);
    options.cache_pages = 64;
    options.checkpoint_frames = 24;
    match Connection::open_files(alloc, files, options) {
        Ok(conn) => Ok(conn),
        Err((_, left)) => Err(left.into_files()),
    }
}

/// Opens the store in files, or returns the files if that fails.
pub fn open<D: Disk + Drop>(alloc: Global, files: Files<D>) -> Result<Store<D>, Files<D>> {
    if files.may_be_used() {
        open_usable(alloc, files)
    } else {
        Err(files)
    }
}

// Closes a store without a call to its files, as if the process were killed.
fn abandon<D: Disk + Drop>(conn: Store<D>) -> Files<D> {
    conn.into_store().close()
}

// Closes a store after a checkpoint, and returns its files and whether each call succeeded.
fn close<D: Disk + Drop>(conn: Store<D>) -> (Files<D>, bool) {
    match conn.close_files() {
        Ok(files) => (files, true),
        Err((_, store)) => (store.close(), false),
    }
}

/// Closes a store if its work is done, or else abandons it. Returns the files, and whether the
/// store was closed and each call succeeded.
pub fn end<D: Disk + Drop>(conn: Store<D>, is_done: bool) -> (Files<D>, bool) {
    if is_done {
        close(conn)
    } else {
        (abandon(conn), false)
    }
}
