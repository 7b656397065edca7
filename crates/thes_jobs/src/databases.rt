//! The trait by which the databases of stores are opened and closed, and its implementation for
//! files.
ghost use Rattle.std.specs.Prelude.{IfErr, IfOk};
ghost use Rattle.sqlite.specs.Effect.{Database};
ghost use Rattle.sqlite.specs.State.{State};
ghost use Rattle.sqlite_wal.specs.Files.{image_at};
ghost use Rattle.thes_sqlite.specs.Faults.{IsKeeperFault};
ghost use Rattle.thes_sqlite.specs.declared.cause.Cause.{Cause};
ghost use Rattle.thes_jobs.specs.Databases.{ClosesIfOpen, OpensFrom};

use crate::store_files::{ReopenedImage, StoreFiles, close_database_files, open_database_files};
use sqlite::{Alter, Connection, FileFrom, FileStore, Start};
use sqlite_disk::{Disk, Files};
use std::marker::PhantomData;
use thes_base::fault::Fault;
use thes_sqlite::cause::Cause;
use thes_sqlite::reopening::{HeldImage, Reopen};

/// A way to open the databases of stores by the names of their files, and to close them.
///
/// Code that opens a store and works over it is generic over this trait, so that its proofs don't
/// involve files.
pub trait Databases {
    /// The storage engine of the connections, which keeps their tables.
    type Engine: Alter + Drop;

    /// A value that opens a database again. In contracts, its type also gives the contents of the
    /// files before they are opened.
    type Opener: Reopen<Connection<Self::Engine>> + HeldImage + Drop;

    /// What is left of a database's files once it is closed, or when it couldn't be opened.
    type Left: Drop;

    /// The contents of files before they are opened, as a value for contracts: code can't read
    /// them.
    type Image: Drop;

    // The disk has returned what was written to the files.
    ghost is_clean: { Self.Left → Type 0 };

    // The files hold this database, as they read now and whatever a crash leaves of them.
    ghost holds: { Self.Left → Database → Type 0 };

    // The files, which couldn't be closed, hold only what this state says that a crash may leave.
    ghost finds: { Self.Left → State → Type 0 };

    // The files of a database that couldn't be opened, for this cause, hold what they held.
    ghost keeps: { Cause → Self.Left → Type 0 };

    /// Opens the database in a file; if there is no such file, makes it. The call consumes the
    /// image of what the files hold, so that no second opening claims the same contents. The error
    /// is the cause, with what is left of the files.
    fn open(
        &self,
        image: Self::Image,
        file: &str,
    ) -> Result<Connection<Self::Engine>, (Cause, Self::Left)>
        ensures opens { IfOk result (OpensFrom Self.Engine.Store Self.Opener.image) }
        ensures fails { IfErr result (λ failed. keeps failed.0 failed.1) };

    /// Returns a value that can open the database in a file again. The call takes the database's
    /// connection, since only a database that is open may be opened again. The fault is `Store` if
    /// the file's full path isn't found.
    fn reopener(&self, conn: &Connection<Self::Engine>, file: &str) -> Result<Self::Opener, Fault>
        ensures { IfErr result IsKeeperFault };

    /// Takes the connection out of `conn`, if there is one, closes it, and returns what is left of
    /// its files, which hold its database, also if closing failed. The parameter is a reference
    /// since Rattle proves no `impl` of a method that takes a connection to an associated type by
    /// value.
    fn close(&self, conn: &mut Option<Connection<Self::Engine>>) -> Option<Self::Left>
        ensures { ClosesIfOpen Self.Engine.Store is_clean holds finds conn.old result };
}

/// Databases in files of this system. In contracts, `S` gives the contents of the files before they
/// are opened.
#[derive(Drop)]
pub struct FileDatabases<'r, S> {
    rt: &'r HostRuntime,
    image: PhantomData<S>,
}

impl<'r, S> FileDatabases<'r, S> {
    /// Returns a value that opens and closes databases in files.
    pub fn new(rt: &'r HostRuntime) -> FileDatabases<'r, S> {
        FileDatabases {
            rt,
            image: PhantomData,
        }
    }
}

/// What is left of a database is its two files; None if they weren't opened.
impl<'r, S: Start + ReopenedImage> Databases for FileDatabases<'r, S> {
    type Engine = FileStore<FileFrom<S>>;

    type Opener = StoreFiles<'r, S>;

    type Left = Option<Files<FileFrom<S>>>;

    type Image = S;

    ghost use Rattle.thes_jobs.specs.Databases.{AreCleanFiles, FindsLeft, HoldDatabase, KeepsImage};

    ghost is_clean = { AreCleanFiles ⟦<FileFrom<S> as Disk>⟧ };

    ghost holds = { HoldDatabase ⟦<FileFrom<S> as Disk>⟧ };

    ghost finds = { FindsLeft ⟦<FileFrom<S> as Disk>⟧ };

    ghost keeps = { KeepsImage ⟦<FileFrom<S> as Disk>⟧ (image_at S.Start) };

    fn open(
        &self,
        image: S,
        file: &str,
    ) -> Result<Connection<FileStore<FileFrom<S>>>, (Cause, Option<Files<FileFrom<S>>>)> {
        open_database_files(self.rt, image, file)
    }

    fn reopener(
        &self,
        _conn: &Connection<FileStore<FileFrom<S>>>,
        file: &str,
    ) -> Result<StoreFiles<'r, S>, Fault> {
        StoreFiles::new(self.rt, file)
    }

    fn close(
        &self,
        conn: &mut Option<Connection<FileStore<FileFrom<S>>>>,
    ) -> Option<Option<Files<FileFrom<S>>>> {
        match conn.take() {
            Some(conn) => Some(Some(close_database_files(conn))),
            None => None,
        }
    }
}
