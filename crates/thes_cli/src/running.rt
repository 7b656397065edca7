//! The run of a job, from opening its store to closing it.
ghost use Rattle.std.specs.Prelude.{◌≡◌, false};
ghost use Rattle.sqlite_wal.specs.Files.{image_at};
ghost use Rattle.thes_jobs.specs.Databases.{AreCleanFiles, FindsLeft, HoldDatabase, KeepsImage};
ghost use Rattle.thes_jobs.specs.declared.store_files.StoreFiles.{StoreFiles};
ghost use Rattle.thes_cli.specs.Running.{LeadsIfClosed, LeavesNoFiles, MigratesInFile, ReportsNoJob, RunsPlan};
ghost use Rattle.thes_cli.specs.Stores.{ClosesLeft, open_leaving};
ghost use Rattle.thes_cli.specs.Streams.{AreFresh};

use crate::closing::{Closed, close_open};
use crate::stores::{work_in_database, work_in_memory};
use crate::streams::{Console, Devices, Given, SystemDevices};
use sqlite::{Connection, FileFrom, FileStore, Start};
use sqlite_disk::{Disk, Files};
use sqlite_trees::store::Store;
use std::fs::File;
use std::io::Read;
use thes_command_line::arguments::Job;
use thes_command_line::early_exit::EarlyExit;
use thes_command_line::start_failure::report_start_failure;
use thes_jobs::databases::{Databases, FileDatabases};
use thes_jobs::migrating::{migrate_in_database, print_version};
use thes_jobs::opening::{FailedStart, OpenJob, open_job};
use thes_jobs::store_files::ReopenedImage;

// Migrates the store in a database, closes the database, and returns the exit status with what is
// left of its files.
fn migrate<T: Devices, D: Databases>(
    given: &mut Given<'_, T>,
    databases: &D,
    file: String,
    conn: Connection<D::Engine>,
) -> (u8, Closed<D::Left>)
    requires idle { conn.in_transaction ≡ false }
    requires streams { AreFresh given.old.streams }
    ensures { MigratesInFile T.Output.contents T.Errors.contents D.Engine.Store given.old.streams
        result.0 given.new.streams D.is_clean D.holds D.finds file conn result.1 }
{
    let (output, errors) = (&mut given.streams.output, &mut given.streams.errors);
    let (status, conn) = migrate_in_database(given.alloc, file.as_str(), conn, output, errors);
    (status, close_open(databases, Some(conn), None))
}

// Reports why no job was opened, and closes the database of the store if it was opened. Returns the
// exit status with what is left of the files.
fn report_no_job<T: Devices, D: Databases>(
    given: &mut Given<'_, T>,
    databases: &D,
    failed: FailedStart<D::Engine, D::Left>,
) -> (u8, Closed<D::Left>)
    requires { AreFresh given.old.streams }
    ensures reports { ReportsNoJob T.Output.contents T.Errors.contents D.Engine.Store
        given.old.streams result.0 given.new.streams failed.failure }
    ensures closes { ClosesLeft D.Engine.Store D.is_clean D.holds D.finds
        (open_leaving failed.conn) failed.rest result.1 }
{
    let FailedStart {
        failure,
        conn,
        rest,
    } = failed;
    let (output, errors) = (&mut given.streams.output, &mut given.streams.errors);
    let status = report_start_failure(output, errors, &failure);
    (status, close_open(databases, conn, rest))
}

// Returns what a job without a store in files leaves: no files, and no request in doubt.
fn without_files<L>() -> Closed<L>
    ensures { LeavesNoFiles result }
{
    Closed {
        files: None,
        rest: None,
        is_in_doubt: false,
        is_reopened: false,
    }
}

// Opens the store of a job, does the job's work, and closes the store. Returns the exit status with
// what is left of the store's files, if they were opened.
fn run_job<'r, C: Console, D: Databases>(
    given: &mut Given<'r, SystemDevices<'r, C>>,
    databases: &D,
    image: D::Image,
    planned: Result<Job, EarlyExit>,
) -> (u8, Closed<D::Left>)
    requires { AreFresh given.old.streams }
    ensures runs { RunsPlan ⟦<File as Read>⟧.remaining C.Input.remaining C.Output.contents
        C.Errors.contents D.Engine.Store D.Opener.image D.is_clean D.holds D.finds D.keeps D.Opener
        planned given.old.streams result.0 result.1 given.new.streams }
    ensures leads { LeadsIfClosed C.Errors.contents D.Engine.Store D.Opener.image D.is_clean D.holds
        D.finds planned given.old.streams.errors given.new.streams.errors result.0 result.1 }
{
    match open_job(given.system, databases, image, planned) {
        Ok(OpenJob::InFile(job)) => work_in_database(given, databases, job),
        Ok(OpenJob::InMemory(job)) => (work_in_memory(given, job), without_files()),
        Ok(OpenJob::Migration(file, conn)) => migrate(given, databases, file, conn),
        Ok(OpenJob::Version) => {
            let (output, errors) = (&mut given.streams.output, &mut given.streams.errors);
            (print_version(output, errors), without_files())
        }
        Err(failed) => report_no_job(given, databases, failed),
    }
}

/// Opens the store of a job in its files, which held `image`, does the job's work, and closes the
/// store. Returns the exit status with what is left of the files, if they were opened.
///
/// If the disk has returned what was written, and no failure has shut the database, then even after
/// a crash the files hold the store to which the requests lead from the one that they held before,
/// or from an empty one if they were new, also if closing failed. `migrate` leaves a store of
/// version 1 migrated, or as it was. Files whose database can't be opened hold what they held
/// before.
pub fn run_in_files<'r, C: Console, S: Start + ReopenedImage>(
    given: &mut Given<'r, SystemDevices<'r, C>>,
    image: S,
    planned: Result<Job, EarlyExit>,
) -> (u8, Closed<Option<Files<FileFrom<S>>>>)
    requires { AreFresh given.old.streams }
    ensures runs { RunsPlan ⟦<File as Read>⟧.remaining C.Input.remaining C.Output.contents
        C.Errors.contents ⟦<FileStore<FileFrom<S>> as Store>⟧ (image_at S.Start)
        (AreCleanFiles ⟦<FileFrom<S> as Disk>⟧) (HoldDatabase ⟦<FileFrom<S> as Disk>⟧)
        (FindsLeft ⟦<FileFrom<S> as Disk>⟧) (KeepsImage ⟦<FileFrom<S> as Disk>⟧ (image_at S.Start))
        (StoreFiles S) planned given.old.streams result.0 result.1 given.new.streams }
    ensures leads { LeadsIfClosed C.Errors.contents ⟦<FileStore<FileFrom<S>> as Store>⟧
        (image_at S.Start) (AreCleanFiles ⟦<FileFrom<S> as Disk>⟧)
        (HoldDatabase ⟦<FileFrom<S> as Disk>⟧) (FindsLeft ⟦<FileFrom<S> as Disk>⟧) planned
        given.old.streams.errors given.new.streams.errors result.0 result.1 }
{
    let databases = FileDatabases::<S>::new(given.system);
    run_job(given, &databases, image, planned)
}
