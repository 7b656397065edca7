//! Work over the stores of the program: in a database, and in memory.
ghost use Rattle.thes_jobs.specs.Databases.{IsReadyConnection};
ghost use Rattle.thes_cli.specs.Stores.{WorksInMemory, WorksToClosing};
ghost use Rattle.thes_cli.specs.Streams.{AreFresh};

use crate::closing::{Closed, close_left};
use crate::streams::{Devices, Given};
use crate::work::work_over_keeper;
use std::net::Net;
use thes_command_line::arguments::StoreSetting;
use thes_jobs::databases::Databases;
use thes_jobs::work::{DatabaseWork, MemoryWork};
use thes_sqlite::reopening::ReopeningKeeper;
use thes_store::mem::MemKeeper;

/// Does the work of a job over the store in a database, and closes the database. Returns the exit
/// status with what is left of its files. If the disk has returned what was written, and no failure
/// has shut the database, the files hold the store after the work, also if closing failed. The
/// fault of a store that can't
/// be opened is printed after the name of its file.
pub fn work_in_database<T: Devices, D: Databases>(
    given: &mut Given<'_, T>,
    databases: &D,
    job: DatabaseWork<
        D::Engine,
        D::Opener,
        T::Listener,
        T::PostingFile,
        <T::System as Net>::Listener,
    >,
) -> (u8, Closed<D::Left>)
    requires ready { IsReadyConnection D.Engine.Store D.Opener.image job.setting.base job.conn }
    requires streams { AreFresh given.old.streams }
    ensures { WorksToClosing T.PostingFile.remaining T.Input.remaining T.Output.contents
        T.Errors.contents D.Engine.Store D.Opener.image D.is_clean D.holds D.finds job
        given.old.streams result.0 result.1 given.new.streams }
{
    let DatabaseWork {
        work,
        file,
        setting,
        conn,
        opener,
        progress,
    } = job;
    let keeper = ReopeningKeeper::new(given.alloc, conn, opener, progress);
    let (status, keeper) = work_over_keeper(given, work, keeper, setting.limits, Some(file));
    (status, close_left(databases, keeper.leave(), None))
}

/// Does the work of a job over a new store in memory, with the job's base and limits, and returns
/// the exit status.
pub fn work_in_memory<T: Devices>(
    given: &mut Given<'_, T>,
    job: MemoryWork<T::Listener, T::PostingFile, <T::System as Net>::Listener>,
) -> u8
    requires { AreFresh given.old.streams }
    ensures { WorksInMemory T.PostingFile.remaining T.Input.remaining T.Output.contents
        T.Errors.contents job given.old.streams result given.new.streams }
{
    // A new store has nothing to load and no concept to import to, so no progress is reported.
    let MemoryWork {
        work,
        setting,
        progress: _,
    } = job;
    let StoreSetting {
        base,
        limits,
        must_exist: _,
    } = setting;
    // No effect; for the proof, states that the base has its form.
    let _ = base.as_str();
    let keeper = MemKeeper::new(given.alloc, base);
    let (status, keeper) = work_over_keeper(given, work, keeper, limits, None);
    drop(keeper);
    status
}
