//! Stores in databases, and their rows.
use crate::disk::{Disks, Store, cut, end, files_after_kill, open};
use crate::example::Example;
use crate::performing::{RunReport, base, perform, show};
use crate::stop::TrialStop;
use sqlite::{Alter, Connection, Files};
use sqlite_disk::Disk;
use std::alloc::Global;
use test_keeper::rows::RowText;
use thes_base::fault::Fault;
use thes_base::text::Base;
use thes_sql::create::create_tables;
use thes_sqlite::keeper::SqlKeeper;

// Creates the tables of a new store, and returns whether that succeeded.
fn make_tables<S: Alter>(conn: &mut Connection<S>, base: &Base) -> bool {
    create_tables(conn, base).unwrap_or(false)
}

// Opens the storage over the tables of a database, or returns the connection if a transaction is
// open in it.
fn adopt<S: Alter>(alloc: Global, conn: Connection<S>) -> Result<SqlKeeper<S>, Connection<S>> {
    if conn.is_autocommit() {
        Ok(SqlKeeper::adopt(alloc, conn))
    } else {
        Err(conn)
    }
}

// Performs an example in a store with tables, and returns the connection.
fn perform_in<S: Alter>(
    alloc: Global,
    conn: Connection<S>,
    example: Example,
    run_report: &mut RunReport,
) -> (Connection<S>, Result<(), TrialStop>) {
    match adopt(alloc, conn) {
        Ok(keeper) => {
            let (keeper, ran) = perform(alloc, keeper, example, run_report);
            (keeper.into_connection(), ran)
        }
        Err(conn) => {
            run_report.failed = true;
            (conn, Ok(()))
        }
    }
}

/// Runs SQL statements in a store, and returns whether they succeeded.
pub fn execute<S: Alter>(conn: &mut Connection<S>, sql: &str) -> bool {
    conn.execute_batch(sql).is_ok()
}

/// Migrates a store, and returns the connection and the result; there is no result if a transaction
/// is open in the store.
pub fn migrate_in<S: Alter>(
    alloc: Global,
    conn: Connection<S>,
) -> (Connection<S>, Option<Result<u32, Fault>>) {
    match adopt(alloc, conn) {
        Ok(mut keeper) => {
            let answer = keeper.migrate();
            (keeper.into_connection(), Some(answer))
        }
        Err(conn) => (conn, None),
    }
}

// Appends the rows of a store, and whether it loads; returns the connection.
fn show_in<S: Alter>(
    alloc: Global,
    conn: Connection<S>,
    listing: &mut RowText,
) -> (Connection<S>, Result<(), TrialStop>) {
    match adopt(alloc, conn) {
        Ok(keeper) => {
            let (keeper, show_result) = show(alloc, keeper, listing);
            (keeper.into_connection(), show_result)
        }
        Err(conn) => (conn, Err(TrialStop)),
    }
}

/// Creates the tables of a new store, and performs an example in it. Returns the connection,
/// whether the tables were created, and whether the example could be run.
pub fn perform_new<S: Alter>(
    alloc: Global,
    mut conn: Connection<S>,
    base: &Base,
    example: Example,
    run_report: &mut RunReport,
) -> (Connection<S>, bool, Result<(), TrialStop>) {
    if make_tables(&mut conn, base) {
        let (conn, ran) = perform_in(alloc, conn, example, run_report);
        (conn, true, ran)
    } else {
        (conn, false, Ok(()))
    }
}

/// Performs an example in a database in memory, which never fails.
pub fn report_in_memory(
    alloc: Global,
    example: Example,
    run_report: &mut RunReport,
) -> Result<(), TrialStop> {
    let base = base(alloc)?;
    run_new(alloc, &base, example, run_report)
}

fn run_new(
    alloc: Global,
    base: &Base,
    example: Example,
    run_report: &mut RunReport,
) -> Result<(), TrialStop> {
    let conn = Connection::open_in_memory(alloc)?;
    let (conn, is_made, ran) = perform_new(alloc, conn, base, example, run_report);
    drop(conn);
    if is_made { ran } else { Err(TrialStop) }
}

/// A job to do in a store in files.
pub trait Job {
    /// Does the job, and returns the connection and whether to close the store rather than abandon
    /// it.
    fn run<S: Alter>(&mut self, alloc: Global, conn: Connection<S>) -> (Connection<S>, bool);
}

fn work_in<D: Disk + Drop, J: Job>(alloc: Global, conn: Store<D>, job: &mut J) -> (Files<D>, bool) {
    let (conn, is_done) = job.run(alloc, conn);
    end(conn, is_done)
}

/// Does a job in the store in files. Returns the files, and whether the store was closed and each
/// call succeeded.
pub fn work<D: Disk + Drop, J: Job>(
    alloc: Global,
    files: Files<D>,
    job: &mut J,
) -> (Files<D>, bool) {
    match open(alloc, files) {
        Ok(conn) => work_in(alloc, conn, job),
        Err(files) => (files, false),
    }
}

/// The rows of a store, and whether it could be opened and read.
#[derive(Drop)]
pub struct StoreListing {
    pub listing: RowText,
    show_result: Result<(), TrialStop>,
}

impl StoreListing {
    /// Returns a listing without rows.
    pub fn new(alloc: Global) -> StoreListing {
        StoreListing {
            listing: RowText::new(alloc),
            show_result: Err(TrialStop),
        }
    }

    /// Opens the store in the files, and reads its rows.
    pub fn show(&mut self, alloc: Global, files: Disks) -> Result<(), TrialStop> {
        let (files, _) = work(alloc, files, self);
        drop(files);
        self.show_result
    }

    // Checks whether the rows are one of these two texts.
    fn is_either(&self, first: &str, second: &str) -> bool {
        let listing = self.listing.text.as_str();
        listing == first || listing == second
    }
}

impl Job for StoreListing {
    fn run<S: Alter>(&mut self, alloc: Global, conn: Connection<S>) -> (Connection<S>, bool) {
        let (conn, show_result) = show_in(alloc, conn, &mut self.listing);
        self.show_result = show_result;
        (conn, false)
    }
}

/// The rows of a store after a kill, with all that was written, and after a power cut, with what
/// was synced.
#[derive(Drop)]
pub struct After {
    kill: StoreListing,
    cut: StoreListing,
}

impl After {
    /// Returns two listings without rows.
    pub fn new(alloc: Global) -> After {
        After {
            kill: StoreListing::new(alloc),
            cut: StoreListing::new(alloc),
        }
    }

    /// Opens the store as after a kill and as after a power cut, and reads its rows both times.
    pub fn show(&mut self, alloc: Global, files: Disks) -> Result<(), TrialStop> {
        let kill = self.show_killed(alloc, &files);
        let cut = self.cut.show(alloc, cut(files));
        kill.and(cut)
    }

    // Opens the store as after a kill, and reads its rows.
    fn show_killed(&mut self, alloc: Global, files: &Disks) -> Result<(), TrialStop> {
        self.kill.show(alloc, files_after_kill(alloc, files)?)
    }

    /// Checks whether the rows are one of these two texts, both times.
    pub fn is_either(&self, first: &str, second: &str) -> bool {
        self.kill.is_either(first, second) && self.cut.is_either(first, second)
    }
}
