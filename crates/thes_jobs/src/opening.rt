//! Opens what the job of a command line names: its store, which is made if it is new, and its file
//! or socket.
ghost use Rattle.std.specs.Prelude.{◌≡◌, false, IfErr, IfOk, None, Some, is_some};
ghost use Rattle.std.specs.Result.{result_map_both};
ghost use Rattle.sqlite.specs.Held.{state};
ghost use Rattle.thes_sql.specs.Schema.{empty_schema};
ghost use Rattle.thes_jobs.specs.Databases.{KeepsTables, OpensFrom, ServesIfOpen, Settles};
ghost use Rattle.thes_jobs.specs.NewStore.{MakesStore, PreparesStore};
ghost use Rattle.thes_jobs.specs.OpenStore.{ChoosesOpening, IsOpenedFor, IsUnopenedDatabase, OpensStore};
ghost use Rattle.thes_jobs.specs.PlannedWork as work;
ghost use Rattle.thes_jobs.specs.PlannedWork.{IsSocketFailure, OpensPlanned};
ghost use Rattle.thes_jobs.specs.Opening.{IsReadyJob, ListensTo, OpensJob, OpensPlan, job_in_file, job_in_memory};

use crate::databases::Databases;
use crate::making::MakingMark;
use crate::new_store::{blank_fault, is_blank, make_store};
use crate::screen::Screen;
use crate::store_files::has_long_name;
use crate::trouble::trouble_of;
use crate::work::{
    DatabaseWork, MemoryWork, PlannedWork, Work, import_work, planned_work, serve_work,
};
use sqlite::{Alter, Connection};
use std::fs;
use std::fs::File;
use std::io::IsTerminal;
use std::net::{Ipv4Addr, TcpListener};
use thes_base::fault::Fault;
use thes_base::text::Base;
use thes_command_line::arguments::{Job, StoreSetting, Task, is_import};
use thes_command_line::early_exit::EarlyExit;
use thes_command_line::opening::{
    FileState, Opening, Preparation, file_state, is_mark_void, opening_of, preparation_of,
};
use thes_command_line::start_failure::{OpenFailure, StartFailure};
use thes_command_line::trouble::{StoreTrouble, name_trouble};
use thes_sqlite::cause::Cause;
use thes_sqlite::unread::unread_object;

/// A job whose store, and whose file or socket if it has one, are open.
pub enum OpenJob<'r, S: Alter, O> {
    /// Work over the store in a file.
    InFile(DatabaseWork<S, O, Option<Screen<'r, HostRuntime>>, File, TcpListener>),
    /// Work over a new store in memory.
    InMemory(MemoryWork<Option<Screen<'r, HostRuntime>>, File, TcpListener>),
    /// The migration of the store in the file with this name.
    Migration(String, Connection<S>),
    /// The migration of a new store in memory, which already has version 2.
    Version,
}

/// The reason why a job isn't opened, and what is left of its store.
pub struct FailedStart<S: Alter, L> {
    pub failure: StartFailure,
    /// The connection to the database of the store, if that was opened.
    pub conn: Option<Connection<S>>,
    /// What is left of the store's files, if their database couldn't be opened.
    pub rest: Option<L>,
}

// The fault of a store whose database isn't open, with its reason, and what is left of its files if
// their database couldn't be opened.
struct UnopenedStore<L> {
    report: (StoreTrouble, Fault),
    rest: Option<L>,
}

// Prints the name of what keeps the schema of a database from being read, if it is found.
fn report_unread(rt: &HostRuntime, file: &str) {
    if let Some(name) = unread_object(rt, file) {
        // A line that can't be printed is dropped.
        let _ = eprintln!(rt; "thesaurus: {name} can't be read; it can be dropped with sqlite3");
    }
}

// Opens the database in a file. If that fails and the file is then absent or empty, removes the
// mark of the unfinished store, unless another program has the file open. Also prints the name of
// what keeps the schema from being read, if that is the cause.
fn open_database<D: Databases>(
    rt: &HostRuntime,
    databases: &D,
    image: D::Image,
    mark: &MakingMark<'_>,
    file: &str,
) -> Result<Connection<D::Engine>, UnopenedStore<D::Left>>
    ensures opened { IfOk result (OpensFrom D.Engine.Store D.Opener.image) }
    ensures err { IfErr result (λ failed. IsUnopenedDatabase D.keeps failed.report failed.rest) }
{
    match databases.open(image, file) {
        Ok(conn) => Ok(conn),
        Err((cause, rest)) => {
            if cause == Cause::UnknownSchema {
                report_unread(rt, file);
            }
            let trouble = trouble_of(cause, StoreTrouble::Unwritable);
            if is_mark_void(trouble, file_state(&fs::metadata(rt, file))) {
                mark.remove();
            }
            Err(UnopenedStore {
                report: (trouble, cause.fault()),
                rest: Some(rest),
            })
        }
    }
}

// Chooses how the store in a file is opened. An error is the fault with its reason.
fn opening_for(
    rt: &HostRuntime,
    must_exist: bool,
    found: FileState,
    mark: &MakingMark<'_>,
    file: &str,
) -> Result<Opening, (StoreTrouble, Fault)>
    ensures { ChoosesOpening must_exist found result }
{
    if let Some(reported) = name_trouble(has_long_name(rt, file)) {
        return Err(reported);
    }
    match opening_of(must_exist, found, mark.is_there()) {
        Ok(opening) => Ok(opening),
        Err(trouble) => Err((trouble, Fault::Store)),
    }
}

// The open database of a store, with the mark of an unfinished store, and whether it was opened as
// a new one.
#[derive(Drop)]
struct StoreDatabase<'r, S: Alter> {
    conn: Connection<S>,
    mark: MakingMark<'r>,
    opening: Opening,
}

impl<S: Alter> StoreDatabase<'_, S> {
    // Returns the connection, without the mark.
    fn into_connection(self) -> Connection<S>
        ensures { result ≡ self.entry.conn }
    {
        let StoreDatabase {
            conn,
            mark: _,
            opening: _,
        } = self;
        conn
    }
}

// Returns the fault of a store of which no file was opened, with its reason.
fn without_files<L>(trouble: StoreTrouble, fault: Fault) -> UnopenedStore<L>
    ensures { result ≡ record { report = (trouble, fault); rest = None } }
{
    UnopenedStore {
        report: (trouble, fault),
        rest: None,
    }
}

// Opens the database of the store in a file, which is made unless it must exist. If it is to be
// made, first marks it as unfinished (`MakingMark`).
fn open_store<'r, D: Databases>(
    rt: &'r HostRuntime,
    databases: &D,
    image: D::Image,
    must_exist: bool,
    file: &str,
) -> Result<StoreDatabase<'r, D::Engine>, UnopenedStore<D::Left>>
    ensures opens { OpensStore D.keeps must_exist result }
    ensures opened { IfOk result (λ store. OpensFrom D.Engine.Store D.Opener.image store.conn) }
{
    let mark = match MakingMark::new(rt, file) {
        Ok(mark) => mark,
        Err(fault) => return Err(without_files(StoreTrouble::Unreadable, fault)),
    };
    let found = file_state(&fs::metadata(rt, file));
    let opening = match opening_for(rt, must_exist, found, &mark, file) {
        Ok(opening) => opening,
        Err((trouble, fault)) => return Err(without_files(trouble, fault)),
    };
    if opening == Opening::New {
        mark.make();
    }
    let conn = open_database(rt, databases, image, &mark, file)?;
    Ok(StoreDatabase {
        conn,
        mark,
        opening,
    })
}

// Makes the tables of a new store in a database, removes its mark, and reports the store. An error
// is the fault with its reason.
fn make_marked_store<S: Alter>(
    store: &mut StoreDatabase<'_, S>,
    screen: Option<Screen<'_, HostRuntime>>,
    file: &str,
    base: &Base,
) -> Result<(), (StoreTrouble, Fault)>
    requires { store.old.conn.in_transaction ≡ false }
    ensures makes { MakesStore S.Store base.now store.old.conn result store.new.conn }
    ensures idle { store.new.conn.in_transaction ≡ false }
    ensures keeps { (state S.Store store.old.conn).now.schema ≡ empty_schema
        → KeepsTables (state S.Store store.old.conn) (state S.Store store.new.conn) }
    ensures settles { (state S.Store store.old.conn).now.schema ≡ empty_schema
        → Settles (state S.Store store.old.conn) (state S.Store store.new.conn) }
{
    make_store(&mut store.conn, base)?;
    store.mark.remove();
    if let Some(screen) = screen {
        screen.report_new_store(file);
    }
    Ok(())
}

// Makes the tables in a database that was opened for a new store and has none. Any other database
// without tables is refused, and one with tables loses its mark. An error is the fault with its
// reason.
fn prepare_store<S: Alter>(
    store: &mut StoreDatabase<'_, S>,
    screen: Option<Screen<'_, HostRuntime>>,
    file: &str,
    base: &Base,
) -> Result<(), (StoreTrouble, Fault)>
    requires { store.old.conn.in_transaction ≡ false }
    ensures prepares { PreparesStore S.Store store.old.opening base.now store.old.conn result
        store.new.conn }
    ensures idle { store.new.conn.in_transaction ≡ false }
    ensures keeps { KeepsTables (state S.Store store.old.conn) (state S.Store store.new.conn) }
    ensures settles { Settles (state S.Store store.old.conn) (state S.Store store.new.conn) }
{
    match preparation_of(store.opening, is_blank(&store.conn)) {
        Preparation::MakeTables => make_marked_store(store, screen, file, base),
        Preparation::RemoveMark => {
            store.mark.remove();
            Ok(())
        }
        Preparation::RefuseBlank => Err(blank_fault()),
    }
}

// Returns a listener for progress, if standard error is a terminal and the clock works.
fn screen_of<'a>(rt: &'a HostRuntime, task: &Task) -> Option<Screen<'a, HostRuntime>>
    ensures { ListensTo task.now result }
{
    if rt.stderr().is_terminal() {
        Screen::new(rt, is_import(task))
    } else {
        None
    }
}

// Opens a socket on this machine's loopback address, if the system also lets the program open three
// more files. A connection needs its stream and a copy of it, and one more file while the store is
// opened again.
fn open_socket(rt: &HostRuntime, port: u16) -> Result<TcpListener, OpenFailure>
    ensures { IfErr result IsSocketFailure }
{
    let Ok(listener) = TcpListener::bind(rt, (Ipv4Addr::LOCALHOST, port)) else {
        return Err(OpenFailure::Socket);
    };
    let copies = (
        listener.try_clone(),
        listener.try_clone(),
        listener.try_clone(),
    );
    match copies {
        (Ok(_), Ok(_), Ok(_)) => Ok(listener),
        _ => Err(OpenFailure::Connection),
    }
}

// Returns the opened work of a job, in `Some` since the job isn't a migration, or the error.
fn with_some<T, E>(given: Result<T, E>) -> Result<Option<T>, E>
    ensures { result ≡ result_map_both Some (λ error. error) given }
{
    match given {
        Ok(value) => Ok(Some(value)),
        Err(error) => Err(error),
    }
}

// Opens the posting file of an import, or a socket on the loopback address for a server. Returns
// `None` for a migration, which loads no store.
fn open_work(
    rt: &HostRuntime,
    task: Task,
    screen: &Option<Screen<'_, HostRuntime>>,
) -> Result<Option<Work<File, TcpListener>>, OpenFailure>
    ensures { OpensPlanned (work.planned_work task) (is_some screen.now) result }
{
    match planned_work(task) {
        PlannedWork::Ready(work) => Ok(Some(work)),
        PlannedWork::Import(file) => {
            with_some(import_work(File::open(rt, file.as_str()), screen))
        }
        PlannedWork::Serve(options) => {
            with_some(serve_work(open_socket(rt, options.port), options))
        }
        PlannedWork::Migrate => Ok(None),
    }
}

// A job over the store in a file.
#[derive(Drop)]
struct FileJob {
    task: Task,
    file: String,
    setting: StoreSetting,
}

// Returns the reason why a job isn't opened, with the connection to the database of its store.
fn failed_over<S: Alter, L>(failure: StartFailure, store: StoreDatabase<'_, S>) -> FailedStart<S, L>
    ensures { result ≡ record {
      failure = failure;
      conn = Some store.entry.conn;
      rest = None;
    } }
{
    FailedStart {
        failure,
        conn: Some(store.into_connection()),
        rest: None,
    }
}

// Opens the file or socket of a job over an open database, and prepares its store. The error is the
// reason, with the connection.
fn open_over<'r, D: Databases>(
    rt: &'r HostRuntime,
    databases: &D,
    mut store: StoreDatabase<'r, D::Engine>,
    job: FileJob,
) -> Result<OpenJob<'r, D::Engine, D::Opener>, FailedStart<D::Engine, D::Left>>
    requires opens { IsOpenedFor job.setting.must_exist store }
    requires opened { OpensFrom D.Engine.Store D.Opener.image store.conn }
    ensures opens { OpensJob D.Engine.Store D.Opener.image D.keeps
        (job_in_file job.task job.file job.setting) result }
    ensures ready { IfOk result (IsReadyJob D.Engine.Store D.Opener.image) }
    ensures serves { IfErr result (λ failed.
        ServesIfOpen D.Engine.Store D.Opener.image failed.conn) }
{
    let FileJob {
        task,
        file,
        setting,
    } = job;
    let progress = screen_of(rt, &task);
    let work = match open_work(rt, task, &progress) {
        Ok(work) => work,
        Err(unopened) => return Err(failed_over(StartFailure::Unopened(unopened), store)),
    };
    let base = &setting.base;
    match prepare_store(&mut store, progress, file.as_str(), base) {
        Ok(()) => {}
        Err((trouble, fault)) => {
            return Err(failed_over(StartFailure::InStore(file, trouble, fault), store));
        }
    }
    let opener = match databases.reopener(&store.conn, file.as_str()) {
        Ok(opener) => opener,
        Err(fault) => {
            let failure = StartFailure::InStore(file, StoreTrouble::Unreadable, fault);
            return Err(failed_over(failure, store));
        }
    };
    let conn = store.into_connection();
    match work {
        Some(work) => Ok(OpenJob::InFile(DatabaseWork {
            work,
            file,
            setting,
            conn,
            opener,
            progress,
        })),
        None => Ok(OpenJob::Migration(file, conn)),
    }
}

// Opens the job of a task over the store in a file. If the file is absent or empty, or making its
// store was cut short, the store is made, unless it must exist.
fn open_in_file<'r, D: Databases>(
    rt: &'r HostRuntime,
    databases: &D,
    image: D::Image,
    job: FileJob,
) -> Result<OpenJob<'r, D::Engine, D::Opener>, FailedStart<D::Engine, D::Left>>
    ensures opens { OpensJob D.Engine.Store D.Opener.image D.keeps
        (job_in_file job.task job.file job.setting) result }
    ensures ready { IfOk result (IsReadyJob D.Engine.Store D.Opener.image) }
    ensures serves { IfErr result (λ failed.
        ServesIfOpen D.Engine.Store D.Opener.image failed.conn) }
{
    match open_store(
        rt,
        databases,
        image,
        job.setting.must_exist,
        job.file.as_str(),
    ) {
        Ok(store) => open_over(rt, databases, store, job),
        Err(UnopenedStore { report, rest }) => {
            let FileJob {
                task: _,
                file,
                setting: _,
            } = job;
            let (trouble, fault) = report;
            Err(FailedStart {
                failure: StartFailure::InStore(file, trouble, fault),
                conn: None,
                rest,
            })
        }
    }
}

// Opens the job of a task over a new store in memory. For a migration this is `Version`, since such
// a store has version 2.
fn open_in_memory<D: Databases>(
    rt: &HostRuntime,
    task: Task,
    setting: StoreSetting,
) -> Result<OpenJob<'_, D::Engine, D::Opener>, FailedStart<D::Engine, D::Left>>
    ensures opens { OpensJob D.Engine.Store D.Opener.image D.keeps
        (job_in_memory task setting) result }
    ensures ready { IfOk result (IsReadyJob D.Engine.Store D.Opener.image) }
    ensures serves { IfErr result (λ failed.
        ServesIfOpen D.Engine.Store D.Opener.image failed.conn) }
{
    let progress = screen_of(rt, &task);
    match open_work(rt, task, &progress) {
        Ok(Some(work)) => Ok(OpenJob::InMemory(MemoryWork {
            work,
            setting,
            progress,
        })),
        Ok(None) => Ok(OpenJob::Version),
        Err(unopened) => Err(FailedStart {
            failure: StartFailure::Unopened(unopened),
            conn: None,
            rest: None,
        }),
    }
}

/// Opens the store that a job names, and the file or socket of its task. If the store's files held
/// tables, its database serves these; a new file gets the tables of an empty store. The error has
/// the reason, and the connection to the store, if that was opened, or else what is left of its
/// files, which hold what they held.
pub fn open_job<'r, D: Databases>(
    rt: &'r HostRuntime,
    databases: &D,
    image: D::Image,
    planned: Result<Job, EarlyExit>,
) -> Result<OpenJob<'r, D::Engine, D::Opener>, FailedStart<D::Engine, D::Left>>
    ensures opens { OpensPlan D.Engine.Store D.Opener.image D.keeps planned result }
    ensures ready { IfOk result (IsReadyJob D.Engine.Store D.Opener.image) }
    ensures serves { IfErr result (λ failed.
        ServesIfOpen D.Engine.Store D.Opener.image failed.conn) }
{
    match planned {
        Ok(
            Job {
                task,
                file,
                setting,
            },
        ) => match file {
            Some(file) => {
                let job = FileJob {
                    task,
                    file,
                    setting,
                };
                open_in_file(rt, databases, image, job)
            }
            None => open_in_memory::<D>(rt, task, setting),
        },
        Err(early_exit) => Err(FailedStart {
            failure: StartFailure::EarlyExit(early_exit),
            conn: None,
            rest: None,
        }),
    }
}
