//! The work of a job, with what is open for it.
ghost use Rattle.std.specs.Prelude.{◌≡◌, is_some};
ghost use Rattle.thes_jobs.specs.PlannedWork as work;

use sqlite::{Alter, Connection};
use std::io;
use thes_command_line::arguments::{
    DisplayOptions, ScriptOptions, ServeOptions, StoreSetting, Task,
};
use thes_command_line::start_failure::OpenFailure;
use thes_requests::request::Display;

/// A listening socket, its port, the number of connections to serve, and whether plans are taken.
#[derive(Drop)]
pub struct Listening<L> {
    pub listener: L,
    pub port: u16,
    pub count: u32,
    pub plans: bool,
}

/// The work of a task, with its file or socket open if it has one.
#[derive(Drop)]
pub enum Work<F, L> {
    /// Answers the script on standard input.
    Script(ScriptOptions),
    /// Work that reads no standard input.
    Output(OutputWork<F, L>),
}

/// The work of a task that reads no standard input.
#[derive(Drop)]
pub enum OutputWork<F, L> {
    /// Checks the store, and prints its sizes.
    Check,
    /// Writes the triples of the store as N-Triples.
    Export,
    /// Writes a display of a scheme.
    Display(Display, DisplayOptions),
    /// Imports this posting file; the Boolean says whether to print the counts of its rows.
    Import(F, bool),
    /// Serves the connections to this socket.
    Serve(Listening<L>),
}

/// The work of a task, before its file or socket is opened if it has one.
#[derive(Drop)]
pub enum PlannedWork<F, L> {
    /// Work that needs no other file and no socket.
    Ready(Work<F, L>),
    /// Imports the posting file with this name.
    Import(String),
    /// Serves connections on a port.
    Serve(ServeOptions),
    /// Migrates the store, without loading it.
    Migrate,
}

// Returns the work of writing a display.
fn display_work<F, L>(display: Display, options: DisplayOptions) -> Work<F, L>
    ensures { result ≡ work.display_work display options }
{
    Work::Output(OutputWork::Display(display, options))
}

/// Returns the work of a task, before any file or socket is opened.
pub fn planned_work<F, L>(task: Task) -> PlannedWork<F, L>
    ensures { result ≡ work.planned_work task }
{
    match task {
        Task::Script(options) => PlannedWork::Ready(Work::Script(options)),
        Task::Check => PlannedWork::Ready(Work::Output(OutputWork::Check)),
        Task::Export => PlannedWork::Ready(Work::Output(OutputWork::Export)),
        Task::Alphabetical(options) => {
            PlannedWork::Ready(display_work(Display::Alphabetical, options))
        }
        Task::Hierarchical(options) => {
            PlannedWork::Ready(display_work(Display::Hierarchical, options))
        }
        Task::Import(file) => PlannedWork::Import(file),
        Task::Serve(options) => PlannedWork::Serve(options),
        Task::Migrate => PlannedWork::Migrate,
    }
}

/// Returns the work of importing a posting file, or `OpenFailure::File` if the file couldn't be
/// opened. The counts of its rows are printed if there is a listener for progress.
pub fn import_work<F, L, P>(
    opened: io::Result<F>,
    progress: &Option<P>,
) -> Result<Work<F, L>, OpenFailure>
    ensures { result ≡ work.import_work opened (is_some progress.now) }
{
    match opened {
        Ok(file) => Ok(Work::Output(OutputWork::Import(file, progress.is_some()))),
        Err(_) => Err(OpenFailure::File),
    }
}

/// Returns the work of serving a socket with these options, or the failure to open the socket.
pub fn serve_work<F, L>(
    opened: Result<L, OpenFailure>,
    options: ServeOptions,
) -> Result<Work<F, L>, OpenFailure>
    ensures { result ≡ work.serve_work opened options }
{
    match opened {
        Ok(listener) => Ok(Work::Output(OutputWork::Serve(Listening {
            listener,
            port: options.port,
            count: options.count,
            plans: options.plans,
        }))),
        Err(unopened) => Err(unopened),
    }
}

/// Work over the store in an open database, which `opener` opens again after a failure.
pub struct DatabaseWork<S: Alter, O, P, F, L> {
    pub work: Work<F, L>,
    /// The name of the database's file, for reports of faults.
    pub file: String,
    pub setting: StoreSetting,
    pub conn: Connection<S>,
    pub opener: O,
    pub progress: P,
}

/// Work over a new store in memory.
pub struct MemoryWork<P, F, L> {
    pub work: Work<F, L>,
    pub setting: StoreSetting,
    pub progress: P,
}
