//! The arguments of the command line, and the job that they describe.
ghost use Rattle.std.specs.Prelude.{◌≡◌, ◌↔◌, IsTrue, codes, map, option_map, string_bytes, IfOk, IsSome};
ghost use Rattle.std.specs.Vec.Iter.{into_iter_items};
ghost use Rattle.clap.specs.Words.{first_of, found_of, rows_of, subcommand_rows_of};
ghost use Rattle.thes_command_line.specs.CommandLine as tasks;
ghost use Rattle.thes_command_line.specs.CommandLine.{base_in, command_of, NamesDisplay, IsCompleteCommand, HasCommand, HasLimit, HasLimits, HasOptions, HasPort, IsServeOptions, is_set, limits_in, number_of_option, PlanResult, MatchedPlanResult, PlansTask, ReadsDisplayOptions, ReadsJob, lacks_file};

use crate::commands::program;
use crate::early_exit::{EarlyExit, early_exit_of, exit_without_file};
use clap::ArgMatches;
use std::alloc::{AllocError, Global};
use std::env::Args;
use thes_base::data::Limits;
use thes_base::number::ResNo;
use thes_base::text::{Base, Tag};

// The base of a new store if `--base` isn't given.
const BASE: &str = "https://thesaurus.example/id/";

// The number of connections to serve if `--count` isn't given.
const COUNT: u32 = 4_294_967_295;

/// The options of a display: the number of a scheme, and a language tag.
#[derive(Debug, Drop)]
pub struct DisplayOptions {
    pub scheme: ResNo,
    pub lang: Tag,
}

/// The options of `script`.
#[derive(Clone, Copy, Debug)]
pub struct ScriptOptions {
    /// Whether a line may be a plan.
    pub plans: bool,
}

/// The options of `serve`.
#[derive(Clone, Copy, Debug)]
pub struct ServeOptions {
    /// The port to listen on.
    pub port: u16,
    /// The number of connections to serve.
    pub count: u32,
    /// Whether plans are taken at `/plans`.
    pub plans: bool,
}

/// What a command does with a store.
#[derive(Debug, Drop)]
pub enum Task {
    /// Answers the requests of a script on standard input.
    Script(ScriptOptions),
    /// Imports the posting file with this name.
    Import(String),
    /// Writes the triples of the store as N-Triples.
    Export,
    /// Writes the alphabetical display of a scheme.
    Alphabetical(DisplayOptions),
    /// Writes the hierarchical display of a scheme.
    Hierarchical(DisplayOptions),
    /// Serves HTTP connections on the loopback address.
    Serve(ServeOptions),
    /// Checks the store, and prints its sizes.
    Check,
    /// Migrates a store of version 1 to version 2.
    Migrate,
}

/// Returns whether a task writes an alphabetical or hierarchical display, which is escaped on a
/// terminal.
pub fn is_display(task: &Task) -> bool
    ensures { IsTrue result ↔ NamesDisplay (command_of task.now) }
{
    matches!(task, Task::Alphabetical(_) | Task::Hierarchical(_))
}

/// Returns whether a task imports a posting file: the rows done are reported for an import alone.
pub fn is_import(task: &Task) -> bool
    ensures { result ≡ tasks.is_import task.now }
{
    matches!(task, Task::Import(_))
}

/// What the options of the command line say of a store.
#[derive(Debug, Drop)]
pub struct StoreSetting {
    /// The base of the IRIs of a new store.
    pub base: Base,
    /// The limits above which requests are refused.
    pub limits: Limits,
    /// Whether the store must exist: then none is made.
    pub must_exist: bool,
}

/// A job: a task, and the store on which it works.
#[derive(Debug, Drop)]
pub struct Job {
    pub task: Task,
    /// The name of the store's file; without one, the store is in memory.
    pub file: Option<String>,
    pub setting: StoreSetting,
}

// Returns the value of `--base`, or the default base.
#[tactic(auto, using(crate::proofs::ReadingLemmas::values_read))]
fn base_argument<'a>(options: &ArgMatches<'a>) -> &'a str
    ensures { result.now ≡ base_in (rows_of (found_of options.now)) }
{
    match options.get_str("base") {
        Some(text) => text,
        None => BASE,
    }
}

// Returns the value of the option for a limit of the store, or the default.
fn limit(options: &ArgMatches<'_>, name: &str, default: u32) -> u32
    requires { HasLimit name.now (rows_of (found_of options.now)) }
    ensures { result ≡ number_of_option name.now default (rows_of (found_of options.now)) }
{
    options.get_one::<u32>(name).unwrap_or(default)
}

// Returns the limits of the store: the values of the options that are given, and defaults for the
// others.
fn limits_argument(options: &ArgMatches<'_>) -> Limits
    requires { HasLimits (rows_of (found_of options.now)) }
    ensures { result ≡ limits_in (rows_of (found_of options.now)) }
{
    let default = Limits::default();
    Limits {
        resources: limit(options, "max-resources", default.resources),
        labels: limit(options, "max-labels", default.labels),
        links: limit(options, "max-links", default.links),
        postings: limit(options, "max-postings", default.postings),
        moves: limit(options, "max-moves", default.moves),
    }
}

// Returns a copy of the value of `--db`, if it is given.
#[tactic(auto, using(crate::proofs::ReadingLemmas::values_read))]
fn file_argument(alloc: Global, options: &ArgMatches<'_>) -> Result<Option<String>, AllocError>
    ensures { IfOk result (λ file. option_map string_bytes file
        ≡ first_of (codes "db") (rows_of (found_of options.now))) }
{
    match options.get_str("db") {
        Some(text) => Ok(Some(String::from_str(alloc, text)?)),
        None => Ok(None),
    }
}

// Returns the task of the command `import`, with the name of its file.
#[tactic(auto, using(crate::proofs::ReadingLemmas::values_read))]
fn import_task(alloc: Global, arguments: &ArgMatches<'_>) -> Result<Task, EarlyExit>
    requires { IsSome (first_of (codes "file") (rows_of (found_of arguments.now))) }
    ensures { PlansTask (codes "import") (rows_of (found_of arguments.now)) result }
{
    let file = arguments.get_str("file").unwrap();
    Ok(Task::Import(String::from_str(alloc, file)?))
}

// Returns the scheme and the language of a display, or the form fault of the first value that lacks
// its form.
#[tactic(auto, using(crate::proofs::ReadingLemmas::display_values_read))]
fn display_options(alloc: Global, arguments: &ArgMatches<'_>) -> Result<DisplayOptions, EarlyExit>
    requires { HasOptions (rows_of (found_of arguments.now)) }
    ensures { ReadsDisplayOptions (rows_of (found_of arguments.now)) result }
{
    let scheme = match ResNo::read(arguments.get_str("scheme").unwrap()) {
        Ok(scheme) => scheme,
        Err(fault) => return Err(EarlyExit::BadForm(fault)),
    };
    match Tag::read(alloc, arguments.get_str("lang").unwrap()) {
        Ok(lang) => Ok(DisplayOptions { scheme, lang }),
        Err(stop) => Err(EarlyExit::from(stop)),
    }
}

// Returns whether a flag, such as `--plans`, is given.
#[tactic(auto, using(crate::proofs::ReadingLemmas::values_read))]
fn is_set(arguments: &ArgMatches<'_>, name: &str) -> bool
    ensures { result ≡ is_set name.now (rows_of (found_of arguments.now)) }
{
    match arguments.get_str(name) {
        Some(text) => text == "true",
        None => false,
    }
}

// Returns the port, the number of connections and the flag for plans of the command `serve`, which
// `clap` has checked.
fn serve_options(arguments: &ArgMatches<'_>) -> ServeOptions
    requires { HasPort (rows_of (found_of arguments.now)) }
    ensures { IsServeOptions (rows_of (found_of arguments.now)) result }
{
    ServeOptions {
        port: arguments.get_one::<u16>("port").unwrap(),
        count: arguments.get_one::<u32>("count").unwrap_or(COUNT),
        plans: is_set(arguments, "plans"),
    }
}

// Returns the task of a command with its arguments. An error is the form fault of an argument, or
// running out of memory.
fn task_of(alloc: Global, name: &str, arguments: &ArgMatches<'_>) -> Result<Task, EarlyExit>
    requires { IsCompleteCommand name.now (rows_of (found_of arguments.now)) }
    ensures { PlansTask name.now (rows_of (found_of arguments.now)) result }
{
    if name == "script" {
        let plans = is_set(arguments, "plans");
        Ok(Task::Script(ScriptOptions { plans }))
    } else if name == "import" {
        import_task(alloc, arguments)
    } else if name == "export" {
        Ok(Task::Export)
    } else if name == "alphabetical" {
        Ok(Task::Alphabetical(display_options(alloc, arguments)?))
    } else if name == "hierarchical" {
        Ok(Task::Hierarchical(display_options(alloc, arguments)?))
    } else if name == "serve" {
        Ok(Task::Serve(serve_options(arguments)))
    } else if name == "check" {
        Ok(Task::Check)
    } else {
        Ok(Task::Migrate)
    }
}

// Returns the job that the options and the command found by `clap` describe, or the first form
// fault.
fn job_of(alloc: Global, options: &ArgMatches<'_>) -> Result<Job, EarlyExit>
    requires command { HasCommand (subcommand_rows_of options.now) }
    requires limits { HasLimits (rows_of (found_of options.now)) }
    ensures { ReadsJob (rows_of (found_of options.now)) (subcommand_rows_of options.now) result }
{
    let base = match Base::read(alloc, base_argument(options)) {
        Ok(base) => base,
        Err(stop) => return Err(EarlyExit::from(stop)),
    };
    let (name, arguments) = options.subcommand().unwrap();
    let task = task_of(alloc, name, arguments)?;
    let limits = limits_argument(options);
    let setting = StoreSetting {
        base,
        limits,
        must_exist: is_set(options, "existing"),
    };
    match file_argument(alloc, options) {
        Ok(file) => Ok(Job {
            task,
            file,
            setting,
        }),
        Err(_) => Err(EarlyExit::OutOfMemory),
    }
}

// Returns whether a store must exist that isn't in a file: `--existing` is given, and `--db` isn't.
#[tactic(auto, using(crate::proofs::ReadingLemmas::values_read))]
fn lacks_file(options: &ArgMatches<'_>) -> bool
    ensures { result ≡ lacks_file (rows_of (found_of options.now)) }
{
    is_set(options, "existing") && options.get_str("db").is_none()
}

// Returns the job that the options and the command found by `clap` describe, the first form fault,
// or the usage error of `--existing` without `--db`.
fn matched_job(alloc: Global, options: &ArgMatches<'_>) -> Result<Job, EarlyExit>
    requires command { HasCommand (subcommand_rows_of options.now) }
    requires limits { HasLimits (rows_of (found_of options.now)) }
    ensures { MatchedPlanResult (rows_of (found_of options.now)) (subcommand_rows_of options.now)
        result }
{
    if lacks_file(options) {
        return Err(exit_without_file(alloc));
    }
    job_of(alloc, options)
}

/// Parses the arguments, of which the first is the program's name, into a job. An error is help,
/// the version, a fault of the command line, or running out of memory.
pub fn plan(alloc: Global, arguments: &[String]) -> Result<Job, EarlyExit>
    ensures { PlanResult (map string_bytes arguments.now) result }
{
    match program(alloc)?.try_get_matches_from(arguments) {
        // `clap` has checked that all required commands and arguments are given.
        Ok(options) => matched_job(alloc, &options),
        Err(error) => Err(early_exit_of(alloc, &error)),
    }
}

/// Parses the arguments of the process as `plan` does; an argument that isn't UTF-8 is the error
/// `NotText`.
pub fn plan_args(alloc: Global, args: Args) -> Result<Job, EarlyExit>
    ensures { PlanResult (map string_bytes (into_iter_items args)) result }
{
    let arguments: Vec<String> = args.collect(alloc)?;
    plan(alloc, arguments.as_slice())
}
