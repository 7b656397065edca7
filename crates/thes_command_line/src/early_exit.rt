//! Early exits: help, the version, and faults of the command line.
ghost use Rattle.std.specs.Prelude.{◌≡◌, IfOk};
ghost use Rattle.std.specs.IoError.{error_kind};
ghost use Rattle.clap.specs.Words.{kind_of};
ghost use Rattle.thes_command_line.specs.CommandLine.{ExitsFor};
ghost use Rattle.thes_command_line.specs.EarlyExit.{ExitsEarly, IsUsageError, exit_status};
ghost use Rattle.thes_command_line.specs.Printing.{AreFreshOutputs};

use crate::commands::program;
use crate::printing::{print_error, print_out, report_fault, report_form_fault};
use clap::Error;
use clap::error::ErrorKind;
use std::alloc::{AllocError, Global};
use std::io::{Error as IoError, ErrorKind as IoErrorKind, Write};
use thes_base::fault::{Fault, FormFault, PipeFault, ReadStop};
use thes_base::pipe::Pipe;

const NOT_TEXT: &str = "thesaurus: a word of the command line is not UTF-8\n";

const NO_FILE: &str = "the option '--existing' needs '--db <FILE>'";

/// The reason for an early exit: help, the version, a fault of the command line, or running out of
/// memory.
#[derive(Debug, Drop)]
pub enum EarlyExit {
    /// The text of the help or the version.
    Help(String),
    /// The text of a usage error.
    Usage(String),
    /// An argument that isn't UTF-8.
    NotText,
    /// The form fault of an option's value, such as a base that isn't an IRI.
    BadForm(FormFault),
    OutOfMemory,
}

/// Running out of memory becomes `OutOfMemory`.
impl From<AllocError> for EarlyExit {
    ghost use Rattle.thes_command_line.specs.declared.early_exit.EarlyExit.TheVariants.{OutOfMemory};

    ghost from_gives = { λ _ early_exit. early_exit ≡ OutOfMemory };

    fn from(_error: AllocError) -> EarlyExit {
        EarlyExit::OutOfMemory
    }
}

/// A form fault becomes `BadForm` with that fault, and running out of memory `OutOfMemory`.
impl From<ReadStop> for EarlyExit {
    ghost use Rattle.thes_command_line.specs.EarlyExit.{exit_of_stop};

    ghost from_gives = { λ stop early_exit. early_exit ≡ exit_of_stop stop };

    fn from(stop: ReadStop) -> EarlyExit {
        match stop {
            ReadStop::Form(fault) => EarlyExit::BadForm(fault),
            ReadStop::OutOfMemory => EarlyExit::OutOfMemory,
        }
    }
}

/// Any error of reading the arguments becomes `NotText`, except running out of memory.
impl From<IoError> for EarlyExit {
    ghost use Rattle.thes_command_line.specs.EarlyExit.{exit_of_error};

    ghost from_gives = { λ error early_exit. early_exit ≡ exit_of_error (error_kind error) };

    fn from(error: IoError) -> EarlyExit {
        match error.kind() {
            IoErrorKind::OutOfMemory => EarlyExit::OutOfMemory,
            _ => EarlyExit::NotText,
        }
    }
}

impl EarlyExit {
    /// Returns the exit status: 0 for help and version, 2 for a fault of the command line, and 3
    /// for running out of memory.
    pub fn status(&self) -> u8
        ensures { result ≡ exit_status self.now }
    {
        match self {
            EarlyExit::Help(_) => 0,
            EarlyExit::Usage(_) | EarlyExit::NotText | EarlyExit::BadForm(_) => 2,
            EarlyExit::OutOfMemory => 3,
        }
    }
}

/// Converts an error of `clap` to the text of the help, the version or the usage error, or to
/// `OutOfMemory`.
pub(crate) fn early_exit_of(alloc: Global, error: &Error) -> EarlyExit
    ensures kind { ExitsFor (kind_of error.now) result }
    ensures memory { kind_of error.now ≡ ErrorKind.OutOfMemory → result ≡ EarlyExit.OutOfMemory }
{
    if error.kind() == ErrorKind::OutOfMemory {
        return EarlyExit::OutOfMemory;
    }
    match error.to_string(alloc) {
        Ok(text) if error.use_stderr() => EarlyExit::Usage(text),
        Ok(text) => EarlyExit::Help(text),
        Err(_) => EarlyExit::OutOfMemory,
    }
}

// Returns the error for a store that must exist and isn't in a file, as one of `clap`.
fn error_without_file(alloc: Global) -> Result<Error, AllocError>
    ensures { IfOk result (λ error. kind_of error ≡ ErrorKind.MissingRequiredArgument) }
{
    program(alloc)?.error(ErrorKind::MissingRequiredArgument, NO_FILE)
}

/// Returns the usage error for `--existing` without `--db`, or `OutOfMemory`.
pub(crate) fn exit_without_file(alloc: Global) -> EarlyExit
    ensures { IsUsageError result }
{
    match error_without_file(alloc) {
        Ok(error) => early_exit_of(alloc, &error),
        Err(_) => EarlyExit::OutOfMemory,
    }
}

/// Prints the help or version to standard output, or the fault to standard error, and returns the
/// exit status.
pub fn exit_early<W: Write, E: Write>(
    output: &mut Pipe<W>,
    errors: &mut Pipe<E>,
    early_exit: &EarlyExit,
) -> u8
    requires { AreFreshOutputs output.old errors.old }
    ensures { ExitsEarly W.contents E.contents output.old output.new errors.old errors.new
        early_exit.now result }
{
    match early_exit {
        EarlyExit::Help(text) => return print_out(output, errors, text.as_bytes()),
        EarlyExit::Usage(text) => {
            print_error(errors, text.as_bytes());
        }
        EarlyExit::NotText => {
            print_error(errors, NOT_TEXT.as_bytes());
        }
        EarlyExit::BadForm(fault) => {
            report_form_fault(errors, *fault);
        }
        EarlyExit::OutOfMemory => {
            report_fault(errors, PipeFault::Fault(Fault::OutOfMemory));
        }
    }
    early_exit.status()
}
