//! The reasons why the work of a job doesn't begin, and their reports.
ghost use Rattle.thes_command_line.specs.Printing.{AreFreshOutputs};
ghost use Rattle.thes_command_line.specs.StartFailure.{ReportsStartFailure};

use crate::early_exit::{EarlyExit, exit_early};
use crate::printing::{report_in_file, report_open_failure};
use crate::trouble::StoreTrouble;
use std::io::Write;
use thes_base::fault::Fault;
use thes_base::pipe::Pipe;

/// The file or the socket that a task couldn't open.
#[derive(Clone, Copy, Debug, PartialEq, Eq)]
pub enum OpenFailure {
    /// The posting file of an import.
    File,
    /// The socket on which a server listens.
    Socket,
    /// A connection: the system lets the program open too few files.
    Connection,
}

/// The reason why the work of a job doesn't begin.
#[derive(Debug, Drop)]
pub enum StartFailure {
    /// Help, the version, a fault of the command line, or running out of memory while it is parsed.
    EarlyExit(EarlyExit),
    /// The posting file or the socket of the task couldn't be opened.
    Unopened(OpenFailure),
    /// The store in the file with this name couldn't be opened or made.
    InStore(String, StoreTrouble, Fault),
}

/// Prints the reason why the work of a job doesn't begin, and returns the exit status.
pub fn report_start_failure<W: Write, E: Write>(
    output: &mut Pipe<W>,
    errors: &mut Pipe<E>,
    failure: &StartFailure,
) -> u8
    requires { AreFreshOutputs output.old errors.old }
    ensures { ReportsStartFailure W.contents E.contents output.old output.new errors.old errors.new
        failure.now result }
{
    match failure {
        StartFailure::EarlyExit(early_exit) => exit_early(output, errors, early_exit),
        StartFailure::Unopened(unopened) => report_open_failure(errors, *unopened),
        StartFailure::InStore(file, trouble, fault) => {
            report_in_file(errors, file.as_str(), *trouble, *fault)
        }
    }
}
