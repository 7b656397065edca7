//! The program `thesaurus`: opens what its arguments name, performs their task, closes the store,
//! and exits with its status.
#![tactic(auto)]

ghost use Rattle.std.specs.Prelude.{IsTrue};
ghost use Rattle.thes_cli.specs.Streams.{AsksForDisplay};

mod checking;
mod closing;
mod displaying;
mod exporting;
mod importing;
mod running;
mod scripting;
mod serving;
mod stores;
mod streams;
mod work;

use closing::Closed;
use running::run_in_files;
use sqlite::Unknown;
use std::alloc::Global;
use std::io::{IsTerminal, Stderr, Stdin, Stdout};
use std::process::ExitCode;
use std::rt::Env;
use streams::{Console, Given, Streams, SystemDevices};
use thes_base::pipe::Pipe;
use thes_command_line::arguments::{Job, is_display, plan_args};
use thes_command_line::early_exit::EarlyExit;
use thes_command_line::printing::print_error;
use thes_command_line::terminal_output::TerminalOutput;
use thes_http::connection_count::ConnectionCount;

// The standard streams of the process.
#[derive(Drop)]
struct ProcessConsole;

impl Console for ProcessConsole {
    type Input = Stdin;

    type Output = TerminalOutput<Stdout>;

    type Errors = Stderr;
}

// Parses the arguments of the process.
fn plan_command_line<R: Env + Alloc<A = Global>>(rt: &R) -> Result<Job, EarlyExit> {
    plan_args(rt.alloc(), std::env::args(rt)?)
}

// Returns whether characters that a terminal may obey are escaped in the output: those of a display
// that is written to a terminal.
fn escapes_output(rt: &HostRuntime, planned: &Result<Job, EarlyExit>) -> bool
    ensures { IsTrue result → AsksForDisplay planned.now }
{
    match planned {
        Ok(job) => is_display(&job.task) && rt.stdout().is_terminal(),
        Err(_) => false,
    }
}

// Prints a line if a request that was answered with a fault may have been performed.
fn report_doubt<C: Drop>(rt: &HostRuntime, closed: Closed<C>) {
    if closed.is_in_doubt {
        print_error(
            &mut Pipe::new(rt.stderr()),
            b"thesaurus: a request answered Store may have been performed\n",
        );
    }
}

fn main(rt: HostRuntime) -> ExitCode {
    let planned = plan_command_line(&rt);
    let escapes = escapes_output(&rt, &planned);
    let mut given: Given<'_, SystemDevices<'_, ProcessConsole>> = Given {
        alloc: rt.alloc(),
        system: &rt,
        streams: Streams {
            input: Pipe::new(rt.stdin()),
            output: Pipe::new(TerminalOutput::new(rt.stdout(), escapes)),
            errors: Pipe::new(rt.stderr()),
            connections: ConnectionCount::new(),
        },
    };
    let (status, closed) = run_in_files(&mut given, Unknown, planned);
    let Given {
        alloc: _,
        system: _,
        streams: _,
    } = given;
    report_doubt(&rt, closed);
    ExitCode::from(status)
}
