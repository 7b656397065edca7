//! The commands `alphabetical` and `hierarchical`: write a display of a scheme in a language.
ghost use Rattle.std.specs.Prelude.{Ok};
ghost use Rattle.thes_base.specs.Pipe.{IsFresh};
ghost use Rattle.thes_command_line.specs.Printing.{AreFreshOutputs};
ghost use Rattle.thes_cli.specs.Displaying.{DisplaysStore, EndsDisplay, WritesDisplay};

use std::alloc::Global;
use std::io::Write;
use thes_base::fault::PipeFault;
use thes_base::pipe::Pipe;
use thes_command_line::printing::{report_fault, report_refusal};
use thes_display::writing::{DisplayOutcome, write_display};
use thes_office::Office;
use thes_requests::request::DisplayRequest;
use thes_store::keeper::Keeper;

// Writes a display of the state that the office's tables encode, or returns the refusal of the
// scheme's number.
fn write_office_display<K: Keeper, W: Write>(
    alloc: Global,
    office: &mut Office<K>,
    wanted: &DisplayRequest<'_>,
    output: &mut Pipe<W>,
) -> Result<DisplayOutcome, PipeFault>
    requires { IsFresh output.old }
    ensures { let asked = wanted.now in
        WritesDisplay K.view W.contents asked.kind asked.scheme asked.tag.now office.old
        output.old result office.new output.new }
{
    let core = office.ready()?;
    write_display(alloc, core, wanted, output)
}

// Prints the refusal, if there is one, and returns the exit status: 1 for a refusal, and else 0.
fn report_outcome<E: Write>(errors: &mut Pipe<E>, shown: DisplayOutcome) -> u8
    requires { IsFresh errors.old }
    ensures { EndsDisplay E.contents errors.old errors.new (Ok shown) result }
{
    match shown {
        DisplayOutcome::Written => 0,
        DisplayOutcome::No(refusal) => {
            report_refusal(errors, refusal);
            1
        }
    }
}

// Prints the refusal or the fault, if there is one, and returns the exit status.
fn report_display<E: Write>(errors: &mut Pipe<E>, shown: Result<DisplayOutcome, PipeFault>) -> u8
    requires { IsFresh errors.old }
    ensures { EndsDisplay E.contents errors.old errors.new shown result }
{
    match shown {
        Ok(shown) => report_outcome(errors, shown),
        Err(fault) => report_fault(errors, fault),
    }
}

/// Writes a display, and returns the exit status 0. After a refusal or a fault, prints it and
/// returns 1 or 3.
pub fn display_store<K: Keeper, W: Write, E: Write>(
    alloc: Global,
    office: &mut Office<K>,
    wanted: &DisplayRequest<'_>,
    output: &mut Pipe<W>,
    errors: &mut Pipe<E>,
) -> u8
    requires { AreFreshOutputs output.old errors.old }
    ensures { let asked = wanted.now in
        DisplaysStore K.view W.contents asked.kind asked.scheme asked.tag.now E.contents
        office.old output.old output.new errors.old errors.new result office.new }
{
    let shown = write_office_display(alloc, office, wanted, output);
    report_display(errors, shown)
}
