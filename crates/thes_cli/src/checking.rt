//! The command `check`: prints the sizes of a store.
ghost use Rattle.std.specs.Prelude.{◌≡◌, ◌++◌, false, string_bytes, IfOk, OnOk};
ghost use Rattle.thes_base.specs.State.{State};
ghost use Rattle.thes_core.specs.CoreView.{IsViewOf};
ghost use Rattle.thes_command_line.specs.Printing.{AreFreshOutputs};
ghost use Rattle.thes_cli.specs.Checking.{sizes_of, size_text, sizes_line, ChecksStore, FindsSizes, ReportsSizes};

use itoa::Buffer;
use std::alloc::{AllocError, Global};
use std::io::Write;
use thes_base::fault::{Fault, PipeFault};
use thes_base::pipe::Pipe;
use thes_command_line::printing::{print_out, report_fault};
use thes_core::Core;
use thes_core::reading::Sizes;
use thes_office::Office;
use thes_store::keeper::Keeper;

// Returns the numbers of resources, labels, links, postings and moves of the state that the core
// holds.
fn core_sizes(core: &Core) -> Sizes
    requires { core.now.spent ≡ false }
    ensures { (s : State) → IsViewOf core.now s → result ≡ sizes_of s }
{
    core.sizes()
}

// Returns the sizes of the state that the office's tables encode, for the line that `check` prints.
fn office_sizes<K: Keeper>(office: &mut Office<K>) -> Result<Sizes, Fault>
    ensures { FindsSizes K.view office.old result office.new }
{
    let core = office.ready()?;
    Ok(core_sizes(core))
}

// Appends the name of a size of the store, such as ` labels=`, and the size in decimal.
fn push_size(line: &mut String, name: &str, size: u64) -> Result<(), AllocError>
    ensures { OnOk result
        (string_bytes line.new ≡ string_bytes line.old ++ size_text name.now size) }
{
    line.push_str(name)?;
    line.push_str(Buffer::new().format(size))?;
    Ok(())
}

// Returns the line of a store's sizes, with its line feed.
fn sizes_line(alloc: Global, sizes: &Sizes) -> Result<String, AllocError>
    ensures { IfOk result (λ line. string_bytes line ≡ sizes_line sizes.now) }
{
    let mut line = String::new(alloc);
    push_size(&mut line, "ok resources=", sizes.resources)?;
    push_size(&mut line, " labels=", sizes.labels)?;
    push_size(&mut line, " links=", sizes.links)?;
    push_size(&mut line, " accepted=", sizes.accepted)?;
    push_size(&mut line, " withdrawn=", sizes.withdrawn)?;
    push_size(&mut line, " moves=", sizes.moves)?;
    line.push_str("\n")?;
    Ok(line)
}

// Prints the line of the sizes or that of the fault, and returns the exit status.
fn report_sizes<W: Write, E: Write>(
    alloc: Global,
    sizes: Result<Sizes, Fault>,
    output: &mut Pipe<W>,
    errors: &mut Pipe<E>,
) -> u8
    requires { AreFreshOutputs output.old errors.old }
    ensures { ReportsSizes W.contents E.contents output.old output.new errors.old errors.new sizes
        result }
{
    let sizes = match sizes {
        Ok(sizes) => sizes,
        Err(fault) => return report_fault(errors, PipeFault::Fault(fault)),
    };
    match sizes_line(alloc, &sizes) {
        Ok(line) => print_out(output, errors, line.as_bytes()),
        Err(_) => report_fault(errors, PipeFault::Fault(Fault::OutOfMemory)),
    }
}

/// Prints the numbers of resources, labels, links, postings and moves in the store, and returns the
/// exit status 0; after a fault, prints the fault and returns 3.
pub fn check_store<K: Keeper, W: Write, E: Write>(
    alloc: Global,
    office: &mut Office<K>,
    output: &mut Pipe<W>,
    errors: &mut Pipe<E>,
) -> u8
    requires { AreFreshOutputs output.old errors.old }
    ensures { ChecksStore K.view W.contents E.contents office.old output.old
        output.new errors.old errors.new result office.new }
{
    let sizes = office_sizes(office);
    report_sizes(alloc, sizes, output, errors)
}
