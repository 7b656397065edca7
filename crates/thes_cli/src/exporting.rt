//! The command `export`: writes the triples of a store as N-Triples.
ghost use Rattle.thes_base.specs.Pipe.{IsFresh};
ghost use Rattle.thes_command_line.specs.Printing.{AreFreshOutputs};
ghost use Rattle.thes_cli.specs.Exporting.{ExportsStore, WritesExport};

use std::alloc::Global;
use std::io::Write;
use thes_base::fault::PipeFault;
use thes_base::pipe::Pipe;
use thes_command_line::printing::report_fault;
use thes_export::writing::export;
use thes_office::Office;
use thes_store::keeper::Keeper;

// Writes the triples of the state that the office's tables encode.
fn write_export<K: Keeper, W: Write>(
    alloc: Global,
    office: &mut Office<K>,
    output: &mut Pipe<W>,
) -> Result<(), PipeFault>
    requires { IsFresh output.old }
    ensures { WritesExport K.view W.contents office.old output.old
        result office.new output.new }
{
    let core = office.ready()?;
    export(alloc, core, output)
}

/// Writes the triples of the store as N-Triples, and returns the exit status 0; after a fault,
/// prints the fault and returns 3.
pub fn export_store<K: Keeper, W: Write, E: Write>(
    alloc: Global,
    office: &mut Office<K>,
    output: &mut Pipe<W>,
    errors: &mut Pipe<E>,
) -> u8
    requires { AreFreshOutputs output.old errors.old }
    ensures { ExportsStore K.view W.contents E.contents office.old output.old
        output.new errors.old errors.new result office.new }
{
    match write_export(alloc, office, output) {
        Ok(()) => 0,
        Err(fault) => report_fault(errors, fault),
    }
}
