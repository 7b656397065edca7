//! Exports, written to a pipe.
ghost use Rattle.std.specs.Prelude.{◌≡◌, false};
ghost use Rattle.thes_base.specs.Pipe.{IsFresh};
ghost use Rattle.thes_export.specs.ExportWrites.{ExportResult};

use crate::gather::export_text;
use std::alloc::Global;
use std::io::Write;
use thes_base::fault::PipeFault;
use thes_base::pipe::Pipe;
use thes_core::Core;

/// Writes the triples of the state that the core holds as N-Triples, in the order of their lines'
/// bytes. All memory is allocated before the first byte is written.
#[tactic(auto, using(crate::proofs::ExportLemmas::export_read))]
pub fn export<W: Write>(alloc: Global, core: &Core, writer: &mut Pipe<W>) -> Result<(), PipeFault>
    requires unspent { core.now.spent ≡ false }
    requires writer { IsFresh writer.old }
    ensures { ExportResult W.contents core.now writer.old writer.new result }
{
    let text = export_text(alloc, core)?;
    writer.write_text(text.as_slice())?;
    Ok(())
}
