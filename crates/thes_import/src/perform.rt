//! Performs the rows of a posting file, block by block.
ghost use Rattle.std.specs.Prelude.{◌≡◌, true};
ghost use Rattle.thes_office.specs.Office.{FaultBehaviour};
ghost use Rattle.thes_import.specs.Imports.{CountsRowsRead, ImportsBlock};

use std::alloc::Global;
use thes_base::fault::Fault;
use thes_office::Office;
use thes_posting_files::block::Block;
use thes_posting_files::reading::{RowReader, read_block};
use thes_posting_files::report::Report;
use thes_store::keeper::Keeper;

/// Reads the next block of rows, performs them, and appends their outcomes to the report. On a
/// fault, the report has the outcomes of the rows performed before it. `block` is passed for its
/// memory: the rows read replace those that it had.
pub(crate) fn import_block<K: Keeper>(
    alloc: Global,
    office: &mut Office<K>,
    reader: &mut RowReader<'_>,
    block: &mut Block,
    report: &mut Report,
) -> Result<(), Fault>
    requires some { reader.old.has_more ≡ true }
    requires counts { CountsRowsRead reader.old report.old.counts }
    ensures fault_behaviour { FaultBehaviour K.view office.old office.new result }
    ensures imports { ImportsBlock K.view office.old reader.old report.old result report.new
        reader.new office.new }
{
    // No effect; for the proof, states that the tables encode a state.
    let _ = office.is_stale();
    read_block(alloc, reader, block)?;
    // Room for the lines is made first, so that no row is performed without its line.
    report.make_room(block.faults.len())?;
    let mut answers = Vec::new(alloc);
    let ran = office.run(block.posts.as_slice(), &mut answers);
    report.push_outcomes(block.faults.as_slice(), answers.as_slice());
    ran
}
