//! Performs the postings of a file over an office, and keeps the report in memory, for HTTP.
//! `import` with a vector as its writer wouldn't do: the contract of `import`, which is about any
//! writer, can't exclude the writer's faults (DECISIONS.md, Posting files).
ghost use Rattle.thes_import.specs.Imports.{Imports, fault_in};
ghost use Rattle.thes_office.specs.Office.{FaultBehaviour};

use crate::perform::import_block;
use std::alloc::Global;
use thes_base::fault::{Fault, ReadStop};
use thes_office::Office;
use thes_posting_files::block::Block;
use thes_posting_files::reading::open_rows;
use thes_posting_files::report::Report;
use thes_store::keeper::Keeper;

/// Performs the postings of a file in order, and returns a report of each row's outcome. The
/// answers and the tables are those of the machine over the file's postings; a row that isn't a
/// posting changes nothing. A fault ends the import before some row; exactly the rows in the report
/// were performed.
///
/// Returns None if the file has no header; then nothing is performed. A fault is returned with the
/// report so far, which is empty if memory ran out before the heading was made.
pub fn import_postings<K: Keeper>(
    alloc: Global,
    file: &[u8],
    office: &mut Office<K>,
) -> Result<Option<Report>, (Fault, Report)>
    ensures fault_behaviour { FaultBehaviour K.view office.old office.new
        (fault_in result) }
    ensures imports { Imports K.view office.old file.now result office.new }
{
    // No effect; for the proof, states that the tables encode a state.
    let _ = office.is_stale();
    let mut reader = match open_rows(alloc, file) {
        Ok(reader) => reader,
        Err(ReadStop::Form(_)) => return Ok(None),
        Err(ReadStop::OutOfMemory) => return Err((Fault::OutOfMemory, Report::blank(alloc))),
    };
    let Ok(mut report) = Report::new(alloc) else {
        return Err((Fault::OutOfMemory, Report::blank(alloc)));
    };
    let mut block = Block::new(alloc);
    while reader.has_more {
        if let Err(fault) = import_block(alloc, office, &mut reader, &mut block, &mut report) {
            return Err((fault, report));
        }
    }
    Ok(Some(report))
}
