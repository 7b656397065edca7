//! Imports a posting file from a reader, and writes the outcomes to a writer.
ghost use Rattle.std.specs.Prelude.{◌≡◌};
ghost use Rattle.thes_base.specs.Pipe.{IsFresh, KeepsSharedCallLimit, PaysCalls};
ghost use Rattle.thes_import.specs.FileImport.{EndsFileImport, ImportsBytes, WritesReport, import_streams};
ghost use Rattle.thes_posting_files.specs.Outcomes.{no_counts};

use crate::perform::import_block;
use std::alloc::Global;
use std::io::{Read, Write};
use thes_base::fault::{Fault, PipeFault, ReadStop};
use thes_base::pipe::{Budget, Pipe};
use thes_office::Office;
use thes_posting_files::block::Block;
use thes_posting_files::reading::open_rows;
use thes_posting_files::report::{Counts, Report};
use thes_posting_files::whole_input::read_whole;
use thes_store::keeper::Keeper;

/// The end of an import that no fault stopped.
#[derive(Clone, Copy, Debug, PartialEq, Eq)]
pub enum ImportEnd {
    /// All rows were performed; their outcomes have these counts.
    Rows(Counts),
    /// The file has no header, and nothing was performed.
    Malformed,
}

/// A fault that stopped an import; exactly the rows counted were performed.
#[derive(Clone, Copy, Debug, PartialEq, Eq)]
pub struct ImportStop {
    pub fault: PipeFault,
    pub counts: Counts,
}

impl ImportStop {
    // Returns the stop of an import by a fault before its first row, with all counts 0.
    fn at_start(fault: PipeFault) -> ImportStop
        ensures fault { result.fault ≡ fault }
        ensures counts { result.counts ≡ no_counts }
    {
        ImportStop {
            fault,
            counts: Counts::new(),
        }
    }
}

// The greatest size of a posting file, in bytes: 16 MiB.
const FILE_LIMIT: usize = 16_777_216;

// Writes the text of an import's report, and clears the text once it is written.
fn write_report<W: Write>(
    writer: &mut Pipe<W>,
    budget: &mut Budget,
    report: &mut Report,
) -> Result<(), ImportStop>
    requires { IsFresh writer.old }
    ensures { WritesReport W.contents writer.old writer.new budget.old budget.new
        report.old report.new result }
{
    let counts = report.counts;
    match writer.write_all(budget, &report.text) {
        Ok(()) => {
            report.clear();
            Ok(())
        }
        Err(stop) => Err(ImportStop {
            fault: stop.writer_fault(),
            counts,
        }),
    }
}

// Performs the rows of a posting file, and writes the outcomes of each block before it reads the
// next.
fn import_bytes<W: Write, K: Keeper>(
    alloc: Global,
    file: &[u8],
    writer: &mut Pipe<W>,
    budget: &mut Budget,
    office: &mut Office<K>,
) -> Result<ImportEnd, ImportStop>
    requires { IsFresh writer.old }
    ensures imports { ImportsBytes W.contents K.view writer.old writer.new
        office.old office.new file.now result }
    ensures paid { PaysCalls writer.old writer.new budget.old budget.new }
{
    // No effect; for the proof, states that the tables encode a state.
    let _ = office.is_stale();
    let mut reader = match open_rows(alloc, file) {
        Ok(reader) => reader,
        Err(ReadStop::Form(_)) => return Ok(ImportEnd::Malformed),
        Err(ReadStop::OutOfMemory) => return Err(ImportStop::at_start(PipeFault::Fault(
            Fault::OutOfMemory,
        ))),
    };
    let Ok(mut report) = Report::new(alloc) else {
        return Err(ImportStop::at_start(PipeFault::Fault(Fault::OutOfMemory)));
    };
    write_report(writer, budget, &mut report)?;
    let mut block = Block::new(alloc);
    while reader.has_more {
        let done = import_block(alloc, office, &mut reader, &mut block, &mut report);
        // The outcomes are written before the next block is read, so that a killed import has
        // reported all blocks but one; and before a fault of the office is returned, since a fault
        // of the writer is returned in its place (DECISIONS.md, Posting files and The office).
        write_report(writer, budget, &mut report)?;
        if let Err(fault) = done {
            return Err(ImportStop {
                fault: PipeFault::Fault(fault),
                counts: report.counts,
            });
        }
    }
    Ok(ImportEnd::Rows(report.counts))
}

/// Reads a posting file to its end, performs its postings in order, and writes the outcome of each
/// row. Writes the outcomes of each block of 1,000 rows before it performs the next block.
///
/// A file has at most 16,777,216 bytes. If it is longer, can't be read, or has no header, or if
/// memory to read it runs out, nothing is performed or written. If a fault of the office halts the
/// import, the outcomes of the rows performed are written. If the writer fails, or the budget for
/// calls is used up, a prefix of the outcomes may have been written. The budget is 100,000,000
/// reads and writes together.
pub fn import<R: Read, W: Write, K: Keeper>(
    alloc: Global,
    reader: &mut Pipe<R>,
    writer: &mut Pipe<W>,
    office: &mut Office<K>,
) -> Result<ImportEnd, ImportStop>
    requires reader { IsFresh reader.old }
    requires writer { IsFresh writer.old }
    ensures ends { EndsFileImport R.remaining W.contents K.view
        (import_streams reader.old writer.old office.old)
        (import_streams reader.new writer.new office.new) result }
    ensures calls { KeepsSharedCallLimit reader.old reader.new writer.old writer.new }
{
    let mut budget = Budget::new();
    match read_whole(alloc, reader, &mut budget, FILE_LIMIT) {
        Ok(file) => import_bytes(alloc, &file, writer, &mut budget, office),
        Err(fault) => Err(ImportStop::at_start(fault)),
    }
}
