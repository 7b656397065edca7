//! Reads the records of a posting file, one after another.
ghost use Rattle.std.specs.Prelude.{[], IfOk, OnErr};
ghost use Rattle.csv.specs.Records.{fields_of};
ghost use Rattle.thes_posting_files.specs.RecordReading.{HasReadTo, StopsReading, TakesRecord};

use csv::{ByteRecord, Reader, ReaderBuilder};
use std::alloc::{AllocError, Global};

/// Opens a text for reading its CSV records, each of which may have any number of fields.
#[tactic(auto, unfolding(csv::specs::Reading::Reached))]
pub(crate) fn open_records(alloc: Global, bytes: &[u8]) -> Reader<&[u8]>
    ensures { HasReadTo bytes.now [] result }
{
    ReaderBuilder::new()
        .has_headers(false)
        .flexible(true)
        .from_reader(alloc, bytes)
}

/// Reads the next CSV record into `entry`; returns false at the end of the text. Fails only if
/// memory runs out.
#[tactic(auto, using(crate::proofs::RecordReadingLemmas::takes_found))]
pub(crate) fn next_record(
    records: &mut Reader<&[u8]>,
    entry: &mut ByteRecord,
) -> Result<bool, AllocError>
    ensures record { IfOk result (TakesRecord records.old records.new (fields_of entry.new)) }
    ensures stopped { OnErr result (StopsReading records.old records.new) }
{
    let Some(found) = records.read_byte_record(entry).ok() else {
        return Err(AllocError);
    };
    Ok(found)
}
