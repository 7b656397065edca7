//! Rows of a posting file, read from its records.
ghost use Rattle.std.specs.Prelude.{◌≡◌, ◌<◌, IfOk, IsUtf8, MatchOption, Some, length, slice_get};
ghost use Rattle.csv.specs.Records.{fields_of};
ghost use Rattle.thes_base.specs.Forms.{IsKey, IsRecordName};
ghost use Rattle.thes_base.specs.ReadResults.{IsReadResult};
ghost use Rattle.thes_posting_files.specs.PostingFile.{IsField, IsPostingRow, IsCsvRow, ReadsField};

use csv::ByteRecord;
use std::alloc::{AllocError, Global};
use std::str;
use thes_base::fault::{FormFault, ReadStop};
use thes_base::number::ResNo;
use thes_base::text::{Key, RecordName};

/// A row of a posting file: a posting, or the fault of a record that isn't one.
#[derive(Debug, Drop)]
pub enum CsvRow {
    Post(Key, RecordName, ResNo),
    Bad(FormFault),
}

// Returns a field of a posting file as a text, or None if it isn't UTF-8.
fn text_of(bytes: &[u8]) -> Option<&str>
    ensures { MatchOption result (¬ IsUtf8 bytes.now)
        (λ text. (text.now ≡ bytes.now) × IsUtf8 bytes.now) }
{
    str::from_utf8(bytes).ok()
}

// Reads a field of a posting file as a sender's key; the fault of any other field is `BadKey`.
fn read_key(alloc: Global, bytes: &[u8]) -> Result<Key, ReadStop>
    ensures { IsReadResult (IsField IsKey bytes.now) FormFault.BadKey (λ key. key ≡ bytes.now)
        result }
{
    match text_of(bytes) {
        Some(text) => Key::read(alloc, text),
        None => Err(ReadStop::Form(FormFault::BadKey)),
    }
}

// Reads a field of a posting file as the name of a record; the fault of any other field is
// `BadRecord`.
fn read_record(alloc: Global, bytes: &[u8]) -> Result<RecordName, ReadStop>
    ensures { IsReadResult (IsField IsRecordName bytes.now) FormFault.BadRecord
        (λ rec. rec ≡ bytes.now) result }
{
    match text_of(bytes) {
        Some(text) => RecordName::read(alloc, text),
        None => Err(ReadStop::Form(FormFault::BadRecord)),
    }
}

// Reads a field of a posting file as a resource's number in decimal; the fault of any other field
// is `BadNumber`. Whether the number is a concept's isn't checked here.
fn read_number(bytes: &[u8]) -> Result<ResNo, FormFault>
    ensures { ReadsField bytes.now result }
{
    match text_of(bytes) {
        Some(text) => ResNo::read(text),
        None => Err(FormFault::BadNumber),
    }
}

// Returns the field of a CSV record at this index, counted from 0.
#[tactic(auto, using(crate::proofs::RecordLemmas::field_is_some, crate::proofs::RecordLemmas::field_value))]
pub(crate) fn field(entry: &ByteRecord, i: usize) -> &[u8]
    requires { i < length (fields_of entry.now) }
    ensures { slice_get (fields_of entry.now) i ≡ Some result.now }
{
    entry.get(i).unwrap()
}

// Reads three fields as a posting; if a field is malformed, the row is the fault of the first such
// field.
fn read_fields(alloc: Global, key: &[u8], name: &[u8], concept: &[u8]) -> Result<CsvRow, AllocError>
    ensures { IfOk result (IsPostingRow key.now name.now concept.now) }
{
    let key = match read_key(alloc, key) {
        Ok(key) => key,
        Err(ReadStop::Form(fault)) => return Ok(CsvRow::Bad(fault)),
        Err(ReadStop::OutOfMemory) => return Err(AllocError),
    };
    let name = match read_record(alloc, name) {
        Ok(name) => name,
        Err(ReadStop::Form(fault)) => return Ok(CsvRow::Bad(fault)),
        Err(ReadStop::OutOfMemory) => return Err(AllocError),
    };
    match read_number(concept) {
        Ok(concept) => Ok(CsvRow::Post(key, name, concept)),
        Err(fault) => Ok(CsvRow::Bad(fault)),
    }
}

/// Reads a record as a row of a posting file; a record with more or fewer than three fields is
/// `BadShape`.
pub fn read_row(alloc: Global, entry: &ByteRecord) -> Result<CsvRow, AllocError>
    ensures { IfOk result (IsCsvRow (fields_of entry.now)) }
{
    if entry.len() != 3 {
        return Ok(CsvRow::Bad(FormFault::BadShape));
    }
    read_fields(alloc, field(entry, 0), field(entry, 1), field(entry, 2))
}
