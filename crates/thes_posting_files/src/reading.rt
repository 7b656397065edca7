//! Reads the rows of a posting file, block by block.
ghost use Rattle.std.specs.Prelude.{◌≡◌, ◌↔◌, ◌++◌, [], ◌∷◌, true, IsTrue, IfErr, IfOk, OnOk, List, ℕ};
ghost use Rattle.csv.specs.Records.{fields_of};
ghost use Rattle.thes_posting_files.specs.PostingFile.{IsFileReadStop, header};
ghost use Rattle.thes_posting_files.specs.RecordReading.{TakesHeader};
ghost use Rattle.thes_posting_files.specs.RowReading.{HasReadRows, ReadsBlock};
ghost use Rattle.thes_posting_files.specs.declared.csv_row.CsvRow.{CsvRow};

use crate::block::Block;
use crate::csv_row::{CsvRow, field, read_row};
use crate::records::{next_record, open_records};
use csv::{ByteRecord, Reader};
use std::alloc::{AllocError, Global};
use thes_base::fault::{FormFault, ReadStop};

/// The greatest number of rows in a block.
pub const BLOCK_ROWS: usize = 1_000;

/// A reader of the rows of a posting file, which has read one record ahead.
#[derive(Drop)]
pub struct RowReader<'a> {
    records: Reader<&'a [u8]>,
    // The record of the next row, if there is one.
    next: ByteRecord,
    /// Whether a row is left to read.
    pub has_more: bool,
}

// Returns whether a field is this text, byte by byte.
fn is_text(field: &[u8], text: &[u8]) -> bool
    ensures { IsTrue result ↔ (field.now ≡ text.now) }
{
    field == text
}

// Returns whether a CSV record has exactly these three fields, in this order.
#[tactic(auto, using(crate::proofs::RecordLemmas::third_of, crate::proofs::RecordLemmas::three_fields))]
fn has_fields(entry: &ByteRecord, first: &[u8], second: &[u8], third: &[u8]) -> bool
    ensures { IsTrue result ↔ (fields_of entry.now ≡ first.now ∷ second.now ∷ third.now ∷ []) }
{
    if entry.len() != 3 {
        return false;
    }
    if !is_text(field(entry, 0), first) {
        return false;
    }
    if !is_text(field(entry, 1), second) {
        return false;
    }
    is_text(field(entry, 2), third)
}

// Returns whether the record is the header `key,record,concept`.
#[tactic(auto, unfolding(crate::specs::PostingFile::header))]
fn is_header(entry: &ByteRecord) -> bool
    ensures { IsTrue result ↔ (fields_of entry.now ≡ header) }
{
    has_fields(
        entry,
        b"key".as_slice(),
        b"record".as_slice(),
        b"concept".as_slice(),
    )
}

// Reads the first record, and returns whether it is the header; false if the file has no records.
fn read_header(records: &mut Reader<&[u8]>, record: &mut ByteRecord) -> Result<bool, AllocError>
    ensures { IfOk result (TakesHeader records.old records.new) }
{
    if !next_record(records, record)? {
        return Ok(false);
    }
    Ok(is_header(record))
}

/// Opens a posting file for reading its rows. The fault of a file without a header is `BadShape`.
pub fn open_rows(alloc: Global, bytes: &[u8]) -> Result<RowReader<'_>, ReadStop>
    ensures rows { IfOk result (λ reader. (rows : List CsvRow)
        × HasReadRows bytes.now rows [] reader) }
    ensures fault { IfErr result (IsFileReadStop bytes.now) }
{
    let mut records = open_records(alloc, bytes);
    let mut record = ByteRecord::new(alloc);
    if !read_header(&mut records, &mut record)? {
        return Err(ReadStop::Form(FormFault::BadShape));
    }
    let has_more = next_record(&mut records, &mut record)?;
    Ok(RowReader {
        records,
        next: record,
        has_more,
    })
}

// Returns the next row, and reads the record of the one after it; fails only if memory runs out.
fn next_row(alloc: Global, reader: &mut RowReader<'_>) -> Result<CsvRow, AllocError>
    requires { reader.old.has_more ≡ true }
    ensures { IfOk result (λ row. (bytes : List ℕ) (rows first : List CsvRow)
        → HasReadRows bytes rows first reader.old
        → HasReadRows bytes rows (first ++ row ∷ []) reader.new) }
{
    let row = read_row(alloc, &reader.next)?;
    reader.has_more = next_record(&mut reader.records, &mut reader.next)?;
    Ok(row)
}

/// Replaces the block's rows by the next rows of the file: up to 1,000, and at least one if any is
/// left.
pub fn read_block(
    alloc: Global,
    reader: &mut RowReader<'_>,
    block: &mut Block,
) -> Result<(), AllocError>
    ensures { OnOk result (ReadsBlock reader.old reader.new block.new) }
{
    block.clear();
    while reader.has_more && block.faults.len() < BLOCK_ROWS {
        let row = next_row(alloc, reader)?;
        block.push(row)?;
    }
    Ok(())
}
