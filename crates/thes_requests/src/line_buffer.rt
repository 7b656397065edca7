//! A buffer that splits the input of a script into lines.
ghost use Rattle.std.specs.Prelude.{◌≡◌, ◌≢◌, ◌≤◌, [], ◌∷◌, ◌++◌, length, take, drop, true, false, IfOk, IfErr};
ghost use Rattle.std.specs.Io.KnownBytes.{Keeps};
ghost use Rattle.std.specs.Str.Lines.{strip_carriage_return};
ghost use Rattle.thes_base.specs.Pipe.{ended_of, IsFresh, unread_bytes};
ghost use Rattle.thes_base.specs.PipeFrames.{ReadFrame};
ghost use Rattle.thes_requests.specs.LineBuffer.{bytes_left, has_newline, ConsumesByte, ConsumesRun, FindsNoBytes, RefillsBuffer, FindsLineOrEnd, StopsInLine, IsLineTooLong};

use memchr::memchr;
use std::alloc::{AllocError, Global};
use std::io::Read;
use std::marker::Model;
use thes_base::pipe::{Budget, Pipe, Stop};

/// The bytes that were read but aren't consumed yet, in a buffer of 64 KiB.
#[derive(Drop)]
pub struct LineBuffer {
    buffer: Vec<u8>,
    pos: usize,
    filled: usize,
}

impl Model for LineBuffer {
    ghost use Rattle.std.specs.Prelude.{◌≡◌, ◌≤◌, ◌-◌, ℕ, List, take, drop, vec_len};
    ghost use Rattle.thes_requests.specs.LineBuffer.{buffer_size};

    ghost Value = { List ℕ };

    ghost view = { λ f. take (f.filled - f.pos) (drop f.pos f.buffer.items) };

    ghost invariant = { λ f. (f.pos ≤ f.filled) × (f.filled ≤ vec_len f.buffer)
        × (vec_len f.buffer ≡ buffer_size) };
}

/// The outcome of a search for the next line.
#[derive(Clone, Copy, PartialEq, Eq)]
pub enum LineSearch {
    Line,
    /// A line was found, but memory to hold it ran out.
    NoRoom,
    End,
}

// A part of a line that was consumed: the number of its bytes, and whether the copy of the line in
// memory has these and all earlier bytes of the line.
#[derive(Clone, Copy)]
struct LineRun {
    count: usize,
    kept: bool,
}

// The greatest length of a line in bytes, its carriage return included.
const LINE_LIMIT: usize = 1_048_576;

const BUFFER_SIZE: usize = 65_536;

impl LineBuffer {
    /// Allocates an empty buffer of 64 KiB.
    pub fn new(alloc: Global) -> Result<LineBuffer, AllocError>
        ensures { IfOk result (λ line_buffer. line_buffer ≡ []) }
    {
        let buffer = vec![in alloc; 0; BUFFER_SIZE]?;
        Ok(LineBuffer {
            buffer,
            pos: 0,
            filled: 0,
        })
    }

    /// Consumes the next byte, and returns it, or `None` at the end of the input; reads only if the
    /// buffer is empty. After an error nothing is consumed, and the buffer is empty.
    pub fn next_byte<R: Read>(
        &mut self,
        reader: &mut Pipe<R>,
        budget: &mut Budget,
    ) -> Result<Option<u8>, Stop>
        requires { IsFresh reader.old }
        ensures byte { IfOk result (λ found. ConsumesByte found
            (bytes_left R.remaining self.old reader.old)
            (bytes_left R.remaining self.new reader.new)
            (ended_of reader.new)) }
        ensures stopped { IfErr result (λ stop. Keeps
            (bytes_left R.remaining self.old reader.old)
            (bytes_left R.remaining self.new reader.new)
            × FindsNoBytes stop self.new reader.new) }
        ensures frame { ReadFrame reader.old reader.new budget.old budget.new result }
    {
        if self.pos == self.filled && !self.refill(reader, budget)? {
            return Ok(None);
        }
        Ok(Some(self.take_byte()))
    }

    /// Consumes the next line, and copies it to `line` without its line end. If memory for the copy
    /// runs out, still consumes the rest of the line, and returns `NoRoom`. `TooLong` means that
    /// the line exceeds 1 MiB, or that no read is left.
    pub fn take_line<R: Read>(
        &mut self,
        reader: &mut Pipe<R>,
        budget: &mut Budget,
        line: &mut Vec<u8>,
    ) -> Result<LineSearch, Stop>
        requires { IsFresh reader.old }
        ensures found { IfOk result (λ found. FindsLineOrEnd found line.new.items
            (bytes_left R.remaining self.old reader.old)
            (bytes_left R.remaining self.new reader.new)
            (ended_of reader.new)) }
        ensures stopped { let before = bytes_left R.remaining self.old reader.old in
            IfErr result (λ stop. StopsInLine stop before (unread_bytes R.remaining reader.new)
            reader.new (IsLineTooLong before)) }
        ensures frame { ReadFrame reader.old reader.new budget.old budget.new result }
    {
        line.clear();
        let mut held = true;
        let mut taken = 0;
        while taken <= LINE_LIMIT {
            match self.next_byte(reader, budget)? {
                None => {
                    if taken == 0 {
                        return Ok(LineSearch::End);
                    }
                    return Ok(line_search_of(held));
                }
                Some(b'\n') => {
                    drop_carriage_return(line);
                    return Ok(line_search_of(held));
                }
                Some(byte) => {
                    taken += 1;
                    let kept = keep(line, held, byte);
                    let run = self.take_run(line, kept, LINE_LIMIT + 1 - taken);
                    taken += run.count;
                    held = run.kept;
                }
            }
        }
        Err(Stop::TooLong)
    }

    // Reads into the empty buffer, and returns whether there were any bytes; false at the end of
    // the input.
    fn refill<R: Read>(&mut self, reader: &mut Pipe<R>, budget: &mut Budget) -> Result<bool, Stop>
        requires fresh { IsFresh reader.old }
        requires used { self.old ≡ [] }
        ensures refills { RefillsBuffer (bytes_left R.remaining self.old reader.old)
            (bytes_left R.remaining self.new reader.new) self.new reader.new result }
        ensures frame { ReadFrame reader.old reader.new budget.old budget.new result }
    {
        self.pos = 0;
        self.filled = 0;
        let count = reader.read(budget, &mut self.buffer)?;
        self.filled = count;
        Ok(count > 0)
    }

    // Consumes the buffered bytes before the next line feed, at most `most` of them. Appends them
    // to `line` if `kept`, which means that `line` has all earlier bytes of the line; if memory for
    // that runs out, they are consumed all the same.
    fn take_run(&mut self, line: &mut Vec<u8>, kept: bool, most: usize) -> LineRun
        ensures run { ConsumesRun self.old self.new line.old.items line.new.items kept result }
        ensures short { result.count ≤ most }
    {
        let count = line_length(self.pending(), most);
        let kept = kept && line.extend_from_slice(&self.pending()[..count]).is_ok();
        self.consume(count);
        LineRun { count, kept }
    }

    // Returns the bytes that were read but aren't consumed yet.
    fn pending(&self) -> &[u8]
        ensures { result.now ≡ self.now }
    {
        &self.buffer[self.pos..self.filled]
    }

    // Consumes the next `count` bytes of the buffer.
    #[tactic(auto, using(crate::proofs::LineBufferLemmas::buffer_after_consume))]
    fn consume(&mut self, count: usize)
        requires { count ≤ length self.old }
        ensures { self.new ≡ drop count self.old }
    {
        self.pos += count;
    }

    // Consumes the next byte of a buffer that isn't empty, and returns it.
    fn take_byte(&mut self) -> u8
        requires { self.old ≢ [] }
        ensures { self.old ≡ result ∷ self.new }
    {
        let byte = self.buffer[self.pos];
        self.pos += 1;
        byte
    }
}

// Returns the number of bytes before the first line feed, at most `most`.
fn line_length(bytes: &[u8], most: usize) -> usize
    ensures within { result ≤ length bytes.now }
    ensures short { result ≤ most }
    ensures one { has_newline (take result bytes.now) ≡ false }
{
    let most = most.min(bytes.len());
    memchr(b'\n', &bytes[..most]).unwrap_or(most)
}

// Removes a carriage return at the end of the line.
fn drop_carriage_return(line: &mut Vec<u8>)
    ensures { line.new.items ≡ strip_carriage_return line.old.items }
{
    if let Some(b'\r') = line.last() {
        line.pop();
    }
}

// Returns the outcome of a search that found a line: `Line` if all its bytes are `held` in memory,
// or else `NoRoom`.
fn line_search_of(held: bool) -> LineSearch
    ensures line { (result ≡ LineSearch.Line) → held ≡ true }
    ensures some { result ≢ LineSearch.End }
{
    if held {
        LineSearch::Line
    } else {
        LineSearch::NoRoom
    }
}

// Appends a byte to `line` if all earlier bytes are `held` there, and returns whether `line` then
// has all bytes so far.
fn keep(line: &mut Vec<u8>, held: bool, byte: u8) -> bool
    ensures { result ≡ true → (held ≡ true) × (line.new.items ≡ line.old.items ++ byte ∷ []) }
{
    held && line.push(byte).is_ok()
}
