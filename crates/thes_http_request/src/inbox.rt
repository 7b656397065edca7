//! Reads the head of an HTTP request.
ghost use Rattle.std.specs.Prelude.{◌≡◌, ◌≤◌, ◌<◌, [], length, take, drop, true, false, IfOk};
ghost use Rattle.thes_base.specs.Pipe.{IsFresh};
ghost use Rattle.thes_http_request.specs.Heads.{head_limit};
ghost use Rattle.thes_http_request.specs.Inbox.{FillsBuffer, HeadReadOutcome};

use crate::head::{Head, head_of};
use httparse::spans::{HeaderSpan, RequestSpans};
use std::alloc::{AllocError, Global};
use std::io::Read;
use std::marker::Model;
use thes_base::pipe::{Budget, Pipe, Stop};

/// The bytes read from a connection so far: at most 8,193, one more than a head may have.
#[derive(Drop)]
pub struct Inbox {
    buffer: Vec<u8>,
    filled: usize,
}

impl Model for Inbox {
    ghost use Rattle.std.specs.Prelude.{◌≡◌, ◌≤◌, ℕ, List, take, vec_len};

    ghost Value = { List ℕ };

    ghost view = { λ f. take f.filled f.buffer.items };

    ghost invariant = { λ f. (f.filled ≤ 8193) × (vec_len f.buffer ≡ 8193) };
}

/// The reason why the input has no complete request.
#[derive(Clone, Copy, Debug, PartialEq, Eq)]
pub enum InputFault {
    /// The input ended inside the request.
    Cut,
    /// The reader failed, or no read is left in the budget.
    ReadFault,
}

/// The reason why no head was read.
#[derive(Clone, Copy, Debug, PartialEq, Eq)]
pub enum HeadStop {
    /// The head is malformed or exceeds the limits.
    Bad,
    /// The input ended or failed inside the head.
    InputFault(InputFault),
}

// The greatest length of a head in bytes.
const HEAD_LIMIT: usize = 8192;

impl Inbox {
    /// Allocates an empty inbox with room for the longest head and one byte.
    pub fn new(alloc: Global) -> Result<Inbox, AllocError>
        ensures { IfOk result (λ inbox. inbox ≡ []) }
    {
        let buffer = vec![in alloc; 0; HEAD_LIMIT + 1]?;
        Ok(Inbox { buffer, filled: 0 })
    }

    /// Returns the bytes read so far, which may go beyond the head.
    pub fn bytes(&self) -> &[u8]
        ensures { result.now ≡ self.now }
    {
        &self.buffer[..self.filled]
    }

    /// Returns the bytes after the first `count`: the start of the body, if `count` is the length
    /// of the head.
    pub fn bytes_after(&self, count: usize) -> &[u8]
        requires { count ≤ length self.now }
        ensures { result.now ≡ drop count self.now }
    {
        &self.bytes()[count..]
    }

    /// Returns the bytes that may belong to a head: the first 8,192.
    pub fn head_bytes(&self) -> &[u8]
        ensures { result.now ≡ take head_limit self.now }
    {
        let bytes = self.bytes();
        if bytes.len() > HEAD_LIMIT {
            &bytes[..HEAD_LIMIT]
        } else {
            bytes
        }
    }

    // Returns whether the inbox has more bytes than a head may have.
    fn is_full(&self) -> bool
        ensures full { result ≡ true → head_limit < length self.now }
        ensures short { result ≡ false → length self.now ≤ head_limit }
    {
        self.filled > HEAD_LIMIT
    }

    // Reads once, appends the bytes read, and returns whether there were any; false at the end of
    // the input.
    fn fill<R: Read>(
        &mut self,
        reader: &mut Pipe<R>,
        budget: &mut Budget,
    ) -> Result<bool, InputFault>
        requires fresh { IsFresh reader.old }
        requires room { length self.old ≤ head_limit }
        ensures { FillsBuffer R.remaining reader.old reader.new budget.old budget.new
            self.old self.new result }
    {
        match reader.read(budget, &mut self.buffer[self.filled..]) {
            Ok(count) => {
                self.filled += count;
                Ok(count > 0)
            }
            Err(_) => Err(InputFault::ReadFault),
        }
    }

    /// Reads until the bytes begin with a head, and puts the spans of its fields into `headers`.
    /// Stops if the bytes can't begin with a head within the limits, or the input ends or fails.
    pub fn read_head<R: Read>(
        &mut self,
        reader: &mut Pipe<R>,
        budget: &mut Budget,
        headers: &mut [HeaderSpan],
    ) -> Result<RequestSpans, HeadStop>
        requires fresh { IsFresh reader.old }
        requires empty { self.old ≡ [] }
        requires room { length headers.old ≡ 64 }
        ensures { HeadReadOutcome R.remaining reader.old reader.new budget.old budget.new
            self.new headers.new result }
    {
        loop {
            match head_of(self.head_bytes(), headers) {
                Head::Whole(spans) => return Ok(spans),
                Head::Bad => return Err(HeadStop::Bad),
                Head::More => {
                    if self.is_full() {
                        return Err(HeadStop::Bad);
                    }
                }
            }
            match self.fill(reader, budget) {
                Ok(true) => {}
                Ok(false) => return Err(HeadStop::InputFault(InputFault::Cut)),
                Err(gone) => return Err(HeadStop::InputFault(gone)),
            }
        }
    }
}
