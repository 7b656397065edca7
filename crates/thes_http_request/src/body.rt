//! Reads the body of an HTTP request.
ghost use Rattle.std.specs.Prelude.{◌≡◌, ◌≤◌, ◌<◌, ◌+◌, ◌++◌, [], length, vec_len, vec_capacity};
ghost use Rattle.thes_base.specs.Pipe.{IsFresh};
ghost use Rattle.thes_http_request.specs.Inbox.{BodyReadOutcome, FillsBuffer, GainsRoom, GrowsInPlace, HasBoundedCapacity};

use crate::inbox::InputFault;
use std::alloc::AllocError;
use std::io::Read;
use thes_base::pipe::{Budget, Pipe};

/// The reason why a body wasn't read.
#[derive(Clone, Copy, Debug, PartialEq, Eq)]
pub enum BodyStop {
    /// The input ended or failed inside the body.
    InputFault(InputFault),
    /// Memory for the body ran out.
    OutOfMemory,
}

/// Running out of memory becomes `OutOfMemory`.
impl From<AllocError> for BodyStop {
    ghost use Rattle.thes_http_request.specs.declared.body.BodyStop.TheVariants.{OutOfMemory};

    ghost from_gives = { λ e stop. stop ≡ OutOfMemory };

    fn from(_: AllocError) -> BodyStop {
        BodyStop::OutOfMemory
    }
}

/// A fault of the input becomes `InputFault` with that fault.
impl From<InputFault> for BodyStop {
    ghost use Rattle.thes_http_request.specs.declared.body.BodyStop.TheVariants as stop;

    ghost from_gives = { λ gone s. s ≡ stop.InputFault gone };

    fn from(gone: InputFault) -> BodyStop {
        BodyStop::InputFault(gone)
    }
}

// Reserves capacity if none is left: for as many more bytes as the body has, plus 4,096, but at
// most for the `count` bytes announced. These aren't all reserved at once, since a client may
// announce bytes that it never sends (DECISIONS.md, Memory).
fn reserve_body(body: &mut Vec<u8>, count: usize) -> Result<(), AllocError>
    requires short { vec_len body.old < count }
    requires room { HasBoundedCapacity count (vec_len body.old) (vec_capacity body.old) }
    ensures { GainsRoom count body.old body.new result }
{
    let len = body.len();
    if body.capacity() > len {
        return Ok(());
    }
    body.reserve_exact(len.saturating_add(4096).min(count - len))
}

// Appends bytes to a body, within its capacity.
fn add(body: &mut Vec<u8>, bytes: &[u8])
    requires { vec_len body.old + length bytes.now ≤ vec_capacity body.old }
    ensures items { body.new.items ≡ body.old.items ++ bytes.now }
    ensures len { vec_len body.new ≡ vec_len body.old + length bytes.now }
    ensures capacity { vec_capacity body.new ≡ vec_capacity body.old }
{
    for byte in bytes {
        body.push_reserved(*byte);
    }
}

// Reads into the chunk, appends the bytes read to the body, and returns whether there were any;
// false at the end of the input.
fn read_more<R: Read>(
    reader: &mut Pipe<R>,
    budget: &mut Budget,
    chunk: &mut [u8],
    body: &mut Vec<u8>,
) -> Result<bool, InputFault>
    requires fresh { IsFresh reader.old }
    requires room { (0 < length chunk.old)
        × (vec_len body.old + length chunk.old ≤ vec_capacity body.old) }
    ensures fills { FillsBuffer R.remaining reader.old reader.new budget.old budget.new
        body.old.items body.new.items result }
    ensures size { GrowsInPlace (length chunk.old) body.old body.new }
{
    match reader.read(budget, chunk) {
        Ok(count) => {
            add(body, &chunk[..count]);
            Ok(count > 0)
        }
        Err(_) => Err(InputFault::ReadFault),
    }
}

/// Reads a body of `count` bytes into an empty buffer. Its first bytes are taken from `start`,
/// which was read with the head; only the others are read from the connection.
///
/// The buffer grows with the bytes that arrive, not with the length announced.
pub fn read_body<R: Read>(
    reader: &mut Pipe<R>,
    budget: &mut Budget,
    start: &[u8],
    count: usize,
    body: &mut Vec<u8>,
) -> Result<(), BodyStop>
    requires fresh { IsFresh reader.old }
    requires empty { (body.old.items ≡ []) × (vec_capacity body.old ≡ 0) }
    ensures outcome { BodyReadOutcome R.remaining reader.old reader.new budget.old budget.new
        start.now count body.new.items result }
    ensures room { HasBoundedCapacity count (vec_len body.new) (vec_capacity body.new) }
{
    let here = count.min(start.len());
    body.reserve_exact(here)?;
    add(body, &start[..here]);
    let mut chunk = [0u8; 4096];
    while body.len() < count {
        reserve_body(body, count)?;
        let room = (body.capacity() - body.len()).min(4096);
        if !read_more(reader, budget, &mut chunk[..room], body)? {
            return Err(BodyStop::InputFault(InputFault::Cut));
        }
    }
    Ok(())
}
