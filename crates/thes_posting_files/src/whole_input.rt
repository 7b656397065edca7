//! Reads an input, such as a posting file, to its end, within a limit of bytes.
ghost use Rattle.std.specs.Prelude.{◌≤◌, ◌<◌, length, IfOk, IfErr};
ghost use Rattle.thes_base.specs.Pipe.{IsFresh, PaysCalls};
ghost use Rattle.thes_posting_files.specs.WholeInput.{IsInputFault, IsWhole, ReadsNext};

use std::alloc::Global;
use std::io::Read;
use thes_base::fault::PipeFault;
use thes_base::pipe::{Budget, Pipe};

// Reads more of an input into the chunk, and appends the bytes read; returns `false` at the end of
// the input. Bytes that would exceed the limit are `TooLong`, and are not appended.
#[tactic(auto, using(crate::proofs::WholeInputLemmas::gives_more))]
fn read_more<R: Read>(
    reader: &mut Pipe<R>,
    budget: &mut Budget,
    chunk: &mut [u8],
    limit: usize,
    bytes: &mut Vec<u8>,
) -> Result<bool, PipeFault>
    requires fresh { IsFresh reader.old }
    requires room { 0 < length chunk.old }
    requires in_limit { length bytes.old.items ≤ limit }
    ensures { ReadsNext R.remaining limit reader.old reader.new budget.old budget.new
        bytes.old.items bytes.new.items result }
{
    let count = match reader.read(budget, chunk) {
        Ok(count) => count,
        Err(stop) => return Err(stop.reader_fault()),
    };
    if count > limit - bytes.len() {
        return Err(PipeFault::TooLong);
    }
    bytes.extend_from_slice(&chunk[..count])?;
    Ok(count > 0)
}

/// Reads an input to its end. `TooLong` means that the input exceeds the limit, or that no read was
/// left in the budget.
pub fn read_whole<R: Read>(
    alloc: Global,
    reader: &mut Pipe<R>,
    budget: &mut Budget,
    limit: usize,
) -> Result<Vec<u8>, PipeFault>
    requires { IsFresh reader.old }
    ensures ok { IfOk result
        (λ bytes. IsWhole R.remaining limit reader.old reader.new bytes.items) }
    ensures err { IfErr result (IsInputFault R.remaining limit reader.old reader.new) }
    ensures paid { PaysCalls reader.old reader.new budget.old budget.new }
{
    let mut bytes = Vec::new(alloc);
    let mut chunk = [0u8; 4096];
    while read_more(reader, budget, &mut chunk, limit, &mut bytes)? {}
    Ok(bytes)
}
