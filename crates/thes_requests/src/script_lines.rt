//! The lines of a script, within the limit of 1,000,000 lines.
ghost use Rattle.std.specs.Prelude.{◌≡◌, ◌≤◌, [], IfOk};
ghost use Rattle.thes_base.specs.Pipe.{IsFresh, unread_bytes};
ghost use Rattle.thes_base.specs.PipeFrames.{ReadFrame};
ghost use Rattle.thes_requests.specs.LineBuffer.{bytes_left};
ghost use Rattle.thes_requests.specs.Script.{lines_limit};
ghost use Rattle.thes_requests.specs.ScriptSteps.{FindsNextLine};

use crate::line_buffer::{LineBuffer, LineSearch};
use std::alloc::{AllocError, Global};
use std::io::Read;
use thes_base::pipe::{Budget, Pipe, Stop};

const LINES_LIMIT: u32 = 1_000_000;

/// A reader of a script's lines, with the last line found and the number of lines found so far.
#[derive(Drop)]
pub struct ScriptLines {
    pub line_buffer: LineBuffer,
    pub line: Vec<u8>,
    pub count: u32,
}

impl ScriptLines {
    /// Allocates the input buffer, but no memory for a line yet.
    pub fn new(alloc: Global) -> Result<ScriptLines, AllocError>
        ensures { IfOk result (λ lines. (lines.line_buffer ≡ []) × (lines.count ≡ 0)) }
    {
        let line_buffer = LineBuffer::new(alloc)?;
        let line = Vec::new(alloc);
        Ok(ScriptLines {
            line_buffer,
            line,
            count: 0,
        })
    }

    /// Finds the next line and stores it in `line` without its line end. `TooLong` means that the
    /// line exceeds 1 MiB or is line 1,000,001, or that no read is left.
    pub fn next_line<R: Read>(
        &mut self,
        reader: &mut Pipe<R>,
        budget: &mut Budget,
    ) -> Result<LineSearch, Stop>
        requires fresh { IsFresh reader.old }
        requires within { self.old.count ≤ lines_limit }
        ensures finds { FindsNextLine (bytes_left R.remaining self.old.line_buffer reader.old)
            (bytes_left R.remaining self.new.line_buffer reader.new) self.old self.new
            (unread_bytes R.remaining reader.new) reader.new result }
        ensures frame { ReadFrame reader.old reader.new budget.old budget.new result }
    {
        let found = self.line_buffer.take_line(reader, budget, &mut self.line)?;
        if found == LineSearch::End {
            return Ok(found);
        }
        if self.count == LINES_LIMIT {
            return Err(Stop::TooLong);
        }
        self.count += 1;
        Ok(found)
    }
}
