//! A writer that allocates nothing.
ghost use Rattle.std.specs.Prelude.{◌≤◌};

use std::io::Write;
use std::{io, str};

/// A buffer of 4,096 bytes, with the number of bytes written to it.
#[derive(Drop)]
pub struct FixedPage {
    bytes: [u8; 4096],
    filled: usize,
    ghost within: { filled ≤ 4096 },
}

impl FixedPage {
    /// Returns a page without text.
    pub fn new() -> FixedPage {
        FixedPage {
            bytes: [0; 4096],
            filled: 0,
        }
    }

    /// Returns the text written, or an empty text if it isn't UTF-8.
    pub fn as_str(&self) -> &str {
        str::from_utf8(&self.bytes[..self.filled]).unwrap_or("")
    }
}

impl Write for FixedPage {
    fn write(&mut self, bytes: &[u8]) -> io::Result<usize> {
        let count = bytes.len().min(self.bytes.len() - self.filled);
        let end = self.filled + count;
        self.bytes[self.filled..end].copy_from_slice(&bytes[..count]);
        self.filled = end;
        Ok(count)
    }

    fn flush(&mut self) -> io::Result<()> {
        Ok(())
    }
}
