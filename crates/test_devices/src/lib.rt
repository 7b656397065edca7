//! Devices for tests: readers and writers that move few bytes a call, are interrupted, and fail;
//! and pseudo-random numbers.
#![tactic(auto)]

pub mod numbers;

ghost use Rattle.std.specs.Prelude.{Some};

use std::io;
use std::io::{ErrorKind, Read, Write};

// Uses up one of the calls left. Returns the error `BrokenPipe` if none is left, and otherwise
// `Interrupted` at every other call.
fn take_call(calls: &mut u32) -> Result<(), ErrorKind> {
    if *calls == 0 {
        return Err(ErrorKind::BrokenPipe);
    }
    *calls -= 1;
    if *calls % 2 == 1 {
        return Err(ErrorKind::Interrupted);
    }
    Ok(())
}

/// A reader that returns at most three bytes at every other call, is interrupted at the calls
/// between, and fails after `calls` calls.
#[derive(Drop)]
pub struct Halting<'a> {
    pub bytes: &'a [u8],
    pub calls: u32,
}

impl<'a> Read for Halting<'a> {
    ghost remaining = { λ r. Some r.bytes.now };

    fn read(&mut self, buf: &mut [u8]) -> io::Result<usize> {
        take_call(&mut self.calls)?;
        if buf.len() > 3 {
            return self.bytes.read(&mut buf[..3]);
        }
        self.bytes.read(buf)
    }
}

/// A writer that accepts one byte at every other call, and is interrupted at the calls between.
/// After `calls` calls it fails or, if `is_full`, accepts no byte.
#[derive(Drop)]
pub struct Filling {
    pub bytes: Vec<u8>,
    pub calls: u32,
    pub is_full: bool,
}

impl Write for Filling {
    ghost contents = { λ w. Some w.bytes.items };

    fn write(&mut self, bytes: &[u8]) -> io::Result<usize> {
        if bytes.is_empty() || self.calls == 0 && self.is_full {
            return Ok(0);
        }
        take_call(&mut self.calls)?;
        self.bytes.push(bytes[0])?;
        Ok(1)
    }

    fn flush(&mut self) -> io::Result<()> {
        Ok(())
    }
}
