//! Devices that fail after a number of calls.
use Failing::{FullWriter, Reader, Writer};
use std::alloc::Global;
use test_devices::{Filling, Halting};
use thes_base::fault::PipeFault;

/// The device that fails: a reader or a writer that breaks, or a writer that is full.
#[derive(Clone, Copy, Debug, PartialEq, Eq)]
pub enum Failing {
    Reader,
    Writer,
    FullWriter,
}

impl Failing {
    /// Returns a reader of a text, which fails after `calls` calls if the reader is the failing
    /// device.
    pub fn reader<'a>(self, text: &'a str, calls: u32) -> Halting<'a> {
        Halting {
            bytes: text.as_bytes(),
            calls: if self == Reader { calls } else { u32::MAX },
        }
    }

    /// Returns a writer, which fails after `calls` calls if a writer is the failing device.
    pub fn writer(self, alloc: Global, calls: u32) -> Filling {
        Filling {
            bytes: Vec::new(alloc),
            calls: if self == Reader { u32::MAX } else { calls },
            is_full: self == FullWriter,
        }
    }

    /// Returns the fault that a script reports when the device fails.
    pub fn fault(self) -> PipeFault {
        match self {
            Reader => PipeFault::Read,
            Writer | FullWriter => PipeFault::Write,
        }
    }
}
