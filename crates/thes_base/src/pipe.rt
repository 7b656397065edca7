//! Pipes: readers and writers that record failures, the end of the input, denied calls, and the
//! number of calls.
ghost use Rattle.std.specs.Prelude.{◌≡◌, ◌≢◌, ◌<◌, length, false, IsTrue, IfErr, OnOk, OnErr, ◌↔◌};
ghost use Rattle.std.specs.Io.KnownBytes.{Appends};
ghost use Rattle.std.specs.IoError.{error_kind};
ghost use Rattle.thes_base.specs.Pipe.{device_of, failed_of, ended_of, denied_of, calls_of, IsFresh, KeepsCallLimit, calls_limit, written_bytes, AppendsPrefix, IsPartialWrite, reading_fault, writing_fault};
ghost use Rattle.thes_base.specs.PipeFrames.{DeviceCallFrame, ReadFrame, WriteFrame, ReadsOnce, ReadsBytes, WritesOnce};

use crate::fault::PipeFault;
use std::io;
use std::io::{ErrorKind, Read, Write};
use std::marker::Model;

/// The number of reads and writes that one call, for example the run of a script, may still make on
/// all its pipes.
#[derive(Drop)]
pub struct Budget {
    left: u32,
}

impl Model for Budget {
    ghost use Rattle.std.specs.Prelude.{ℕ};

    ghost Value = { ℕ };

    ghost view = { λ b. b.left };
}

impl Budget {
    /// Creates the budget of one call: 100,000,000 reads and writes.
    pub fn new() -> Budget
        ensures { result ≡ calls_limit }
    {
        Budget { left: 100_000_000 }
    }
}

/// A reader or writer with a record of its use: whether it failed, whether its input ended, whether
/// a read or write was denied because no budget was left, and the number of its reads and writes.
#[derive(Drop)]
pub struct Pipe<T> {
    device: T,
    failed: bool,
    ended: bool,
    denied: bool,
    // The number of reads and writes, which saturates at `u64::MAX`.
    calls: u64,
}

/// The reason why a pipe's read or write stopped early.
#[derive(Clone, Copy, Debug, PartialEq, Eq)]
pub enum Stop {
    /// The device failed to read or to write.
    Failed,
    /// The budget of reads and writes was used up, or the input, or a line of it, is too long.
    TooLong,
}

impl Stop {
    /// Returns the fault to report if a reader stopped for this reason.
    pub fn reader_fault(self) -> PipeFault
        ensures { result ≡ reading_fault self }
    {
        match self {
            Stop::Failed => PipeFault::Read,
            Stop::TooLong => PipeFault::TooLong,
        }
    }

    /// Returns the fault to report if a writer stopped for this reason.
    pub fn writer_fault(self) -> PipeFault
        ensures { result ≡ writing_fault self }
    {
        match self {
            Stop::Failed => PipeFault::Write,
            Stop::TooLong => PipeFault::TooLong,
        }
    }
}

// Checks whether the error is final (not `Interrupted`).
fn is_failure(error: &io::Error) -> bool
    ensures { IsTrue result ↔ (error_kind error.now ≢ ErrorKind.Interrupted) }
{
    error.kind() != ErrorKind::Interrupted
}

impl<T> Pipe<T> {
    /// Creates a pipe over a device, with nothing recorded of its use.
    pub fn new(device: T) -> Pipe<T>
        ensures device { device_of result ≡ device }
        ensures fresh { IsFresh result }
        ensures calls { calls_of result ≡ 0 }
    {
        Pipe {
            device,
            failed: false,
            ended: false,
            denied: false,
            calls: 0,
        }
    }

    /// Returns whether a read or a write has failed. `Interrupted` is no failure, but a write that
    /// takes no byte is one.
    pub fn failed(&self) -> bool
        ensures { result ≡ failed_of self.now }
    {
        self.failed
    }

    /// Returns whether a read reached the end of the input.
    pub fn ended(&self) -> bool
        ensures { result ≡ ended_of self.now }
    {
        self.ended
    }

    /// Returns whether a read or write was denied because no budget was left.
    pub fn denied(&self) -> bool
        ensures { result ≡ denied_of self.now }
    {
        self.denied
    }

    /// Returns the number of reads and writes made, which saturates at `u64::MAX`.
    pub fn calls(&self) -> u64
        ensures { result ≡ calls_of self.now }
    {
        self.calls
    }

    /// Returns the reader or writer, and drops the record of its use.
    pub fn into_device(self) -> T
        ensures { result ≡ device_of self }
    {
        let Pipe { device, .. } = self;
        device
    }
}

impl<R: Read> Pipe<R> {
    /// Calls the device's `read` once, without a retry after `Interrupted`; the budget falls by
    /// one.
    pub fn read_once(&mut self, budget: &mut Budget, buf: &mut [u8]) -> io::Result<usize>
        requires room { 0 < length buf.old }
        requires left { 0 < budget.old }
        ensures reads { ReadsOnce R.remaining self.old self.new buf.new result }
        ensures frame { DeviceCallFrame self.old self.new budget.old budget.new }
    {
        budget.left -= 1;
        self.calls = self.calls.saturating_add(1);
        let result = self.device.read(buf);
        match &result {
            Ok(0) => self.ended = true,
            Err(error) if is_failure(error) => self.failed = true,
            _ => {}
        }
        result
    }

    /// Reads at least one byte, or none at the end of the input; retries after `Interrupted`.
    pub fn read(&mut self, budget: &mut Budget, buf: &mut [u8]) -> Result<usize, Stop>
        requires room { 0 < length buf.old }
        requires fresh { IsFresh self.old }
        ensures reads { ReadsBytes R.remaining self.old self.new budget.old budget.new buf.new
            result }
        ensures frame { ReadFrame self.old self.new budget.old budget.new result }
    {
        while budget.left > 0 {
            match self.read_once(budget, buf) {
                Ok(n) => return Ok(n),
                Err(_) => {
                    if self.failed() {
                        return Err(Stop::Failed);
                    }
                }
            }
        }
        self.denied = true;
        Err(Stop::TooLong)
    }
}

impl<W: Write> Pipe<W> {
    /// Calls the device's `write` once, without a retry after `Interrupted`; the budget falls by
    /// one.
    pub fn write_once(&mut self, budget: &mut Budget, bytes: &[u8]) -> io::Result<usize>
        requires some { 0 < length bytes.now }
        requires left { 0 < budget.old }
        ensures writes { WritesOnce W.contents self.old self.new bytes.now result }
        ensures frame { DeviceCallFrame self.old self.new budget.old budget.new }
    {
        budget.left -= 1;
        self.calls = self.calls.saturating_add(1);
        let result = self.device.write(bytes);
        match &result {
            Ok(0) => self.failed = true,
            Err(error) if is_failure(error) => self.failed = true,
            _ => {}
        }
        result
    }

    /// Writes all bytes, or a prefix of them if the device fails or the budget is used up; retries
    /// after `Interrupted`.
    pub fn write_all(&mut self, budget: &mut Budget, bytes: &[u8]) -> Result<(), Stop>
        requires { failed_of self.old ≡ false }
        ensures ok { OnOk result (Appends (written_bytes W.contents self.old)
            (written_bytes W.contents self.new) bytes.now) }
        ensures err { OnErr result (AppendsPrefix (written_bytes W.contents self.old)
            (written_bytes W.contents self.new) bytes.now) }
        ensures frame { WriteFrame self.old self.new budget.old budget.new result }
    {
        let mut at = 0;
        while at < bytes.len() {
            if budget.left == 0 {
                self.denied = true;
                return Err(Stop::TooLong);
            }
            match self.write_once(budget, &bytes[at..]) {
                Ok(n) => {
                    if self.failed() {
                        return Err(Stop::Failed);
                    }
                    at += n;
                }
                Err(_) => {
                    if self.failed() {
                        return Err(Stop::Failed);
                    }
                }
            }
        }
        Ok(())
    }

    /// Writes a text with a new budget; after a fault, a prefix of the text may have been written.
    pub fn write_text(&mut self, text: &[u8]) -> Result<(), PipeFault>
        requires { IsFresh self.old }
        ensures ok { OnOk result (Appends (written_bytes W.contents self.old)
            (written_bytes W.contents self.new) text.now) }
        ensures err { IfErr result (IsPartialWrite W.contents text.now self.old self.new) }
        ensures calls { KeepsCallLimit self.old self.new }
    {
        match self.write_all(&mut Budget::new(), text) {
            Ok(()) => Ok(()),
            Err(stop) => Err(stop.writer_fault()),
        }
    }
}
