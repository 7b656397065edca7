//! Streams of connections that fail once their client has taken too long.
ghost use Rattle.std.specs.Prelude.{◌≡◌, ◌↔◌, ◌<◌, ◌+◌, ◌*◌, ◌/◌, min, None, Some, IsSome, IfSome};
ghost use Rattle.std.specs.Duration.{as_nanos};
ghost use Rattle.std.specs.IoError.{error_kind};
ghost use Rattle.thes_http.specs.Deadlines.{error_after_wait};

use std::io;
use std::io::{ErrorKind, Read, Write};
use std::net::OpenStream;
use std::rt::Clock;
use std::time::{Duration, Instant};

// The time in which a client has to send or read its first 100,000 bytes, in seconds.
const SECONDS: u64 = 30;

// The number of bytes for which the client gets one more second.
const BYTES_A_SECOND: u64 = 100_000;

// Returns the time within which a client that has sent or read this number of bytes has to send or
// read the next one: 30 seconds, and one more for each 100,000 bytes.
fn time_allowed(bytes: u64) -> Duration
    ensures { as_nanos result ≡ (30 + bytes / 100_000) * 1_000_000_000 }
{
    Duration::from_secs(SECONDS + bytes / BYTES_A_SECOND)
}

// Returns the time left, or `None` if all of it has passed.
fn time_left(allowed: Duration, passed: Duration) -> Option<Duration>
    ensures some { IsSome result ↔ (as_nanos passed < as_nanos allowed) }
    ensures left { IfSome result (λ left. as_nanos left + as_nanos passed ≡ as_nanos allowed) }
{
    match allowed.checked_sub(passed) {
        Some(left) if left > Duration::ZERO => Some(left),
        _ => None,
    }
}

// Returns the time to wait for one read or write: all that is left, but at most a second, since the
// system may end a wait late, by up to an eighth of its length.
fn wait_within(left: Duration) -> Duration
    ensures { as_nanos result ≡ min (as_nanos left) 1_000_000_000 }
{
    left.min(Duration::from_secs(1))
}

// Turns the time-out of a single wait into `Interrupted`, so that the caller tries again; the clock
// decides whether the client's time is over.
fn after_wait(error: io::Error) -> io::Error
    ensures { error_kind result ≡ error_after_wait (error_kind error) }
{
    match error.kind() {
        ErrorKind::WouldBlock | ErrorKind::TimedOut => io::Error::from(ErrorKind::Interrupted),
        _ => error,
    }
}

/// A stream that fails once its client has taken too long, by the clock. Contracts state only which
/// bytes are read and written, not when.
#[derive(Drop)]
pub(crate) struct TimedStream<'a, C, T> {
    stream: T,
    clock: &'a C,
    // The time of the first read or write, if there was one.
    start: Option<Instant>,
    // The number of bytes read or written; it saturates.
    bytes: u64,
}

impl<'a, C: Clock, T> TimedStream<'a, C, T> {
    /// Wraps a stream, whose time begins with the first read or write.
    pub(crate) fn new(stream: T, clock: &'a C) -> TimedStream<'a, C, T>
        ensures stream { result.stream ≡ stream }
        ensures start { (result.start ≡ None) × (result.bytes ≡ 0) }
    {
        TimedStream {
            stream,
            clock,
            start: None,
            bytes: 0,
        }
    }

    /// Returns the stream without a deadline.
    pub(crate) fn into_stream(self) -> T
        ensures { result ≡ self.entry.stream }
    {
        let TimedStream { stream, .. } = self;
        stream
    }

    // Adds to the number of bytes that were read or written.
    fn note_bytes(&mut self, count: usize)
        ensures count { self.new.bytes ≡ min (self.old.bytes + count) 18_446_744_073_709_551_615 }
        ensures frame { (self.new.stream ≡ self.old.stream) × (self.new.start ≡ self.old.start) }
    {
        self.bytes = self.bytes.saturating_add(count as u64);
    }

    // Returns the time to wait for the next read or write; `TimedOut` if the client's time is over.
    fn next_wait(&mut self) -> io::Result<Duration>
        ensures stream { self.new.stream ≡ self.old.stream }
        ensures bytes { self.new.bytes ≡ self.old.bytes }
        ensures start { IfSome self.old.start (λ start. self.new.start ≡ Some start) }
    {
        let now = Instant::now(self.clock)?;
        let start = self.start.unwrap_or(now);
        self.start = Some(start);
        match time_left(time_allowed(self.bytes), now.duration_since(start)) {
            Some(left) => Ok(wait_within(left)),
            // The time-out is an ordinary error of the read or write, since no contract of a
            // connection mentions a clock (DECISIONS.md, HTTP).
            None => Err(io::Error::from(ErrorKind::TimedOut)),
        }
    }
}

/// Reads within the client's time. Fails with `TimedOut` once that is over, and with `Interrupted`
/// when a single wait ends, so that the caller tries again.
impl<C: Clock, T: Read + OpenStream> Read for TimedStream<'_, C, T> {
    ghost remaining = { λ s. T.remaining s.stream };

    fn read(&mut self, buf: &mut [u8]) -> io::Result<usize> {
        let wait = self.next_wait()?;
        self.stream.set_read_timeout(Some(wait))?;
        match self.stream.read(buf) {
            Ok(count) => {
                self.note_bytes(count);
                Ok(count)
            }
            Err(error) => Err(after_wait(error)),
        }
    }
}

/// Writes within the client's time. Fails with `TimedOut` once that is over, and with `Interrupted`
/// when a single wait ends, so that the caller tries again.
impl<C: Clock, T: Write + OpenStream> Write for TimedStream<'_, C, T> {
    ghost contents = { λ s. T.contents s.stream };

    fn write(&mut self, buf: &[u8]) -> io::Result<usize> {
        let wait = self.next_wait()?;
        self.stream.set_write_timeout(Some(wait))?;
        match self.stream.write(buf) {
            Ok(count) => {
                self.note_bytes(count);
                Ok(count)
            }
            Err(error) => Err(after_wait(error)),
        }
    }

    fn flush(&mut self) -> io::Result<()> {
        self.stream.flush()
    }
}
