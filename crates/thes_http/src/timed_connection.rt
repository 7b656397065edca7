//! Serves one connection over the two ends of its stream, with limits of time, and discards what
//! the client still sends after the response.
ghost use Rattle.std.specs.Prelude.{◌≡◌, ◌↔◌, ◌≤◌, true, IsTrue};
ghost use Rattle.std.specs.Duration.{as_nanos};
ghost use Rattle.thes_http.specs.Connection.{exchange_count};
ghost use Rattle.thes_http.specs.Server.{IsServedBy, LeadsBy, is_wait};

use crate::connection::{ConnectionEnd, serve_one};
use crate::connection_count::Ends;
use crate::service::Service;
use crate::timed_stream::TimedStream;
use std::alloc::Global;
use std::io::{ErrorKind, Read, Write};
use std::net::{OpenStream, Shutdown};
use std::rt::Clock;
use std::time::{Duration, Instant};
use thes_base::pipe::Pipe;
use thes_http_request::endpoint::Routes;

// The greatest number of reads, of 16 KiB each, that discard input after the response.
const DRAIN_READS: u32 = 32_768;

// The greatest number of these reads that may time out, after 4 ms each, or be interrupted.
const DRAIN_WAITS: u32 = 256;

// The greatest time for all of these reads, in seconds.
const DRAIN_SECONDS: u64 = 2;

/// A connection that was served: its outcome, and its reader and writer. Only `serve_ends` makes
/// one.
#[derive(Drop)]
pub(crate) struct ServedStream<'c, C, T> {
    end: ConnectionEnd,
    reader: Pipe<TimedStream<'c, C, T>>,
    writer: Pipe<TimedStream<'c, C, T>>,
}

impl<'c, C, T> ServedStream<'c, C, T> {
    /// Returns the number of exchanges in the connection: 1 or 0.
    pub(crate) fn exchange_count(&self) -> u32
        ensures { result ≡ exchange_count self.now.end }
    {
        self.end.exchange_count()
    }
}

/// Reads a request from one end of a connection, performs it, and writes the response to the other
/// end. Reads and writes fail once the client exceeds its time.
pub(crate) fn serve_ends<'c, C: Clock, T: Read + Write + OpenStream + Drop, S: Service>(
    alloc: Global,
    routes: &Routes,
    clock: &'c C,
    ends: Ends<T>,
    service: &mut S,
) -> ServedStream<'c, C, T>
    requires { S.is_open service.old ≡ true }
    ensures served { IsServedBy T.remaining T.contents S.behaviour ends service.old result
        service.new }
    ensures leads { LeadsBy S.behaviour (exchange_count result.end) service.old service.new }
{
    let (input, output) = ends.into_parts();
    let mut reader = Pipe::new(TimedStream::new(input, clock));
    let mut writer = Pipe::new(TimedStream::new(output, clock));
    let end = serve_one(alloc, Some(routes), &mut reader, &mut writer, service);
    ServedStream {
        end,
        reader,
        writer,
    }
}

// Returns whether the time for discarding input has passed, or the clock fails.
fn is_over<C: Clock>(clock: &C, start: Instant) -> bool {
    match start.elapsed(clock) {
        Ok(passed) => is_long(passed),
        Err(_) => true,
    }
}

// Returns whether input was discarded for two seconds or longer.
fn is_long(passed: Duration) -> bool
    ensures { IsTrue result ↔ 2_000_000_000 ≤ as_nanos passed }
{
    passed >= Duration::from_secs(DRAIN_SECONDS)
}

// Shuts down the sending side, and discards what the client still sends, for two seconds at most,
// so that the client gets the response before the connection closes.
fn drain_input<C: Clock, T: Read + OpenStream + Drop>(clock: &C, mut stream: T) {
    let wait = Some(Duration::from_millis(4));
    if stream.shutdown(Shutdown::Write).is_err() || stream.set_read_timeout(wait).is_err() {
        return;
    }
    let Ok(start) = Instant::now(clock) else {
        return;
    };
    let mut buffer = [0u8; 16_384];
    let mut waits = 0;
    for _ in 0..DRAIN_READS {
        if is_over(clock, start) {
            return;
        }
        match stream.read(&mut buffer) {
            Ok(0) => return,
            Ok(_) => {}
            Err(error) if waits < DRAIN_WAITS && has_waited(error.kind()) => waits += 1,
            Err(_) => return,
        }
    }
}

// Returns whether a read timed out or was interrupted, so that it may be repeated.
fn has_waited(kind: ErrorKind) -> bool
    ensures { result ≡ is_wait kind }
{
    matches!(
        kind,
        ErrorKind::WouldBlock | ErrorKind::TimedOut | ErrorKind::Interrupted
    )
}

/// Closes a connection. If the response was written, first discards what the client still sends.
pub(crate) fn close_stream<C: Clock, T: Read + OpenStream + Drop>(
    clock: &C,
    served: ServedStream<'_, C, T>,
) {
    // Otherwise a response that is written while the client still sends would be lost
    // (DECISIONS.md, HTTP).
    if served.end.is_answered() {
        drain_input(clock, served.reader.into_device().into_stream());
    }
}
