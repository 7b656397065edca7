//! A listener's connections, one after another, and the number of those that are finished.
ghost use Rattle.std.specs.Prelude.{◌≡◌, ◌≢◌, ◌+◌, ◌<◌, ◌≤◌, ◌⊎◌, IfErr, IfOk, MatchOption};
ghost use Rattle.thes_http.specs.ConnectionCounts.{counts_after_accept};
ghost use Rattle.thes_http.specs.Server.{IsAcceptOutcome, cloned_ends, counts_after_close};

use crate::timed_connection::{ServedStream, close_stream};
use std::io;
use std::io::{ErrorKind, Read};
use std::marker::Model;
use std::net::{Net, OpenListener, OpenStream, SocketAddr};
use std::rt::Clock;

/// The number of connections that are finished, and of the exchanges in them; a connection that its
/// client closed before it was accepted, or whose stream can't be cloned, counts as finished.
/// Contracts see the two numbers alone, which can't be copied or set: only an accept that yields no
/// stream, and closing a stream that was served, raise them. So a server that drops its streams
/// doesn't reach the number asked for, and one that performs what came by no stream has performed
/// more than it can count.
#[derive(Drop)]
pub struct ConnectionCount {
    finished: u32,
    exchanges: u32,
}

impl Model for ConnectionCount {
    ghost use Rattle.thes_http.specs.ConnectionCounts.{ConnectionCounts};

    ghost Value = { ConnectionCounts };

    ghost view = { λ connections. record {
      finished = connections.finished;
      exchanges = connections.exchanges;
    } };
}

/// The two ends of a connection that was accepted: one to read from, and one to write to. Only an
/// accept makes them.
#[derive(Drop)]
pub(crate) struct Ends<T> {
    input: T,
    output: T,
}

impl<T> Ends<T> {
    /// Returns the end to read from, and the one to write to.
    pub(crate) fn into_parts(self) -> (T, T)
        ensures { result ≡ (self.input, self.output) }
    {
        let Ends { input, output } = self;
        (input, output)
    }
}

// Returns the stream of an accepted connection, or `None` if the client closed the connection
// before it was accepted; returns any other error.
fn accepted_stream<T: Drop>(accept: io::Result<(T, SocketAddr)>) -> io::Result<Option<T>>
    ensures { IsAcceptOutcome accept result }
{
    match accept {
        Ok((stream, _)) => Ok(Some(stream)),
        Err(error) if error.kind() == ErrorKind::ConnectionAborted => Ok(None),
        Err(error) => Err(error),
    }
}

// Returns the two ends of a connection, given its stream and the clone of its stream, or `None` if
// the stream couldn't be cloned.
fn ends_of<T: Drop>(stream: T, clone: io::Result<T>) -> Option<Ends<T>>
    ensures { result ≡ cloned_ends stream clone }
{
    match clone {
        Ok(input) => Some(Ends {
            input,
            output: stream,
        }),
        Err(_) => None,
    }
}

impl ConnectionCount {
    /// Returns the numbers before the first connection.
    pub fn new() -> ConnectionCount
        ensures finished { result.finished ≡ 0 }
        ensures exchanges { result.exchanges ≡ 0 }
    {
        ConnectionCount {
            finished: 0,
            exchanges: 0,
        }
    }

    /// Accepts the next connection. Returns `None`, and counts the connection, if its client closed
    /// it before it was accepted, or if its stream can't be cloned.
    pub(crate) fn accept<N: Net>(
        &mut self,
        listener: &N::Listener,
    ) -> io::Result<Option<Ends<N::Stream>>>
        requires { self.old.finished + 1 < 4294967296 }
        ensures ok { IfOk result (λ ends. MatchOption ends (self.new ≡ counts_after_accept self.old)
            (λ _. self.new ≡ self.old)) }
        ensures err { IfErr result (λ _. self.new ≡ self.old) }
    {
        let ends = match accepted_stream(listener.accept())? {
            Some(stream) => {
                let clone = stream.try_clone();
                ends_of(stream, clone)
            }
            None => None,
        };
        if ends.is_none() {
            self.finished += 1;
        }
        Ok(ends)
    }

    /// Counts a connection that was served, and its exchange, if there was one, and closes it.
    pub(crate) fn close<C: Clock, T: Read + OpenStream + Drop>(
        &mut self,
        clock: &C,
        served: ServedStream<'_, C, T>,
    )
        requires finished { self.old.finished + 1 < 4294967296 }
        requires exchanges { self.old.exchanges ≤ self.old.finished }
        ensures { self.new ≡ counts_after_close self.old served.entry.end }
    {
        self.finished += 1;
        self.exchanges += served.exchange_count();
        close_stream(clock, served);
    }
}
