//! The loop of the server: takes connections from a listener, and serves them one after another.
ghost use Rattle.std.specs.Prelude.{◌≡◌, true, IfOk, IsErr, OnOk};
ghost use Rattle.thes_http.specs.ConnectionCounts.{AreAtMost};
ghost use Rattle.thes_http.specs.Server.{LeadsBy};

use crate::connection_count::ConnectionCount;
use crate::service::Service;
use crate::timed_connection::serve_ends;
use std::alloc::Global;
use std::io;
use std::io::ErrorKind;
use std::net::Net;
use std::rt::Clock;
use thes_http_request::endpoint::Routes;

/// How a server ended: the connections that it finished, and the error, if one ended it early.
#[derive(Drop)]
pub struct ServerEnd {
    /// The connections that it finished.
    pub connections: ConnectionCount,
    /// The error of accepting a connection, or `OutOfMemory`.
    pub ended: io::Result<()>,
}

// Returns the end of a server that lacks memory.
fn out_of_memory(connections: ConnectionCount) -> ServerEnd
    ensures counts { result.connections ≡ connections }
    ensures ended { IsErr result.ended }
{
    let ended = Err(io::Error::from(ErrorKind::OutOfMemory));
    ServerEnd { connections, ended }
}

/// Takes `count` connections from the listener and serves them, one after another, and returns
/// their number; a connection that its client closed before it was accepted, or whose stream can't
/// be cloned, counts as well. A client has 30 seconds to send its request and 30 to read the
/// response, by the clock, and one more second for each 100,000 bytes.
///
/// What was performed came by the streams that were accepted, one exchange by each at most. A
/// client that closes its connection early loses only its own response. Ends with the error of
/// accepting a connection, or with `OutOfMemory` if memory for the routes ran out before the first
/// connection, or if running out of memory has closed the service. After `Ok` the service is open.
#[tactic(auto, using(crate::proofs::ServerLemmas::leads_on))]
pub fn serve<N: Net + Clock, S: Service>(
    alloc: Global,
    clock: &N,
    listener: &N::Listener,
    count: u32,
    service: &mut S,
) -> ServerEnd
    requires { S.is_open service.old ≡ true }
    ensures all { IfOk result.ended (λ _. result.connections.finished ≡ count) }
    ensures few { AreAtMost count result.connections }
    ensures leads { LeadsBy S.behaviour result.connections.exchanges service.old service.new }
    ensures open { OnOk result.ended (S.is_open service.new ≡ true) }
{
    let mut connections = ConnectionCount::new();
    // The routes are made before any connection, so that a request is never answered with
    // OutOfMemory in place of NoSuchPath (DECISIONS.md, HTTP).
    let Ok(routes) = Routes::new(alloc) else {
        return out_of_memory(connections);
    };
    for _ in 0..count {
        match connections.accept::<N>(listener) {
            Ok(Some(ends)) => {
                let served = serve_ends(alloc, &routes, clock, ends, service);
                connections.close(clock, served);
                if !service.is_open() {
                    return out_of_memory(connections);
                }
            }
            Ok(None) => {}
            Err(error) => {
                let ended = Err(error);
                return ServerEnd { connections, ended };
            }
        }
    }
    let ended = Ok(());
    ServerEnd { connections, ended }
}
