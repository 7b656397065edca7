//! The command `serve`: serves HTTP connections over a store.
ghost use Rattle.std.specs.Prelude.{◌≡◌, IfErr, IfOk};
ghost use Rattle.thes_base.specs.Pipe.{IsFresh};
ghost use Rattle.thes_cli.specs.Serving as serving;
ghost use Rattle.thes_cli.specs.Serving.{EndsUnserved, EndsWell, ServesStore};
ghost use Rattle.thes_cli.specs.Streams.{AreFresh};

use crate::streams::{Devices, Given};
use std::io;
use std::io::{ErrorKind, Write};
use std::net::Net;
use thes_base::fault::{Fault, PipeFault};
use thes_base::pipe::Pipe;
use thes_command_line::printing::{print, report_fault, report_net_fault};
use thes_http::server::ServerEnd;
use thes_jobs::work::Listening;
use thes_office::Office;
use thes_requests::short_line::ShortLine;
use thes_service::plan_mode::PlanMode;
use thes_service::{OfficeHandler, office_serve};
use thes_store::keeper::Keeper;

// Returns the line that names the address, such as `listening on 127.0.0.1:8080`.
fn listening_line(port: u16) -> ShortLine
    ensures { result ≡ serving.listening_line port }
{
    let mut line = ShortLine::from_text("listening on 127.0.0.1:");
    line.push_number(u32::from(port));
    line.push("\n");
    line
}

// Prints the fault of a server's error, OutOfMemory or Net, and returns the exit status 3.
fn report_unserved<E: Write>(errors: &mut Pipe<E>, error: &io::Error) -> u8
    requires { IsFresh errors.old }
    ensures { EndsUnserved E.contents error.now errors.old errors.new result }
{
    if error.kind() == ErrorKind::OutOfMemory {
        report_fault(errors, PipeFault::Fault(Fault::OutOfMemory))
    } else {
        report_net_fault(errors)
    }
}

// Returns the exit status of a server: 0; or, if a connection couldn't be accepted or memory ran
// out, prints the fault and returns 3.
fn report_served<E: Write>(errors: &mut Pipe<E>, ended: io::Result<()>) -> u8
    requires { IsFresh errors.old }
    ensures ok { IfOk ended (λ _. EndsWell errors.old errors.new result) }
    ensures err { IfErr ended
        (λ error. EndsUnserved E.contents error errors.old errors.new result) }
{
    match ended {
        Ok(()) => 0,
        Err(error) => report_unserved(errors, &error),
    }
}

/// Prints the address, serves the connections in this mode, and returns the exit status with the
/// office. If the address can't be printed, no connection is served.
pub fn serve_store<T: Devices, K: Keeper, M: PlanMode + Copy>(
    given: &mut Given<'_, T>,
    listening: &Listening<<T::System as Net>::Listener>,
    office: Office<K>,
    mode: M,
) -> (u8, Office<K>)
    requires { AreFresh given.old.streams }
    ensures input { given.new.streams.input ≡ given.old.streams.input }
    ensures serves { let asked = listening.now in
        ServesStore K.view T.Errors.contents T.Output.contents M.takes asked.port asked.count
        office given.old.streams.output given.new.streams.output given.old.streams.errors
        given.new.streams.errors given.new.streams.connections result.0 result.1 }
{
    let streams = &mut given.streams;
    let line = listening_line(listening.port);
    if print(&mut streams.output, line.as_bytes()) {
        let mut handler = OfficeHandler::new(office, mode);
        let (listener, count) = (&listening.listener, listening.count);
        let (alloc, system) = (given.alloc, given.system);
        let ServerEnd { connections, ended } = office_serve(
            alloc,
            system,
            listener,
            count,
            &mut handler,
        );
        streams.connections = connections;
        let status = report_served(&mut streams.errors, ended);
        (status, handler.into_office())
    } else {
        (report_fault(&mut streams.errors, PipeFault::Write), office)
    }
}
