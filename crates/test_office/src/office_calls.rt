//! Calls of an office over the caller's readers and writers: scripts, imports, exports, displays
//! and connections.
ghost use Rattle.std.specs.Prelude.{◌≡◌, true};
ghost use Rattle.thes_base.specs.Pipe.{IsFresh};

use std::alloc::Global;
use std::io::{Read, Write};
use thes_base::fault::PipeFault;
use thes_base::pipe::Pipe;
use thes_display::writing::{DisplayOutcome, write_display};
use thes_export::writing::export;
use thes_http::connection::{ConnectionEnd, serve_one};
use thes_http::service::Service;
use thes_http_request::endpoint::Routes;
use thes_import::import;
use thes_import::import::ImportStop;
use thes_requests::handler::RequestHandler;
use thes_requests::request::DisplayRequest;
use thes_requests::script::{ScriptEnd, script};
use thes_service::OfficeHandler;
use thes_service::plan_mode::WithPlans;
use thes_store::keeper::Keeper;

// Serves a script by any handler. The contract of `office_script`, which is for the handler of an
// office, would make the proof of this call much longer.
fn serve_pipes<H: RequestHandler, R: Read, W: Write>(
    alloc: Global,
    handler: &mut H,
    reader: &mut Pipe<R>,
    writer: &mut Pipe<W>,
) -> Result<ScriptEnd, PipeFault>
    requires reader { IsFresh reader.old }
    requires writer { IsFresh writer.old }
    requires open { H.is_open handler.old ≡ true }
{
    script(alloc, reader, writer, handler)
}

/// Serves a script, and returns the writer and how the script ended.
pub fn serve_in<K: Keeper, R: Read + Drop, W: Write>(
    alloc: Global,
    handler: &mut OfficeHandler<K, WithPlans>,
    input: R,
    output: W,
) -> (W, Result<ScriptEnd, PipeFault>) {
    let mut reader = Pipe::new(input);
    let mut writer = Pipe::new(output);
    let ended = serve_pipes(alloc, handler, &mut reader, &mut writer);
    (writer.into_device(), ended)
}

fn import_pipes<K: Keeper, R: Read, W: Write>(
    alloc: Global,
    handler: &mut OfficeHandler<K, WithPlans>,
    reader: &mut Pipe<R>,
    writer: &mut Pipe<W>,
) -> Result<import::ImportEnd, ImportStop>
    requires reader { IsFresh reader.old }
    requires writer { IsFresh writer.old }
{
    import::import(alloc, reader, writer, &mut handler.office)
}

/// Imports a posting file, and returns the writer and how the import ended.
pub fn import_in<K: Keeper, R: Read + Drop, W: Write>(
    alloc: Global,
    handler: &mut OfficeHandler<K, WithPlans>,
    input: R,
    output: W,
) -> (W, Result<import::ImportEnd, ImportStop>) {
    let mut reader = Pipe::new(input);
    let mut writer = Pipe::new(output);
    let ended = import_pipes(alloc, handler, &mut reader, &mut writer);
    (writer.into_device(), ended)
}

fn export_pipe<K: Keeper, W: Write>(
    alloc: Global,
    handler: &mut OfficeHandler<K, WithPlans>,
    writer: &mut Pipe<W>,
) -> Result<(), PipeFault>
    requires { IsFresh writer.old }
{
    let core = handler.office.ready()?;
    export(alloc, core, writer)
}

/// Writes an export, and returns the writer and the fault that stopped the export, if any.
pub fn export_in<K: Keeper, W: Write>(
    alloc: Global,
    handler: &mut OfficeHandler<K, WithPlans>,
    output: W,
) -> (W, Result<(), PipeFault>) {
    let mut writer = Pipe::new(output);
    let ended = export_pipe(alloc, handler, &mut writer);
    (writer.into_device(), ended)
}

fn display_pipe<K: Keeper, W: Write>(
    alloc: Global,
    handler: &mut OfficeHandler<K, WithPlans>,
    wanted: &DisplayRequest<'_>,
    writer: &mut Pipe<W>,
) -> Result<DisplayOutcome, PipeFault>
    requires { IsFresh writer.old }
{
    let core = handler.office.ready()?;
    write_display(alloc, core, wanted, writer)
}

/// Writes a display, and returns the writer and the outcome.
pub fn display_in<K: Keeper, W: Write>(
    alloc: Global,
    handler: &mut OfficeHandler<K, WithPlans>,
    wanted: &DisplayRequest<'_>,
    output: W,
) -> (W, Result<DisplayOutcome, PipeFault>) {
    let mut writer = Pipe::new(output);
    let shown = display_pipe(alloc, handler, wanted, &mut writer);
    (writer.into_device(), shown)
}

// Serves a connection by any service. The contract of the service of an office would make the proof
// of this call much longer.
fn connect_pipes<S: Service, R: Read, W: Write>(
    alloc: Global,
    service: &mut S,
    reader: &mut Pipe<R>,
    writer: &mut Pipe<W>,
) -> ConnectionEnd
    requires reader { IsFresh reader.old }
    requires writer { IsFresh writer.old }
    requires open { S.is_open service.old ≡ true }
{
    let routes = Routes::new(alloc).ok();
    serve_one(alloc, routes.as_ref(), reader, writer, service)
}

/// Serves a connection, and returns the writer and the outcome of the connection.
pub fn connect_in<K: Keeper, R: Read + Drop, W: Write>(
    alloc: Global,
    handler: &mut OfficeHandler<K, WithPlans>,
    input: R,
    output: W,
) -> (W, ConnectionEnd) {
    let mut reader = Pipe::new(input);
    let mut writer = Pipe::new(output);
    let served = connect_pipes(alloc, handler, &mut reader, &mut writer);
    (writer.into_device(), served)
}
