//! Texts that are read and written: requests in JSON, posting files, exports, displays and
//! connections.
ghost use Rattle.std.specs.Prelude.{◌≡◌, false, true};
ghost use Rattle.thesaurus.specs.Pipe.{IsFresh};

use crate::commands::english;
use crate::failure::{Failure, on_success};
use crate::report::push;
use std::alloc::Global;
use std::fmt::Write as _;
use std::io::{Read, Write};
use thesaurus::{
    Answer, Budget, Core, Counts, Fault, FormFault, ImportStop, Imported, JsonScratch, Keeper,
    NoPlans, Office, OfficeHandler, Pipe, PipeFault, ReadStop, Reply, Request, RequestHandler,
    ResNo, Routes, Served, Shown, Status, Stop, Tag, alphabetical, export, hierarchical, import,
    read_request, serve_one, write_answer,
};

// Answers the command in a line of JSON; a query is answered with `BadShape`.
fn reply_to<H: RequestHandler>(memory: &mut JsonScratch, handler: &mut H, line: &str) -> Reply
    requires { H.is_open handler.old ≡ true }
{
    let command = match read_request(memory, line.as_bytes()) {
        Ok(Request::Do(command)) => command,
        Ok(Request::Get(_)) => return Reply::Bad(FormFault::BadShape),
        Err(ReadStop::Form(fault)) => return Reply::Bad(fault),
        Err(ReadStop::OutOfMemory) => return Reply::Fault(Fault::OutOfMemory),
    };
    let answer: Result<Answer, Fault> = handler.perform(&command);
    drop(command);
    match answer {
        Ok(answer) => Reply::Answer(answer),
        Err(fault) => Reply::Fault(fault),
    }
}

// Imports a posting file, and returns the number of rows that added a posting.
fn import_file<K: Keeper, R: Read, W: Write>(
    alloc: Global,
    reader: &mut Pipe<R>,
    writer: &mut Pipe<W>,
    office: &mut Office<K>,
) -> Result<usize, PipeFault>
    requires reader { IsFresh reader.old }
    requires writer { IsFresh writer.old }
{
    match import(alloc, reader, writer, office) {
        Ok(Imported::Rows(counts)) => {
            let counts: Counts = counts;
            Ok(counts.posted)
        }
        Ok(Imported::Malformed) => Ok(0),
        Err(ImportStop { fault, .. }) => Err(fault),
    }
}

// Writes the hierarchical or alphabetical display of scheme 1, and returns whether it was written:
// it is refused if number 1 isn't a scheme.
fn write_display<W: Write>(
    alloc: Global,
    core: &Core,
    tag: &Tag,
    is_tree: bool,
    writer: &mut Pipe<W>,
) -> Result<bool, PipeFault>
    requires unspent { core.now.spent ≡ false }
    requires writer { IsFresh writer.old }
{
    let scheme = ResNo::new(1);
    let shown = if is_tree {
        hierarchical(alloc, core, scheme, tag, writer)?
    } else {
        alphabetical(alloc, core, scheme, tag, writer)?
    };
    Ok(shown == Shown::Written)
}

// Writes all triples of an office.
fn write_export<K: Keeper, W: Write>(
    alloc: Global,
    office: &mut Office<K>,
    writer: &mut Pipe<W>,
) -> Result<(), PipeFault>
    requires { IsFresh writer.old }
{
    let core = office.ready()?;
    export(alloc, core, writer)
}

// Serves the request of a connection, and returns the status of the response, if one was written.
fn serve_connection<K: Keeper, R: Read, W: Write>(
    alloc: Global,
    handler: &mut OfficeHandler<K, NoPlans>,
    reader: &mut Pipe<R>,
    writer: &mut Pipe<W>,
) -> Option<Status>
    requires reader { IsFresh reader.old }
    requires writer { IsFresh writer.old }
{
    let routes = Routes::new(alloc).ok();
    match serve_one(alloc, routes.as_ref(), reader, writer, handler) {
        Served::Answered(status) => Some(status),
        Served::Cut | Served::ReadFault | Served::WriteFault => None,
    }
}

// Writes a text with at most the calls that are left in a budget, which several texts may share.
fn write_within<W: Write>(
    budget: &mut Budget,
    text: &str,
    writer: &mut Pipe<W>,
) -> Result<(), PipeFault>
    requires { IsFresh writer.old }
{
    match writer.write_all(budget, text.as_bytes()) {
        Ok(()) => Ok(()),
        Err(Stop::TooLong) => Err(PipeFault::TooLong),
        Err(Stop::Failed) => Err(PipeFault::Write),
    }
}

// A posting file of one row.
const POSTINGS: &str = "key,record,concept\nk3,r3,2\n";

// A request of HTTP for the totals.
const REQUEST: &str = "GET /totals HTTP/1.0\r\n\r\n";

// Appends the answer to a line of JSON.
fn write_reply<K: Keeper>(
    alloc: Global,
    handler: &mut OfficeHandler<K, NoPlans>,
    report: &mut String,
) -> Result<(), Failure> {
    let mut memory = JsonScratch::new(alloc);
    let line = r#"{"do":"post","key":"k2","record":"r2","concept":2}"#;
    let reply = reply_to(&mut memory, handler, line);
    drop(memory);
    let mut writer = Pipe::new(Vec::new(alloc));
    let result = write_answer(reply, &mut writer);
    let line = on_success(writer.into_device(), result)?;
    Ok(push(report, &line)?)
}

// Imports the posting file, and returns the outcomes of its rows.
fn outcomes<K: Keeper>(alloc: Global, office: &mut Office<K>) -> Result<Vec<u8>, PipeFault> {
    let mut reader = Pipe::new(POSTINGS.as_bytes());
    let mut writer = Pipe::new(Vec::new(alloc));
    let result = import_file(alloc, &mut reader, &mut writer, office);
    on_success(writer.into_device(), result)
}

// Returns the export of an office.
fn triples<K: Keeper>(alloc: Global, office: &mut Office<K>) -> Result<Vec<u8>, PipeFault> {
    let mut writer = Pipe::new(Vec::new(alloc));
    let result = write_export(alloc, office, &mut writer);
    on_success(writer.into_device(), result)
}

// Returns the hierarchical or alphabetical display of scheme 1 of a core.
fn display(alloc: Global, core: &Core, tag: &Tag, is_tree: bool) -> Result<Vec<u8>, PipeFault>
    requires { core.now.spent ≡ false }
{
    let mut writer = Pipe::new(Vec::new(alloc));
    let result = write_display(alloc, core, tag, is_tree, &mut writer);
    on_success(writer.into_device(), result)
}

// Appends both displays of a core.
fn write_displays(alloc: Global, core: &Core, report: &mut String) -> Result<(), Failure>
    requires { core.now.spent ≡ false }
{
    let tag = english(alloc)?;
    let list = display(alloc, core, &tag, false);
    let tree = display(alloc, core, &tag, true);
    drop(tag);
    push(report, &list?)?;
    Ok(push(report, &tree?)?)
}

// Returns the response to the request, and its status.
fn response<K: Keeper>(
    alloc: Global,
    handler: &mut OfficeHandler<K, NoPlans>,
) -> (Vec<u8>, Option<Status>) {
    let mut reader = Pipe::new(REQUEST.as_bytes());
    let mut writer = Pipe::new(Vec::new(alloc));
    let status = serve_connection(alloc, handler, &mut reader, &mut writer);
    (writer.into_device(), status)
}

// Returns what `write_within` wrote of a short text.
fn written_text(alloc: Global) -> Result<Vec<u8>, PipeFault> {
    let mut budget = Budget::new();
    let mut writer = Pipe::new(Vec::new(alloc));
    let result = write_within(&mut budget, "The end.\n", &mut writer);
    on_success(writer.into_device(), result)
}

// Imports the posting file, and appends its outcomes, and the export and displays of the office.
fn write_texts<K: Keeper>(
    alloc: Global,
    office: &mut Office<K>,
    report: &mut String,
) -> Result<(), Failure> {
    push(report, &outcomes(alloc, office)?)?;
    push(report, &triples(alloc, office)?)?;
    let core = office.ready()?;
    write_displays(alloc, core, report)
}

/// Appends all texts that the examples write: of an answer, an import, an export, displays and a
/// connection, and one within a budget.
pub fn run<K: Keeper>(
    alloc: Global,
    handler: &mut OfficeHandler<K, NoPlans>,
    report: &mut String,
) -> Result<(), Failure> {
    write_reply(alloc, handler, report)?;
    write_texts(alloc, &mut handler.office, report)?;
    let (page, status) = response(alloc, handler);
    push(report, &page)?;
    drop(page);
    writeln!(report, "{status:?}")?;
    Ok(push(report, &written_text(alloc)?)?)
}
