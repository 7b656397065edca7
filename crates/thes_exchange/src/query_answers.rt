//! Builds the answers to queries from views, and writes views to a pipe.
ghost use Rattle.std.specs.Prelude.{◌≡◌, IfErr, IfOk, Ok, OnOk};
ghost use Rattle.std.specs.Io.KnownBytes.{Appends};
ghost use Rattle.thes_base.specs.Pipe.{written_bytes, IsFresh, KeepsCallLimit};
ghost use Rattle.thes_base.specs.State.{State};
ghost use Rattle.thes_exchange.specs.QueryAnswers.{IsQueryAnswer, IsViewStopped};
ghost use Rattle.thes_exchange.specs.ViewOf.{IsView};
ghost use Rattle.thes_exchange.specs.ViewTexts.{view_text};

use crate::view::{View, view_line};
use std::alloc::{AllocError, Global};
use std::io::Write;
use thes_base::fault::PipeFault;
use thes_base::pipe::Pipe;
use thes_requests::handler::QueryAnswer;
use thes_requests::page::Page;
use thes_requests::request::Query;

/// Returns the answer to a query: the line of the view, or the refusal of the number.
pub fn query_answer(alloc: Global, view: &View) -> Result<QueryAnswer, AllocError>
    ensures { (s : State) (query : Query) → IsView s query view.now
        → IfOk result (λ viewed. IsQueryAnswer s query (Ok viewed)) }
{
    match view {
        View::No(refusal) => Ok(QueryAnswer::No(*refusal)),
        _ => Ok(QueryAnswer::Page(Page::new(view_line(alloc, view)?))),
    }
}

/// Writes the line of JSON for a view, or for the refusal of a number, to a pipe. All memory is
/// allocated before the first byte is written.
pub fn write_view<W: Write>(
    alloc: Global,
    view: &View,
    writer: &mut Pipe<W>,
) -> Result<(), PipeFault>
    requires { IsFresh writer.old }
    ensures ok { OnOk result (Appends (written_bytes W.contents writer.old)
        (written_bytes W.contents writer.new) (view_text view.now)) }
    ensures stopped { IfErr result
        (IsViewStopped W.contents (view_text view.now) writer.old writer.new) }
    ensures calls { KeepsCallLimit writer.old writer.new }
{
    let line = view_line(alloc, view)?;
    writer.write_text(line.as_slice())?;
    Ok(())
}
