//! A script over storage of which one commit fails.
ghost use Rattle.std.specs.Prelude.{◌≡◌};
ghost use Rattle.thesaurus.specs.Pipe.{IsFresh};

use crate::failure::{Failure, on_success};
use crate::office_example::{keeper_after, open};
use crate::report::push;
use std::alloc::Global;
use std::io::{Read, Write};
use test_keeper::fail_once::{FailOnce, Next};
use thesaurus::{
    Ended, Fault, Keeper, OfficeHandler, Page, Pipe, PipeFault, Query, QueryAnswer, RequestHandler,
    WithPlans, script,
};

// The lines of a script: the same post, sent twice.
const LINES: &str = r#"{"do":"post","key":"k1","record":"r1","concept":2}
{"do":"post","key":"k1","record":"r1","concept":2}
"#;

fn serve<K: Keeper, R: Read, W: Write>(
    alloc: Global,
    reader: &mut Pipe<R>,
    writer: &mut Pipe<W>,
    handler: &mut OfficeHandler<K, WithPlans>,
) -> Result<Ended, PipeFault>
    requires reader { IsFresh reader.old }
    requires writer { IsFresh writer.old }
{
    script(alloc, reader, writer, handler)
}

// Runs the lines, and returns the answers.
fn answers<K: Keeper>(
    alloc: Global,
    handler: &mut OfficeHandler<K, WithPlans>,
) -> Result<Vec<u8>, PipeFault> {
    let mut reader = Pipe::new(LINES.as_bytes());
    let mut writer = Pipe::new(Vec::new(alloc));
    let ended = serve(alloc, &mut reader, &mut writer, handler);
    on_success(writer.into_device(), ended)
}

// Answers a query with the line of its view, or with a refusal.
fn view<K: Keeper>(
    alloc: Global,
    handler: &mut OfficeHandler<K, WithPlans>,
    query: &Query,
) -> Result<QueryAnswer, Fault> {
    handler.show(alloc, query)
}

// Returns the bytes of a view's line, with the line feed.
fn bytes_of(page: &Page) -> &[u8] {
    page.as_bytes()
}

// Appends the answers to the lines, and the view of the totals.
fn write_answers<K: Keeper>(
    alloc: Global,
    handler: &mut OfficeHandler<K, WithPlans>,
    report: &mut String,
) -> Result<(), Failure> {
    push(report, &answers(alloc, handler)?)?;
    match view(alloc, handler, &Query::Totals)? {
        QueryAnswer::Page(page) => Ok(push(report, bytes_of(&page))?),
        QueryAnswer::No(_) => Ok(push(report, b"refused\n")?),
    }
}

// Runs the lines in an office over a storage, and appends the answers and the view of the totals.
fn run_over<K: Keeper + Drop>(
    alloc: Global,
    keeper: K,
    report: &mut String,
) -> Result<(), Failure> {
    let mut handler = OfficeHandler::new(open(alloc, keeper)?, WithPlans);
    write_answers(alloc, &mut handler, report)
}

/// Runs a script over storage whose next commit fails once, and appends the answers.
pub fn run(alloc: Global, report: &mut String) -> Result<(), Failure> {
    let keeper = FailOnce {
        keeper: keeper_after(alloc, 3, report)?,
        next: Next::Commit,
        failures: 0,
    };
    run_over(alloc, keeper, report)
}
