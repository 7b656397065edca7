//! The report of the examples: lines of JSON, as the library writes them.
ghost use Rattle.std.specs.Prelude.{◌≡◌, false};

use crate::failure::{Failure, on_success};
use std::alloc::{AllocError, Global};
use std::str;
use thesaurus::{
    Answer, Core, Pipe, PipeFault, Reply, ResNo, View, concept_view, write_answer, write_view,
};

/// Appends bytes as a text, or the line `not UTF-8` if they aren't one.
pub fn push(report: &mut String, bytes: &[u8]) -> Result<(), AllocError> {
    report.push_str(str::from_utf8(bytes).unwrap_or("not UTF-8\n"))
}

// Returns an answer as a line of JSON.
fn answer_line(alloc: Global, answer: Answer) -> Result<Vec<u8>, PipeFault> {
    let mut writer = Pipe::new(Vec::new(alloc));
    let result = write_answer(Reply::Answer(answer), &mut writer);
    on_success(writer.into_device(), result)
}

/// Appends an answer as a line of JSON.
pub fn push_answer(alloc: Global, answer: Answer, report: &mut String) -> Result<(), Failure> {
    let line = answer_line(alloc, answer)?;
    Ok(push(report, &line)?)
}

/// Returns a view as a line of JSON.
pub fn view_line(alloc: Global, view: &View) -> Result<Vec<u8>, PipeFault> {
    let mut writer = Pipe::new(Vec::new(alloc));
    let result = write_view(alloc, view, &mut writer);
    on_success(writer.into_device(), result)
}

// Returns the view of a concept in a core as a line of JSON.
fn concept_line(alloc: Global, core: &Core, concept: ResNo) -> Result<Vec<u8>, PipeFault>
    requires { core.now.spent ≡ false }
{
    let view = concept_view(core, alloc, concept)?;
    let line = view_line(alloc, &view);
    drop(view);
    line
}

/// Appends the view of a concept in a core as a line of JSON.
pub fn push_concept(
    alloc: Global,
    core: &Core,
    concept: ResNo,
    report: &mut String,
) -> Result<(), Failure>
    requires { core.now.spent ≡ false }
{
    let line = concept_line(alloc, core, concept)?;
    Ok(push(report, &line)?)
}

/// Appends a core's totals as a line of JSON.
pub fn push_totals(alloc: Global, core: &Core, report: &mut String) -> Result<(), Failure>
    requires { core.now.spent ≡ false }
{
    let totals = View::Totals(core.totals());
    let line = view_line(alloc, &totals);
    drop(totals);
    Ok(push(report, &line?)?)
}
