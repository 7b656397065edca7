//! A core by itself, without storage: the caller passes the facts on postings.
ghost use Rattle.std.specs.Prelude.{◌≡◌, false};

use crate::commands::{COUNT, base, command_at, english, facts_at};
use crate::failure::{Failure, both};
use crate::report::{push, push_answer, push_concept, push_totals};
use std::alloc::Global;
use std::fmt::Write;
use thesaurus::{Answer, Command, Core, Facts, Fault, Limits, ResNo, Tag, sort_key};

// Performs a command in a core, unless the core is spent.
fn step(core: &mut Core, command: &Command, facts: &Facts) -> Result<Answer, Fault> {
    if core.is_spent() {
        return Err(Fault::OutOfMemory);
    }
    core.step(command, facts)
}

// Performs the command at a place, with the facts for it.
fn perform(alloc: Global, core: &mut Core, place: usize) -> Result<Answer, Failure> {
    let (command, facts) = both(command_at(alloc, place), facts_at(alloc, place))?;
    let answer = step(core, &command, &facts);
    drop(facts);
    drop(command);
    Ok(answer?)
}

// Appends the sort key of a concept's preferred label in a language; `none` stands for no label.
fn write_sort_key(
    alloc: Global,
    core: &Core,
    concept: ResNo,
    tag: &Tag,
    report: &mut String,
) -> Result<(), Failure>
    requires { core.now.spent ≡ false }
{
    let text = match core.preferred(concept, tag) {
        Some(text) => text.as_str(),
        None => "none",
    };
    let key = sort_key(alloc, text)?;
    push(report, &key)?;
    report.push('\n')?;
    Ok(())
}

// Appends what a core has on the concepts Cats and Mammals, and its counts.
fn write_contents(alloc: Global, core: &Core, report: &mut String) -> Result<(), Failure>
    requires { core.now.spent ≡ false }
{
    let (cats, mammals) = (ResNo::new(2), ResNo::new(3));
    write_sort_key(alloc, core, mammals, &english(alloc)?, report)?;
    let (is_live, labels) = (core.is_live(cats), core.labels_of(mammals).len());
    writeln!(
        report,
        "Cats is live: {is_live}, Mammals has {labels} labels"
    )?;
    writeln!(report, "{:?}", core.sizes())?;
    push_concept(alloc, core, mammals, report)?;
    push_totals(alloc, core, report)
}

/// Appends what a core has on the concepts Cats and Mammals, and its counts, or returns an error if
/// the core is spent.
pub fn write_core(alloc: Global, core: &Core, report: &mut String) -> Result<(), Failure> {
    if core.is_spent() {
        return Err(Failure::Fault(Fault::OutOfMemory));
    }
    write_contents(alloc, core, report)
}

// Performs the ten commands, and appends their answers and what the core then has.
fn run_in(alloc: Global, core: &mut Core, report: &mut String) -> Result<(), Failure> {
    for place in 0..COUNT {
        let answer = perform(alloc, core, place)?;
        push_answer(alloc, answer, report)?;
    }
    write_core(alloc, core, report)
}

/// Performs the ten commands in a new core, and appends their answers and what the core then has.
pub fn run(alloc: Global, report: &mut String) -> Result<(), Failure> {
    let mut core = Core::new(alloc, base(alloc)?, Limits::default());
    let outcome = run_in(alloc, &mut core, report);
    drop(core);
    outcome
}
