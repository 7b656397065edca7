//! The first example of the library's page: requests, and the view of what they made.
use crate::commands::{base, concept, post, scheme};
use crate::failure::Failure;
use crate::office_example::{open, perform};
use crate::report::push_concept;
use std::alloc::Global;
use thesaurus::{Answer, Command, Keeper, MemKeeper, Office, ReadStop, ResNo};

// Performs a command, unless its texts couldn't be read.
fn perform_read<K: Keeper>(
    office: &mut Office<K>,
    command: Result<Command, ReadStop>,
) -> Result<Answer, Failure> {
    let command = command?;
    let answer = perform(office, &command);
    drop(command);
    Ok(answer?)
}

// Makes a scheme with two concepts, posts a record to the first, merges the first concept into the
// second, and appends the view of the second.
fn make_post_merge_show<K: Keeper>(
    alloc: Global,
    office: &mut Office<K>,
    report: &mut String,
) -> Result<(), Failure> {
    let (cats, mammals) = (ResNo::new(2), ResNo::new(3));
    perform_read(office, scheme(alloc, "Animals"))?;
    perform_read(office, concept(alloc, "Cats"))?;
    perform_read(office, concept(alloc, "Mammals"))?;
    perform_read(office, post(alloc, "k1", "r1", cats))?;
    perform_read(office, Ok(Command::Merge(cats, mammals)))?;
    let core = office.ready()?;
    push_concept(alloc, core, mammals, report)
}

/// Runs the example in a new office.
pub fn run(alloc: Global, report: &mut String) -> Result<(), Failure> {
    let mut office = open(alloc, MemKeeper::new(alloc, base(alloc)?))?;
    let result = make_post_merge_show(alloc, &mut office, report);
    drop(office);
    result
}
