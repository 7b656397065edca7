//! Commands with texts of several forms and a list of postings, and what their answers say.
use crate::commands::{concept, english, post, scheme};
use crate::failure::{Failure, both};
use crate::office_example::perform;
use std::alloc::Global;
use std::fmt::Write;
use thesaurus::{
    Answer, Command, Fault, FormFault, Iri, Keeper, Label, LabelKind, LabelValue, LinkKind, Note,
    Office, PostNo, PostNos, ReadStop, Refusal, ResNo, Sequence, Text,
};

// Returns an English label of this kind.
fn label(alloc: Global, kind: LabelKind, text: &str) -> Result<Label, ReadStop> {
    let value = match kind {
        LabelKind::Pref => LabelValue::Pref(Text::read(alloc, text)?),
        LabelKind::Alt => LabelValue::Alt(Text::read(alloc, text)?),
        LabelKind::Hidden => LabelValue::Hidden(Text::read(alloc, text)?),
        LabelKind::Scope => LabelValue::Scope(Note::read(alloc, text)?),
    };
    let (tag, value) = both(english(alloc), Ok(value))?;
    Ok(Label { tag, value })
}

// Returns the command that makes an outside concept.
fn outside_concept(alloc: Global, iri: &str) -> Result<Command, ReadStop> {
    Ok(Command::Outside(Iri::read(alloc, iri)?))
}

// Returns the command that makes a concept and moves to it a posting of the concept `from`.
fn split(alloc: Global, from: ResNo, text: &str, posting: PostNo) -> Result<Command, ReadStop> {
    let mut postings: PostNos = Sequence::new(alloc);
    postings.push(posting)?;
    let ((tag, text), postings) = both(
        both(english(alloc), Text::read(alloc, text)),
        Ok(postings),
    )?;
    Ok(Command::Split(from, tag, text, postings))
}

// Returns in words what an answer says. A command with a refusal or a fault has changed nothing.
fn outcome_name(outcome: Result<Answer, Fault>) -> &'static str {
    match outcome {
        Ok(Answer::No(Refusal::PreferredTaken)) => "another concept has the name",
        Ok(Answer::No(refusal)) => refusal.name(),
        Ok(_) => "done",
        Err(fault) => fault.name(),
    }
}

// Returns in words why a text couldn't be read.
fn stop_name(stop: ReadStop) -> &'static str {
    match stop {
        ReadStop::Form(FormFault::BadIri) => "no IRI",
        ReadStop::Form(fault) => fault.name(),
        ReadStop::OutOfMemory => Fault::OutOfMemory.name(),
    }
}

// The number of commands.
const COUNT: usize = 9;

// Returns the command at a place from 0 to 8. The last two can't be performed: one has a name that
// is taken, the other a text that isn't an IRI.
fn command_at(alloc: Global, place: usize) -> Result<Command, ReadStop> {
    let (cats, there) = (ResNo::new(2), ResNo::new(3));
    match place {
        0 => scheme(alloc, "Animals"),
        1 => concept(alloc, "Cats"),
        2 => outside_concept(alloc, "https://elsewhere.example/cats"),
        3 => Ok(Command::Link(LinkKind::Exact, cats, there)),
        4 => Ok(Command::AddLabel(cats, label(alloc, LabelKind::Scope, "Not lions")?)),
        5 => post(alloc, "k1", "r1", cats),
        6 => split(alloc, cats, "Siamese", PostNo::new(1)),
        7 => concept(alloc, "Cats"),
        _ => outside_concept(alloc, "cats"),
    }
}

// Performs the command at a place, and returns what became of it.
fn outcome_at<K: Keeper>(alloc: Global, office: &mut Office<K>, place: usize) -> &'static str {
    let command = match command_at(alloc, place) {
        Ok(command) => command,
        Err(stop) => return stop_name(stop),
    };
    let answer = perform(office, &command);
    drop(command);
    outcome_name(answer)
}

/// Performs the commands in an office, and appends what became of each.
pub fn run<K: Keeper>(
    alloc: Global,
    office: &mut Office<K>,
    report: &mut String,
) -> Result<(), Failure> {
    for place in 0..COUNT {
        let outcome = outcome_at(alloc, office, place);
        writeln!(report, "{outcome}")?;
    }
    Ok(())
}
