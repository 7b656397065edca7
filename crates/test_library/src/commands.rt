//! Ten commands, and for each the facts on postings that its answer depends on.
use crate::failure::both;
use std::alloc::{AllocError, Global};
use thesaurus::{
    Base, Command, Facts, Key, Label, LabelValue, LinkKind, PostNo, PostingRow, ReadStop,
    RecordName, ResNo, Tag, Text,
};

/// The number of commands.
pub const COUNT: usize = 10;

/// Returns the base IRI of every store.
pub fn base(alloc: Global) -> Result<Base, ReadStop> {
    Base::read(alloc, "https://thesaurus.example/id/")
}

/// Returns the language of every label.
pub fn english(alloc: Global) -> Result<Tag, ReadStop> {
    Tag::read(alloc, "en")
}

/// Returns the command that makes a scheme with this English label.
pub fn scheme(alloc: Global, text: &str) -> Result<Command, ReadStop> {
    let (tag, text) = both(english(alloc), Text::read(alloc, text))?;
    Ok(Command::Scheme(tag, text))
}

/// Returns the command that makes a concept of scheme 1 with this English label.
pub fn concept(alloc: Global, text: &str) -> Result<Command, ReadStop> {
    let (tag, text) = both(english(alloc), Text::read(alloc, text))?;
    Ok(Command::Concept(ResNo::new(1), tag, text))
}

fn alternative(alloc: Global, owner: ResNo, text: &str) -> Result<Command, ReadStop> {
    let (tag, text) = both(english(alloc), Text::read(alloc, text))?;
    let value = LabelValue::Alt(text);
    Ok(Command::AddLabel(owner, Label { tag, value }))
}

/// Returns the command that posts the record of this name to a concept.
pub fn post(alloc: Global, key: &str, name: &str, concept: ResNo) -> Result<Command, ReadStop> {
    let (key, name) = both(Key::read(alloc, key), RecordName::read(alloc, name))?;
    Ok(Command::Post(key, name, concept))
}

/// Returns the command at a place from 0 to 9. Those at 6 and 9 are refused: a cycle, and a posting
/// that is withdrawn already.
pub fn command_at(alloc: Global, place: usize) -> Result<Command, ReadStop> {
    let (cats, mammals) = (ResNo::new(2), ResNo::new(3));
    match place {
        0 => scheme(alloc, "Animals"),
        1 => concept(alloc, "Cats"),
        2 => concept(alloc, "Mammals"),
        3 => Ok(Command::Link(LinkKind::Broader, cats, mammals)),
        4 => alternative(alloc, cats, "Felines"),
        5 => post(alloc, "k1", "r1", cats),
        6 => Ok(Command::Link(LinkKind::Broader, mammals, cats)),
        7 => Ok(Command::Merge(cats, mammals)),
        _ => Ok(Command::Withdraw(PostNo::new(1))),
    }
}

// Returns the row of the only posting, after its move.
fn posting_row(alloc: Global, withdrawn: bool) -> Result<PostingRow, ReadStop> {
    let (key, rec) = both(Key::read(alloc, "k1"), RecordName::read(alloc, "r1"))?;
    Ok(PostingRow {
        number: PostNo::new(1),
        key,
        rec,
        first: ResNo::new(2),
        place: ResNo::new(3),
        withdrawn,
    })
}

// Returns the facts for a merge whose source has the only posting.
fn facts_of_merge(alloc: Global) -> Result<Facts, AllocError> {
    let mut facts = Facts::new(alloc);
    facts.standing.push(PostNo::new(1))?;
    Ok(facts)
}

// Returns the facts for a withdrawal of the only posting.
fn facts_of_withdrawal(alloc: Global, withdrawn: bool) -> Result<Facts, ReadStop> {
    let row = posting_row(alloc, withdrawn)?;
    let mut facts = Facts::new(alloc);
    match facts.named_postings.push(Some(row)) {
        Ok(()) => Ok(facts),
        Err(_) => Err(ReadStop::OutOfMemory),
    }
}

/// Returns the facts for the command at a place: what a storage would report of the postings that
/// the command concerns.
pub fn facts_at(alloc: Global, place: usize) -> Result<Facts, ReadStop> {
    match place {
        7 => Ok(facts_of_merge(alloc)?),
        8 => facts_of_withdrawal(alloc, false),
        9 => facts_of_withdrawal(alloc, true),
        _ => Ok(Facts::new(alloc)),
    }
}
