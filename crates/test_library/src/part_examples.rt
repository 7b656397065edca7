//! The parts of the machine, each by itself: resources, links and counts of postings.
use crate::commands::{base, english};
use crate::failure::{Failure, both};
use std::alloc::{AllocError, Global};
use std::fmt::Write;
use thesaurus::{
    Book, Forwarding, Graph, Link, LinkKind, Links, NewResource, Part, PostNo, ReadStop, ResNo,
    Resource, ResourceKind, Side, Text, Vocab, Walk,
};

// Returns a vocabulary with a scheme, which has number 1.
fn vocab_with_scheme(alloc: Global) -> Result<Vocab, ReadStop> {
    let base = base(alloc)?;
    let (tag, text) = both(english(alloc), Text::read(alloc, "Animals"))?;
    let mut vocab = Vocab::new(alloc, base);
    vocab.add_resource(NewResource::Scheme(tag, text))?;
    Ok(vocab)
}

// Checks whether the number is that of a live scheme.
fn is_live_scheme(vocab: &Vocab, number: ResNo) -> bool {
    let resource: Option<Resource> = vocab.resource(number).copied();
    match resource {
        Some(resource) => resource.kind == ResourceKind::Scheme && resource.live,
        None => false,
    }
}

// Returns the last concept in a concept's chain of replacements: the concept itself, while it is
// live.
fn replacement_of(vocab: &Vocab, concept: ResNo) -> ResNo {
    let end: Forwarding = vocab.forwarding(concept);
    end.place
}

// Returns the number of links that lead up from a node, for any implementation of `Links`.
fn upward_count<L: Links>(links: &L, node: ResNo) -> usize {
    let part: Part = links.part(node, Side::Up);
    part.to.saturating_sub(part.from)
}

// Makes a graph of one link, and returns the number of links that lead up from its first end.
fn count_broader(alloc: Global) -> Result<usize, AllocError> {
    let mut graph = Graph::new(alloc);
    graph.add(&Link {
        kind: LinkKind::Broader,
        a: ResNo::new(2),
        b: ResNo::new(3),
    })?;
    let walk: Walk = graph.walk();
    Ok(upward_count(&walk, ResNo::new(2)))
}

// Counts a posting at one concept and its move to another; returns the posting's number, and the
// count at the other concept.
fn count_posting(alloc: Global) -> Result<(PostNo, u64), AllocError> {
    let (cats, mammals) = (ResNo::new(2), ResNo::new(3));
    let mut book = Book::new(alloc);
    let number = book.post(cats, 0)?;
    book.move_all(cats, mammals)?;
    Ok((number, book.count(mammals)))
}

// Appends whether number 1 is a live scheme, and what replaces it.
fn write_vocab(vocab: &Vocab, report: &mut String) -> Result<(), AllocError> {
    let scheme = ResNo::new(1);
    let (is_live, end) = (is_live_scheme(vocab, scheme), replacement_of(vocab, scheme));
    writeln!(report, "{is_live} {end:?}")
}

/// Appends what the example of each part returns.
pub fn run(alloc: Global, report: &mut String) -> Result<(), Failure> {
    let vocab = vocab_with_scheme(alloc)?;
    let result = write_vocab(&vocab, report);
    drop(vocab);
    result?;
    let (links, counts) = (count_broader(alloc)?, count_posting(alloc)?);
    Ok(writeln!(report, "{links} {counts:?}")?)
}
