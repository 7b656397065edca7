//! Look-ups by calls of the core and the office that no request makes.
ghost use Rattle.std.specs.Prelude.{◌≡◌, false};

use crate::list::command_in;
use crate::numbers::Numbers;
use std::alloc::{AllocError, Global};
use test_office::Store;
use thes_base::data::{History, Label, Link};
use thes_base::fault::ReadStop;
use thes_base::number::{PostNo, ResNo};
use thes_base::request::Command;
use thes_base::text::{Iri, Tag, Text};
use thes_core::Core;
use thes_core::reading::Sizes;
use thes_requests::JsonScratch;
use thes_requests::request::read_request;

/// Performs the look-up that a line gives by its name and arguments. Returns the result as a text,
/// or None if nothing is found.
pub fn look_up(alloc: Global, store: &mut Store, words: &str) -> Option<String> {
    let (name, words) = words.split_once(' ').unwrap_or((words, ""));
    match name {
        "place" => place(alloc, store, words),
        "standing" => postings_at(alloc, store, words),
        "read" => form_fault(alloc, words),
        _ => look_up_in(alloc, store.office().ready().ok()?, name, words),
    }
}

// Performs a look-up in the core: in its vocabulary, links or counts.
fn look_up_in(alloc: Global, core: &Core, name: &str, words: &str) -> Option<String>
    requires { core.now.spent ≡ false }
{
    match name {
        "sizes" => sizes_text(alloc, &core.sizes()).ok(),
        "live" => is_live(alloc, core, words),
        "preferred" => preferred_label(alloc, core, words),
        "labels" => labels_of(alloc, core, words),
        "holder" => holder(alloc, core, words),
        "outside" => outside_number(alloc, core, words),
        "iri" => outside_iri(alloc, core, words),
        "held" => has_link(alloc, core, words),
        _ => None,
    }
}

fn number_text(alloc: Global, number: u32) -> Option<String> {
    format!(in alloc; "{number}").ok()
}

fn yes_or_no(alloc: Global, truth: bool) -> Option<String> {
    String::from_str(alloc, if truth { "yes" } else { "no" }).ok()
}

fn sizes_text(alloc: Global, sizes: &Sizes) -> Result<String, AllocError> {
    let (resources, labels, links) = (sizes.resources, sizes.labels, sizes.links);
    let (accepted, withdrawn, moves) = (sizes.accepted, sizes.withdrawn, sizes.moves);
    let mut text = format!(in alloc; "{resources} resources, {labels} labels, {links} links")?;
    write!(
        text,
        ", {accepted} accepted, {withdrawn} withdrawn, {moves} moves"
    )?;
    Ok(text)
}

// Returns the concept to which a posting is assigned, or was before it was withdrawn.
fn place(alloc: Global, store: &mut Store, words: &str) -> Option<String> {
    let history = store.office().posting(PostNo::read(words).ok()?).ok()??;
    number_text(alloc, place_of(&history).get())
}

fn place_of(history: &History) -> ResNo {
    match history.moves.as_slice().last() {
        Some(step) => step.target,
        None => history.first,
    }
}

// Returns the numbers of the postings assigned to a concept.
fn postings_at(alloc: Global, store: &mut Store, words: &str) -> Option<String> {
    let mut numbers = Numbers::new(alloc);
    let concept = ResNo::read(words).ok()?;
    match store.office().postings(concept, &mut numbers) {
        Ok(None) => numbers_text(alloc, numbers.list.as_slice()).ok(),
        _ => None,
    }
}

fn numbers_text(alloc: Global, numbers: &[PostNo]) -> Result<String, AllocError> {
    let mut text = String::from_str(alloc, "postings")?;
    for number in numbers {
        write!(text, " {}", number.get())?;
    }
    Ok(text)
}

// Returns `yes` if the number is that of a live resource, or else `no`.
fn is_live(alloc: Global, core: &Core, words: &str) -> Option<String>
    requires { core.now.spent ≡ false }
{
    yes_or_no(alloc, core.is_live(ResNo::read(words).ok()?))
}

// Returns the preferred label of a resource in a language.
fn preferred_label(alloc: Global, core: &Core, words: &str) -> Option<String>
    requires { core.now.spent ≡ false }
{
    let (owner, tag) = words.split_once(' ')?;
    let owner = ResNo::read(owner).ok()?;
    let tag = Tag::read(alloc, tag).ok()?;
    String::from_str(alloc, core.preferred(owner, &tag)?.as_str()).ok()
}

// Returns all labels of a resource.
fn labels_of(alloc: Global, core: &Core, words: &str) -> Option<String>
    requires { core.now.spent ≡ false }
{
    labels_text(alloc, core.labels_of(ResNo::read(words).ok()?)).ok()
}

fn labels_text(alloc: Global, labels: &[Label]) -> Result<String, AllocError> {
    let mut list = String::from_str(alloc, "labels")?;
    for label in labels {
        let (kind, tag, text) = (label.kind(), label.tag.as_str(), label.text());
        write!(list, ", {kind:?} {tag} {text}")?;
    }
    Ok(list)
}

// Returns the live concept of a scheme that has this preferred label in a language.
fn holder(alloc: Global, core: &Core, words: &str) -> Option<String>
    requires { core.now.spent ≡ false }
{
    let (scheme, words) = words.split_once(' ')?;
    let (tag, text) = words.split_once(' ')?;
    let scheme = ResNo::read(scheme).ok()?;
    let tag = Tag::read(alloc, tag).ok()?;
    let text = Text::read(alloc, text).ok()?;
    number_text(alloc, core.holder(scheme, &tag, &text)?.get())
}

// Returns the number of the outside concept with this IRI.
fn outside_number(alloc: Global, core: &Core, words: &str) -> Option<String>
    requires { core.now.spent ≡ false }
{
    let iri = Iri::read(alloc, words).ok()?;
    number_text(alloc, core.outside(&iri)?.get())
}

// Returns the IRI of the outside concept with this number.
fn outside_iri(alloc: Global, core: &Core, words: &str) -> Option<String>
    requires { core.now.spent ≡ false }
{
    let iri = core.outside_iri(ResNo::read(words).ok()?)?;
    String::from_str(alloc, iri.as_str()).ok()
}

// Returns `yes` if the core has the link that a Link request names, or else `no`.
fn has_link(alloc: Global, core: &Core, words: &str) -> Option<String>
    requires { core.now.spent ≡ false }
{
    yes_or_no(alloc, core.has(&link_in(alloc, words)?))
}

// Returns the name of the form fault of a text that isn't a request.
fn form_fault(alloc: Global, text: &str) -> Option<String> {
    let stop = read_request(&mut JsonScratch::new(alloc), text.as_bytes()).err()?;
    match stop {
        ReadStop::Form(fault) => String::from_str(alloc, fault.name()).ok(),
        ReadStop::OutOfMemory => None,
    }
}

// Returns the link in a Link request.
fn link_in(alloc: Global, words: &str) -> Option<Link> {
    let command = command_in(alloc, words).ok()?;
    let link = link_of(&command);
    drop(command);
    link
}

fn link_of(command: &Command) -> Option<Link> {
    let Command::Link(kind, a, b) = *command else {
        return None;
    };
    Some(Link { kind, a, b })
}
