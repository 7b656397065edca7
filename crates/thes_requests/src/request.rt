//! Reads a command or a query from a line of JSON.
ghost use Rattle.thes_requests.specs.MemberReadings.{ReadsMember, pair_of, do_request, get_request};
ghost use Rattle.thes_requests.specs.Readings.{Gives};
ghost use Rattle.thes_requests.specs.Requests.{number_at, a_tag, a_text, label_line, link_line, command_in, query_in, request_in, request_of};
ghost use Rattle.thes_requests.specs.Tree.{view};

use crate::keywords::{CommandKeyword, QueryKeyword};
use crate::members::{
    BAD_SHAPE, both, command_keyword_at, exactly, label_value_at, link_kind_at, number_at,
    postings_at, query_keyword_at, read_text_member, truth_at,
};
use crate::tree::{JsonScratch, Value, parse_json};
use std::alloc::Global;
use thes_base::data::{Label, Link};
use thes_base::fault::ReadStop;
use thes_base::number::{PostNo, ResNo};
use thes_base::request::Command;
use thes_base::text::{Tag, Text};

/// A query, which requests a view: the totals, a concept, the postings of a concept, or a posting.
#[derive(Clone, Copy)]
pub enum Query {
    Totals,
    Concept(ResNo),
    Postings(ResNo),
    Posting(PostNo),
}

/// The kind of a display: alphabetical or hierarchical.
#[derive(Clone, Copy, Debug, PartialEq, Eq)]
pub enum Display {
    Alphabetical,
    Hierarchical,
}

/// A request for a display: its kind, the number of a scheme, and a language.
#[derive(Clone, Copy)]
pub struct DisplayRequest<'a> {
    pub kind: Display,
    pub scheme: ResNo,
    pub tag: &'a Tag,
}

/// A request: a command (`do`) or a query (`get`).
#[derive(Drop)]
pub enum Request {
    Do(Command),
    Get(Query),
}

// Reads the members `tag` and `text`, a preferred label's language and text.
fn tag_and_text(alloc: Global, value: &Value<'_>) -> Result<(Tag, Text), ReadStop>
    ensures { ReadsMember (pair_of a_tag a_text) (view value.now) result }
{
    both(
        read_text_member(alloc, "tag", value),
        read_text_member(alloc, "text", value),
    )
}

// Reads the member `name` as a resource's number, and the members `tag` and `text`.
fn number_and_text(
    alloc: Global,
    name: &str,
    value: &Value<'_>,
) -> Result<(ResNo, (Tag, Text)), ReadStop>
    ensures { ReadsMember (pair_of (number_at name.now) (pair_of a_tag a_text))
        (view value.now) result }
{
    both(number_at(name, value), tag_and_text(alloc, value))
}

// Reads the command to add a scheme: its preferred label.
#[tactic(auto, using(crate::proofs::MemberReadingLemmas::gives_line2))]
fn scheme_in(alloc: Global, value: &Value<'_>) -> Result<Command, ReadStop>
    ensures { Gives (command_in CommandKeyword.Scheme (view value.now)) result }
{
    let (tag, text) = exactly(3, value, tag_and_text(alloc, value))?;
    Ok(Command::Scheme(tag, text))
}

// Reads the command to add a concept: the number of its scheme, and its preferred label.
#[tactic(auto, using(crate::proofs::MemberReadingLemmas::gives_line3))]
fn concept_in(alloc: Global, value: &Value<'_>) -> Result<Command, ReadStop>
    ensures { Gives (command_in CommandKeyword.Concept (view value.now)) result }
{
    let (scheme, (tag, text)) = exactly(4, value, number_and_text(alloc, "scheme", value))?;
    Ok(Command::Concept(scheme, tag, text))
}

// Reads the command to add a collection: the number of its scheme, and its preferred label.
#[tactic(auto, using(crate::proofs::MemberReadingLemmas::gives_line3))]
fn collection_in(alloc: Global, value: &Value<'_>) -> Result<Command, ReadStop>
    ensures { Gives (command_in CommandKeyword.Collection (view value.now)) result }
{
    let (scheme, (tag, text)) = exactly(4, value, number_and_text(alloc, "scheme", value))?;
    Ok(Command::Collection(scheme, tag, text))
}

// Reads the command to add an outside concept, which can be the target of mappings: its IRI.
fn outside_in(alloc: Global, value: &Value<'_>) -> Result<Command, ReadStop>
    ensures { Gives (command_in CommandKeyword.Outside (view value.now)) result }
{
    let iri = exactly(2, value, read_text_member(alloc, "iri", value))?;
    Ok(Command::Outside(iri))
}

// Reads the members that adding and removing a label share: the owner and the label.
fn label_in(alloc: Global, value: &Value<'_>) -> Result<(ResNo, Label), ReadStop>
    ensures { Gives (label_line (view value.now)) result }
{
    let label = both(
        read_text_member(alloc, "tag", value),
        label_value_at(alloc, value),
    );
    let (owner, (tag, value)) = exactly(5, value, both(number_at("owner", value), label))?;
    Ok((owner, Label { tag, value }))
}

// Reads the command to add a label: its owner, kind, language and text.
#[tactic(auto, using(crate::proofs::MemberReadingLemmas::gives_mapped))]
fn add_label_in(alloc: Global, value: &Value<'_>) -> Result<Command, ReadStop>
    ensures { Gives (command_in CommandKeyword.AddLabel (view value.now)) result }
{
    let (owner, label) = label_in(alloc, value)?;
    Ok(Command::AddLabel(owner, label))
}

// Reads the command to remove a label, which has the same members as the one to add it.
#[tactic(auto, using(crate::proofs::MemberReadingLemmas::gives_mapped))]
fn drop_label_in(alloc: Global, value: &Value<'_>) -> Result<Command, ReadStop>
    ensures { Gives (command_in CommandKeyword.DropLabel (view value.now)) result }
{
    let (owner, label) = label_in(alloc, value)?;
    Ok(Command::DropLabel(owner, label))
}

// Reads the command to replace a resource's preferred label in a language; `keep` states whether
// the old text stays as an alternative label.
fn relabel_in(alloc: Global, value: &Value<'_>) -> Result<Command, ReadStop>
    ensures { Gives (command_in CommandKeyword.Relabel (view value.now)) result }
{
    let members = both(
        number_and_text(alloc, "owner", value),
        truth_at("keep", value),
    );
    let ((owner, (tag, text)), keep) = exactly(5, value, members)?;
    Ok(Command::Relabel(owner, tag, text, keep))
}

// Reads the members that adding and removing a link share: the kind and the two ends.
fn link_in(value: &Value<'_>) -> Result<Link, ReadStop>
    ensures { Gives (link_line (view value.now)) result }
{
    let ends = both(number_at("a", value), number_at("b", value));
    let (kind, (a, b)) = exactly(4, value, both(link_kind_at(value), ends))?;
    Ok(Link { kind, a, b })
}

// Reads the command to add a link: its kind and two ends.
#[tactic(auto, using(crate::proofs::MemberReadingLemmas::gives_mapped))]
fn add_link_in(value: &Value<'_>) -> Result<Command, ReadStop>
    ensures { Gives (command_in CommandKeyword.Link (view value.now)) result }
{
    let link = link_in(value)?;
    Ok(Command::Link(link.kind, link.a, link.b))
}

// Reads the command to remove a link, which has the same members as the one to add it.
#[tactic(auto, using(crate::proofs::MemberReadingLemmas::gives_mapped))]
fn unlink_in(value: &Value<'_>) -> Result<Command, ReadStop>
    ensures { Gives (command_in CommandKeyword.Unlink (view value.now)) result }
{
    let link = link_in(value)?;
    Ok(Command::Unlink(link.kind, link.a, link.b))
}

// Reads the command to deprecate a concept: its number.
#[tactic(auto, using(crate::proofs::MemberReadingLemmas::gives_line1))]
fn deprecate_in(value: &Value<'_>) -> Result<Command, ReadStop>
    ensures { Gives (command_in CommandKeyword.Deprecate (view value.now)) result }
{
    let concept = exactly(2, value, number_at("concept", value))?;
    Ok(Command::Deprecate(concept))
}

// Reads the command to merge a source concept into a target.
fn merge_in(value: &Value<'_>) -> Result<Command, ReadStop>
    ensures { Gives (command_in CommandKeyword.Merge (view value.now)) result }
{
    let ends = both(number_at("source", value), number_at("target", value));
    let (source, target) = exactly(3, value, ends)?;
    Ok(Command::Merge(source, target))
}

// Reads the command to split a concept: its number, the new concept's preferred label, and the
// postings that move to it.
fn split_in(alloc: Global, value: &Value<'_>) -> Result<Command, ReadStop>
    ensures { Gives (command_in CommandKeyword.Split (view value.now)) result }
{
    let members = both(
        number_and_text(alloc, "source", value),
        postings_at(alloc, value),
    );
    let ((source, (tag, text)), postings) = exactly(5, value, members)?;
    Ok(Command::Split(source, tag, text, postings))
}

// Reads the command to add a posting: its key, its record, and its concept.
fn post_in(alloc: Global, value: &Value<'_>) -> Result<Command, ReadStop>
    ensures { Gives (command_in CommandKeyword.Post (view value.now)) result }
{
    let place = both(
        read_text_member(alloc, "record", value),
        number_at("concept", value),
    );
    let (key, (rec, concept)) = exactly(
        4,
        value,
        both(read_text_member(alloc, "key", value), place),
    )?;
    Ok(Command::Post(key, rec, concept))
}

// Reads the command to withdraw a posting: its number.
#[tactic(auto, using(crate::proofs::MemberReadingLemmas::gives_line1))]
fn withdraw_in(value: &Value<'_>) -> Result<Command, ReadStop>
    ensures { Gives (command_in CommandKeyword.Withdraw (view value.now)) result }
{
    let posting = exactly(2, value, number_at("posting", value))?;
    Ok(Command::Withdraw(posting))
}

/// Reads the other members of the command with this keyword. Returns `BadShape` if one is missing,
/// superfluous or of the wrong type, or else the fault of the first that isn't well-formed.
#[inline(always)]
pub fn command_in(
    alloc: Global,
    verb: CommandKeyword,
    value: &Value<'_>,
) -> Result<Command, ReadStop>
    ensures { Gives (command_in verb (view value.now)) result }
{
    match verb {
        CommandKeyword::Scheme => scheme_in(alloc, value),
        CommandKeyword::Concept => concept_in(alloc, value),
        CommandKeyword::Collection => collection_in(alloc, value),
        CommandKeyword::AddLabel => add_label_in(alloc, value),
        CommandKeyword::DropLabel => drop_label_in(alloc, value),
        CommandKeyword::Relabel => relabel_in(alloc, value),
        CommandKeyword::Link => add_link_in(value),
        CommandKeyword::Unlink => unlink_in(value),
        CommandKeyword::Deprecate => deprecate_in(value),
        CommandKeyword::Merge => merge_in(value),
        CommandKeyword::Post => post_in(alloc, value),
        CommandKeyword::Withdraw => withdraw_in(value),
        CommandKeyword::Outside => outside_in(alloc, value),
        CommandKeyword::Split => split_in(alloc, value),
    }
}

// Reads the query for the totals, which has no other member.
#[tactic(auto, unfolding(crate::specs::Requests::members0))]
fn totals_in(value: &Value<'_>) -> Result<Query, ReadStop>
    ensures { Gives (query_in QueryKeyword.Totals (view value.now)) result }
{
    if value.has_count(1) {
        Ok(Query::Totals)
    } else {
        Err(BAD_SHAPE)
    }
}

// Reads the query for a concept: its number.
#[tactic(auto, using(crate::proofs::MemberReadingLemmas::gives_line1))]
fn concept_query_in(value: &Value<'_>) -> Result<Query, ReadStop>
    ensures { Gives (query_in QueryKeyword.Concept (view value.now)) result }
{
    let number = exactly(2, value, number_at("number", value))?;
    Ok(Query::Concept(number))
}

// Reads the query for the postings of a concept: its number.
#[tactic(auto, using(crate::proofs::MemberReadingLemmas::gives_line1))]
fn postings_query_in(value: &Value<'_>) -> Result<Query, ReadStop>
    ensures { Gives (query_in QueryKeyword.Postings (view value.now)) result }
{
    let concept = exactly(2, value, number_at("concept", value))?;
    Ok(Query::Postings(concept))
}

// Reads the query for a posting: its number.
#[tactic(auto, using(crate::proofs::MemberReadingLemmas::gives_line1))]
fn posting_query_in(value: &Value<'_>) -> Result<Query, ReadStop>
    ensures { Gives (query_in QueryKeyword.Posting (view value.now)) result }
{
    let number = exactly(2, value, number_at("number", value))?;
    Ok(Query::Posting(number))
}

// Reads the other members of the query with this keyword.
fn query_in(noun: QueryKeyword, value: &Value<'_>) -> Result<Query, ReadStop>
    ensures { Gives (query_in noun (view value.now)) result }
{
    match noun {
        QueryKeyword::Totals => totals_in(value),
        QueryKeyword::Concept => concept_query_in(value),
        QueryKeyword::Postings => postings_query_in(value),
        QueryKeyword::Posting => posting_query_in(value),
    }
}

// Reads a request whose member `do` is the keyword `verb`. If `verb` is `None`, `do` names no
// command, which is `BadShape`.
#[tactic(auto, using(crate::proofs::MemberReadingLemmas::gives_mapped))]
fn do_in(
    alloc: Global,
    verb: Option<CommandKeyword>,
    value: &Value<'_>,
) -> Result<Request, ReadStop>
    ensures { Gives (do_request verb (view value.now)) result }
{
    let Some(verb) = verb else {
        return Err(BAD_SHAPE);
    };
    Ok(Request::Do(command_in(alloc, verb, value)?))
}

// Reads a request whose member `get` is the keyword `noun`. If `noun` is `None`, `get` names no
// query, which is `BadShape`.
#[tactic(auto, using(crate::proofs::MemberReadingLemmas::gives_mapped))]
fn get_in(noun: Option<QueryKeyword>, value: &Value<'_>) -> Result<Request, ReadStop>
    ensures { Gives (get_request noun (view value.now)) result }
{
    let Some(noun) = noun else {
        return Err(BAD_SHAPE);
    };
    Ok(Request::Get(query_in(noun, value)?))
}

/// Reads a request from a JSON value: a command if the object has the member `do`, or else a query
/// if it has `get`; without either returns `BadShape`.
#[tactic(auto, unfolding(crate::specs::Requests::request_in))]
pub fn request_in(alloc: Global, value: &Value<'_>) -> Result<Request, ReadStop>
    ensures { Gives (request_in (view value.now)) result }
{
    if let Some(word) = value.get("do") {
        return do_in(alloc, command_keyword_at(word), value);
    }
    match value.get("get") {
        Some(word) => get_in(query_keyword_at(word), value),
        None => Err(BAD_SHAPE),
    }
}

/// Reads a request from the bytes of a line, or returns its first form fault, or `OutOfMemory`.
pub fn read_request(memory: &mut JsonScratch, bytes: &[u8]) -> Result<Request, ReadStop>
    ensures { Gives (request_of bytes.now) result }
{
    let value = parse_json(memory.alloc, bytes, &mut memory.scratch)?;
    let request = request_in(memory.alloc, &value);
    drop(value);
    request
}
