//! The alphabetical display: an entry for each of its headings.
ghost use Rattle.std.specs.Prelude.{[], ◌≡◌, ◌<◌, ◌++◌, ℕ, false, codes, Contains, IfOk, OnOk, flat_map, length};
ghost use Rattle.thes_base.specs.Labels.{HasLabel};
ghost use Rattle.thes_base.specs.State.{State};
ghost use Rattle.thes_core.specs.CoreView.{IsViewOf, with_histories};
ghost use Rattle.thes_core.specs.Terms.{term_text};
ghost use Rattle.thes_display.specs.TextAppends.{AppendsText};
ghost use Rattle.thes_display.specs.Alphabetical.{AreTexts, IsAlphabetical, IsEntry, entry_line, symbol_text, symbols};
ghost use Rattle.thes_display.specs.EntryTerms.{AreLinkedUnder, AreSidesOfConcept, IsForLabels, symbol_on};
ghost use Rattle.thes_display.specs.EntrySource.{AreSourceLines, IsEntrySource};
ghost use Rattle.thes_display.specs.HeadingIndex.{term_at};
ghost use Rattle.thes_display.specs.LabelTexts.{label_lines, term_lines};

use crate::entry_terms::{
    Side, Sides, labels_in, linked_concepts, sides_of, sorted_labels, sorted_terms_of,
};
use crate::heading::{Heading, headings_of};
use crate::heading_index::{HeadingIndex, index_of, sorted_places};
use crate::number_table::value_at;
use crate::symbol::{Hierarchy, Symbol};
use crate::term::Term;
use std::alloc::{AllocError, Global};
use thes_base::data::{Label, LabelKind};
use thes_base::number::ResNo;
use thes_base::text::Tag;
use thes_core::Core;

// Appends a line of an entry to a display: two spaces, the symbol, a space, the text and a line
// feed.
fn push_entry_line(text: &mut Vec<u8>, symbol: &[u8], shown: &[u8]) -> Result<(), AllocError>
    ensures { OnOk result (text.new.items ≡ text.old.items ++ entry_line symbol.now shown.now) }
{
    text.extend_from_slice(b"  ")?;
    text.extend_from_slice(symbol)?;
    text.push(b' ')?;
    text.extend_from_slice(shown)?;
    text.push(b'\n')?;
    Ok(())
}

// The source of all entries of a display: the core, the language, and the index of headings.
#[derive(Clone, Copy)]
struct EntrySource<'a> {
    alloc: Global,
    core: &'a Core,
    tag: &'a Tag,
    index: &'a HeadingIndex,
}

// Appends a line with the symbol for each of these terms.
fn write_terms(text: &mut Vec<u8>, terms: &[Term], symbol: Symbol) -> Result<(), AllocError>
    ensures { OnOk result (text.new.items ≡ text.old.items ++ term_lines symbol terms.now) }
{
    for term in terms {
        push_entry_line(text, symbol.text().as_bytes(), term.text())?;
    }
    Ok(())
}

// Appends a line with the symbol for each of these labels.
fn write_label_lines(
    text: &mut Vec<u8>,
    labels: &[&Label],
    symbol: Symbol,
) -> Result<(), AllocError>
    ensures { OnOk result (text.new.items ≡ text.old.items ++ label_lines symbol labels.now) }
{
    for label in labels {
        push_entry_line(text, symbol.text().as_bytes(), label.text().as_bytes())?;
    }
    Ok(())
}

// Appends a line with the symbol for each of a concept's labels of a kind, in alphabetical order. A
// single label needs no sort, so no sort key is computed for it.
fn write_labels(
    source: &EntrySource<'_>,
    text: &mut Vec<u8>,
    n: ResNo,
    kind: LabelKind,
    symbol: Symbol,
) -> Result<(), AllocError>
    requires source { IsEntrySource source.now }
    requires kind { IsForLabels symbol kind }
    ensures { let are_lines = AreSourceLines source.now n symbol in
        OnOk result (AppendsText are_lines text.old.items text.new.items) }
{
    let labels = labels_in(source.alloc, source.core, n, kind, source.tag)?;
    if labels.len() <= 1 {
        return write_label_lines(text, labels.as_slice(), symbol);
    }
    let terms = sorted_labels(source.alloc, labels.as_slice(), n)?;
    write_terms(text, terms.as_slice(), symbol)
}

// Returns the text of the heading at this place, in UTF-8.
#[tactic(auto, using(crate::proofs::HeadingPlaceLemmas::term_read))]
fn text_of(headings: &[Heading], place: usize) -> &[u8]
    requires { place < length headings.now }
    ensures { result.now ≡ (term_at headings.now place).text }
{
    headings[place].term.text()
}

// Appends a line with the symbol for the heading at each of these places.
fn write_places(
    text: &mut Vec<u8>,
    headings: &[Heading],
    places: &[usize],
    symbol: Symbol,
) -> Result<(), AllocError>
    requires { (k : ℕ) → Contains places.now k → k < length headings.now }
    ensures { let line = λ (k : ℕ). entry_line (symbol_text symbol) (term_at headings.now k).text in
        OnOk result (text.new.items ≡ text.old.items ++ flat_map line places.now) }
{
    for place in places {
        push_entry_line(text, symbol.text().as_bytes(), text_of(headings, *place))?;
    }
    Ok(())
}

// Appends a line with the symbol for each of these concepts, in alphabetical order. The terms are
// those of the concepts' headings; if one of the concepts has no heading, the terms of all are
// looked up in the core and sorted.
fn write_concepts(
    source: &EntrySource<'_>,
    text: &mut Vec<u8>,
    concepts: &[ResNo],
    symbol: Symbol,
) -> Result<(), AllocError>
    requires source { IsEntrySource source.now }
    requires linked { (n : ℕ) × AreLinkedUnder source.now.core.now.links n symbol concepts.now }
    ensures { (n : ℕ) → AreLinkedUnder source.now.core.now.links n symbol concepts.now →
        let are_lines = AreSourceLines source.now n symbol in
        OnOk result (AppendsText are_lines text.old.items text.new.items) }
{
    let index = source.index;
    match sorted_places(source.alloc, index.places.as_slice(), concepts)? {
        Some(places) => write_places(text, index.headings.as_slice(), places.as_slice(), symbol),
        None => {
            let terms = sorted_terms_of(source.alloc, source.core, concepts, source.tag)?;
            write_terms(text, terms.as_slice(), symbol)
        }
    }
}

// Appends a line for each concept on a side (broader or narrower) that a link of this type joins to
// the concept of the entry. If no hierarchical link of that concept has a type, all concepts on the
// side are listed under the symbol for untyped links.
fn write_side(
    source: &EntrySource<'_>,
    text: &mut Vec<u8>,
    sides: &Sides,
    side: Side,
    hierarchy: Hierarchy,
) -> Result<(), AllocError>
    requires source { IsEntrySource source.now }
    requires sides { AreSidesOfConcept source.now.core.now.links sides.now }
    ensures { let are_lines = AreSourceLines source.now sides.now.concept (symbol_on side hierarchy)
        in OnOk result (AppendsText are_lines text.old.items text.new.items) }
{
    let symbol = side.symbol(hierarchy);
    if sides.is_typed {
        let kind = hierarchy.kind();
        let found = linked_concepts(source.alloc, source.core, sides, side, kind)?;
        return write_concepts(source, text, found.as_slice(), symbol);
    }
    match hierarchy {
        Hierarchy::Untyped => write_concepts(source, text, sides.concepts(side), symbol),
        _ => Ok(()),
    }
}

// Appends the lines of one symbol in the entry of a concept, in alphabetical order.
fn write_symbol(
    source: &EntrySource<'_>,
    text: &mut Vec<u8>,
    sides: &Sides,
    symbol: Symbol,
) -> Result<(), AllocError>
    requires source { IsEntrySource source.now }
    requires sides { AreSidesOfConcept source.now.core.now.links sides.now }
    ensures { let are_lines = AreSourceLines source.now sides.now.concept symbol in
        OnOk result (AppendsText are_lines text.old.items text.new.items) }
{
    let n = sides.concept;
    match symbol {
        Symbol::ScopeNote => write_labels(source, text, n, LabelKind::Scope, symbol),
        Symbol::UsedFor => write_labels(source, text, n, LabelKind::Alt, symbol),
        Symbol::Broader(hierarchy) => write_side(source, text, sides, Side::Broader, hierarchy),
        Symbol::Narrower(hierarchy) => write_side(source, text, sides, Side::Narrower, hierarchy),
        Symbol::Related => write_concepts(source, text, sides.associates.as_slice(), symbol),
    }
}

// Appends the lines of all symbols in the entry of a concept, in the order of `Symbol::all`.
fn write_symbols(
    source: &EntrySource<'_>,
    text: &mut Vec<u8>,
    sides: &Sides,
) -> Result<(), AllocError>
    requires source { IsEntrySource source.now }
    requires sides { AreSidesOfConcept source.now.core.now.links sides.now }
    ensures { let are_lines = AreTexts (AreSourceLines source.now sides.now.concept) symbols in
        OnOk result (AppendsText are_lines text.old.items text.new.items) }
{
    let symbols = Symbol::all();
    for symbol in &symbols {
        write_symbol(source, text, sides, *symbol)?;
    }
    Ok(())
}

// Appends the line below a lead-in term of a concept: USE, and the concept's own term.
fn write_use(source: &EntrySource<'_>, text: &mut Vec<u8>, n: ResNo) -> Result<(), AllocError>
    requires { IsEntrySource source.now }
    ensures { let used = term_text source.now.core.now.labels source.now.tag.now n in
        OnOk result (text.new.items ≡ text.old.items ++ entry_line (codes "USE") used) }
{
    let index = source.index;
    match value_at(index.places.as_slice(), n.get() as usize) {
        Some(place) => push_entry_line(text, b"USE", text_of(index.headings.as_slice(), place)),
        None => {
            let term = source.core.term(source.alloc, n, source.tag)?;
            push_entry_line(text, b"USE", term.as_bytes())
        }
    }
}

// Appends an entry: a term with its lines, or a lead-in term with the term to use.
fn write_entry(
    source: &EntrySource<'_>,
    text: &mut Vec<u8>,
    heading: &Heading,
) -> Result<(), AllocError>
    requires { IsEntrySource source.now }
    ensures { let s = with_histories [] source.now.core.now in
        let is_entry = IsEntry s source.now.tag.now heading.now in
        OnOk result (AppendsText is_entry text.old.items text.new.items) }
{
    let n = heading.term.concept();
    text.extend_from_slice(heading.term.text())?;
    text.push(b'\n')?;
    if heading.lead_in {
        write_use(source, text, n)?;
    } else {
        let sides = sides_of(source.alloc, source.core, n)?;
        write_symbols(source, text, &sides)?;
    }
    Ok(())
}

/// Returns the text of the alphabetical display of a scheme in a language, in UTF-8.
pub fn alphabetical_text(
    alloc: Global,
    core: &Core,
    scheme: ResNo,
    tag: &Tag,
) -> Result<Vec<u8>, AllocError>
    requires { core.now.spent ≡ false }
    ensures { (s : State) → IsViewOf core.now s →
        IfOk result (λ text. IsAlphabetical s scheme tag.now text.items) }
{
    let headings = headings_of(alloc, core, scheme, tag)?;
    let index = index_of(alloc, headings)?;
    let source = EntrySource {
        alloc,
        core,
        tag,
        index: &index,
    };
    let mut text = Vec::new(alloc);
    for heading in &index.headings {
        write_entry(&source, &mut text, heading)?;
    }
    Ok(text)
}
