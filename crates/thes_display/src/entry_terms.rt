//! The labels and the linked concepts of an entry, looked up in a core.
ghost use Rattle.std.specs.Prelude.{◌≡◌, ◌↔◌, false, IfOk, Contains, IsTrue, filter, map};
ghost use Rattle.std.specs.List.Sorted.{IsStrictlySortedBy};
ghost use Rattle.std.specs.Ordering.{nat_cmp};
ghost use Rattle.thes_base.specs.Labels.{HasLabel};
ghost use Rattle.thes_base.specs.Links.{IsHierarchical};
ghost use Rattle.thes_base.specs.Listing.{IsListing};
ghost use Rattle.thes_base.specs.Views.{HasLink};
ghost use Rattle.thes_display.specs.EntryTerms.{AreSidesOfConcept, HasNoTypedLink, IsOnSide, IsLinkedOnSide, IsTermOf, concepts_on, symbol_on};
ghost use Rattle.thes_display.specs.LabelTexts.{AreSortedTexts, is_label_in, label_texts, text_cmp};
ghost use Rattle.thes_display.specs.Order.{term_cmp};

use crate::symbol::{Hierarchy, Symbol};
use crate::term::{Term, sort_terms};
use std::alloc::{AllocError, Global};
use thes_base::data::{Label, LabelKind, Link, LinkKind};
use thes_base::number::ResNo;
use thes_base::text::Tag;
use thes_core::Core;

// Checks whether `b` is broader than `a` by a link of this kind.
pub(crate) fn has_link(core: &Core, kind: LinkKind, a: ResNo, b: ResNo) -> bool
    requires unspent { core.now.spent ≡ false }
    requires hierarchical { IsHierarchical kind }
    ensures { IsTrue result ↔ HasLink core.now.links kind a b }
{
    core.has(&Link { kind, a, b })
}

// Returns the terms of these concepts in the language, in alphabetical order.
pub(crate) fn sorted_terms_of(
    alloc: Global,
    core: &Core,
    concepts: &[ResNo],
    tag: &Tag,
) -> Result<Vec<Term>, AllocError>
    requires unspent { core.now.spent ≡ false }
    requires rise { IsStrictlySortedBy nat_cmp concepts.now }
    ensures { let is_term = IsTermOf core.now.labels tag.now (Contains concepts.now) in
        IfOk result (λ terms. IsListing term_cmp is_term terms.items) }
{
    let mut terms = Vec::new(alloc);
    for concept in concepts {
        let text = core.term(alloc, *concept, tag)?;
        terms.push(Term::new(alloc, text, *concept)?)?;
    }
    sort_terms(&mut terms)?;
    Ok(terms)
}

// Checks whether the label is of this kind and in this language.
fn is_label_in(label: &Label, kind: LabelKind, tag: &Tag) -> bool
    ensures { result ≡ is_label_in kind tag.now label.now }
{
    label.kind() == kind && label.tag == *tag
}

// Selects the labels that are of this kind and in this language, in their order.
fn select_labels<'a>(
    alloc: Global,
    labels: &'a [Label],
    kind: LabelKind,
    tag: &Tag,
) -> Result<Vec<&'a Label>, AllocError>
    ensures { IfOk result (λ found. map (λ l. l.now) found.items
        ≡ filter (is_label_in kind tag.now) labels.now) }
{
    let mut found = Vec::new(alloc);
    for label in labels {
        if is_label_in(label, kind, tag) {
            found.push(label)?;
        }
    }
    Ok(found)
}

/// Returns the labels of a concept that are of this kind and in the language, sorted by text.
pub(crate) fn labels_in<'a>(
    alloc: Global,
    core: &'a Core,
    n: ResNo,
    kind: LabelKind,
    tag: &Tag,
) -> Result<Vec<&'a Label>, AllocError>
    requires unspent { core.now.spent ≡ false }
    ensures { let is_label = HasLabel core.now.labels n kind tag.now in
        IfOk result (λ found. IsListing text_cmp is_label (label_texts found.items)) }
{
    let found = select_labels(alloc, core.labels_of(n), kind, tag)?;
    Ok(found)
}

/// Returns these labels of the concept `n` as terms, in alphabetical order.
pub(crate) fn sorted_labels(
    alloc: Global,
    labels: &[&Label],
    n: ResNo,
) -> Result<Vec<Term>, AllocError>
    ensures { IfOk result (λ terms. AreSortedTexts n (label_texts labels.now) terms.items) }
{
    let mut terms = Vec::new(alloc);
    for label in labels {
        let text = String::from_str(alloc, label.text())?;
        terms.push(Term::new(alloc, text, n)?)?;
    }
    sort_terms(&mut terms)?;
    Ok(terms)
}

/// The direction in which hierarchical links are followed from a concept.
#[derive(Clone, Copy)]
pub(crate) enum Side {
    /// Broader concepts (BT).
    Broader,
    /// Narrower concepts (NT).
    Narrower,
}

impl Side {
    /// Returns the symbol for concepts that links of this type join on this side.
    pub(crate) fn symbol(self, hierarchy: Hierarchy) -> Symbol
        ensures { result ≡ symbol_on self hierarchy }
    {
        match self {
            Side::Broader => Symbol::Broader(hierarchy),
            Side::Narrower => Symbol::Narrower(hierarchy),
        }
    }
}

/// The broader, narrower and related concepts of a concept, each list in ascending order, and
/// whether one of the concept's hierarchical links has a type.
#[derive(Drop)]
pub struct Sides {
    pub concept: ResNo,
    pub broader: Vec<ResNo>,
    pub narrower: Vec<ResNo>,
    pub associates: Vec<ResNo>,
    pub is_typed: bool,
}

// Checks whether a hierarchical link of the concept has a type.
pub(crate) fn has_typed_link(alloc: Global, core: &Core, n: ResNo) -> Result<bool, AllocError>
    requires { core.now.spent ≡ false }
    ensures { IfOk result (λ found. found ≡ false → HasNoTypedLink core.now.links n) }
{
    let typed = core.typed_of(alloc, n)?;
    Ok(!typed.is_empty())
}

/// Returns the broader, narrower and related concepts of a concept, and whether it has a typed
/// hierarchical link.
pub fn sides_of(alloc: Global, core: &Core, n: ResNo) -> Result<Sides, AllocError>
    requires { core.now.spent ≡ false }
    ensures concept { IfOk result (λ sides. sides.concept ≡ n) }
    ensures sides { IfOk result (λ sides. AreSidesOfConcept core.now.links sides) }
{
    Ok(Sides {
        concept: n,
        broader: core.broader_of(alloc, n)?,
        narrower: core.narrower_of(alloc, n)?,
        associates: core.related_of(alloc, n)?,
        is_typed: has_typed_link(alloc, core, n)?,
    })
}

impl Sides {
    // Returns the broader or the narrower concepts, in ascending order.
    pub(crate) fn concepts(&self, side: Side) -> &[ResNo]
        ensures { result.now ≡ concepts_on self.now side }
    {
        match side {
            Side::Broader => self.broader.as_slice(),
            Side::Narrower => self.narrower.as_slice(),
        }
    }
}

// Checks whether a link of this kind joins the concept to `m`, which is one of the concepts on this
// side.
#[tactic(auto, using(crate::proofs::SideLemmas::untyped_link, crate::proofs::SideLemmas::only_untyped))]
fn is_linked(core: &Core, sides: &Sides, side: Side, kind: LinkKind, m: ResNo) -> bool
    requires unspent { core.now.spent ≡ false }
    requires hierarchical { IsHierarchical kind }
    requires sides { AreSidesOfConcept core.now.links sides.now }
    requires on_side { IsOnSide core.now.links side sides.now.concept m }
    ensures { IsTrue result ↔ IsLinkedOnSide core.now.links side kind sides.now.concept m }
{
    if !sides.is_typed {
        return kind == LinkKind::Broader;
    }
    match side {
        Side::Broader => has_link(core, kind, sides.concept, m),
        Side::Narrower => has_link(core, kind, m, sides.concept),
    }
}

// Returns the concepts on this side that links of this kind join to the concept, in ascending
// order.
pub(crate) fn linked_concepts(
    alloc: Global,
    core: &Core,
    sides: &Sides,
    side: Side,
    kind: LinkKind,
) -> Result<Vec<ResNo>, AllocError>
    requires unspent { core.now.spent ≡ false }
    requires hierarchical { IsHierarchical kind }
    requires sides { AreSidesOfConcept core.now.links sides.now }
    ensures { let is_linked = IsLinkedOnSide core.now.links side kind sides.now.concept in
        IfOk result (λ found. IsListing nat_cmp is_linked found.items) }
{
    let mut found = Vec::new(alloc);
    for m in sides.concepts(side) {
        if is_linked(core, sides, side, kind, *m) {
            found.push(*m)?;
        }
    }
    Ok(found)
}
