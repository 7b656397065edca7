//! The headings of an alphabetical display, in order.
ghost use Rattle.std.specs.Prelude.{[], ◌≡◌, false, cond, Contains, IfOk, OnOk, IsPermutation, IsSorted};
ghost use Rattle.std.specs.List.Sorted.{IsStrictlySortedBy};
ghost use Rattle.std.specs.Ordering.{nat_cmp};
ghost use Rattle.thes_base.specs.Listing.{IsListing};
ghost use Rattle.thes_core.specs.CoreView.{with_histories};
ghost use Rattle.thes_display.specs.Alphabetical.{IsHeading, heading_cmp};
ghost use Rattle.thes_display.specs.Headings.{AddsHeadings, IsLeadIn, IsOwnHeading, heading_key};

use crate::entry_terms::labels_in;
use crate::term::Term;
use std::alloc::{AllocError, Global};
use std::cmp::Ordering;
use thes_base::data::LabelKind;
use thes_base::number::ResNo;
use thes_base::text::Tag;
use thes_core::Core;

/// The heading of an entry: a concept's term or, as a lead-in term, one of its alternative labels.
#[derive(Drop)]
pub struct Heading {
    pub term: Term,
    pub lead_in: bool,
}

impl Heading {
    // Returns 0 for a concept's term and 1 for a lead-in term, so that the term comes first among
    // the concept's headings with the same text.
    fn rank(&self) -> u8
        ensures { result ≡ cond self.now.lead_in 1 0 }
    {
        if self.lead_in { 1 } else { 0 }
    }

    // Compares two headings: by text, alphabetically, then by concept, and then by kind, with the
    // concept's term before its lead-in terms.
    fn order(&self, other: &Heading) -> Ordering
        ensures { result ≡ heading_cmp self.now other.now }
    {
        match self.term.order(&other.term) {
            Ordering::Equal => self.rank().cmp(&other.rank()),
            unequal => unequal,
        }
    }
}

// Returns the headings of the concepts' terms, in the order of the concepts.
fn own_headings(
    alloc: Global,
    core: &Core,
    concepts: &[ResNo],
    tag: &Tag,
) -> Result<Vec<Heading>, AllocError>
    requires unspent { core.now.spent ≡ false }
    requires rise { IsStrictlySortedBy nat_cmp concepts.now }
    ensures { let s = with_histories [] core.now in
        let is_own = IsOwnHeading s tag.now (Contains concepts.now) in
        IfOk result (λ headings. IsListing heading_key is_own headings.items) }
{
    let mut headings = Vec::new(alloc);
    for concept in concepts {
        let text = core.term(alloc, *concept, tag)?;
        headings.push(Heading {
            term: Term::new(alloc, text, *concept)?,
            lead_in: false,
        })?;
    }
    Ok(headings)
}

// Appends the headings of a concept's alternative labels in the language, in the order of their
// texts.
fn push_lead_ins(
    headings: &mut Vec<Heading>,
    alloc: Global,
    core: &Core,
    n: ResNo,
    tag: &Tag,
) -> Result<(), AllocError>
    requires { core.now.spent ≡ false }
    ensures { let is_lead_in = IsLeadIn (with_histories [] core.now) tag.now (λ m. m ≡ n) in
        OnOk result (AddsHeadings is_lead_in headings.old.items headings.new.items) }
{
    let labels = labels_in(alloc, core, n, LabelKind::Alt, tag)?;
    for label in &labels {
        let text = String::from_str(alloc, label.text())?;
        headings.push(Heading {
            term: Term::new(alloc, text, n)?,
            lead_in: true,
        })?;
    }
    Ok(())
}

// Appends the headings of the concepts' alternative labels in the language, in the order of the
// concepts.
fn push_all_lead_ins(
    headings: &mut Vec<Heading>,
    alloc: Global,
    core: &Core,
    concepts: &[ResNo],
    tag: &Tag,
) -> Result<(), AllocError>
    requires unspent { core.now.spent ≡ false }
    requires rise { IsStrictlySortedBy nat_cmp concepts.now }
    ensures { let s = with_histories [] core.now in
        let is_lead_in = IsLeadIn s tag.now (Contains concepts.now) in
        OnOk result (AddsHeadings is_lead_in headings.old.items headings.new.items) }
{
    for concept in concepts {
        push_lead_ins(headings, alloc, core, *concept, tag)?;
    }
    Ok(())
}

// Sorts headings in the order of the display.
fn sort_headings(headings: &mut Vec<Heading>) -> Result<(), AllocError>
    ensures same { IsPermutation headings.old.items headings.new.items }
    ensures sorted { OnOk result (IsSorted heading_cmp headings.new.items) }
{
    headings.sort_by(|a, b| a.order(b))?;
    Ok(())
}

/// Returns the headings of all live concepts of a scheme in a language, in the order of the
/// display. Collects all terms before the lead-in terms, since each of these two lists is often
/// already sorted, which makes the sort fast.
pub fn headings_of(
    alloc: Global,
    core: &Core,
    scheme: ResNo,
    tag: &Tag,
) -> Result<Vec<Heading>, AllocError>
    requires { core.now.spent ≡ false }
    ensures { let is_heading = IsHeading (with_histories [] core.now) tag.now scheme in
        IfOk result (λ headings. IsListing heading_cmp is_heading headings.items) }
{
    let concepts = core.live_of(scheme);
    let mut headings = own_headings(alloc, core, concepts, tag)?;
    push_all_lead_ins(&mut headings, alloc, core, concepts, tag)?;
    sort_headings(&mut headings)?;
    Ok(headings)
}
