//! An index of headings by concept, from which entries take the terms of linked concepts.
ghost use Rattle.std.specs.Prelude.{◌≡◌, IfOk, IfSome};
ghost use Rattle.thes_display.specs.HeadingIndex.{ArePlaces, AreSortedPlaces};
ghost use Rattle.thes_display.specs.HierarchyParts.{rank_at};

use crate::heading::Heading;
use crate::number_table::{concept_values, set_value};
use std::alloc::{AllocError, Global};
use thes_base::number::ResNo;

/// The headings of a display in order, and, at the number of each concept, the place of the heading
/// that is its own term, not a lead-in term.
#[derive(Drop)]
pub struct HeadingIndex {
    pub headings: Vec<Heading>,
    pub places: Vec<Option<usize>>,
}

// Returns the places of the concepts' own headings, each at the number of its concept.
fn places_of(alloc: Global, headings: &[Heading]) -> Result<Vec<Option<usize>>, AllocError>
    ensures { IfOk result (λ places. ArePlaces headings.now (rank_at places.items)) }
{
    let mut places = Vec::new(alloc);
    for (place, heading) in headings.iter().enumerate() {
        if !heading.lead_in {
            set_value(&mut places, heading.term.concept().get() as usize, place)?;
        }
    }
    Ok(places)
}

/// Makes an index of the headings of a display.
pub fn index_of(alloc: Global, headings: Vec<Heading>) -> Result<HeadingIndex, AllocError>
    ensures headings { IfOk result (λ index. index.headings.items ≡ headings.items) }
    ensures places { IfOk result
        (λ index. ArePlaces headings.items (rank_at index.places.items)) }
{
    let places = places_of(alloc, headings.as_slice())?;
    Ok(HeadingIndex { headings, places })
}

/// Returns the places of these concepts' own headings, sorted, or None if a concept has no heading.
pub fn sorted_places(
    alloc: Global,
    places: &[Option<usize>],
    concepts: &[ResNo],
) -> Result<Option<Vec<usize>>, AllocError>
    ensures { IfOk result (λ found. IfSome found
        (λ ks. AreSortedPlaces (rank_at places.now) concepts.now ks.items)) }
{
    let mut found = concept_values(alloc, places, concepts)?;
    if found.len() < concepts.len() {
        return Ok(None);
    }
    found.sort()?;
    Ok(Some(found))
}
