// The index of live concepts: a sorted list of their numbers for each scheme.
ghost use Rattle.std.specs.Prelude.{OnOk};
ghost use Rattle.std.specs.Ordering.{nat_cmp};
ghost use Rattle.thes_lists.specs.Lists.{HaveSameValues, AreAllRising};
ghost use Rattle.thes_vocab.specs.Vocabulary.{concept_scheme};
ghost use Rattle.thes_vocab.specs.ConceptLists.{HasRoomIn, ConceptListsAfterInsert, ConceptListsAfterRemove};

use crate::vocab::scheme_if_concept;
use std::alloc::AllocError;
use thes_base::data::Resource;
use thes_base::number::ResNo;
use thes_lists::Lists;

// Reserves room for the resource in the list of its scheme, so that `insert` can't fail; does
// nothing if the resource isn't a live concept.
pub(crate) fn make_room(concepts: &mut Lists<ResNo>, resource: &Resource) -> Result<(), AllocError>
    ensures same { HaveSameValues concepts.old concepts.new }
    ensures room { OnOk result (HasRoomIn concepts.new (concept_scheme resource.now)) }
{
    match scheme_if_concept(resource) {
        Some(scheme) => concepts.make_room(scheme),
        None => Ok(()),
    }
}

// Inserts the resource's number `n` in the list of its scheme; does nothing if the resource isn't a
// live concept.
pub(crate) fn insert(concepts: &mut Lists<ResNo>, resource: &Resource, n: ResNo)
    requires room { HasRoomIn concepts.old (concept_scheme resource.now) }
    requires rise { AreAllRising nat_cmp concepts.old }
    ensures { ConceptListsAfterInsert concepts.old concepts.new (concept_scheme resource.now) n }
{
    match scheme_if_concept(resource) {
        Some(scheme) => concepts.insert(scheme, n),
        None => {}
    }
}

// Removes a concept's number from the list of its scheme; does nothing if no scheme is given.
pub(crate) fn remove(concepts: &mut Lists<ResNo>, scheme: Option<ResNo>, n: ResNo)
    requires { AreAllRising nat_cmp concepts.old }
    ensures { ConceptListsAfterRemove concepts.old concepts.new scheme n }
{
    match scheme {
        Some(scheme) => concepts.remove(scheme, &n),
        None => {}
    }
}
