//! A vocabulary: the resources and labels of a thesaurus, and look-ups of them.
ghost use Rattle.std.specs.Prelude.{◌≡◌, ◌<◌, ◌^◌, ◌↔◌, IsTrue, ℕ, length, None, Some, option_copied, MatchOption};
ghost use Rattle.std.specs.FinMap as dict;
ghost use Rattle.std.specs.FinSet as set;
ghost use Rattle.std.specs.Ordering.{nat_cmp};
ghost use Rattle.thes_base.specs.Listing.{IsListing};
ghost use Rattle.thes_base.specs.Resources.{entry_at, is_outside, IsLive, IsOutside};
ghost use Rattle.thes_base.specs.Labels.{preferred_label_in, IsPreferredTaken};
ghost use Rattle.thes_vocab.specs.OwnLabels.{AreLabelsOf};
ghost use Rattle.thes_vocab.specs.Vocabulary.{empty_vocabulary, concept_scheme, IsConceptOf, IsConceptIn, IsHolder};

use crate::iris::IriTable;
use crate::labels::LabelTable;
use crate::names::{Name, Names};
use std::alloc::Global;
use std::marker::Model;
use thes_base::data::{Label, Resource, ResourceKind};
use thes_base::number::ResNo;
use thes_base::text::{Base, Iri, Tag, Text};
use thes_lists::Lists;

/// The resources of a thesaurus, with the IRIs of outside concepts and the labels of all others.
///
/// Its labels meet SKOS S13 and S14. No two live concepts of a scheme have the same preferred label
/// in a language. Each scheme, concept and collection has a preferred label.
#[derive(Drop)]
pub struct Vocab {
    pub(crate) alloc: Global,
    pub(crate) base: Base,
    pub(crate) resources: Vec<Resource>,
    pub(crate) iris: IriTable,
    pub(crate) labels: LabelTable,
    // The index of preferred labels, for look-ups by text.
    pub(crate) names: Names,
    // The live concepts of each scheme, in ascending order.
    pub(crate) concepts: Lists<ResNo>,
}

impl Model for Vocab {
    ghost use Rattle.std.specs.Coded.{codes};
    ghost use Rattle.std.specs.FinMap as dict;
    ghost use Rattle.std.specs.FinSet as set;
    ghost use Rattle.thes_vocab.specs.OwnLabels.{AreLabelsOf};
    ghost use Rattle.thes_vocab.specs.Vocabulary.{Vocabulary, vocabulary_from};

    ghost Value = { Vocabulary };

    ghost coded = { Prim.hlevel (codes, set.code, dict.code) };

    ghost use Rattle.thes_vocab.specs.Consistency.{IsConsistentVocabulary};

    ghost view = { λ a. vocabulary_from a.base a.resources.items a.iris a.labels };

    ghost invariant = { λ a.
        IsConsistentVocabulary a.base a.resources.items a.iris a.labels a.names a.concepts };
}

impl Vocab {
    /// Creates a vocabulary without resources, without allocating.
    pub fn new(alloc: Global, base: Base) -> Vocab
        ensures { result ≡ empty_vocabulary base }
    {
        Vocab {
            alloc,
            base,
            resources: Vec::new(alloc),
            iris: IriTable::new(alloc),
            labels: LabelTable::new(alloc),
            names: Names::new(alloc),
            concepts: Lists::new(alloc),
        }
    }

    /// Returns the base, the prefix of the IRIs of schemes, concepts and collections.
    pub fn base(&self) -> &Base
        ensures { result.now ≡ self.now.base }
    {
        &self.base
    }

    /// Returns the resources; number `n` is at index `n - 1`.
    pub fn resources(&self) -> &[Resource]
        ensures value { result.now ≡ self.now.resources }
        ensures few { length result.now < 2 ^ 32 }
    {
        self.resources.as_slice()
    }

    /// Returns the resource with this number, live or dead.
    pub fn resource(&self, n: ResNo) -> Option<&Resource>
        ensures { option_copied result ≡ entry_at self.now.resources n }
    {
        resource_at(self.resources.as_slice(), n)
    }

    /// Checks whether the number is that of a live resource.
    pub fn is_live(&self, n: ResNo) -> bool
        ensures { IsTrue result ↔ IsLive self.now.resources n }
    {
        self.resource(n).is_some_and(|r| r.live)
    }

    /// Returns the live concepts of the scheme in ascending order; none if the number isn't a
    /// scheme's.
    pub fn live_of(&self, scheme: ResNo) -> &[ResNo]
        ensures { IsListing nat_cmp (IsConceptOf self.now.resources scheme) result.now }
    {
        self.concepts.at(scheme)
    }

    /// Returns the number of resources, dead ones included, which is also the greatest number in
    /// use.
    pub fn resource_count(&self) -> u64
        ensures count { result ≡ length self.now.resources }
        ensures few { result < 2 ^ 32 }
    {
        self.resources.len() as u64
    }

    /// Returns the number of labels and notes, those of dead concepts included.
    pub fn label_count(&self) -> u64
        ensures { result ≡ set.len self.now.labels }
    {
        self.labels.len()
    }

    /// Returns the owner's preferred label in the language.
    pub fn preferred(&self, owner: ResNo, tag: &Tag) -> Option<&Text>
        ensures { option_copied result ≡ preferred_label_in self.now.labels owner tag.now }
    {
        self.labels.preferred(owner, tag)
    }

    /// Returns the owner's labels, sorted by kind, language and text.
    pub fn labels_of(&self, owner: ResNo) -> &[Label]
        ensures { AreLabelsOf self.now.labels owner result.now }
    {
        self.labels.of_owner(owner)
    }

    /// Returns the live concept of the scheme that has this preferred label. There is at most one.
    pub fn holder(&self, scheme: ResNo, tag: &Tag, text: &Text) -> Option<ResNo>
        ensures { MatchOption result
            (¬ IsPreferredTaken self.now.resources self.now.labels scheme tag.now text.now)
            (IsHolder self.now.resources self.now.labels scheme tag.now text.now) }
    {
        let resources = self.resources.as_slice();
        let name = Name { tag, text };
        self.names.holder(resources, &self.labels, scheme, &name)
    }

    /// Returns the number of the outside concept that has the IRI.
    pub fn outside(&self, iri: &Iri) -> Option<ResNo>
        ensures { MatchOption result
            ((n : ℕ) → ¬ (dict.get self.now.iris n ≡ Some iri.now))
            (λ n. dict.get self.now.iris n ≡ Some iri.now) }
    {
        self.iris.number(iri)
    }

    /// Returns the IRI of an outside concept by its number; None if the number isn't an outside
    /// concept's.
    pub fn outside_iri(&self, n: ResNo) -> Option<&Iri>
        ensures { option_copied result ≡ dict.get self.now.iris n }
    {
        self.iris.iri(n)
    }
}

/// Returns the resource with this number, which is at index `n - 1`, or None if there is none.
pub fn resource_at(resources: &[Resource], n: ResNo) -> Option<&Resource>
    ensures { option_copied result ≡ entry_at resources.now n }
{
    resources.get(n.get() as usize - 1)
}

/// Checks whether the number is that of an outside concept.
pub fn is_outside(resources: &[Resource], n: ResNo) -> bool
    ensures value { result ≡ is_outside resources.now n }
    ensures outside { IsTrue result ↔ IsOutside resources.now n }
{
    match resource_at(resources, n).copied() {
        Some(resource) => resource.kind == ResourceKind::Outside,
        None => false,
    }
}

// Returns the scheme of a live concept by its number; None if the number isn't that of a live
// concept.
pub(crate) fn concept_scheme(resources: &[Resource], n: ResNo) -> Option<ResNo>
    ensures { MatchOption result ((scheme : ℕ) → IsConceptOf resources.now scheme n → ⊥)
        (λ scheme. IsConceptOf resources.now scheme n) }
{
    scheme_if_concept(resource_at(resources, n)?)
}

// Returns the scheme of a resource that is a live concept; None for other resources.
pub(crate) fn scheme_if_concept(resource: &Resource) -> Option<ResNo>
    ensures value { result ≡ concept_scheme resource.now }
    ensures scheme { MatchOption result ((scheme : ℕ) → IsConceptIn scheme resource.now → ⊥)
        (λ scheme. IsConceptIn scheme resource.now) }
{
    if resource.kind != ResourceKind::Concept || !resource.live {
        return None;
    }
    resource.scheme
}
