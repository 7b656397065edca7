//! Look-ups in a core. Only `is_spent` may be called on an unusable one.
ghost use Rattle.std.specs.Prelude.{◌≡◌, ◌↔◌, ◌⊎◌, ℕ, Some, false, true, IfOk, IsTrue, MatchOption};
ghost use Rattle.std.specs.FinMap as dict;
ghost use Rattle.std.specs.Option.{option_copied};
ghost use Rattle.std.specs.Ordering.{nat_cmp};
ghost use Rattle.thes_base.specs.declared.data.LinkKind.TheVariants as kinds;
ghost use Rattle.thes_base.specs.Headline.{IsConsistentState};
ghost use Rattle.thes_base.specs.Labels.{IsPreferredTaken, preferred_label_in};
ghost use Rattle.thes_base.specs.Links.{Holds, normal_form};
ghost use Rattle.thes_base.specs.Listing.{IsListing};
ghost use Rattle.thes_base.specs.Resources.{is_outside, entry_at, replacements, IsLive};
ghost use Rattle.thes_base.specs.State.{State};
ghost use Rattle.thes_base.specs.Views.{HasLink, HasBroader, IsMapping, IsTypedLink, mapping_cmp, typed_cmp};
ghost use Rattle.thes_core.specs.CoreSizes.{AreSizesOf, AreTotalsOf};
ghost use Rattle.thes_core.specs.CoreView.{IsViewOf};
ghost use Rattle.thes_post.specs.PostingCounts.{count_of};
ghost use Rattle.thes_vocab.specs.OwnLabels.{AreLabelsOf};
ghost use Rattle.thes_vocab.specs.Vocabulary.{IsHolder};

use crate::machine::Core;
use std::alloc::{AllocError, Global};
use thes_base::data::{Label, Link, LinkKind, Resource, Totals, TypedKind};
use thes_base::number::ResNo;
use thes_base::text::{Iri, Tag, Text};

/// The numbers of a state's resources, labels, links, postings (all accepted, and those withdrawn)
/// and moves.
#[derive(Clone, Copy, Debug, PartialEq, Eq)]
pub struct Sizes {
    pub resources: u64,
    pub labels: u64,
    pub links: u64,
    pub accepted: u64,
    pub withdrawn: u64,
    pub moves: u64,
}

impl Core {
    /// Returns whether the core is unusable until it is loaded again: running out of memory has
    /// left its state half changed, or `mark_spent` was called. The state of a usable core is
    /// consistent: each posting that isn't withdrawn is assigned to exactly one live concept, the
    /// counts add up, and the triples meet the conditions of SKOS.
    pub fn is_spent(&self) -> bool
        ensures value { result ≡ self.now.spent }
        ensures in_order { result ≡ false → (s : State) → IsViewOf self.now s
            → IsConsistentState self.now.setting.base s }
    {
        self.spent
    }

    /// Returns the sizes of the state; `accepted` includes withdrawn postings.
    pub fn sizes(&self) -> Sizes
        requires { self.now.spent ≡ false }
        ensures { AreSizesOf self.now result }
    {
        let totals = self.thesaurus.book.totals();
        Sizes {
            resources: self.thesaurus.vocab.resource_count(),
            labels: self.thesaurus.vocab.label_count(),
            links: self.thesaurus.graph.size(),
            accepted: totals.accepted,
            withdrawn: totals.withdrawn,
            moves: u64::from(self.thesaurus.book.moves()),
        }
    }

    /// Returns the numbers of postings accepted, withdrawn, and not withdrawn, from the core's
    /// counts.
    pub fn totals(&self) -> Totals
        requires { self.now.spent ≡ false }
        ensures { AreTotalsOf self.now.posting_counts result }
    {
        self.thesaurus.book.totals()
    }

    /// Returns the number of postings assigned to a concept, from the core's counts; 0 for a number
    /// that isn't a concept's.
    pub fn count(&self, concept: ResNo) -> u64
        requires { self.now.spent ≡ false }
        ensures { result ≡ count_of self.now.posting_counts concept }
    {
        self.thesaurus.book.count(concept)
    }

    /// Returns the resource with this number, live or dead, from the core's vocabulary.
    pub fn resource(&self, n: ResNo) -> Option<&Resource>
        requires { self.now.spent ≡ false }
        ensures { option_copied result ≡ entry_at self.now.resources n }
    {
        self.thesaurus.vocab.resource(n)
    }

    /// Returns a concept's chain of replacements from the core's vocabulary, in order, without the
    /// concept itself.
    pub fn replacements(&self, alloc: Global, concept: ResNo) -> Result<Vec<ResNo>, AllocError>
        requires { self.now.spent ≡ false }
        ensures { IfOk result (λ way. way.items ≡ replacements self.now.resources concept) }
    {
        self.thesaurus.vocab.replacements(alloc, concept)
    }

    /// Checks whether the number is that of a live resource of the core's vocabulary.
    pub fn is_live(&self, n: ResNo) -> bool
        requires { self.now.spent ≡ false }
        ensures { IsTrue result ↔ IsLive self.now.resources n }
    {
        self.thesaurus.vocab.is_live(n)
    }

    /// Returns the owner's preferred label in the language, from the core's vocabulary. There is at
    /// most one (SKOS S14).
    pub fn preferred(&self, owner: ResNo, tag: &Tag) -> Option<&Text>
        requires { self.now.spent ≡ false }
        ensures { option_copied result ≡ preferred_label_in self.now.labels owner tag.now }
    {
        self.thesaurus.vocab.preferred(owner, tag)
    }

    /// Returns the owner's labels from the core's vocabulary, sorted by kind, language and text.
    pub fn labels_of(&self, owner: ResNo) -> &[Label]
        requires { self.now.spent ≡ false }
        ensures { AreLabelsOf self.now.labels owner result.now }
    {
        self.thesaurus.vocab.labels_of(owner)
    }

    /// Returns the live concept of the scheme that has this preferred label in the core's
    /// vocabulary. There is at most one.
    pub fn holder(&self, scheme: ResNo, tag: &Tag, text: &Text) -> Option<ResNo>
        requires { self.now.spent ≡ false }
        ensures { let s = self.now in
            MatchOption result (¬ IsPreferredTaken s.resources s.labels scheme tag.now text.now)
            (IsHolder s.resources s.labels scheme tag.now text.now) }
    {
        self.thesaurus.vocab.holder(scheme, tag, text)
    }

    /// Returns the number of the outside concept that has the IRI in the core's vocabulary.
    pub fn outside(&self, iri: &Iri) -> Option<ResNo>
        requires { self.now.spent ≡ false }
        ensures { let has_iri = λ (n : ℕ). dict.get self.now.iris n ≡ Some iri.now in
            MatchOption result ((n : ℕ) → ¬ has_iri n) has_iri }
    {
        self.thesaurus.vocab.outside(iri)
    }

    /// Returns the IRI that the outside concept with this number has in the core's vocabulary.
    pub fn outside_iri(&self, n: ResNo) -> Option<&Iri>
        requires { self.now.spent ≡ false }
        ensures { option_copied result ≡ dict.get self.now.iris n }
    {
        self.thesaurus.vocab.outside_iri(n)
    }

    /// Checks whether the core's links have this one in its normal form, so that a symmetric link
    /// may be stated from either end.
    pub fn has(&self, link: &Link) -> bool
        requires { self.now.spent ≡ false }
        ensures { let s = self.now in
            IsTrue result ↔ Holds s.links (normal_form (is_outside s.resources) link.now) }
    {
        self.thesaurus.graph.has(link)
    }

    /// Returns the concepts broader than this one in its scheme, by the core's links of any type,
    /// in ascending order.
    pub fn broader_of(&self, alloc: Global, n: ResNo) -> Result<Vec<ResNo>, AllocError>
        requires { self.now.spent ≡ false }
        ensures { let is_broader = HasBroader self.now.links n in
            IfOk result (λ found. IsListing nat_cmp is_broader found.items) }
    {
        self.thesaurus.graph.broader_of(alloc, n)
    }

    /// Returns the concepts narrower than this one in its scheme, by the core's links of any type,
    /// in ascending order.
    pub fn narrower_of(&self, alloc: Global, n: ResNo) -> Result<Vec<ResNo>, AllocError>
        requires { self.now.spent ≡ false }
        ensures { let is_narrower = λ (a : ℕ). HasBroader self.now.links a n in
            IfOk result (λ found. IsListing nat_cmp is_narrower found.items) }
    {
        self.thesaurus.graph.narrower_of(alloc, n)
    }

    /// Returns the concepts related to this one in its scheme by the core's links, in ascending
    /// order.
    pub fn related_of(&self, alloc: Global, n: ResNo) -> Result<Vec<ResNo>, AllocError>
        requires { self.now.spent ≡ false }
        ensures { let has = HasLink self.now.links kinds.Related in
            IfOk result (λ found. IsListing nat_cmp (λ m. has n m ⊎ has m n) found.items) }
    {
        self.thesaurus.graph.related_of(alloc, n)
    }

    /// Returns the collections of which the core's links make the concept a member, in ascending
    /// order.
    pub fn collections_of(&self, alloc: Global, n: ResNo) -> Result<Vec<ResNo>, AllocError>
        requires { self.now.spent ≡ false }
        ensures { let has_member = λ (c : ℕ). HasLink self.now.links kinds.Member c n in
            IfOk result (λ found. IsListing nat_cmp has_member found.items) }
    {
        self.thesaurus.graph.collections_of(alloc, n)
    }

    /// Returns the mappings of the concept among the core's links: for each the kind, as seen from
    /// the concept, and the other end; sorted by the name of the kind and then by number.
    pub fn mappings(&self, alloc: Global, n: ResNo) -> Result<Vec<(LinkKind, ResNo)>, AllocError>
        requires { self.now.spent ≡ false }
        ensures { let is_mapping = IsMapping self.now.links n in
            IfOk result (λ found. IsListing mapping_cmp is_mapping found.items) }
    {
        self.thesaurus.graph.mappings(alloc, n)
    }

    /// Returns the typed hierarchical links of the concept among the core's links: for each the
    /// type, as seen from the concept, and the other end; sorted by the name of the type and then
    /// by number.
    pub fn typed_of(&self, alloc: Global, n: ResNo) -> Result<Vec<(TypedKind, ResNo)>, AllocError>
        requires { self.now.spent ≡ false }
        ensures { let is_typed = IsTypedLink self.now.links n in
            IfOk result (λ found. IsListing typed_cmp is_typed found.items) }
    {
        self.thesaurus.graph.typed_of(alloc, n)
    }
}
