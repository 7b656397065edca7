//! Loads a vocabulary row by row, and checks that the rows together satisfy the invariant of a
//! vocabulary.
ghost use Rattle.std.specs.Prelude.{◌≡◌, ◌<◌, ◌^◌, ◌↔◌, ℕ, List, [], IsTrue, IfOk, OnOk, true, MatchOption, length};
ghost use Rattle.std.specs.Ordering.{nat_cmp};
ghost use Rattle.thes_base.specs.declared.data.LabelKind.TheVariants.{Pref};
ghost use Rattle.thes_base.specs.Resources.{CanOwn, IsOutside};
ghost use Rattle.thes_base.specs.Labels.{HasLabel, HasPreferred, EachHasPreferred, is_lexical_kind};
ghost use Rattle.thes_base.specs.Changes.{has_lexical_label};
ghost use Rattle.thes_base.specs.Machine.{owned_label};
ghost use Rattle.thes_lists.specs.Lists.{listed_at, AreListings};
ghost use Rattle.thes_vocab.specs.Vocabulary.{IsConceptOf};
ghost use Rattle.thes_vocab.specs.NameIndex.{LeadsToHolders};
ghost use Rattle.thes_vocab.specs.Loading.{AreSound, AreIrisSoFar, AreLabelsSoFar, HasIri, HaveIris, IsFreeIri, LoadIriResult, LoadLabelResult, IsFreeLabel, bare_vocabulary};

use crate::concepts;
use crate::iris::IriTable;
use crate::labels::LabelTable;
use crate::names::{Name, Names};
use crate::vocab::{Vocab, concept_scheme, is_outside, resource_at};
use std::alloc::{AllocError, Global};
use std::marker::Model;
use thes_base::data::{Label, LabelKind, LabelValue, Resource, ResourceKind};
use thes_base::number::ResNo;
use thes_base::text::{Base, Iri};
use thes_lists::Lists;

/// A vocabulary that is being loaded: all its resources are given at the start, and IRIs and labels
/// are added one by one.
#[derive(Drop)]
pub struct VocabLoad {
    alloc: Global,
    base: Base,
    resources: Vec<Resource>,
    iris: IriTable,
    labels: LabelTable,
    names: Names,
    concepts: Lists<ResNo>,
}

impl Model for VocabLoad {
    ghost use Rattle.std.specs.Coded.{codes};
    ghost use Rattle.std.specs.FinMap as dict;
    ghost use Rattle.std.specs.FinSet as set;
    ghost use Rattle.thes_vocab.specs.Vocabulary.{Vocabulary, vocabulary_from};
    ghost use Rattle.thes_vocab.specs.Loading.{IsLoading};

    ghost Value = { Vocabulary };

    ghost coded = { Prim.hlevel (codes, set.code, dict.code) };

    ghost view = { λ a. vocabulary_from a.base a.resources.items a.iris a.labels };

    ghost invariant = { λ a.
        IsLoading a.base a.resources.items a.iris a.labels a.names a.concepts };
}

impl VocabLoad {
    /// Creates a vocabulary to load, with all its resources, and without IRIs and labels.
    pub fn new(alloc: Global, base: Base, resources: Vec<Resource>) -> Result<VocabLoad, AllocError>
        requires { AreSound resources.items }
        ensures { IfOk result (λ load. load ≡ bare_vocabulary base resources.items) }
    {
        let mut concepts = Lists::new(alloc);
        list_all(&mut concepts, resources.as_slice())?;
        Ok(VocabLoad {
            alloc,
            base,
            resources,
            iris: IriTable::new(alloc),
            labels: LabelTable::new(alloc),
            names: Names::new(alloc),
            concepts,
        })
    }

    /// Returns the resources; number `n` is at index `n - 1`.
    pub fn resources(&self) -> &[Resource]
        ensures value { result.now ≡ self.now.resources }
        ensures few { length result.now < 2 ^ 32 }
    {
        self.resources.as_slice()
    }

    /// Adds the IRI of an outside concept. Returns false, and changes nothing, if the IRI isn't new
    /// or begins with the base, or the number isn't that of an outside concept without an IRI.
    pub fn take_iri(&mut self, n: ResNo, iri: Iri) -> Result<bool, AllocError>
        ensures { IfOk result (LoadIriResult self.old self.new n iri) }
    {
        if is_free_iri(&self.base, self.resources.as_slice(), &self.iris, n, &iri) {
            self.iris.insert(n, iri)?;
            Ok(true)
        } else {
            Ok(false)
        }
    }

    /// Checks whether each outside concept has an IRI, as `close` requires.
    pub fn has_all_iris(&self) -> bool
        ensures { IsTrue result ↔ HaveIris self.now }
    {
        have_iris(self.resources.as_slice(), &self.iris)
    }

    /// No effect; for the proof, states what holds of the rows loaded so far.
    pub fn learn_rows_so_far(&self)
        ensures sound { AreSound self.now.resources }
        ensures iris { AreIrisSoFar self.now.base self.now.resources self.now.iris }
        ensures labels { AreLabelsSoFar self.now.resources self.now.labels }
    {
        let _ = &self.alloc;
    }

    /// Adds a label. Returns false, and changes nothing, if its owner already has it or can't have
    /// labels, or it would break S13, S14 or the uniqueness of preferred labels.
    pub fn take_label(&mut self, owner: ResNo, label: Label) -> Result<bool, AllocError>
        ensures { IfOk result (LoadLabelResult self.old self.new (owned_label owner label)) }
    {
        if is_free_label(
            self.resources.as_slice(),
            &self.labels,
            &self.names,
            owner,
            &label,
        ) {
            let scheme = concept_scheme(self.resources.as_slice(), owner);
            self.names.put_label(scheme, &label, owner)?;
            self.labels.insert(owner, label)?;
            Ok(true)
        } else {
            Ok(false)
        }
    }

    /// Returns the loaded vocabulary, or None if some scheme, concept or collection has no
    /// preferred label.
    pub fn close(self) -> Option<Vocab>
        requires { HaveIris self }
        ensures { MatchOption result (EachHasPreferred self.resources self.labels → ⊥)
            (λ vocab. EachHasPreferred self.resources self.labels × (vocab ≡ self)) }
    {
        if are_named(self.resources.as_slice(), &self.labels) {
            Some(Vocab {
                alloc: self.alloc,
                base: self.base,
                resources: self.resources,
                iris: self.iris,
                labels: self.labels,
                names: self.names,
                concepts: self.concepts,
            })
        } else {
            None
        }
    }
}

// Adds the number of each live concept to the list of its scheme.
fn list_all(concepts: &mut Lists<ResNo>, resources: &[Resource]) -> Result<(), AllocError>
    requires few { AreSound resources.now }
    requires none { (n : ℕ) → listed_at concepts.old n ≡ [] }
    ensures { OnOk result (AreListings nat_cmp (IsConceptOf resources.now) concepts.new) }
{
    for (i, resource) in resources.iter().enumerate() {
        concepts::make_room(concepts, resource)?;
        concepts::insert(concepts, resource, ResNo::new(i as u32 + 1));
    }
    Ok(())
}

// Checks whether the number is that of a scheme, a concept or a collection, which can have labels.
fn can_own(resources: &[Resource], n: ResNo) -> bool
    ensures { IsTrue result ↔ CanOwn resources.now n }
{
    match resource_at(resources, n).copied() {
        Some(resource) => resource.kind != ResourceKind::Outside,
        None => false,
    }
}

// Checks whether the number is that of an outside concept without an IRI, and the IRI is new and
// doesn't begin with the base.
fn is_free_iri(base: &Base, resources: &[Resource], iris: &IriTable, n: ResNo, iri: &Iri) -> bool
    ensures { IsTrue result ↔ IsFreeIri base.now resources.now iris.now n iri.now }
{
    if !is_outside(resources, n) {
        return false;
    }
    match iris.iri(n) {
        Some(_) => false,
        None => match iris.number(iri) {
            Some(_) => false,
            None => !iri.as_str().starts_with(base.as_str()),
        },
    }
}

// Checks whether each outside concept has an IRI.
fn have_iris(resources: &[Resource], iris: &IriTable) -> bool
    requires { AreSound resources.now }
    ensures { IsTrue result ↔ ((n : ℕ) → IsOutside resources.now n → HasIri iris.now n) }
{
    for i in 0..resources.len() {
        let n = ResNo::new(i as u32 + 1);
        if is_outside(resources, n) {
            match iris.iri(n) {
                Some(_) => {}
                None => return false,
            }
        }
    }
    true
}

// Checks whether the label may be added to those loaded so far: whether its owner can have labels
// and lacks this one, and it breaks none of S13, S14 and the uniqueness of preferred labels.
fn is_free_label(
    resources: &[Resource],
    labels: &LabelTable,
    names: &Names,
    owner: ResNo,
    label: &Label,
) -> bool
    requires { LeadsToHolders resources.now labels.now names.now }
    ensures { IsTrue result ↔ IsFreeLabel resources.now labels.now (owned_label owner label.now) }
{
    if !can_own(resources, owner) {
        return false;
    }
    if labels.contains(owner, label.kind(), &label.tag, label.text()) {
        return false;
    }
    if repeats_name(labels, owner, label) {
        return false;
    }
    if repeats_preferred(labels, owner, label) {
        return false;
    }
    match &label.value {
        LabelValue::Pref(text) => {
            let name = Name {
                tag: &label.tag,
                text,
            };
            !names.has_rival(resources, labels, owner, &name)
        }
        _ => true,
    }
}

// Checks whether the label is lexical, and its owner has the text in the language under one of the
// three lexical kinds.
fn repeats_name(labels: &LabelTable, owner: ResNo, label: &Label) -> bool
    ensures { IsTrue result ↔ ((is_lexical_kind label.now.kind ≡ true)
        × (has_lexical_label labels.now owner label.now.tag label.now.text ≡ true)) }
{
    label.kind() != LabelKind::Scope && labels.has_lexical_label(owner, &label.tag, label.text())
}

// Checks whether the label would be a second preferred label of its owner in the language.
fn repeats_preferred(labels: &LabelTable, owner: ResNo, label: &Label) -> bool
    ensures { IsTrue result ↔ ((label.now.kind ≡ Pref)
        × ((text : List ℕ) × HasLabel labels.now owner Pref label.now.tag text)) }
{
    label.kind() == LabelKind::Pref && labels.preferred(owner, &label.tag).is_some()
}

// Checks whether each scheme, concept and collection has a preferred label in some language.
fn are_named(resources: &[Resource], labels: &LabelTable) -> bool
    requires { AreSound resources.now }
    ensures { IsTrue result ↔ EachHasPreferred resources.now labels.now }
{
    for i in 0..resources.len() {
        let n = ResNo::new(i as u32 + 1);
        if can_own(resources, n) {
            if has_preferred(labels, n) {} else {
                return false;
            }
        }
    }
    true
}

// Checks whether the owner has a preferred label in some language.
fn has_preferred(labels: &LabelTable, owner: ResNo) -> bool
    ensures { IsTrue result ↔ HasPreferred labels.now owner }
{
    for label in labels.of_owner(owner) {
        if label.kind() == LabelKind::Pref {
            return true;
        }
    }
    false
}
