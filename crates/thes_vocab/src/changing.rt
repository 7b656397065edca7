//! Changes of resources and labels. A call that runs out of memory leaves the vocabulary unchanged.
ghost use Rattle.std.specs.Prelude.{◌≡◌, ◌≢◌, ◌<◌, ◌+◌, ◌^◌, ℕ, length, OnOk, OnErr, None, Some};
ghost use Rattle.std.specs.FinMap as dict;
ghost use Rattle.std.specs.FinSet as set;
ghost use Rattle.thes_base.specs.RefusalRules.{accepted};
ghost use Rattle.thes_base.specs.Machine.{owned_label};
ghost use Rattle.thes_base.specs.Resources.{IsLiveConcept, BeginsWith};
ghost use Rattle.thes_base.specs.Changes.{state_after_creation, state_after_outside, labels_after_relabel};
ghost use Rattle.thes_base.specs.RuleParts.{unless_new_label, unless_droppable, unless_replaceable_preferred};
ghost use Rattle.thes_vocab.specs.Vocabulary.{bare_state, vocabulary_of, with_labels, vocabulary_after_death, IsLiveOwner, IsReplacement};
ghost use Rattle.thes_vocab.specs.NewResources.{unless_new, vocabulary_after_add, AddsResource, IsNewOwner, IsFreeName};

use crate::concepts;
use crate::names::{LabelledConcept, Name};
use crate::vocab::{Vocab, concept_scheme, scheme_if_concept};
use std::alloc::AllocError;
use thes_base::data::{Label, LabelValue, NewResource, Resource, ResourceKind};
use thes_base::number::ResNo;
use thes_base::text::{Iri, Tag, Text};

impl Vocab {
    /// Adds a scheme, or another resource that passes its check, and returns its number, which is
    /// the next one.
    pub fn add_resource(&mut self, new: NewResource) -> Result<ResNo, AllocError>
        requires allowed { unless_new self.old new accepted None }
        requires room { length self.old.resources + 1 < 2 ^ 32 }
        ensures { AddsResource self.old self.new (vocabulary_after_add new self.old) result }
    {
        match new {
            NewResource::Scheme(tag, text) => self.add_named(
                Resource::new(ResourceKind::Scheme, None),
                tag,
                text,
            ),
            NewResource::Concept(scheme, tag, text) => {
                self.add_named(
                    Resource::new(ResourceKind::Concept, Some(scheme)),
                    tag,
                    text,
                )
            }
            NewResource::Collection(scheme, tag, text) => {
                self.add_named(
                    Resource::new(ResourceKind::Collection, Some(scheme)),
                    tag,
                    text,
                )
            }
            NewResource::Outside(iri) => self.add_outside(iri),
        }
    }

    /// Adds a copy of a label that passes `check_label`.
    pub fn add_label(&mut self, owner: ResNo, label: &Label) -> Result<(), AllocError>
        requires owner { IsLiveOwner self.old.resources owner }
        requires allowed { let l = owned_label owner label.now in
            unless_new_label self.old.labels self.old.resources (set.insert self.old.labels l) l
            accepted None }
        ensures ok { OnOk result (self.new ≡
            with_labels self.old (set.insert self.old.labels (owned_label owner label.now))) }
        ensures err { OnErr result (self.new ≡ self.old) }
    {
        let copy = label.try_clone(self.alloc)?;
        let scheme = concept_scheme(self.resources.as_slice(), owner);
        self.names.put_label(scheme, label, owner)?;
        self.labels.insert(owner, copy)?;
        Ok(())
    }

    /// Removes a label that passes `check_drop`; never fails.
    pub fn drop_label(&mut self, owner: ResNo, label: &Label)
        requires owner { IsLiveOwner self.old.resources owner }
        requires allowed { unless_droppable self.old.labels
            (owned_label owner label.now) accepted None }
        ensures { self.new ≡
            with_labels self.old (set.remove self.old.labels (owned_label owner label.now)) }
    {
        self.labels
            .remove(owner, label.kind(), &label.tag, label.text());
        self.forget_name(owner, &label.tag, label.text());
    }

    /// Replaces the owner's preferred label in the language by a text that passes `check_relabel`;
    /// keeps the old one as an alternative label if `keep` is true.
    pub fn relabel(
        &mut self,
        owner: ResNo,
        tag: &Tag,
        text: &Text,
        keep: bool,
    ) -> Result<(), AllocError>
        requires owner { IsLiveOwner self.old.resources owner }
        requires allowed { let after =
            labels_after_relabel owner tag.now text.now keep self.old.labels in
            unless_replaceable_preferred self.old.labels self.old.resources after owner tag.now
            accepted None }
        ensures ok { let after = labels_after_relabel owner tag.now text.now keep self.old.labels in
            OnOk result (self.new ≡ with_labels self.old after) }
        ensures err { OnErr result (self.new ≡ self.old) }
    {
        let Some(known) = self.labels.preferred(owner, tag) else {
            return Ok(());
        };
        let old = known.try_clone(self.alloc)?;
        if old == *text {
            return Ok(());
        }
        let scheme = concept_scheme(self.resources.as_slice(), owner);
        self.names.put(scheme, tag, text, owner)?;
        let name = Name { tag, text };
        self.labels.rename(owner, &name, &old, keep)?;
        self.forget_name(owner, tag, old.as_str());
        Ok(())
    }

    /// Marks a live concept as dead, with its replacement if it was merged; never fails.
    pub fn mark_dead(&mut self, n: ResNo, replaced: Option<ResNo>)
        requires concept { IsLiveConcept self.old.resources n }
        requires replacement { IsReplacement self.old.resources n replaced }
        ensures { self.new ≡ vocabulary_after_death self.old n replaced }
    {
        let place = n.get() as usize - 1;
        let resource = self.resources[place];
        concepts::remove(&mut self.concepts, resource.scheme, n);
        self.resources[place] = Resource {
            kind: resource.kind,
            scheme: resource.scheme,
            live: false,
            replaced,
        };
    }

    // Removes from the index of preferred labels the entry of a label that the owner has lost.
    #[tactic(auto, using(crate::proofs::ConsistencyLemmas::kept_forgotten))]
    fn forget_name(&mut self, owner: ResNo, tag: &Tag, text: &str)
        ensures { self.new ≡ self.old }
    {
        let scheme = concept_scheme(self.resources.as_slice(), owner);
        let own = self.labels.of_owner(owner);
        let concept = LabelledConcept {
            number: owner,
            labels: own,
        };
        self.names.forget(scheme, tag, text, &concept);
    }

    // Adds a resource other than an outside concept, with its preferred label.
    fn add_named(&mut self, resource: Resource, tag: Tag, text: Text) -> Result<ResNo, AllocError>
        requires named { IsNewOwner self.old.resources resource }
        requires free { IsFreeName self.old.resources self.old.labels resource tag text }
        requires room { length self.old.resources + 1 < 2 ^ 32 }
        ensures { let after = state_after_creation resource tag text (bare_state self.old) in
            AddsResource self.old self.new (vocabulary_of self.old.base after) result }
    {
        let n = ResNo::new(self.resources.len() as u32 + 1);
        self.resources.try_reserve(1)?;
        concepts::make_room(&mut self.concepts, &resource)?;
        let scheme = scheme_if_concept(&resource);
        self.names.put(scheme, &tag, &text, n)?;
        let value = LabelValue::Pref(text);
        self.labels.insert(n, Label { tag, value })?;
        concepts::insert(&mut self.concepts, &resource, n);
        self.resources.push(resource).unwrap();
        Ok(n)
    }

    // Adds an outside concept with a new IRI that doesn't begin with the base.
    fn add_outside(&mut self, iri: Iri) -> Result<ResNo, AllocError>
        requires foreign { BeginsWith iri self.old.base → ⊥ }
        requires free { (n : ℕ) → dict.get self.old.iris n ≢ Some iri }
        requires room { length self.old.resources + 1 < 2 ^ 32 }
        ensures { let after = state_after_outside iri (bare_state self.old) in
            AddsResource self.old self.new (vocabulary_of self.old.base after) result }
    {
        let n = ResNo::new(self.resources.len() as u32 + 1);
        self.resources.try_reserve(1)?;
        self.iris.insert(n, iri)?;
        let resource = Resource::new(ResourceKind::Outside, None);
        self.resources.push(resource).unwrap();
        Ok(n)
    }
}
