//! Checks of requests on resources and labels. A public check returns the first refusal, or None if
//! the request passes. The checks don't cover the limits on numbers of resources and labels.
ghost use Rattle.std.specs.Prelude.{◌≡◌, ◌↔◌, IsTrue, false};
ghost use Rattle.std.specs.FinSet as set;
ghost use Rattle.thes_base.specs.declared.data.NewResource.TheVariants as new_resource;
ghost use Rattle.thes_base.specs.RefusalRules.{accepted};
ghost use Rattle.thes_base.specs.Labels.{S13, S14, UniquePreferred};
ghost use Rattle.std.specs.Bool.{MatchBool};
ghost use Rattle.thes_base.specs.Machine.{owned_label};
ghost use Rattle.thes_base.specs.Changes.{labels_after_relabel};
ghost use Rattle.thes_base.specs.RuleParts.{unless_scheme, unless_new_foreign_iri, unless_new_label, unless_droppable, unless_replaceable_preferred};
ghost use Rattle.thes_vocab.specs.Vocabulary.{IsLiveOwner};
ghost use Rattle.thes_vocab.specs.NewResources.{unless_new};
ghost use Rattle.thes_vocab.specs.Rivals.{HasRival};

use crate::names::Name;
use crate::vocab::{Vocab, resource_at};
use thes_base::data::{Label, LabelKind, LabelValue, ResourceKind};
use thes_base::fault::Refusal;
use thes_base::number::ResNo;
use thes_base::text::{Iri, Tag, Text};

impl Vocab {
    /// Checks whether a concept with this preferred label may be added: whether the number is that
    /// of a scheme in which no live concept has the label.
    pub fn check_concept(&self, scheme: ResNo, tag: &Tag, text: &Text) -> Option<Refusal>
        ensures { unless_new self.now
            (new_resource.Concept scheme tag.now text.now) accepted result }
    {
        let Some(resource) = resource_at(self.resources.as_slice(), scheme) else {
            return Some(Refusal::UnknownResource);
        };
        if resource.kind != ResourceKind::Scheme {
            return Some(Refusal::WrongKind);
        }
        if self.holder(scheme, tag, text).is_some() {
            return Some(Refusal::PreferredTaken);
        }
        None
    }

    /// Checks whether a collection may be added: whether the number is that of a scheme.
    pub fn check_collection(&self, scheme: ResNo) -> Option<Refusal>
        ensures { unless_scheme self.now.resources scheme accepted result }
    {
        let Some(resource) = resource_at(self.resources.as_slice(), scheme) else {
            return Some(Refusal::UnknownResource);
        };
        if resource.kind != ResourceKind::Scheme {
            return Some(Refusal::WrongKind);
        }
        None
    }

    /// Checks whether an outside concept may be added: whether its IRI doesn't begin with the base
    /// (or else `WrongKind`), and is new (or else `OutsideKnown`).
    pub fn check_outside(&self, iri: &Iri) -> Option<Refusal>
        ensures { unless_new_foreign_iri self.now.base self.now.iris iri.now accepted result }
    {
        if iri.as_str().starts_with(self.base.as_str()) {
            return Some(Refusal::WrongKind);
        }
        let known = self.outside(iri)?;
        Some(Refusal::OutsideKnown(known.get()))
    }

    /// Checks whether the label may be added to a live owner: whether it is new, and breaks none of
    /// S13, S14 and the uniqueness of preferred labels.
    pub fn check_label(&self, owner: ResNo, label: &Label) -> Option<Refusal>
        requires { IsLiveOwner self.now.resources owner }
        ensures { let l = owned_label owner label.now in
            unless_new_label self.now.labels self.now.resources
            (set.insert self.now.labels l) l accepted result }
    {
        if self
            .labels
            .contains(owner, label.kind(), &label.tag, label.text())
        {
            return Some(Refusal::LabelThere);
        }
        if self.breaks_s13(owner, label) {
            return Some(Refusal::S13);
        }
        if self.breaks_s14(owner, label) {
            return Some(Refusal::S14);
        }
        if self.breaks_unique(owner, label) {
            return Some(Refusal::PreferredTaken);
        }
        None
    }

    // Checks whether a new label would break SKOS S13, by giving its owner the text in the language
    // under two lexical kinds.
    fn breaks_s13(&self, owner: ResNo, label: &Label) -> bool
        requires { set.contains self.now.labels (owned_label owner label.now) ≡ false }
        ensures { let after = set.insert self.now.labels (owned_label owner label.now) in
            MatchBool result (S13 after → ⊥) (S13 after) }
    {
        label.kind() != LabelKind::Scope
            && self
                .labels
                .has_lexical_label(owner, &label.tag, label.text())
    }

    // Checks whether a new label would break SKOS S14, by giving its owner two preferred labels in
    // a language.
    fn breaks_s14(&self, owner: ResNo, label: &Label) -> bool
        requires { set.contains self.now.labels (owned_label owner label.now) ≡ false }
        ensures { let after = set.insert self.now.labels (owned_label owner label.now) in
            MatchBool result (S14 after → ⊥) (S14 after) }
    {
        label.kind() == LabelKind::Pref && self.labels.preferred(owner, &label.tag).is_some()
    }

    // Checks whether a new label would give two live concepts of a scheme the same preferred label.
    fn breaks_unique(&self, owner: ResNo, label: &Label) -> bool
        requires { UniquePreferred self.now.resources self.now.labels }
        ensures { let after = set.insert self.now.labels (owned_label owner label.now) in
            let is_unique = UniquePreferred self.now.resources after in
            MatchBool result (is_unique → ⊥) is_unique }
    {
        match &label.value {
            LabelValue::Pref(text) => self.has_rival(owner, &label.tag, text),
            _ => false,
        }
    }

    /// Checks whether a label may be removed from a live owner: whether the owner has it, and it
    /// isn't the owner's only preferred label.
    pub fn check_drop(&self, owner: ResNo, label: &Label) -> Option<Refusal>
        requires { IsLiveOwner self.now.resources owner }
        ensures { unless_droppable self.now.labels (owned_label owner label.now) accepted result }
    {
        if !self
            .labels
            .contains(owner, label.kind(), &label.tag, label.text())
        {
            return Some(Refusal::NoSuchLabel);
        }
        if label.kind() == LabelKind::Pref && !self.labels.has_two_preferred(owner) {
            return Some(Refusal::LastPreferred);
        }
        None
    }

    /// Checks whether the text may replace the live owner's preferred label in the language:
    /// whether the owner has one, and the text breaks neither S13 nor the uniqueness of preferred
    /// labels. If `keep` is true, the old one would stay as an alternative label.
    pub fn check_relabel(&self, owner: ResNo, tag: &Tag, text: &Text, keep: bool) -> Option<Refusal>
        requires { IsLiveOwner self.now.resources owner }
        ensures { let after = labels_after_relabel owner tag.now text.now keep self.now.labels in
            unless_replaceable_preferred self.now.labels self.now.resources after owner tag.now
            accepted result }
    {
        let Some(old) = self.labels.preferred(owner, tag) else {
            return Some(Refusal::NoSuchLabel);
        };
        let name = Name { tag, text };
        if self.labels.has_clash(owner, &name, old, keep) {
            return Some(Refusal::S13);
        }
        if self.has_rival(owner, tag, text) {
            return Some(Refusal::PreferredTaken);
        }
        None
    }

    // Checks whether the owner is a live concept, and another live concept of its scheme has the
    // preferred label.
    fn has_rival(&self, owner: ResNo, tag: &Tag, text: &Text) -> bool
        ensures { IsTrue result
            ↔ HasRival self.now.resources self.now.labels owner tag.now text.now }
    {
        let resources = self.resources.as_slice();
        let name = Name { tag, text };
        self.names.has_rival(resources, &self.labels, owner, &name)
    }
}
