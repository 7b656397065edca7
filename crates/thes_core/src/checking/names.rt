//! Checks of requests for new resources and for changes of labels.
ghost use Rattle.std.specs.Prelude.{List, ℕ};
ghost use Rattle.thes_base.specs.declared.data.History.{History};
ghost use Rattle.thes_base.specs.declared.request.Command.TheVariants as request;
ghost use Rattle.thes_core.specs.Requests.{RefusalByParts};
ghost use Rattle.thes_core.specs.PartsView.{AreLegal};

use crate::arguments::check_owner;
use crate::room::Growth;
use crate::thesaurus::Thesaurus;
use thes_base::data::Label;
use thes_base::fault::Refusal;
use thes_base::number::ResNo;
use thes_base::text::{Iri, Tag, Text};

impl Thesaurus {
    // Checks a Scheme request, which only the limits can refuse.
    pub(super) fn check_scheme(&self) -> Option<Refusal>
        ensures { (histories : List History) → AreLegal self.now histories → (tag text : List ℕ)
            → RefusalByParts self.now histories (request.Scheme tag text) result }
    {
        self.check_room(Growth::NAMED)
    }

    // Checks a Concept request: its scheme, its preferred label, and the limits.
    pub(super) fn check_concept(&self, scheme: ResNo, tag: &Tag, text: &Text) -> Option<Refusal>
        ensures { (histories : List History) → AreLegal self.now histories
            → RefusalByParts self.now histories (request.Concept scheme tag.now text.now) result }
    {
        if let Some(refusal) = self.vocab.check_concept(scheme, tag, text) {
            return Some(refusal);
        }
        self.check_room(Growth::NAMED)
    }

    // Checks a Collection request: its scheme and the limits.
    pub(super) fn check_collection(&self, scheme: ResNo) -> Option<Refusal>
        ensures { (histories : List History) → AreLegal self.now histories → (tag text : List ℕ)
            → RefusalByParts self.now histories (request.Collection scheme tag text) result }
    {
        if let Some(refusal) = self.vocab.check_collection(scheme) {
            return Some(refusal);
        }
        self.check_room(Growth::NAMED)
    }

    // Checks an Outside request: its IRI and the limits.
    pub(super) fn check_outside(&self, iri: &Iri) -> Option<Refusal>
        ensures { (histories : List History) → AreLegal self.now histories
            → RefusalByParts self.now histories (request.Outside iri.now) result }
    {
        if let Some(refusal) = self.vocab.check_outside(iri) {
            return Some(refusal);
        }
        self.check_room(Growth {
            resources: 1,
            ..Growth::NONE
        })
    }

    // Checks an AddLabel request: its owner, the conditions on labels, and the limits.
    pub(super) fn check_add_label(&self, owner: ResNo, label: &Label) -> Option<Refusal>
        ensures { (histories : List History) → AreLegal self.now histories
            → RefusalByParts self.now histories (request.AddLabel owner label.now) result }
    {
        if let Some(refusal) = check_owner(&self.vocab, owner) {
            return Some(refusal);
        }
        if let Some(refusal) = self.vocab.check_label(owner, label) {
            return Some(refusal);
        }
        self.check_room(Growth {
            labels: 1,
            ..Growth::NONE
        })
    }

    // Checks a DropLabel request: its owner, and whether the label is there and isn't the owner's
    // only preferred label.
    pub(super) fn check_drop_label(&self, owner: ResNo, label: &Label) -> Option<Refusal>
        ensures { (histories : List History) → AreLegal self.now histories
            → RefusalByParts self.now histories (request.DropLabel owner label.now) result }
    {
        if let Some(refusal) = check_owner(&self.vocab, owner) {
            return Some(refusal);
        }
        self.vocab.check_drop(owner, label)
    }

    // Checks a Relabel request: its owner, the conditions on labels, and the limits.
    pub(super) fn check_relabel(
        &self,
        owner: ResNo,
        tag: &Tag,
        text: &Text,
        keep: bool,
    ) -> Option<Refusal>
        ensures { (histories : List History) → AreLegal self.now histories
            → RefusalByParts self.now histories
            (request.Relabel owner tag.now text.now keep) result }
    {
        if let Some(refusal) = check_owner(&self.vocab, owner) {
            return Some(refusal);
        }
        if let Some(refusal) = self.vocab.check_relabel(owner, tag, text, keep) {
            return Some(refusal);
        }
        self.check_room(Growth {
            labels: u64::from(keep),
            ..Growth::NONE
        })
    }
}
