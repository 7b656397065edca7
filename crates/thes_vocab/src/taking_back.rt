//! Takes back the creation of the last resource, the death of a concept, and the labels that a
//! merge copied.
ghost use Rattle.std.specs.Prelude.{◌≡◌, ℕ, Option, OnOk, OnErr};
ghost use Rattle.std.specs.FinSet as set;
ghost use Rattle.thes_base.specs.Legal.{AreLegalLabels};
ghost use Rattle.thes_vocab.specs.LabelRows.{labels_of_owner};
ghost use Rattle.thes_vocab.specs.Vocabulary.{Vocabulary, with_labels};
ghost use Rattle.thes_vocab.specs.TakingBack.{IsBeforeCreation, IsBeforeDeath, IsBeforeOutside};

use crate::concepts;
use crate::names::LabelledConcept;
use crate::vocab::{Vocab, scheme_if_concept};
use std::alloc::AllocError;
use thes_base::data::{Label, LabelKind, Resource};
use thes_base::number::ResNo;
use thes_base::text::{Iri, Tag, Text};

impl Vocab {
    /// Takes back the creation of the last resource and of its preferred label; never fails.
    pub fn take_back_named(&mut self, tag: &Tag, text: &Text)
        requires { (before : Vocabulary) × IsBeforeCreation tag.now text.now before self.old }
        ensures { (before : Vocabulary) → IsBeforeCreation tag.now text.now before self.old
            → self.new ≡ before }
    {
        let Some(resource) = self.resources.pop() else {
            return;
        };
        let n = ResNo::new(self.resources.len() as u32 + 1);
        let scheme = scheme_if_concept(&resource);
        concepts::remove(&mut self.concepts, scheme, n);
        self.labels.remove(n, LabelKind::Pref, tag, text.as_str());
        let scheme = scheme_if_concept(&resource);
        let own = self.labels.of_owner(n);
        let concept = LabelledConcept {
            number: n,
            labels: own,
        };
        self.names.forget(scheme, tag, text.as_str(), &concept);
    }

    /// Takes back the creation of the last resource, an outside concept with this IRI; never fails.
    pub fn take_back_outside(&mut self, iri: &Iri)
        requires { (before : Vocabulary) × IsBeforeOutside iri.now before self.old }
        ensures { (before : Vocabulary) → IsBeforeOutside iri.now before self.old
            → self.new ≡ before }
    {
        let Some(_) = self.resources.pop() else {
            return;
        };
        let n = ResNo::new(self.resources.len() as u32 + 1);
        self.iris.remove(n, iri);
    }

    /// Takes back the death of a concept: it is live again, and has no replacement. If memory runs
    /// out, nothing changes.
    pub fn take_back_death(&mut self, n: ResNo) -> Result<(), AllocError>
        requires { (before : Vocabulary) × (replaced : Option ℕ)
            × IsBeforeDeath n replaced before self.old }
        ensures ok { OnOk result ((before : Vocabulary) (replaced : Option ℕ)
            → IsBeforeDeath n replaced before self.old → self.new ≡ before) }
        ensures err { OnErr result (self.new ≡ self.old) }
    {
        let place = n.get() as usize - 1;
        let dead = self.resources[place];
        let concept = Resource::new(dead.kind, dead.scheme);
        concepts::make_room(&mut self.concepts, &concept)?;
        // The index needn't have entries for the labels of a dead concept.
        let own = self.labels.of_owner(n);
        self.names.put_all(&concept, own, n)?;
        concepts::insert(&mut self.concepts, &concept, n);
        self.resources[place] = concept;
        Ok(())
    }

    /// Removes these labels of an owner, as when a merge is taken back; the labels that are left
    /// must be legal. Never fails.
    pub fn drop_labels(&mut self, owner: ResNo, labels: &[Label])
        requires { AreLegalLabels self.old.resources
            (set.difference self.old.labels (labels_of_owner owner labels.now)) }
        ensures { self.new ≡ with_labels self.old
            (set.difference self.old.labels (labels_of_owner owner labels.now)) }
    {
        self.labels.remove_all(owner, labels);
    }
}
