// The index of preferred labels by scheme, language and text.
ghost use Rattle.std.specs.Prelude.{◌≡◌, ◌↔◌, ◌<◌, ◌^◌, ℕ, false, true, IsTrue, Some, OnOk, MatchOption, length};
ghost use Rattle.std.specs.BTreeSet.{contains};
ghost use Rattle.std.specs.BTreeMap.{is_at};
ghost use Rattle.std.specs.List.{list_any};
ghost use Rattle.thes_base.specs.Data.{LabelData};
ghost use Rattle.thes_base.specs.Forms.{IsNumber};
ghost use Rattle.thes_base.specs.Labels.{IsPreferredTaken};
ghost use Rattle.thes_vocab.specs.Vocabulary.{IsHolder, concept_scheme};
ghost use Rattle.thes_vocab.specs.NameIndex.{name_digest, entry_cmp, has_digest, HasNameEntry, HasEntryInScheme, HasLabelEntry, KeepsNames, KeepsOtherNames, AreHoldersIndexed, LeadsToHolders};
ghost use Rattle.thes_vocab.specs.OwnLabels.{has_own};
ghost use Rattle.thes_vocab.specs.Rivals.{HasRival};

use crate::labels::LabelTable;
use crate::vocab::{concept_scheme, scheme_if_concept};
use std::alloc::{AllocError, Global};
use std::collections::BTreeSet;
use std::collections::btree_set::Range;
use std::hash::{FoldHasher, Hasher};
use thes_base::data::{Label, LabelKind, LabelValue, Resource};
use thes_base::number::ResNo;
use thes_base::text::{Tag, Text};

// A name: a text in a language.
#[derive(Clone, Copy)]
pub(crate) struct Name<'a> {
    pub(crate) tag: &'a Tag,
    pub(crate) text: &'a Text,
}

// A concept with its labels.
#[derive(Clone, Copy)]
pub(crate) struct LabelledConcept<'a> {
    pub(crate) number: ResNo,
    pub(crate) labels: &'a [Label],
}

// The index of preferred labels: for each preferred label of a live concept, an entry with a digest
// of the scheme, the language and the text, and the concept. A look-up checks the labels of the
// concepts under a digest, so superfluous entries do no harm.
#[derive(Drop)]
pub(crate) struct Names {
    entries: BTreeSet<(u32, ResNo)>,
}

impl Names {
    // Creates an empty index without allocating.
    pub(crate) fn new(alloc: Global) -> Names {
        Names {
            entries: BTreeSet::new(alloc),
        }
    }

    // Returns the live concept of the scheme that has the name as its preferred label. There is at
    // most one.
    pub(crate) fn holder(
        &self,
        resources: &[Resource],
        labels: &LabelTable,
        scheme: ResNo,
        name: &Name<'_>,
    ) -> Option<ResNo>
        requires few { length resources.now < 2 ^ 32 }
        requires found { AreHoldersIndexed resources.now labels.now self.now }
        ensures { MatchOption result
            (¬ IsPreferredTaken resources.now labels.now scheme name.now.tag.now name.now.text.now)
            (IsHolder resources.now labels.now scheme name.now.tag.now name.now.text.now) }
    {
        let digest = name_digest(scheme, name.tag, name.text.as_str());
        for entry in self.with_digest(digest) {
            if is_held(resources, labels, entry.1, scheme, name) {
                return Some(entry.1);
            }
        }
        None
    }

    // Checks whether the owner is a live concept, and another live concept of its scheme has the
    // name as its preferred label.
    pub(crate) fn has_rival(
        &self,
        resources: &[Resource],
        labels: &LabelTable,
        owner: ResNo,
        name: &Name<'_>,
    ) -> bool
        requires { LeadsToHolders resources.now labels.now self.now }
        ensures { IsTrue result
            ↔ HasRival resources.now labels.now owner name.now.tag.now name.now.text.now }
    {
        let Some(scheme) = concept_scheme(resources, owner) else {
            return false;
        };
        match self.holder(resources, labels, scheme, name) {
            Some(n) => n != owner,
            None => false,
        }
    }

    // Returns the entries with the digest, in ascending order of their concepts.
    fn with_digest(&self, digest: u32) -> Range<'_, (u32, ResNo)>
        ensures { (n : ℕ) → IsNumber n → contains entry_cmp self.now.entries (digest, n) ≡ true
            → list_any (is_at (entry_cmp (digest, n))) result ≡ true }
    {
        let first = (digest, ResNo::new(1));
        let last = (digest, ResNo::new(u32::MAX));
        self.entries.range(first..=last)
    }

    // Adds an entry for the concept, if the label is preferred and a scheme is given.
    pub(crate) fn put_label(
        &mut self,
        scheme: Option<ResNo>,
        label: &Label,
        concept: ResNo,
    ) -> Result<(), AllocError>
        ensures keeps { KeepsNames self.old self.new }
        ensures ok { OnOk result (HasLabelEntry self.new scheme label.now concept) }
    {
        match &label.value {
            LabelValue::Pref(text) => self.put(scheme, &label.tag, text, concept),
            _ => Ok(()),
        }
    }

    // Adds an entry for each preferred label of the resource, whose labels are in `own`, if it is a
    // live concept.
    pub(crate) fn put_all(
        &mut self,
        resource: &Resource,
        own: &[Label],
        n: ResNo,
    ) -> Result<(), AllocError>
        ensures keeps { KeepsNames self.old self.new }
        ensures ok { OnOk result ((l : LabelData) → has_own own.now l ≡ true
            → HasLabelEntry self.new (concept_scheme resource.now) l n) }
    {
        for label in own {
            self.put_label(scheme_if_concept(resource), label, n)?;
        }
        Ok(())
    }

    // Adds an entry for the concept with the preferred label, if a scheme is given.
    pub(crate) fn put(
        &mut self,
        scheme: Option<ResNo>,
        tag: &Tag,
        text: &Text,
        concept: ResNo,
    ) -> Result<(), AllocError>
        ensures keeps { KeepsNames self.old self.new }
        ensures ok { OnOk result (HasEntryInScheme self.new scheme tag.now text.now concept) }
    {
        match scheme {
            Some(scheme) => self.put_in(scheme, tag, text, concept),
            None => Ok(()),
        }
    }

    // Adds an entry for the concept with the preferred label in the scheme.
    fn put_in(
        &mut self,
        scheme: ResNo,
        tag: &Tag,
        text: &Text,
        concept: ResNo,
    ) -> Result<(), AllocError>
        ensures keeps { KeepsNames self.old self.new }
        ensures ok { OnOk result (HasNameEntry self.new scheme tag.now text.now concept) }
    {
        self.entries
            .insert((name_digest(scheme, tag, text.as_str()), concept))?;
        Ok(())
    }

    // Removes the entry for a label that the concept doesn't have, if a scheme is given, unless one
    // of the concept's preferred labels has the same digest.
    pub(crate) fn forget(
        &mut self,
        scheme: Option<ResNo>,
        tag: &Tag,
        text: &str,
        concept: &LabelledConcept<'_>,
    )
        ensures { KeepsOtherNames self.old self.new scheme
            concept.now.number concept.now.labels.now }
    {
        match scheme {
            Some(scheme) => self.forget_in(scheme, tag, text, concept),
            None => {}
        }
    }

    // Removes the entry in the scheme for a label that the concept doesn't have, unless one of the
    // concept's preferred labels has the same digest.
    fn forget_in(&mut self, scheme: ResNo, tag: &Tag, text: &str, concept: &LabelledConcept<'_>)
        ensures keeps { KeepsOtherNames self.old self.new (Some scheme)
            concept.now.number concept.now.labels.now }
        ensures gone { list_any (has_digest scheme (name_digest scheme tag.now text.now))
            concept.now.labels.now ≡ false
            → ¬ HasNameEntry self.new scheme tag.now text.now concept.now.number }
    {
        let digest = name_digest(scheme, tag, text);
        if !is_digest_of_one(concept.labels, scheme, digest) {
            self.entries.remove(&(digest, concept.number));
        }
    }
}

// Checks whether the number is that of a live concept of the scheme that has the name as its
// preferred label.
fn is_held(
    resources: &[Resource],
    labels: &LabelTable,
    n: ResNo,
    scheme: ResNo,
    name: &Name<'_>,
) -> bool
    ensures { IsTrue result
        ↔ IsHolder resources.now labels.now scheme name.now.tag.now name.now.text.now n }
{
    concept_scheme(resources, n) == Some(scheme)
        && labels.contains(n, LabelKind::Pref, name.tag, name.text.as_str())
}

// Checks whether one of the labels is preferred and has the digest in the scheme.
fn is_digest_of_one(own: &[Label], scheme: ResNo, digest: u32) -> bool
    ensures { result ≡ list_any (has_digest scheme digest) own.now }
{
    own.iter().any(|label| has_digest(label, scheme, digest))
}

// Checks whether the label is preferred and has the digest in the scheme.
fn has_digest(label: &Label, scheme: ResNo, digest: u32) -> bool
    ensures { result ≡ has_digest scheme digest label.now }
{
    label.kind().number() == 1 && name_digest(scheme, &label.tag, label.text()) == digest
}

// Returns a 32-bit digest of a preferred label in a scheme; different labels may share one.
#[tactic(auto, unfolding(crate::specs::NameIndex::name_digest))]
fn name_digest(scheme: ResNo, tag: &Tag, text: &str) -> u32
    ensures { result ≡ name_digest scheme tag.now text.now }
{
    let mut hasher = FoldHasher::default();
    hasher.write_u32(scheme.get());
    hasher.write(tag.as_str().as_bytes());
    hasher.write(text.as_bytes());
    (hasher.finish() % 4_294_967_296) as u32
}
