//! A vocabulary whose calls have no contracts. Each change is checked before it is applied.
ghost use Rattle.std.specs.Prelude.{IsTrue, Some};
ghost use Rattle.thes_base.specs.RefusalRules.{accepted};
ghost use Rattle.thes_base.specs.Resources.{IsLiveConcept};
ghost use Rattle.thes_vocab.specs.NewResources.{unless_new};
ghost use Rattle.thes_vocab.specs.Vocabulary.{IsLiveOwner, IsReplacement};

use std::alloc::{AllocError, Global};
use thes_base::data::{Label, LabelKind, LabelValue, NewResource, Resource, ResourceKind};
use thes_base::fault::{ReadStop, Refusal};
use thes_base::number::ResNo;
use thes_base::text::{Base, Iri, Note, Tag, Text};
use thes_vocab::Vocab;

/// The answer to a change: done, the number of the new resource, how many labels the target gained,
/// or the refusal.
#[derive(Clone, Copy, Debug, PartialEq, Eq)]
pub enum Answer {
    Done,
    Number(u32),
    Gained(u64),
    No(Refusal),
}

/// The kind of a change of a label: its addition or its removal.
#[derive(Clone, Copy)]
pub enum Change {
    Add,
    Remove,
}

/// Returns `n` as the number of a resource, or 1 if `n` is 0.
pub fn no(n: u32) -> ResNo {
    ResNo::new(n.max(1))
}

/// Reads the tag and the text of a label of this kind.
pub fn label(alloc: Global, kind: LabelKind, tag: &str, text: &str) -> Result<Label, ReadStop> {
    let tag = Tag::read(alloc, tag)?;
    let value = match kind {
        LabelKind::Pref => LabelValue::Pref(Text::read(alloc, text)?),
        LabelKind::Alt => LabelValue::Alt(Text::read(alloc, text)?),
        LabelKind::Hidden => LabelValue::Hidden(Text::read(alloc, text)?),
        LabelKind::Scope => LabelValue::Scope(Note::read(alloc, text)?),
    };
    Ok(Label { tag, value })
}

// Checks whether the labels of this resource may be changed.
fn is_owner(vocab: &Vocab, n: ResNo) -> bool
    ensures { IsTrue result → IsLiveOwner vocab.now.resources n }
{
    let Some(resource) = vocab.resource(n).copied() else {
        return false;
    };
    resource.live && resource.kind != ResourceKind::Outside
}

fn is_live_concept(vocab: &Vocab, n: ResNo) -> bool
    ensures { IsTrue result → IsLiveConcept vocab.now.resources n }
{
    let Some(resource) = vocab.resource(n).copied() else {
        return false;
    };
    resource.kind == ResourceKind::Concept && resource.live
}

// Checks whether the target is another live concept of the source's scheme.
fn may_replace(vocab: &Vocab, source: ResNo, target: ResNo) -> bool
    ensures { IsTrue result → IsReplacement vocab.now.resources source (Some target) }
{
    let Some(from) = vocab.resource(source).copied() else {
        return false;
    };
    let Some(to) = vocab.resource(target).copied() else {
        return false;
    };
    source != target && is_live_concept(vocab, target) && from.scheme == to.scheme
}

// Checks whether the resource may be added, and returns the refusal if it may not.
fn check_new(vocab: &Vocab, new: &NewResource) -> Option<Refusal>
    ensures { unless_new vocab.now new.now accepted result }
{
    match new {
        NewResource::Scheme(_, _) => None,
        NewResource::Concept(scheme, tag, text) => vocab.check_concept(*scheme, tag, text),
        NewResource::Collection(scheme, _, _) => vocab.check_collection(*scheme),
        NewResource::Outside(iri) => vocab.check_outside(iri),
    }
}

/// A vocabulary under test, whose calls have no contracts.
#[derive(Drop)]
pub struct Fixture {
    alloc: Global,
    vocab: Vocab,
}

// Changes of the vocabulary, each with its check.
impl Fixture {
    /// Returns a vocabulary without resources, with the base IRI of the examples.
    pub fn new(alloc: Global) -> Result<Fixture, ReadStop> {
        let base = Base::read(alloc, "https://thesaurus.example/id/")?;
        let vocab = Vocab::new(alloc, base);
        Ok(Fixture { alloc, vocab })
    }

    fn make(&mut self, new: NewResource) -> Result<Answer, AllocError> {
        if let Some(refusal) = check_new(&self.vocab, &new) {
            return Ok(Answer::No(refusal));
        }
        if self.vocab.resource_count() > 100 {
            return Ok(Answer::No(Refusal::TooMany));
        }
        Ok(Answer::Number(self.vocab.add_resource(new)?.get()))
    }

    /// Adds a scheme with this English label, unless it is refused.
    pub fn scheme(&mut self, text: &str) -> Result<Answer, ReadStop> {
        let tag = Tag::read(self.alloc, "en")?;
        let text = Text::read(self.alloc, text)?;
        Ok(self.make(NewResource::Scheme(tag, text))?)
    }

    /// Adds a concept with this English label to a scheme, unless the concept is refused.
    pub fn concept(&mut self, scheme: u32, text: &str) -> Result<Answer, ReadStop> {
        let tag = Tag::read(self.alloc, "en")?;
        let text = Text::read(self.alloc, text)?;
        Ok(self.make(NewResource::Concept(no(scheme), tag, text))?)
    }

    /// Adds a collection with this English label to a scheme, unless the collection is refused.
    pub fn collection(&mut self, scheme: u32, text: &str) -> Result<Answer, ReadStop> {
        let tag = Tag::read(self.alloc, "en")?;
        let text = Text::read(self.alloc, text)?;
        Ok(self.make(NewResource::Collection(no(scheme), tag, text))?)
    }

    /// Adds an outside concept with this IRI, unless it is refused.
    pub fn outside(&mut self, iri: &str) -> Result<Answer, ReadStop> {
        let iri = Iri::read(self.alloc, iri)?;
        Ok(self.make(NewResource::Outside(iri))?)
    }

    fn add(&mut self, owner: ResNo, label: &Label) -> Result<Answer, AllocError> {
        if !is_owner(&self.vocab, owner) {
            return Ok(Answer::No(Refusal::NotLive));
        }
        if let Some(refusal) = self.vocab.check_label(owner, label) {
            return Ok(Answer::No(refusal));
        }
        self.vocab.add_label(owner, label)?;
        Ok(Answer::Done)
    }

    fn take_out(&mut self, owner: ResNo, label: &Label) -> Answer {
        if !is_owner(&self.vocab, owner) {
            return Answer::No(Refusal::NotLive);
        }
        if let Some(refusal) = self.vocab.check_drop(owner, label) {
            return Answer::No(refusal);
        }
        self.vocab.drop_label(owner, label);
        Answer::Done
    }

    /// Adds or removes a label, unless the change is refused.
    pub fn change_label(
        &mut self,
        change: Change,
        owner: u32,
        (kind, tag, text): (LabelKind, &str, &str),
    ) -> Result<Answer, ReadStop> {
        let label = label(self.alloc, kind, tag, text)?;
        match change {
            Change::Add => Ok(self.add(no(owner), &label)?),
            Change::Remove => Ok(self.take_out(no(owner), &label)),
        }
    }

    fn rename(
        &mut self,
        owner: ResNo,
        tag: &Tag,
        text: &Text,
        keep: bool,
    ) -> Result<Answer, AllocError> {
        if !is_owner(&self.vocab, owner) {
            return Ok(Answer::No(Refusal::NotLive));
        }
        if let Some(refusal) = self.vocab.check_relabel(owner, tag, text, keep) {
            return Ok(Answer::No(refusal));
        }
        self.vocab.relabel(owner, tag, text, keep)?;
        Ok(Answer::Done)
    }

    /// Replaces the preferred label in a language; the old one stays as an alternative label if
    /// `keep` is true.
    pub fn relabel(
        &mut self,
        owner: u32,
        tag: &str,
        text: &str,
        keep: bool,
    ) -> Result<Answer, ReadStop> {
        let tag = Tag::read(self.alloc, tag)?;
        let text = Text::read(self.alloc, text)?;
        Ok(self.rename(no(owner), &tag, &text, keep)?)
    }

    /// Copies the source's lexical labels to the target, except those that the target already has,
    /// and answers with the number copied.
    pub fn take_labels(&mut self, source: u32, target: u32) -> Result<Answer, AllocError> {
        let target = no(target);
        if !is_live_concept(&self.vocab, target) {
            return Ok(Answer::No(Refusal::NotLive));
        }
        let gained = self.vocab.take_labels(no(source), target)?;
        Ok(Answer::Gained(gained))
    }

    /// Deprecates a concept, without a replacement.
    pub fn deprecate(&mut self, n: u32) -> Answer {
        let n = no(n);
        if !is_live_concept(&self.vocab, n) {
            return Answer::No(Refusal::NotLive);
        }
        self.vocab.mark_dead(n, None);
        Answer::Done
    }

    /// Deprecates a concept, with the target as its replacement.
    pub fn replace(&mut self, source: u32, target: u32) -> Answer {
        let (source, target) = (no(source), no(target));
        if !is_live_concept(&self.vocab, source) || !may_replace(&self.vocab, source, target) {
            return Answer::No(Refusal::NotLive);
        }
        self.vocab.mark_dead(source, Some(target));
        Answer::Done
    }
}

// Look-ups in the vocabulary.
impl Fixture {
    /// Returns how many resources and how many labels there are.
    pub fn counts(&self) -> (u64, u64) {
        (self.vocab.resource_count(), self.vocab.label_count())
    }

    /// Returns the resource with this number, if there is one.
    pub fn resource(&self, n: u32) -> Option<Resource> {
        self.vocab.resource(no(n)).copied()
    }

    /// Checks whether this resource is live.
    pub fn is_live(&self, n: u32) -> bool {
        self.vocab.is_live(no(n))
    }

    /// Returns the numbers of the live concepts of a scheme, in ascending order.
    pub fn live_of(&self, scheme: u32) -> &[ResNo] {
        self.vocab.live_of(no(scheme))
    }

    /// Returns the labels of a resource, sorted by kind, language and text.
    pub fn labels_of(&self, owner: u32) -> &[Label] {
        self.vocab.labels_of(no(owner))
    }

    /// Returns the number of labels that `take_labels` would copy.
    pub fn taken_count(&self, source: u32, target: u32) -> u64 {
        self.vocab.taken_count(no(source), no(target))
    }

    /// Returns the preferred label of a resource in a language.
    pub fn preferred(&self, owner: u32, tag: &str) -> Result<Option<&str>, ReadStop> {
        let tag = Tag::read(self.alloc, tag)?;
        Ok(match self.vocab.preferred(no(owner), &tag) {
            Some(text) => Some(text.as_str()),
            None => None,
        })
    }

    /// Returns the live concept of a scheme that has this preferred label in a language.
    pub fn holder(&self, scheme: u32, tag: &str, text: &str) -> Result<Option<ResNo>, ReadStop> {
        let tag = Tag::read(self.alloc, tag)?;
        let text = Text::read(self.alloc, text)?;
        Ok(self.vocab.holder(no(scheme), &tag, &text))
    }

    /// Returns the number of the outside concept with this IRI.
    pub fn number_of(&self, iri: &str) -> Result<Option<ResNo>, ReadStop> {
        let iri = Iri::read(self.alloc, iri)?;
        Ok(self.vocab.outside(&iri))
    }

    /// Returns the IRI of the outside concept with this number.
    pub fn iri_of(&self, n: u32) -> Option<&str> {
        match self.vocab.outside_iri(no(n)) {
            Some(iri) => Some(iri.as_str()),
            None => None,
        }
    }
}
