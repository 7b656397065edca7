//! The labels that a merge copies from its source to its target.
ghost use Rattle.std.specs.Prelude.{◌≡◌, ◌+◌, IfOk, OnOk, OnErr};
ghost use Rattle.std.specs.FinSet as set;
ghost use Rattle.thes_base.specs.Resources.{IsLiveConcept};
ghost use Rattle.thes_base.specs.Changes.{copied_labels};
ghost use Rattle.thes_vocab.specs.Vocabulary.{with_labels};
ghost use Rattle.thes_vocab.specs.CopiedLabels.{lacks_name, merged_label, AreMissingLabels};

use crate::vocab::Vocab;
use std::alloc::{AllocError, Global};
use thes_base::data::{Label, LabelKind, LabelValue};
use thes_base::number::ResNo;

impl Vocab {
    /// Returns the number of labels that a merge would copy from the source to the target.
    pub fn taken_count(&self, source: ResNo, target: ResNo) -> u64
        ensures { let taken = copied_labels source target self.now.labels in
            set.len self.now.labels + result ≡ set.len (set.union self.now.labels taken) }
    {
        let mut count = 0u64;
        for label in self.labels.of_owner(source) {
            if self.lacks_name(target, label) {
                count += 1;
            }
        }
        count
    }

    /// Returns the labels that a merge adds to the target: copies of the lexical labels of the
    /// source that the target lacks, preferred ones as alternative ones.
    pub fn missing_labels(&self, source: ResNo, target: ResNo) -> Result<Vec<Label>, AllocError>
        ensures { IfOk result (λ copies.
            AreMissingLabels self.now.labels source target copies.items) }
    {
        let mut copies = Vec::new(self.alloc);
        for label in self.labels_of(source) {
            if self.lacks_name(target, label) {
                copies.push(merged_label(self.alloc, label)?)?;
            }
        }
        Ok(copies)
    }

    /// Copies the lexical labels of the source that the target lacks, preferred ones as alternative
    /// ones, and returns their number.
    pub fn take_labels(&mut self, source: ResNo, target: ResNo) -> Result<u64, AllocError>
        requires { IsLiveConcept self.old.resources target }
        ensures gained { IfOk result (λ k. set.len self.old.labels + k ≡ set.len self.new.labels) }
        ensures ok { let taken = copied_labels source target self.old.labels in
            OnOk result (self.new ≡ with_labels self.old (set.union self.old.labels taken)) }
        ensures err { OnErr result (self.new ≡ self.old) }
    {
        let copies = self.missing_labels(source, target)?;
        let gained = copies.len() as u64;
        self.labels.insert_all(target, copies, gained)?;
        Ok(gained)
    }

    /// Checks whether the label is lexical (preferred, alternative or hidden) and the target has no
    /// lexical label with its text and language.
    pub fn lacks_name(&self, target: ResNo, label: &Label) -> bool
        ensures { result ≡ lacks_name self.now.labels target label.now }
    {
        label.kind() != LabelKind::Scope
            && !self
                .labels
                .has_lexical_label(target, &label.tag, label.text())
    }
}

// Copies a label for the target of a merge, a preferred label as an alternative one.
fn merged_label(alloc: Global, label: &Label) -> Result<Label, AllocError>
    ensures { IfOk result (λ l. l ≡ merged_label label.now) }
{
    let tag = label.tag.try_clone(alloc)?;
    let value = match &label.value {
        LabelValue::Pref(text) | LabelValue::Alt(text) => LabelValue::Alt(text.try_clone(alloc)?),
        LabelValue::Hidden(text) => LabelValue::Hidden(text.try_clone(alloc)?),
        LabelValue::Scope(note) => LabelValue::Scope(note.try_clone(alloc)?),
    };
    Ok(Label { tag, value })
}
