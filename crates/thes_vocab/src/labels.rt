// The labels of all owners, in a row for each owner.
ghost use Rattle.std.specs.Prelude.{◌≡◌, ◌≢◌, ◌↔◌, ◌+◌, ◌<◌, false, IsTrue, ℕ, List, IfOk, OnOk, OnErr, length, option_copied, slice_get, MatchOption};
ghost use Rattle.std.specs.FinSet as set;
ghost use Rattle.thes_base.specs.declared.data.LabelKind.TheVariants.{Pref, Alt};
ghost use Rattle.thes_base.specs.Data.{label_value_kind, label_value_text};
ghost use Rattle.thes_base.specs.Changes.{label, has_lexical_label, replace_preferred};
ghost use Rattle.thes_base.specs.Labels.{HasLabel};
ghost use Rattle.thes_base.specs.Machine.{owned_label};
ghost use Rattle.thes_vocab.specs.Rivals.{HasTwoPreferred, HasClash};
ghost use Rattle.thes_vocab.specs.OwnLabels.{own_label, has_own, AreLabelsOf};
ghost use Rattle.thes_vocab.specs.LabelRows.{IsRowOfOwner, HasNoLabels, owner_row, InsertsInRow, RowsAfterRemove, RowsAfterInsertions, AreSameLabelRows, labels_of_owner};

use crate::names::Name;
use crate::row::OwnerRow;
use std::alloc::{AllocError, Global};
use std::marker::Model;
use thes_base::data::{Label, LabelKind, LabelValue};
use thes_base::number::ResNo;
use thes_base::text::{Tag, Text};

// A set of labels, stored as a sorted row for each owner, with the number of all labels. A row is
// at the index that is its owner's number; resources are numbered without gaps.
#[derive(Drop)]
pub(crate) struct LabelTable {
    alloc: Global,
    rows: Vec<OwnerRow>,
    count: u64,
}

impl Model for LabelTable {
    ghost use Rattle.std.specs.Prelude.{◌≡◌};
    ghost use Rattle.std.specs.Coded.{codes};
    ghost use Rattle.std.specs.FinSet as set;
    ghost use Rattle.thes_base.specs.Labels.{Labels};

    ghost Value = { Labels };

    ghost coded = { Prim.hlevel (codes, set.code) };

    ghost use Rattle.thes_vocab.specs.LabelRows.{labels_in};

    ghost view = { λ a. labels_in a.rows.items };

    ghost invariant = { λ a. a.count ≡ set.len (labels_in a.rows.items) };
}

impl LabelTable {
    // Creates an empty set without allocating.
    pub(crate) fn new(alloc: Global) -> LabelTable
        ensures { result ≡ set.empty }
    {
        LabelTable {
            alloc,
            rows: Vec::new(alloc),
            count: 0,
        }
    }

    // Returns the number of labels and notes of all owners.
    pub(crate) fn len(&self) -> u64
        ensures { result ≡ set.len self.now }
    {
        self.count
    }

    // Returns the owner's row; an owner without labels may have none.
    fn owner_row(&self, owner: ResNo) -> Option<&OwnerRow>
        ensures { MatchOption result (HasNoLabels self.now owner)
            (λ row. IsRowOfOwner self.now owner row.now) }
    {
        row_of(self.rows.as_slice(), owner)
    }

    // Returns the owner's labels, sorted by kind, language and text.
    pub(crate) fn of_owner(&self, owner: ResNo) -> &[Label]
        ensures { AreLabelsOf self.now owner result.now }
    {
        match self.owner_row(owner) {
            Some(row) => row.as_slice(),
            None => &[],
        }
    }

    // Checks whether the owner has the label of this kind, language and text.
    pub(crate) fn contains(&self, owner: ResNo, kind: LabelKind, tag: &Tag, text: &str) -> bool
        ensures { result ≡ set.contains self.now (label owner kind tag.now text.now) }
    {
        match self.owner_row(owner) {
            Some(row) => row.contains(kind, tag, text),
            None => false,
        }
    }

    // Checks whether the owner has the text in the language as a preferred, alternative or hidden
    // label.
    pub(crate) fn has_lexical_label(&self, owner: ResNo, tag: &Tag, text: &str) -> bool
        ensures { result ≡ has_lexical_label self.now owner tag.now text.now }
    {
        match self.owner_row(owner) {
            Some(row) => row.has_lexical_label(tag, text),
            None => false,
        }
    }

    // Returns the owner's preferred label in the language. There is at most one (S14).
    pub(crate) fn preferred(&self, owner: ResNo, tag: &Tag) -> Option<&Text>
        ensures { MatchOption result
            ((text : List ℕ) → HasLabel self.now owner Pref tag.now text → ⊥)
            (λ text. HasLabel self.now owner Pref tag.now text.now) }
    {
        match self.owner_row(owner) {
            Some(row) => row.preferred(tag),
            None => None,
        }
    }

    // Checks whether the name, as the owner's new preferred label, would break S13: whether it is
    // an alternative or hidden label of the owner, or, if `keep` is true, the same as the old
    // preferred label.
    pub(crate) fn has_clash(&self, owner: ResNo, name: &Name<'_>, old: &Text, keep: bool) -> bool
        ensures { IsTrue result
            ↔ HasClash self.now owner name.now.tag.now name.now.text.now old.now keep }
    {
        self.contains(owner, LabelKind::Alt, name.tag, name.text.as_str())
            || self.contains(owner, LabelKind::Hidden, name.tag, name.text.as_str())
            || keep && old == name.text
    }

    // Checks whether the owner has two different preferred labels.
    pub(crate) fn has_two_preferred(&self, owner: ResNo) -> bool
        ensures { IsTrue result ↔ HasTwoPreferred self.now owner }
    {
        match self.owner_row(owner) {
            Some(row) => row.has_two_preferred(),
            None => false,
        }
    }

    // Inserts a label; changes nothing if the owner has it.
    pub(crate) fn insert(&mut self, owner: ResNo, label: Label) -> Result<(), AllocError>
        ensures ok { OnOk result (self.new ≡ set.insert self.old (owned_label owner label)) }
        ensures err { OnErr result (self.new ≡ self.old) }
    {
        let count = self.count.checked_add(1).ok_or(AllocError)?;
        if put(&mut self.rows, self.alloc, owner, label)? {
            self.count = count;
        }
        Ok(())
    }

    // Removes a label, if the owner has it.
    pub(crate) fn remove(&mut self, owner: ResNo, kind: LabelKind, tag: &Tag, text: &str)
        ensures { self.new ≡ set.remove self.old (label owner kind tag.now text.now) }
    {
        if take(&mut self.rows, owner, kind, tag, text) {
            self.count -= 1;
        }
    }

    // Removes those of the labels that the owner has.
    pub(crate) fn remove_all(&mut self, owner: ResNo, labels: &[Label])
        ensures { self.new ≡ set.difference self.old (labels_of_owner owner labels.now) }
    {
        for label in labels {
            self.remove_label(owner, label);
        }
    }

    // Removes a label, if the owner has it.
    fn remove_label(&mut self, owner: ResNo, label: &Label)
        ensures { self.new ≡ set.remove self.old (owned_label owner label.now) }
    {
        self.remove(owner, label.kind(), &label.tag, label.text());
    }

    // Replaces the owner's preferred label `old` by the name, in the name's language; keeps the old
    // one as an alternative label if `keep` is true.
    pub(crate) fn rename(
        &mut self,
        owner: ResNo,
        name: &Name<'_>,
        old: &Text,
        keep: bool,
    ) -> Result<(), AllocError>
        requires apart { old.now ≢ name.now.text.now }
        requires new { set.contains self.old
            (label owner Pref name.now.tag.now name.now.text.now) ≡ false }
        ensures ok { OnOk result (self.new
            ≡ replace_preferred owner name.now.tag.now name.now.text.now keep old.now self.old) }
        ensures err { OnErr result (self.new ≡ self.old) }
    {
        let value = LabelValue::Pref(name.text.try_clone(self.alloc)?);
        self.insert_value(owner, name.tag, value)?;
        if keep {
            if let Err(refused) = self.insert_alternative(owner, name.tag, old) {
                self.remove(owner, LabelKind::Pref, name.tag, name.text.as_str());
                return Err(refused);
            }
        }
        self.remove(owner, LabelKind::Pref, name.tag, old.as_str());
        Ok(())
    }

    // Inserts a copy of the text as an alternative label of the owner.
    fn insert_alternative(&mut self, owner: ResNo, tag: &Tag, text: &Text) -> Result<(), AllocError>
        ensures ok { OnOk result (self.new ≡
            set.insert self.old (label owner Alt tag.now text.now)) }
        ensures err { OnErr result (self.new ≡ self.old) }
    {
        let value = LabelValue::Alt(text.try_clone(self.alloc)?);
        self.insert_value(owner, tag, value)
    }

    // Inserts a label of the owner, with a copy of the tag and the given value.
    fn insert_value(&mut self, owner: ResNo, tag: &Tag, value: LabelValue) -> Result<(), AllocError>
        ensures ok { OnOk result (self.new ≡
            set.insert self.old
            (label owner (label_value_kind value) tag.now (label_value_text value))) }
        ensures err { OnErr result (self.new ≡ self.old) }
    {
        let tag = tag.try_clone(self.alloc)?;
        self.insert(owner, Label { tag, value })
    }

    // Inserts labels of the owner; `gained` is the number of those that the owner doesn't have yet.
    pub(crate) fn insert_all(
        &mut self,
        owner: ResNo,
        labels: Vec<Label>,
        gained: u64,
    ) -> Result<(), AllocError>
        requires { let more = labels_of_owner owner labels.items in
            set.len self.old + gained ≡ set.len (set.union self.old more) }
        ensures ok { let more = labels_of_owner owner labels.items in
            OnOk result (self.new ≡ set.union self.old more) }
        ensures err { OnErr result (self.new ≡ self.old) }
    {
        let count = self.count.checked_add(gained).ok_or(AllocError)?;
        put_all(&mut self.rows, self.alloc, owner, labels)?;
        self.count = count;
        Ok(())
    }
}

// Returns the owner's row, which is at the index `owner`, or None if there is none.
fn row_of(rows: &[OwnerRow], owner: ResNo) -> Option<&OwnerRow>
    ensures { option_copied result ≡ slice_get rows.now owner }
{
    rows.get(owner.get() as usize)
}

// Inserts a label into its owner's row, and returns whether it is new.
fn put(
    rows: &mut Vec<OwnerRow>,
    alloc: Global,
    owner: ResNo,
    label: Label,
) -> Result<bool, AllocError>
    ensures { InsertsInRow rows.old.items rows.new.items owner label result }
{
    open_row(rows, alloc, owner)?;
    insert_in_row(rows, owner, label)
}

// Inserts a label into the row of an owner that has one, and returns whether it is new.
fn insert_in_row(rows: &mut Vec<OwnerRow>, owner: ResNo, label: Label) -> Result<bool, AllocError>
    requires { owner < length rows.old.items }
    ensures { InsertsInRow rows.old.items rows.new.items owner label result }
{
    match rows.get_mut(owner.get() as usize) {
        Some(row) => row.insert(label),
        None => Ok(false),
    }
}

// Adds empty rows until the owner has one; if memory runs out, perhaps only some of them.
fn open_row(rows: &mut Vec<OwnerRow>, alloc: Global, owner: ResNo) -> Result<(), AllocError>
    ensures same { AreSameLabelRows rows.old.items rows.new.items }
    ensures open { OnOk result (owner < length rows.new.items) }
{
    'opening: while rows.len() <= owner.get() as usize {
        rows.push(OwnerRow::new(alloc))?;
    }
    Ok(())
}

// Inserts labels into their owner's row; if memory runs out, inserts none.
fn put_all(
    rows: &mut Vec<OwnerRow>,
    alloc: Global,
    owner: ResNo,
    labels: Vec<Label>,
) -> Result<(), AllocError>
    ensures ok { OnOk result
        (RowsAfterInsertions rows.old.items rows.new.items owner labels.items) }
    ensures err { OnErr result (AreSameLabelRows rows.old.items rows.new.items) }
{
    open_row(rows, alloc, owner)?;
    insert_all_in_row(rows, owner, labels)
}

// Inserts labels into the row of an owner that has one; if memory runs out, inserts none.
fn insert_all_in_row(
    rows: &mut Vec<OwnerRow>,
    owner: ResNo,
    labels: Vec<Label>,
) -> Result<(), AllocError>
    requires { owner < length rows.old.items }
    ensures ok { OnOk result
        (RowsAfterInsertions rows.old.items rows.new.items owner labels.items) }
    ensures err { OnErr result (AreSameLabelRows rows.old.items rows.new.items) }
{
    match rows.get_mut(owner.get() as usize) {
        Some(row) => row.insert_all(labels),
        None => Ok(()),
    }
}

// Removes a label from its owner's row, and returns whether the row had it.
fn take(rows: &mut Vec<OwnerRow>, owner: ResNo, kind: LabelKind, tag: &Tag, text: &str) -> bool
    ensures taken { let l = own_label kind tag.now text.now in
        result ≡ has_own (owner_row rows.old.items owner) l }
    ensures after { let l = own_label kind tag.now text.now in
        RowsAfterRemove rows.old.items rows.new.items owner l }
{
    match rows.get_mut(owner.get() as usize) {
        Some(row) => row.remove(kind, tag, text),
        None => false,
    }
}
