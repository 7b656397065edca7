// The labels of one owner, as a sorted row.
ghost use Rattle.std.specs.Prelude.{◌≡◌, ◌↔◌, ◌&&◌, ◌||◌, ◌≤◌, ◌<◌, ◌+◌, IsTrue, ℕ, List, [], IfOk, OnOk, OnErr, length, false, true, not, MatchOption};
ghost use Rattle.std.specs.List.{insert, list_any};
ghost use Rattle.std.specs.Vec.{vec_len, vec_capacity};
ghost use Rattle.std.specs.List.Sorted.{IsStrictlySortedBy};
ghost use Rattle.std.specs.Ordering.{eq_by_cmp};
ghost use Rattle.thes_base.specs.Data.{LabelData};
ghost use Rattle.thes_vocab.specs.LabelPositions.{IsLabelPosition, IsPreferredAt};
ghost use Rattle.thes_vocab.specs.CopiedLabels.{has_own_name, is_name};
ghost use Rattle.thes_vocab.specs.OwnLabels.{data_cmp, language_cmp, own_label, has_own, GainsLabels, HasOwnPreferred, HasNoOwnPreferred, HasTwoOwnPreferred};

use std::alloc::{AllocError, Global};
use std::cmp::Ordering;
use std::marker::Model;
use thes_base::data::{Label, LabelKind, LabelValue};
use thes_base::text::{Tag, Text};

// The greatest number of labels that are compared one by one, which is faster than three binary
// searches.
const MOST_LABELS_COMPARED: usize = 16;

// The labels of one owner, each once, sorted by kind, language and text.
#[derive(Drop)]
pub(crate) struct OwnerRow {
    labels: Vec<Label>,
}

impl Model for OwnerRow {
    ghost use Rattle.std.specs.Prelude.{List};
    ghost use Rattle.std.specs.List.Sorted.{IsStrictlySortedBy};
    ghost use Rattle.thes_base.specs.Data.{LabelData};
    ghost use Rattle.thes_vocab.specs.LabelPositions.{IsLabelPosition, IsPreferredAt};
    ghost use Rattle.thes_vocab.specs.OwnLabels.{data_cmp};

    ghost Value = { List LabelData };

    ghost view = { λ a. a.labels.items };

    ghost invariant = { λ a. IsStrictlySortedBy data_cmp a.labels.items };
}

impl OwnerRow {
    // Creates an empty row without allocating.
    pub(crate) fn new(alloc: Global) -> OwnerRow
        ensures { result ≡ [] }
    {
        OwnerRow {
            labels: Vec::new(alloc),
        }
    }

    // Returns the labels in their order, without copying them.
    pub(crate) fn as_slice(&self) -> &[Label]
        ensures labels { result.now ≡ self.now }
        ensures ordered { IsStrictlySortedBy data_cmp self.now }
    {
        self.labels.as_slice()
    }

    // Checks whether the row has the label of this kind, language and text.
    #[tactic(auto, using(crate::proofs::OwnLabelLemmas::found_is))]
    pub(crate) fn contains(&self, kind: LabelKind, tag: &Tag, text: &str) -> bool
        ensures { result ≡ has_own self.now (own_label kind tag.now text.now) }
    {
        search(self.labels.as_slice(), kind, tag, text).is_ok()
    }

    // Returns a preferred label in the language; SKOS S14 allows at most one.
    #[tactic(auto, using(crate::proofs::OwnLabelLemmas::preferred_at))]
    pub(crate) fn preferred(&self, tag: &Tag) -> Option<&Text>
        ensures { MatchOption result (HasNoOwnPreferred self.now tag.now)
            (λ text. HasOwnPreferred self.now tag.now text.now) }
    {
        let place = preferred_position(self.labels.as_slice(), tag)?;
        match &self.labels[place].value {
            LabelValue::Pref(text) => Some(text),
            _ => None,
        }
    }

    // Checks whether the row has the text in the language as a preferred, alternative or hidden
    // label.
    #[tactic(auto, using(crate::proofs::LexicalLabelLemmas::any_name))]
    pub(crate) fn has_lexical_label(&self, tag: &Tag, text: &str) -> bool
        ensures { result ≡ has_own_name self.now tag.now text.now }
    {
        if self.labels.len() <= MOST_LABELS_COMPARED {
            return has_name(self.labels.as_slice(), tag, text);
        }
        self.contains(LabelKind::Pref, tag, text)
            || self.contains(LabelKind::Alt, tag, text)
            || self.contains(LabelKind::Hidden, tag, text)
    }

    // Inserts a label at its place, unless it is there, and returns whether it is new.
    pub(crate) fn insert(&mut self, label: Label) -> Result<bool, AllocError>
        ensures added { IfOk result (λ added. added ≡ not (has_own self.old label)) }
        ensures ok { OnOk result ((l : LabelData) →
            has_own self.new l ≡ (eq_by_cmp data_cmp l label || has_own self.old l)) }
        ensures err { OnErr result (self.new ≡ self.old) }
    {
        match search_label(self.labels.as_slice(), &label) {
            Ok(_) => Ok(false),
            Err(place) => {
                insert_at(&mut self.labels, place, label)?;
                Ok(true)
            }
        }
    }

    // Inserts labels at their places, unless they are there. If memory runs out, inserts none.
    pub(crate) fn insert_all(&mut self, labels: Vec<Label>) -> Result<(), AllocError>
        ensures ok { OnOk result ((l : LabelData) →
            has_own self.new l ≡ (has_own labels.items l || has_own self.old l)) }
        ensures err { OnErr result (self.new ≡ self.old) }
    {
        self.labels.try_reserve(labels.len())?;
        insert_reserved(&mut self.labels, labels);
        Ok(())
    }

    // Removes a label, and returns whether the row had it.
    pub(crate) fn remove(&mut self, kind: LabelKind, tag: &Tag, text: &str) -> bool
        ensures removed { result ≡ has_own self.old (own_label kind tag.now text.now) }
        ensures after { let dropped = own_label kind tag.now text.now in
            (l : LabelData) →
            has_own self.new l ≡ (not (eq_by_cmp data_cmp l dropped) && has_own self.old l) }
    {
        match search(self.labels.as_slice(), kind, tag, text) {
            Ok(place) => {
                self.labels.remove(place);
                true
            }
            Err(_) => false,
        }
    }

    // Checks whether the row has two different preferred labels. Preferred labels come first in a
    // row, so the second label decides.
    #[tactic(auto, using(crate::proofs::OwnLabelLemmas::two_preferred))]
    pub(crate) fn has_two_preferred(&self) -> bool
        ensures { IsTrue result ↔ HasTwoOwnPreferred self.now }
    {
        let Some(second) = self.labels.get(1) else {
            return false;
        };
        second.kind() == LabelKind::Pref
    }
}

// Checks whether one of the labels is lexical (preferred, alternative or hidden) and has this
// language and text.
fn has_name(labels: &[Label], tag: &Tag, text: &str) -> bool
    ensures { result ≡ list_any (is_name tag.now text.now) labels.now }
{
    labels.iter().any(|label| is_name(label, tag, text))
}

// Checks whether the label is lexical (preferred, alternative or hidden) and has this language and
// text.
fn is_name(label: &Label, tag: &Tag, text: &str) -> bool
    ensures { result ≡ is_name tag.now text.now label.now }
{
    label.text() == text && label.tag == *tag && label.kind() != LabelKind::Scope
}

// Inserts a label at an index. An empty row gets room for one label, since many owners have no
// other; a full row grows by two labels and a quarter of its length, since most owners have few.
fn insert_at(labels: &mut Vec<Label>, place: usize, label: Label) -> Result<(), AllocError>
    requires { place ≤ length labels.old.items }
    ensures ok { OnOk result (labels.new.items ≡ insert labels.old.items place label) }
    ensures err { OnErr result (labels.new.items ≡ labels.old.items) }
{
    if labels.len() == labels.capacity() {
        let more = if labels.is_empty() {
            1
        } else {
            2 + labels.len() / 4
        };
        labels.reserve_exact(more)?;
    }
    labels.insert(place, label)?;
    Ok(())
}

// Inserts labels at their places in a sorted list that has room for them, unless they are there.
fn insert_reserved(list: &mut Vec<Label>, mut labels: Vec<Label>)
    requires room { vec_len list.old + vec_len labels ≤ vec_capacity list.old }
    requires sorted { IsStrictlySortedBy data_cmp list.old.items }
    ensures { GainsLabels list.old.items list.new.items (has_own labels.items) }
{
    'inserting: while let Some(label) = labels.pop() {
        insert_in(list, label);
    }
}

// Inserts a label at its place in a sorted list that has room for it, unless it is there.
fn insert_in(list: &mut Vec<Label>, label: Label)
    requires room { vec_len list.old < vec_capacity list.old }
    requires sorted { IsStrictlySortedBy data_cmp list.old.items }
    ensures gain { GainsLabels list.old.items list.new.items (λ l. eq_by_cmp data_cmp l label) }
    ensures room { (n : ℕ) → vec_len list.old + n + 1 ≤ vec_capacity list.old
        → vec_len list.new + n ≤ vec_capacity list.new }
{
    match search_label(list.as_slice(), &label) {
        Ok(_) => {}
        Err(place) => {
            let _ = list.insert(place, label);
        }
    }
}

// Returns `Ok` with the index of the label, or `Err` with the index at which to insert it.
fn search(labels: &[Label], kind: LabelKind, tag: &Tag, text: &str) -> Result<usize, usize>
    requires { IsStrictlySortedBy data_cmp labels.now }
    ensures { IsLabelPosition labels.now (own_label kind tag.now text.now) result }
{
    labels.binary_search_by(|label| order(label, kind, tag, text))
}

// Returns `Ok` with the index of the label, or `Err` with the index at which to insert it.
fn search_label(labels: &[Label], label: &Label) -> Result<usize, usize>
    requires { IsStrictlySortedBy data_cmp labels.now }
    ensures { IsLabelPosition labels.now label.now result }
{
    search(labels, label.kind(), &label.tag, label.text())
}

// Returns the index of a preferred label in the language, if the list has one.
fn preferred_position(labels: &[Label], tag: &Tag) -> Option<usize>
    requires { IsStrictlySortedBy data_cmp labels.now }
    ensures { MatchOption result (HasNoOwnPreferred labels.now tag.now)
        (IsPreferredAt labels.now tag.now) }
{
    labels
        .binary_search_by(|label| language_order(label, LabelKind::Pref, tag))
        .ok()
}

// Compares the label with one of this kind, language and text, in the order of rows.
fn order(label: &Label, kind: LabelKind, tag: &Tag, text: &str) -> Ordering
    ensures { result ≡ data_cmp label.now (own_label kind tag.now text.now) }
{
    match language_order(label, kind, tag) {
        Ordering::Equal => label.text().cmp(text),
        unequal => unequal,
    }
}

// Compares the label's kind, and then its language, with the given ones, in the order of rows.
fn language_order(label: &Label, kind: LabelKind, tag: &Tag) -> Ordering
    ensures { result ≡ language_cmp label.now (own_label kind tag.now []) }
{
    match label.kind().number().cmp(&kind.number()) {
        Ordering::Equal => label.tag.as_str().cmp(tag.as_str()),
        unequal => unequal,
    }
}
