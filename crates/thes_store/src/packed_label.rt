//! Rows of table label, each with its tag and its text in one block of memory.
ghost use Rattle.std.specs.Prelude.{◌≡◌, ◌↔◌, ◌≤◌, ◌++◌, ◌∷◌, [], length, IsTrue, IfOk, OnOk};
ghost use Rattle.std.specs.String.{string_bytes};
ghost use Rattle.thes_store.specs.AddedRow.{changed_label, rows_added_by};

use std::alloc::{AllocError, Global};
use std::collections::VecDeque;
use std::marker::Model;
use thes_base::data::LabelKind;
use thes_base::number::ResNo;
use thes_tables::change::Change;
use thes_tables::rows::LabelRow;

/// A row of table label, with its tag and its text in one block: they are short, and two blocks
/// would take more memory than the texts.
#[derive(Drop)]
pub struct PackedLabel {
    owner: ResNo,
    kind: LabelKind,
    // The length of the tag in bytes.
    tag_len: u8,
    // The tag, followed by the text.
    bytes: String,
}

impl Model for PackedLabel {
    ghost use Rattle.std.specs.Prelude.{take, drop};
    ghost use Rattle.std.specs.Str.{IsCharBoundary};
    ghost use Rattle.std.specs.String.{string_bytes};
    ghost use Rattle.thes_base.specs.Labels.{Label};

    ghost Value = { Label };

    ghost view = { λ a. record {
      owner = a.owner;
      kind = a.kind;
      tag = take a.tag_len (string_bytes a.bytes);
      text = drop a.tag_len (string_bytes a.bytes);
    } };

    ghost invariant = { λ a. IsCharBoundary (string_bytes a.bytes) a.tag_len };
}

impl PackedLabel {
    /// Copies a row of table label, with its tag and its text into one block.
    pub fn pack(alloc: Global, row: &LabelRow) -> Result<PackedLabel, AllocError>
        ensures { IfOk result (λ packed. packed ≡ row.now) }
    {
        let tag = row.label.tag.as_str();
        let text = row.label.text();
        let bytes = concatenation(alloc, tag, text)?;
        Ok(PackedLabel {
            owner: row.owner,
            kind: row.label.kind(),
            tag_len: tag.len() as u8,
            bytes,
        })
    }

    /// Returns the number of the label's owner.
    pub fn owner(&self) -> ResNo
        ensures { result ≡ self.now.owner }
    {
        self.owner
    }

    /// Returns the kind of the label.
    pub fn kind(&self) -> LabelKind
        ensures { result ≡ self.now.kind }
    {
        self.kind
    }

    /// Returns the language tag, without copying it.
    pub fn tag(&self) -> &str
        ensures { result.now ≡ self.now.tag }
    {
        self.bytes.as_str().split_at(self.tag_len as usize).0
    }

    /// Returns the text of the label or the scope note, without copying it.
    pub fn text(&self) -> &str
        ensures { result.now ≡ self.now.text }
    {
        self.bytes.as_str().split_at(self.tag_len as usize).1
    }

    /// Checks whether both rows have the same owner and label.
    pub fn is_same(&self, other: &PackedLabel) -> bool
        ensures { IsTrue result ↔ (self.now ≡ other.now) }
    {
        other.owner == self.owner
            && other.kind == self.kind
            && other.tag() == self.tag()
            && other.text() == self.text()
    }
}

// Returns the tag of a label followed by its text, in a block of exactly their length.
fn concatenation(alloc: Global, first: &str, second: &str) -> Result<String, AllocError>
    requires { length first.now ≤ 35 }
    ensures { IfOk result (λ bytes. string_bytes bytes ≡ first.now ++ second.now) }
{
    let mut bytes = String::with_capacity(alloc, first.len() + second.len())?;
    bytes.push_str(first)?;
    bytes.push_str(second)?;
    Ok(bytes)
}

/// Replaces the list by copies of the labels that the changes insert or delete, in the order of the
/// changes; if memory runs out, perhaps by only some of them.
pub fn pack_labels(
    packed: &mut VecDeque<PackedLabel>,
    alloc: Global,
    changes: &[Change],
) -> Result<(), AllocError>
    ensures { OnOk result (packed.new.items ≡ rows_added_by changed_label changes.now) }
{
    packed.clear();
    for change in changes {
        pack_label(packed, alloc, change)?;
    }
    Ok(())
}

// Appends a copy of the label that the change inserts or deletes, if there is one.
fn pack_label(
    packed: &mut VecDeque<PackedLabel>,
    alloc: Global,
    change: &Change,
) -> Result<(), AllocError>
    ensures { OnOk result (packed.new.items
        ≡ packed.old.items ++ rows_added_by changed_label (change.now ∷ [])) }
{
    match change {
        Change::AddLabel(row) | Change::DropLabel(row) => {
            packed.push_back(PackedLabel::pack(alloc, row)?)?;
        }
        _ => {}
    }
    Ok(())
}
