//! The typed rows of the tables label, posting, move, hier and outside.
ghost use Rattle.std.specs.Prelude.{◌≡◌, ◌↔◌, IfOk, IsTrue};

use std::alloc::{AllocError, Global};
use std::marker::Model;
use thes_base::data::Label;
use thes_base::number::{MoveNo, PostNo, ResNo};
use thes_base::text::{Iri, Key, RecordName};

/// A row of table label: a label with its owner.
#[derive(Debug, Drop)]
pub struct LabelRow {
    pub owner: ResNo,
    pub label: Label,
}

impl Model for LabelRow {
    ghost use Rattle.thes_base.specs.Labels.{Label};
    ghost use Rattle.thes_base.specs.Machine.{owned_label};

    ghost Value = { Label };

    ghost view = { λ a. owned_label a.owner a.label };
}

/// A row of table posting: the posting as it was accepted, its place after its moves, and whether
/// it was withdrawn. (The texts come first, so that no padding is needed between the fields.)
#[derive(Debug, Drop)]
pub struct PostingRow {
    pub key: Key,
    pub rec: RecordName,
    pub number: PostNo,
    pub first: ResNo,
    pub place: ResNo,
    pub withdrawn: bool,
}

/// A row of table move: a posting's move from one concept to another.
#[derive(Clone, Copy, Debug, PartialEq, Eq)]
pub struct MoveRow {
    pub number: MoveNo,
    pub posting: PostNo,
    pub source: ResNo,
    pub target: ResNo,
}

/// The type of a hierarchical relationship between a narrower and a broader concept (ISO 25964-1,
/// 10.2).
#[derive(Clone, Copy, Debug, PartialEq, Eq)]
pub enum HierType {
    /// The type isn't stated (BT).
    Untyped,
    /// The narrower concept is a kind of the broader one (BTG, generic).
    Generic,
    /// The narrower concept is a part of the broader one (BTP, partitive).
    Partitive,
    /// The narrower concept is an instance of the broader one (BTI, instantial).
    Instantial,
}

/// A row of table hier: concept `b` is broader than concept `a`, in a relationship of type `typ`.
#[derive(Clone, Copy, Debug, PartialEq, Eq)]
pub struct HierRow {
    pub a: ResNo,
    pub b: ResNo,
    pub typ: HierType,
}

/// A row of table outside: the number and the IRI of an outside concept.
#[derive(Debug, Drop)]
pub struct OutsideRow {
    pub number: ResNo,
    pub iri: Iri,
}

impl Model for OutsideRow {
    ghost use Rattle.std.specs.Prelude.{ℕ, List};

    ghost Value = { ℕ × List ℕ };

    ghost view = { λ a. (a.number, a.iri) };
}

impl LabelRow {
    /// Checks whether both rows have the same owner and label.
    pub fn is_same(&self, other: &LabelRow) -> bool
        ensures { IsTrue result ↔ (self.now ≡ other.now) }
    {
        self.owner == other.owner && self.label == other.label
    }
}

impl PostingRow {
    /// Allocates a copy; fails only if memory runs out.
    pub fn try_clone(&self, alloc: Global) -> Result<PostingRow, AllocError>
        ensures { IfOk result (λ row. row ≡ self.now) }
    {
        Ok(PostingRow {
            number: self.number,
            key: self.key.try_clone(alloc)?,
            rec: self.rec.try_clone(alloc)?,
            first: self.first,
            place: self.place,
            withdrawn: self.withdrawn,
        })
    }
}
