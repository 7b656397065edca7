//! Changes of rows, which a request makes in the tables.

use crate::rows::{HierRow, LabelRow, MoveRow, PostingRow};
use thes_base::data::{Link, Resource};
use thes_base::number::{PostNo, ResNo};
use thes_base::text::Iri;

/// A change of one row of a table; but `MoveAll` changes the rows of all postings assigned to a
/// concept.
#[derive(Debug, Drop)]
pub enum Change {
    /// Inserts the row of a resource; the resource has the next number.
    AddResource(ResNo, Resource),
    /// Marks a concept as dead, without a replacement.
    Retire(ResNo),
    /// Marks the first concept as dead, with the second as its replacement.
    Replace(ResNo, ResNo),
    /// Inserts the row of an outside concept: its number and its IRI.
    AddOutside(ResNo, Iri),
    /// Inserts the row of a label, with its owner.
    AddLabel(LabelRow),
    /// Deletes the row of a label, found by owner, kind, tag and text.
    DropLabel(LabelRow),
    /// Inserts the row of a link that isn't hierarchical.
    AddLink(Link),
    /// Deletes the row of a link that isn't hierarchical.
    DropLink(Link),
    /// Inserts the row of a hierarchical link, with its type.
    AddHier(HierRow),
    /// Deletes the row of a hierarchical link, found by its ends and its type.
    DropHier(HierRow),
    /// Inserts the row of a posting; the posting has the next number.
    AddPosting(PostingRow),
    /// Marks a posting as withdrawn, and leaves its place unchanged.
    Withdraw(PostNo),
    /// Assigns a posting to the concept, without inserting a row of table move.
    SetPlace(PostNo, ResNo),
    /// Assigns each posting of the first concept to the second, without inserting rows of table
    /// move. Withdrawn postings are unchanged.
    MoveAll(ResNo, ResNo),
    /// Inserts the row of a move of a posting; the move has the next number.
    AddMove(MoveRow),
}
