//! The rows of the tables outside and label, and their checks.
ghost use Rattle.std.specs.Prelude.{◌≡◌, ◌↔◌, ◌<◌, ◌^◌, ℕ, List, [], IsTrue, IfOk, MatchOption, length, map};
ghost use Rattle.thes_base.specs.declared.data.Resource.{Resource};
ghost use Rattle.thes_base.specs.Labels.{Label};
ghost use Rattle.thes_tables.specs.Cells.{outside_cells, label_cells};
ghost use Rattle.thes_load_rules.specs.Rules.{ResourceRule, OutsideRule, LabelRule};
ghost use Rattle.thes_load_rows.specs.Forms.{HasOutsideForm};
ghost use Rattle.thes_load_rows.specs.RowsSoFar.{TakeResult};
ghost use Rattle.thes_load_rows.specs.ReadResults.{ReadResult};
ghost use Rattle.thes_load_rows.specs.NamesSoFar.{HasOutside, HasLabels, vocabulary_of_rows};

use crate::rows::{label_in, outside_in};
use std::alloc::{AllocError, Global};
use thes_tables::cells::Cell;
use thes_tables::rows::OutsideRow;
use thes_vocab::{Vocab, VocabLoad};

/// The rows of table outside read so far: a vocabulary with their IRIs, and the number of the last
/// row, or 0 without rows.
#[derive(Drop)]
pub struct OutsideLoad {
    pub vocab: VocabLoad,
    pub last: u32,
}

impl OutsideLoad {
    /// Creates a load without rows over a vocabulary without IRIs.
    pub fn new(vocab: VocabLoad) -> OutsideLoad
        ensures { (base : List ℕ) (resources : List Resource)
            → vocab ≡ vocabulary_of_rows base resources [] []
            → HasOutside base resources result.vocab result.last [] }
    {
        OutsideLoad { vocab, last: 0 }
    }

    /// Adds the IRI of the next row of table outside; returns false if the row's number isn't
    /// greater than the last one, or `VocabLoad::take_iri` doesn't allow the IRI.
    pub fn take(&mut self, row: OutsideRow) -> Result<bool, AllocError>
        requires { HasOutsideForm row }
        ensures { IfOk result (λ good.
            (base : List ℕ) (resources : List Resource) (rows : List (ℕ × List ℕ))
            → HasOutside base resources self.old.vocab self.old.last rows
            → TakeResult (HasOutside base resources self.new.vocab self.new.last)
            (OutsideRule base resources) rows row good) }
    {
        let n = row.number;
        if self.last < n.get() {
            if self.vocab.take_iri(n, row.iri)? {
                self.last = n.get();
                Ok(true)
            } else {
                Ok(false)
            }
        } else {
            Ok(false)
        }
    }

    /// Parses the next row of table outside and adds its IRI; returns false if the row can't follow
    /// the rows read so far in a table that meets its rule.
    pub fn read(&mut self, alloc: Global, cells: &[Cell]) -> Result<bool, AllocError>
        ensures { IfOk result (λ good.
            (base : List ℕ) (resources : List Resource) (rows : List (ℕ × List ℕ))
            → length resources < 2 ^ 32
            → HasOutside base resources self.old.vocab self.old.last rows
            → ReadResult (map outside_cells)
            (HasOutside base resources self.new.vocab self.new.last)
            (OutsideRule base resources) rows cells.now good) }
    {
        match outside_in(alloc, cells)? {
            Some(row) => {
                let good = self.take(row)?;
                Ok(good)
            }
            None => Ok(false),
        }
    }

    /// Checks whether each outside concept has an IRI, the last condition of the table's rule.
    pub fn close(&self) -> bool
        ensures { (base : List ℕ) (resources : List Resource) (rows : List (ℕ × List ℕ))
            → HasOutside base resources self.now.vocab self.now.last rows
            → IsTrue result ↔ OutsideRule base resources rows }
    {
        // No effect; states the rules that the IRIs so far meet, for the proof.
        self.vocab.learn_rows_so_far();
        self.vocab.has_all_iris()
    }
}

/// Parses the next row of table label and adds its label; returns false if the row can't follow the
/// rows read so far in a table that meets its rule.
pub fn read_label(vocab: &mut VocabLoad, alloc: Global, cells: &[Cell]) -> Result<bool, AllocError>
    ensures { IfOk result (λ good.
        (base : List ℕ) (resources : List Resource) (outside : List (ℕ × List ℕ))
        (rows : List Label)
        → length resources < 2 ^ 32 → HasLabels base resources outside vocab.old rows
        → ReadResult (map label_cells) (HasLabels base resources outside vocab.new)
        (LabelRule resources) rows cells.now good) }
{
    match label_in(alloc, cells)? {
        Some(row) => {
            let good = vocab.take_label(row.owner, row.label)?;
            Ok(good)
        }
        None => Ok(false),
    }
}
