//! The stages of a load: one for each table whose rows are read, and one for a load that has
//! stopped with a fault.
ghost use Rattle.std.specs.Prelude.{◌≡◌, ◌↔◌, ◌<◌, ◌≤◌, IsTrue, IfOk};
ghost use Rattle.thes_tables.specs.TableOrder.{next_table, table_no};
ghost use Rattle.thes_load_rows.specs.Progress.{stage_table, is_stopped, ReadsRow, Closes, ReachesTable};

use crate::closing::{
    close_hier, close_label, close_meta, close_outside, close_posting, close_resource,
};
use crate::links::LinkedVocab;
use crate::meta::{MetaRow, meta_in};
use crate::moves::MoveLoad;
use crate::names::{OutsideLoad, read_label};
use crate::postings::{PlacedPostings, PostingLoad};
use crate::resources::ResourceLoad;
use std::alloc::{AllocError, Global};
use thes_base::fault::{Fault, Table};
use thes_base::text::Base;
use thes_tables::cells::Cell;
use thes_tables::order::{next_table, table_number};
use thes_vocab::VocabLoad;

/// A stage of a load: the table whose rows are read, with what the rows read so far encode, or the
/// first fault.
#[derive(Drop)]
pub enum Stage {
    /// Table meta, with its row if that has been read.
    Meta(Option<MetaRow>),
    /// Table resource, with the base and the resources read so far.
    Resource(Base, ResourceLoad),
    /// Table outside, with all resources and the IRIs of outside concepts read so far.
    Outside(OutsideLoad),
    /// Table label, with all resources and IRIs, and the labels read so far.
    Label(VocabLoad),
    /// Table link, with the vocabulary and the links that aren't hierarchical read so far.
    Link(LinkedVocab),
    /// Table hier, with the vocabulary, the links of table link, and the hierarchical links read so
    /// far.
    Hier(LinkedVocab),
    /// Table posting, with the vocabulary and all links, and the postings read so far.
    Posting(LinkedVocab, PostingLoad),
    /// Table move, with the vocabulary and all links, the stored places and counts of all postings,
    /// and the places after the moves read so far.
    Move(LinkedVocab, PlacedPostings, MoveLoad),
    /// The first fault, and the current table.
    Stopped(Fault, Table),
}

impl Stage {
    /// Returns the current table, whose rows are read; a stopped load also has one.
    pub fn current_table(&self) -> Table
        ensures { result ≡ stage_table self.now }
    {
        match self {
            Stage::Meta(_) => Table::Meta,
            Stage::Resource(_, _) => Table::Resource,
            Stage::Outside(_) => Table::Outside,
            Stage::Label(_) => Table::Label,
            Stage::Link(_) => Table::Link,
            Stage::Hier(_) => Table::Hier,
            Stage::Posting(_, _) => Table::Posting,
            Stage::Move(_, _, _) => Table::Move,
            Stage::Stopped(_, current_table) => *current_table,
        }
    }

    /// Checks whether the load is past the rows of this table.
    pub fn is_past(&self, table: Table) -> bool
        ensures { IsTrue result ↔ (table_no table < table_no (stage_table self.now)) }
    {
        table_number(table) < table_number(self.current_table())
    }

    /// Checks whether the load has stopped with a fault.
    pub fn is_stopped(&self) -> bool
        ensures { result ≡ is_stopped self.now }
    {
        match self {
            Stage::Stopped(_, _) => true,
            _ => false,
        }
    }

    /// Parses the next row of the current table and adds it; returns false if the row can't follow
    /// the rows read so far in a table that meets its rule. Conditions on the table as a whole are
    /// checked after its last row. After a fault, `read` does nothing and returns true.
    pub(crate) fn read(&mut self, alloc: Global, cells: &[Cell]) -> Result<bool, AllocError>
        ensures { IfOk result (ReadsRow self.old self.new cells.now) }
    {
        match self {
            Stage::Meta(row) => match row {
                Some(_) => Ok(false),
                None => match meta_in(alloc, cells)? {
                    Some(new) => {
                        *row = Some(new);
                        Ok(true)
                    }
                    None => Ok(false),
                },
            },
            Stage::Resource(_, load) => load.read(cells),
            Stage::Outside(load) => load.read(alloc, cells),
            Stage::Label(vocab) => read_label(vocab, alloc, cells),
            Stage::Link(linked_vocab) => linked_vocab.read_link(cells),
            Stage::Hier(linked_vocab) => linked_vocab.read_hier(cells),
            Stage::Posting(linked_vocab, load) => load.read(
                alloc,
                linked_vocab.vocab.resources(),
                cells,
            ),
            Stage::Move(linked_vocab, _, load) => Ok(load.read(
                linked_vocab.vocab.resources(),
                cells,
            )),
            Stage::Stopped(_, _) => Ok(true),
        }
    }

    // Checks the current table after its last row, and makes the next one current; keeps an earlier
    // fault. Does nothing at table move, the last one.
    fn close(self, alloc: Global) -> Result<Stage, AllocError>
        ensures { IfOk result (Closes self) }
    {
        match self {
            Stage::Meta(row) => Ok(close_meta(alloc, row)),
            Stage::Resource(base, load) => close_resource(alloc, base, load),
            Stage::Outside(load) => Ok(close_outside(load)),
            Stage::Label(vocab) => close_label(alloc, vocab),
            Stage::Link(linked_vocab) => Ok(Stage::Hier(linked_vocab)),
            Stage::Hier(linked_vocab) => close_hier(alloc, linked_vocab),
            Stage::Posting(linked_vocab, load) => Ok(close_posting(linked_vocab, load)),
            Stage::Move(linked_vocab, placed, load) => Ok(Stage::Move(linked_vocab, placed, load)),
            Stage::Stopped(fault, current_table) => Ok(Stage::Stopped(
                fault,
                next_table(current_table),
            )),
        }
    }

    /// Closes the tables before `table`, by a check of each, and makes `table` the current one;
    /// keeps an earlier fault.
    pub(crate) fn reach(self, alloc: Global, table: Table) -> Result<Stage, AllocError>
        requires { table_no (stage_table self) ≤ table_no table }
        ensures { IfOk result (λ new. ReachesTable self new table) }
    {
        let mut stage = self;
        for i in table_number(stage.current_table())..table_number(table) {
            stage = stage.close(alloc)?;
        }
        Ok(stage)
    }
}
