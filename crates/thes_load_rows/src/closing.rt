//! The checks of a table after its last row. Each function returns the next stage of the load: at
//! the next table, or stopped with a fault. The last one returns what was loaded, or a fault.
ghost use Rattle.std.specs.Prelude.{◌≡◌, IfOk};
ghost use Rattle.thes_base.specs.declared.fault.Fault.TheVariants.{BadStore};
ghost use Rattle.thes_tables.specs.Cells.{Raw};
ghost use Rattle.thes_tables.specs.TableOrder.{next_table};
ghost use Rattle.thes_load_rows.specs.declared.stage.Stage.TheVariants as stage;
ghost use Rattle.thes_load_rows.specs.Progress.{Closes, HasRead};
ghost use Rattle.thes_load_rows.specs.LoadResults.{LoadResult};

use crate::links::LinkedVocab;
use crate::meta::MetaRow;
use crate::moves::MoveLoad;
use crate::names::OutsideLoad;
use crate::postings::{PlacedPostings, PostingLoad};
use crate::resources::ResourceLoad;
use crate::stage::Stage;
use crate::stage_steps::LoadedParts;
use std::alloc::{AllocError, Global};
use thes_base::fault::{Fault, Table};
use thes_base::text::Base;
use thes_tables::order::next_table;
use thes_vocab::VocabLoad;

// Returns the stage after a table that doesn't meet its rule: stopped with `BadStore`, at the next
// table.
fn stage_after_fault(table: Table) -> Stage
    ensures { result ≡ stage.Stopped (BadStore table) (next_table table) }
{
    Stage::Stopped(Fault::BadStore(table), next_table(table))
}

/// Begins table resource if table meta has a row of the current version. Stops with `OlderStore` or
/// `NewerStore` for another version, and with `BadStore` if there is no row.
pub fn close_meta(alloc: Global, row: Option<MetaRow>) -> Stage
    ensures { Closes (stage.Meta row) result }
{
    match row {
        Some(MetaRow::Base(base)) => Stage::Resource(base, ResourceLoad::new(alloc)),
        Some(MetaRow::Newer) => Stage::Stopped(Fault::NewerStore, next_table(Table::Meta)),
        Some(MetaRow::Older) => Stage::Stopped(Fault::OlderStore, next_table(Table::Meta)),
        None => stage_after_fault(Table::Meta),
    }
}

/// Begins table outside if the rows of table resource meet the table's rule; otherwise stops with
/// `BadStore`.
pub fn close_resource(alloc: Global, base: Base, load: ResourceLoad) -> Result<Stage, AllocError>
    ensures { IfOk result (Closes (stage.Resource base load)) }
{
    if load.close(alloc)? {
        let vocab = VocabLoad::new(alloc, base, load.resources)?;
        Ok(Stage::Outside(OutsideLoad::new(vocab)))
    } else {
        Ok(stage_after_fault(Table::Resource))
    }
}

/// Begins table label if each outside concept has an IRI; otherwise stops with `BadStore`.
pub fn close_outside(load: OutsideLoad) -> Stage
    ensures { Closes (stage.Outside load) result }
{
    if load.close() {
        Stage::Label(load.vocab)
    } else {
        stage_after_fault(Table::Outside)
    }
}

/// Begins table link if each scheme, concept and collection has a preferred label; otherwise stops
/// with `BadStore`.
pub fn close_label(alloc: Global, vocab: VocabLoad) -> Result<Stage, AllocError>
    ensures { IfOk result (Closes (stage.Label vocab)) }
{
    // No effect; states the rules that the labels so far meet, for the proof.
    vocab.learn_rows_so_far();
    if vocab.has_all_iris() {
        match vocab.close() {
            Some(vocab) => {
                let linked_vocab = LinkedVocab::new(alloc, vocab)?;
                Ok(Stage::Link(linked_vocab))
            }
            None => Ok(stage_after_fault(Table::Label)),
        }
    } else {
        Ok(stage_after_fault(Table::Label))
    }
}

/// Begins table posting if the links of the tables link and hier together meet Cycle, S27 and S46;
/// otherwise stops with `BadStore`.
pub fn close_hier(alloc: Global, linked_vocab: LinkedVocab) -> Result<Stage, AllocError>
    ensures { IfOk result (Closes (stage.Hier linked_vocab)) }
{
    match linked_vocab.graph.check_whole(alloc)? {
        None => Ok(Stage::Posting(linked_vocab, PostingLoad::new(alloc))),
        Some(_) => Ok(stage_after_fault(Table::Hier)),
    }
}

/// Begins table move, whose moves start at the first concepts of the postings.
pub fn close_posting(linked_vocab: LinkedVocab, load: PostingLoad) -> Stage
    ensures { Closes (stage.Posting linked_vocab load) result }
{
    let (moves, placed) = load.close();
    Stage::Move(linked_vocab, placed, moves)
}

/// Checks table move, the last one, after its last row, and returns the loaded parts, or the
/// table's fault.
pub fn close_moves(
    linked_vocab: LinkedVocab,
    placed: PlacedPostings,
    load: MoveLoad,
) -> Result<LoadedParts, Fault>
    ensures { (raw : Raw) → HasRead (stage.Move linked_vocab placed load) raw
        → LoadResult raw result }
{
    if load.close(placed.stored_places.as_slice()) {
        let book = placed.tally.close(load.taken);
        Ok(LoadedParts { linked_vocab, book })
    } else {
        Err(Fault::BadStore(Table::Move))
    }
}
