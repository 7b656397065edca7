//! The interface of the storage: which calls it has, and what each guarantees.
ghost use Rattle.std.specs.Prelude.{◌≡◌, IfOk, OnOk};
ghost use Rattle.thes_base.specs.Resources.{entry_at};
ghost use Rattle.thes_tables.specs.Tables.{Tables};
ghost use Rattle.thes_tables.specs.Cells.{Raw, cells_of_tables};
ghost use Rattle.thes_store.specs.FoundLoads.{PassesFound};
ghost use Rattle.thes_store.specs.Sinks.{SinkOutcome, sink_rows};
ghost use Rattle.thes_store.specs.Storage.{StorageView, QueryFrame, CommitFrame, DeltaFitsStorage, RawAfterChanges};
ghost use Rattle.thes_store.specs.Reading.{IsPostingOfKey, IsPostingOfNumber, assigned_posting_rows, assigned_row_numbers};

use crate::sink::{PostingSink, RowSink};
use std::marker::Model;
use thes_base::data::Moves;
use thes_base::fault::Fault;
use thes_base::number::{PostNo, ResNo};
use thes_base::text::Key;
use thes_tables::delta::Delta;
use thes_tables::rows::PostingRow;

/// A posting as the storage has it, with its moves, oldest first.
#[derive(Debug, Drop)]
pub struct Posting {
    pub row: PostingRow,
    pub moves: Moves,
}

impl Model for Posting {
    ghost use Rattle.thes_store.specs.Reading.{PostingWithMoves};

    ghost Value = { PostingWithMoves };

    ghost view = { λ a. record { row = a.row; moves = a.moves } };
}

/// Storage for the tables. What a contract says of the rows holds if `is_up` holds when the call
/// returns; what it says of the failures always holds.
pub trait Keeper {
    ghost view: { Self → StorageView };

    // The storage is open, and reads what was committed; its tables may hold anything.
    ghost is_open: { Self → Type 0 };

    // The tables may hold anything, and a load may find these rows in them.
    ghost finds: { Self → Raw → Type 0 };

    /// Returns the number of failures other than running out of memory; it saturates at its
    /// greatest value.
    fn failures(&self) -> u64
        ensures { result ≡ (view self.now).failures };

    /// Passes all rows to a sink, table after table, each table in its order; reports a table that
    /// can't be queried in place of its rows.
    fn load<S: RowSink>(&mut self, sink: &mut S) -> Result<(), Fault>
        ensures yields { (view self.new).is_up
            → SinkOutcome S.gives sink.old (sink_rows (view self.old).rows) result sink.new }
        ensures asks { QueryFrame (view self.old) (view self.new) result }
        ensures found { PassesFound is_open finds S.gives self.old self.new sink.old result
            sink.new };

    /// Applies all changes in order, or returns a fault and applies none; a fault that shuts the
    /// storage may leave them applied.
    fn commit(&mut self, delta: Delta) -> Result<(), Fault>
        requires fits { DeltaFitsStorage delta (view self.old) }
        ensures ok { OnOk result ((view self.new).is_up
            → RawAfterChanges delta (view self.old).rows (view self.new).rows) }
        ensures keeps { CommitFrame (view self.old) (view self.new) result };

    /// Returns the posting that has the key, if there is one.
    fn find(&mut self, key: &Key) -> Result<Option<PostingRow>, Fault>
        ensures ok { IfOk result (λ found. (view self.new).is_up → (t : Tables)
            → (view self.old).rows ≡ cells_of_tables t → IsPostingOfKey key.now t.posting found) }
        ensures asks { QueryFrame (view self.old) (view self.new) result };

    /// Returns the posting with the number, and its moves, if there is one.
    fn posting(&mut self, number: PostNo) -> Result<Option<Posting>, Fault>
        ensures ok { IfOk result (λ told. (view self.new).is_up → (t : Tables)
            → (view self.old).rows ≡ cells_of_tables t → IsPostingOfNumber number t told) }
        ensures asks { QueryFrame (view self.old) (view self.new) result };

    /// Returns the row of the posting with the number, without its moves, if there is one.
    fn row(&mut self, number: PostNo) -> Result<Option<PostingRow>, Fault>
        ensures ok { IfOk result (λ row. (view self.new).is_up → (t : Tables)
            → (view self.old).rows ≡ cells_of_tables t → row ≡ entry_at t.posting number) }
        ensures asks { QueryFrame (view self.old) (view self.new) result };

    /// Passes the postings assigned to a concept to a sink, in the order of their numbers.
    fn standing<S: PostingSink>(&mut self, concept: ResNo, sink: &mut S) -> Result<(), Fault>
        ensures yields { (view self.new).is_up → (t : Tables)
            → (view self.old).rows ≡ cells_of_tables t
            → SinkOutcome S.gives sink.old (assigned_posting_rows concept t.posting) result
            sink.new }
        ensures asks { QueryFrame (view self.old) (view self.new) result };

    /// Returns the numbers of the postings assigned to a concept, in increasing order.
    fn standing_numbers(&mut self, concept: ResNo) -> Result<Vec<PostNo>, Fault>
        ensures ok { IfOk result (λ numbers. (view self.new).is_up → (t : Tables)
            → (view self.old).rows ≡ cells_of_tables t
            → numbers.items ≡ assigned_row_numbers concept t.posting) }
        ensures asks { QueryFrame (view self.old) (view self.new) result };
}
