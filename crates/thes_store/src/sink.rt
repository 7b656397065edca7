//! Consumers of the rows that the storage reads.
ghost use Rattle.std.specs.Prelude.{◌≡◌, List, Option, None, Some, Result, IfErr};
ghost use Rattle.thes_base.specs.declared.fault.Fault.{Fault};
ghost use Rattle.thes_base.specs.declared.fault.Table.{Table};
ghost use Rattle.thes_tables.specs.declared.cells.Cell.{Cell};
ghost use Rattle.thes_tables.specs.declared.rows.PostingRow.{PostingRow};

use thes_base::fault::{Fault, Table};
use thes_tables::cells::Cell;
use thes_tables::rows::PostingRow;

/// A consumer of rows of the tables, which gets them one at a time. Its only fault is running out
/// of memory.
pub trait RowSink {
    // The effect of consuming a row of a table. The arguments are the state before; the table with
    // the row, or with None if the table can't be queried; the result; and the state after.
    ghost gives: { Self → Table × Option (List Cell) → Result (Unit {0}) Fault → Self → Type 0 };

    /// Consumes one row of a table.
    fn row(&mut self, table: Table, row: &[Cell]) -> Result<(), Fault>
        ensures gives { gives self.old (table, Some row.now) result self.new }
        ensures err { IfErr result (λ fault. fault ≡ Fault.OutOfMemory) };

    /// Records that a table can't be queried, or isn't declared as in a store; the sink gets this
    /// report in place of the table's rows.
    fn report_unqueried(&mut self, table: Table) -> Result<(), Fault>
        ensures gives { gives self.old (table, None) result self.new }
        ensures err { IfErr result (λ fault. fault ≡ Fault.OutOfMemory) };
}

/// A consumer of postings, which gets them one at a time. Its only fault is running out of memory.
pub trait PostingSink {
    // The effect of consuming a posting. The arguments are the state before, the posting, the
    // result, and the state after.
    ghost gives: { Self → PostingRow → Result (Unit {0}) Fault → Self → Type 0 };

    /// Consumes one posting.
    fn posting(&mut self, row: &PostingRow) -> Result<(), Fault>
        ensures gives { gives self.old row.now result self.new }
        ensures err { IfErr result (λ fault. fault ≡ Fault.OutOfMemory) };
}
