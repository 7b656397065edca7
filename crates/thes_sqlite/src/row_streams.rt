//! Reads rows of the database one by one, and passes them to a sink, as cells or as postings, or
//! collects the numbers of postings. So no table is in memory as a whole.
ghost use Rattle.std.specs.Prelude.{◌≡◌, ◌∷◌, ◌++◌, ℕ, pos, [], None, Some, false, true, map, IfErr, IfOk, OnOk};
ghost use Rattle.thes_tables.specs.declared.rows.PostingRow.{PostingRow};
ghost use Rattle.thes_tables.specs.Cells.{posting_cells};
ghost use Rattle.thes_tables.specs.Tables.{Tables};
ghost use Rattle.thes_store.specs.Reading.{assigned_posting_rows, assigned_row_numbers};
ghost use Rattle.thes_store.specs.Sinks.{SinkOutcome, sink_rows_of_table};
ghost use Rattle.thes_sql.specs.Declarations.{declares};
ghost use Rattle.thes_sql.specs.StoredRows.{values, Keeps};
ghost use Rattle.thes_sqlite.specs.Faults.{IsKeeperFault};
ghost use Rattle.thes_sqlite.specs.RowReads.{RowReadFrame, YieldsTable};
ghost use Rattle.thes_sqlite.specs.ValueCells.{cell_of};
ghost use Rattle.sqlite.specs.State.{HasCleanDisk};
ghost use Rattle.sqlite.specs.Held.{state};
ghost use Rattle.sqlite.specs.Order.{column};
ghost use Rattle.sqlite.specs.declared.types.Value.TheVariants.{Int};

use crate::any_cells::any_cells_of;
use crate::cause::Cause;
use crate::faults::{fault_of, fault_with_cause};
use crate::rows::{read_number, read_posting};
use sqlite::{Alter, Connection, Error, Row, params};
use std::alloc::Global;
use thes_base::fault::{Fault, Table};
use thes_base::number::{PostNo, ResNo};
use thes_sql::declarations::declares;
use thes_sql::reads::{assigned_numbers_query, assigned_query, table_query};
use thes_store::sink::{PostingSink, RowSink};

// Passes a row of the database to a sink, as cells of this table.
#[tactic(auto, using(thes_store::proofs::SinkLemmas::one_sink_row))]
fn yield_row<R: RowSink>(alloc: Global, name: Table, row: &Row, sink: &mut R) -> Result<(), Fault>
    ensures yields { SinkOutcome R.gives sink.old
        ((name, Some (map cell_of row.now)) ∷ []) result sink.new }
    ensures err { IfErr result IsKeeperFault }
{
    let cells = any_cells_of(alloc, row)?;
    sink.row(name, cells.as_slice())
}

// Passes the rows of a table to a sink as they are read. If the table can't be queried, reports
// that to the sink instead. Records the cause of an error of the database.
fn yield_rows<S: Alter, R: RowSink>(
    alloc: Global,
    conn: &mut Connection<S>,
    name: Table,
    sink: &mut R,
    cause: &mut Cause,
) -> Result<(), Fault>
    requires { declares (state S.Store conn.old).now.schema name ≡ true }
    ensures yields { YieldsTable S.Store R.gives name conn.old conn.new sink.old result sink.new }
    ensures frame { RowReadFrame S.Store conn.old conn.new result }
{
    let mut rows = match conn.query(table_query(name), &[]) {
        Ok(rows) => rows,
        Err(Error::SqlInputError(_)) => return sink.report_unqueried(name),
        Err(error) => return Err(fault_with_cause(error, cause)),
    };
    'rows: for _ in 0..u64::MAX {
        if let Err(error) = rows.advance() {
            return Err(fault_with_cause(error, cause));
        }
        let Some(row) = rows.get() else {
            return Ok(());
        };
        if let Err(fault) = yield_row(alloc, name, row, sink) {
            return Err(fault);
        }
    }
    Err(Fault::Store)
}

/// Passes the rows of a table to a sink. If the table can't be queried, or isn't declared as in a
/// store, reports that to the sink instead. Records the cause of an error of the database.
#[tactic(auto, using(crate::proofs::FoundRowLemmas::undeclared_yielded))]
pub(crate) fn yield_table_rows<S: Alter, R: RowSink>(
    alloc: Global,
    conn: &mut Connection<S>,
    name: Table,
    sink: &mut R,
    cause: &mut Cause,
) -> Result<(), Fault>
    ensures yields { YieldsTable S.Store R.gives name conn.old conn.new sink.old result sink.new }
    ensures differs { declares (state S.Store conn.old).now.schema name ≡ false
        → SinkOutcome R.gives sink.old (sink_rows_of_table name None) result sink.new }
    ensures frame { RowReadFrame S.Store conn.old conn.new result }
{
    if !declares(conn, name) {
        return sink.report_unqueried(name);
    }
    yield_rows(alloc, conn, name, sink, cause)
}

// Passes a row of table posting to a sink as a posting. A row of another form is the fault `Store`.
fn yield_posting<P: PostingSink>(alloc: Global, row: &Row, sink: &mut P) -> Result<(), Fault>
    ensures yields { (x : PostingRow) → row.now ≡ values (posting_cells x)
        → SinkOutcome P.gives sink.old (x ∷ []) result sink.new }
    ensures err { IfErr result IsKeeperFault }
{
    match read_posting(alloc, row) {
        Ok(found) => sink.posting(&found),
        Err(error) => Err(fault_of(error)),
    }
}

/// Passes to a sink the postings that are assigned to the concept, as they are read, sorted by
/// number.
pub(crate) fn yield_postings<S: Alter, P: PostingSink>(
    alloc: Global,
    conn: &mut Connection<S>,
    concept: ResNo,
    sink: &mut P,
) -> Result<(), Fault>
    ensures yields { HasCleanDisk (state S.Store conn.new) → (t : Tables)
        → Keeps (state S.Store conn.old).now t
        → SinkOutcome P.gives sink.old (assigned_posting_rows concept t.posting) result sink.new }
    ensures frame { RowReadFrame S.Store conn.old conn.new result }
{
    let mut postings = match conn.query(assigned_query(), params![concept.get()]) {
        Ok(postings) => postings,
        Err(error) => return Err(fault_of(error)),
    };
    'postings: for _ in 0..u64::MAX {
        if let Err(error) = postings.advance() {
            return Err(fault_of(error));
        }
        let Some(row) = postings.get() else {
            return Ok(());
        };
        if let Err(fault) = yield_posting(alloc, row, sink) {
            return Err(fault);
        }
    }
    Err(Fault::Store)
}

// Appends to a list the posting number in the first column of a row.
fn push_number(row: &Row, numbers: &mut Vec<PostNo>) -> Result<(), Fault>
    ensures ok { OnOk result ((n : ℕ) → column row.now 0 ≡ Int (pos n)
        → numbers.new.items ≡ numbers.old.items ++ n ∷ []) }
    ensures err { IfErr result IsKeeperFault }
{
    match read_number(row) {
        Ok(number) => {
            numbers.push(number)?;
            Ok(())
        }
        Err(error) => Err(fault_of(error)),
    }
}

/// Collects the numbers of the postings that are assigned to the concept, in increasing order, as
/// they are read.
pub(crate) fn collect_numbers<S: Alter>(
    alloc: Global,
    conn: &mut Connection<S>,
    concept: ResNo,
) -> Result<Vec<PostNo>, Fault>
    ensures ok { HasCleanDisk (state S.Store conn.new) → IfOk result (λ numbers. (t : Tables)
        → Keeps (state S.Store conn.old).now t
        → numbers.items ≡ assigned_row_numbers concept t.posting) }
    ensures frame { RowReadFrame S.Store conn.old conn.new result }
{
    let mut numbers = Vec::new(alloc);
    let mut rows = match conn.query(assigned_numbers_query(), params![concept.get()]) {
        Ok(rows) => rows,
        Err(error) => return Err(fault_of(error)),
    };
    'numbers: for _ in 0..u64::MAX {
        if let Err(error) = rows.advance() {
            return Err(fault_of(error));
        }
        let Some(row) = rows.get() else {
            return Ok(numbers);
        };
        if let Err(fault) = push_number(row, &mut numbers) {
            return Err(fault);
        }
    }
    Err(Fault::Store)
}
