//! Builds a core from lists of rows, in any order within each table.
ghost use Rattle.std.specs.Prelude.{◌≡◌, ◌⊎◌, IfOk, IfErr, OnOk};
ghost use Rattle.thes_base.specs.declared.fault.Fault.TheVariants as faults;
ghost use Rattle.thes_tables.specs.TableOrder.{raw_rows_of};
ghost use Rattle.thes_store.specs.Sinks.{SinkAcceptsAll, sink_rows_of_table, sink_rows_of_tables};
ghost use Rattle.thes_office.specs.LoaderFeed.{KnowsRows, FeedResult};
ghost use Rattle.thes_row_lists.specs.RowOrder.{IsCoreOfRows, IsFaultOfRows};
ghost use Rattle.thes_row_lists.specs.SortedRows.{first_number, table_of, raw_of, IsSortedCopy, AreSorted};

use std::alloc::{AllocError, Global};
use std::marker::Model;
use thes_base::data::Limits;
use thes_base::fault::{Fault, Table};
use thes_core::Core;
use thes_office::Loader;
use thes_store::row_encoding::{AsCells, yield_rows};
use thes_store::sink::RowSink;
use thes_tables::cells::Cell;
use thes_tables::order::tables_in_order;

/// A row of a table, as a list of untyped cells.
#[derive(Debug, Drop)]
pub struct CellRow {
    cells: Vec<Cell>,
}

impl Model for CellRow {
    ghost use Rattle.std.specs.Prelude.{List};
    ghost use Rattle.thes_tables.specs.declared.cells.Cell.{Cell};

    ghost Value = { List Cell };

    ghost view = { λ a. a.cells.items };
}

impl CellRow {
    /// Returns the row with these cells.
    pub fn new(cells: Vec<Cell>) -> CellRow
        ensures { result ≡ cells.items }
    {
        CellRow { cells }
    }

    // Returns the number in the first cell, by which numbered tables are sorted, or 0 if that cell
    // isn't a natural number.
    fn number(&self) -> u64
        ensures { result ≡ first_number self.now }
    {
        match self.cells.first() {
            Some(Cell::Int(number)) if 0 <= *number => *number as u64,
            _ => 0,
        }
    }
}

/// Yields the cells as they are, without copying them.
impl AsCells for CellRow {
    ghost cells_of = { λ row. row };

    fn yield_to<S: RowSink>(&self, _alloc: Global, name: Table, sink: &mut S) -> Result<(), Fault> {
        match sink.row(name, self.cells.as_slice()) {
            Ok(()) => Ok(()),
            Err(fault) => Err(fault),
        }
    }
}

/// The rows of the eight tables of a store, in any order within a table; None for a table that
/// can't be queried. `steps` has the rows of table move, whose name is a keyword.
#[derive(Debug, Drop)]
pub struct CellRows {
    pub meta: Option<Vec<CellRow>>,
    pub resource: Option<Vec<CellRow>>,
    pub outside: Option<Vec<CellRow>>,
    pub label: Option<Vec<CellRow>>,
    pub link: Option<Vec<CellRow>>,
    pub hier: Option<Vec<CellRow>>,
    pub posting: Option<Vec<CellRow>>,
    pub steps: Option<Vec<CellRow>>,
}

// Sorts the rows of a table by the number in their first cell; leaves a table that can't be queried
// unchanged.
fn sort_table(table: &mut Option<Vec<CellRow>>) -> Result<(), AllocError>
    ensures { OnOk result (IsSortedCopy (table_of table.old) (table_of table.new)) }
{
    if let Some(rows) = table {
        rows.sort_by_key(
            |row: &CellRow| -> u64
                ensures { result ≡ first_number row.now }
            { row.number() },
        )?;
    }
    Ok(())
}

// Passes the rows of a table to a loader, or the report that the table can't be queried.
fn feed_table(
    alloc: Global,
    name: Table,
    table: &Option<Vec<CellRow>>,
    loader: &mut Loader,
) -> Result<(), Fault>
    ensures takes { OnOk result
        (SinkAcceptsAll FeedResult loader.old (sink_rows_of_table name (table_of table.now))
        loader.new) }
    ensures err { IfErr result (λ fault. fault ≡ faults.OutOfMemory) }
{
    match table {
        Some(rows) => yield_rows(alloc, name, rows.as_slice(), loader),
        None => loader.report_unqueried(name),
    }
}

impl CellRows {
    // Sorts the rows of the tables numbered in their first column: resource, outside, posting and
    // move.
    fn sort(&mut self) -> Result<(), AllocError>
        ensures { OnOk result (AreSorted (raw_of self.old) (raw_of self.new)) }
    {
        sort_table(&mut self.resource)?;
        sort_table(&mut self.outside)?;
        sort_table(&mut self.posting)?;
        sort_table(&mut self.steps)
    }

    // Returns the rows of the table with this name, or None if the table can't be queried.
    fn rows_of(&self, name: Table) -> &Option<Vec<CellRow>>
        ensures { table_of result.now ≡ raw_rows_of name (raw_of self.now) }
    {
        match name {
            Table::Meta => &self.meta,
            Table::Resource => &self.resource,
            Table::Outside => &self.outside,
            Table::Label => &self.label,
            Table::Link => &self.link,
            Table::Hier => &self.hier,
            Table::Posting => &self.posting,
            Table::Move => &self.steps,
        }
    }
}

// Passes the rows of these tables to a loader, table after table.
fn feed_tables(
    alloc: Global,
    rows: &CellRows,
    names: &[Table],
    loader: &mut Loader,
) -> Result<(), Fault>
    ensures takes { OnOk result (SinkAcceptsAll FeedResult loader.old
        (sink_rows_of_tables (raw_of rows.now) names.now) loader.new) }
    ensures err { IfErr result (λ fault. fault ≡ faults.OutOfMemory) }
{
    for name in names {
        feed_table(alloc, *name, rows.rows_of(*name), loader)?;
    }
    Ok(())
}

// Passes all rows to a loader, table by table, in the order in which a store yields them.
fn read_rows(alloc: Global, rows: &CellRows, limits: Limits) -> Result<Loader, Fault>
    ensures knows { IfOk result (λ loader. KnowsRows loader (raw_of rows.now)
        × (loader.limits ≡ limits)) }
    ensures err { IfErr result (λ fault. fault ≡ faults.OutOfMemory) }
{
    let mut loader = Loader::new(alloc, limits);
    feed_tables(alloc, rows, &tables_in_order(), &mut loader)?;
    Ok(loader)
}

/// Builds a core from lists of rows; any fault but OutOfMemory is the verdict on the rows. Sorts
/// the numbered tables (resource, outside, posting and move) first, so the result doesn't depend on
/// the order of rows within a list.
pub fn from_rows(alloc: Global, rows: CellRows, limits: Limits) -> Result<Core, Fault>
    ensures ok { IfOk result (IsCoreOfRows (raw_of rows) limits) }
    ensures err { IfErr result (λ fault. (fault ≡ faults.OutOfMemory)
        ⊎ IsFaultOfRows (raw_of rows) fault) }
{
    let mut sorted = rows;
    sorted.sort()?;
    let loader = read_rows(alloc, &sorted, limits)?;
    match loader.finish() {
        Ok(core) => Ok(core),
        Err(fault) => Err(fault),
    }
}
