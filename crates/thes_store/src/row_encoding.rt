//! Encodes rows of the tables in memory as cells, and passes them to a sink.
ghost use Rattle.std.specs.Prelude.{◌≡◌, ◌∷◌, ◌+◌, ◌<◌, ◌^◌, ℕ, [], List, Some, IfOk, IfErr, map};
ghost use Rattle.std.specs.List.{cons_option};
ghost use Rattle.thes_base.specs.declared.fault.Fault.{Fault};
ghost use Rattle.thes_tables.specs.declared.cells.Cell.{Cell};
ghost use Rattle.thes_tables.specs.declared.cells.Cell.TheVariants.{Text};
ghost use Rattle.thes_tables.specs.Cells.{number_cell, optional_cell, meta_cells, resource_cells, resource_rows, cells_of_tables};
ghost use Rattle.thes_base.specs.declared.fault.Table.TheVariants as table;
ghost use Rattle.thes_store.specs.Sinks.{SinkOutcome, sink_rows_of_table, sink_rows, sink_rows_of_tables};
ghost use Rattle.thes_tables.specs.TableOrder.{raw_rows_of};
ghost use Rattle.thes_store.specs.Room.{tables_in_memory};
ghost use Rattle.thes_store.specs.Slots.{rows_in};

use crate::packed_label::PackedLabel;
use crate::sink::RowSink;
use crate::slots::{IndexedRow, Slots};
use crate::tables::MemTables;
use std::alloc::{AllocError, Global};
use thes_base::data::{Link, Resource};
use thes_base::fault::{Fault, Table};
use thes_base::number::ResNo;
use thes_base::text::Base;
use thes_tables::cells::{Cell, CellText};
use thes_tables::numbers::{flag_number, resource_number, type_number};
use thes_tables::order::tables_in_order;
use thes_tables::rows::{HierRow, MoveRow, OutsideRow, PostingRow};

/// A row that can be encoded as cells.
pub trait AsCells {
    // The cells of the row, in the order of the columns of its table.
    ghost cells_of: { Self → List Cell };

    /// Encodes the row as cells, and passes them to a sink as a row of the table `name`.
    fn yield_to<S: RowSink>(&self, alloc: Global, name: Table, sink: &mut S) -> Result<(), Fault>
        ensures yields { SinkOutcome S.gives sink.old
            ((name, Some (cells_of self.now)) ∷ [])
            result sink.new }
        ensures err { IfErr result (λ fault. fault ≡ Fault.OutOfMemory) };
}

// Returns the integer cell of a number in a row.
fn int(n: u32) -> Cell
    ensures { result ≡ number_cell n }
{
    Cell::Int(i64::from(n))
}

// Returns the cell of a resource's number, or Null if there is none.
fn optional(n: Option<ResNo>) -> Cell
    ensures { result ≡ optional_cell n }
{
    match n {
        Some(n) => int(n.get()),
        None => Cell::Null,
    }
}

// Returns a cell that has a copy of the text.
fn text(alloc: Global, text: &str) -> Result<Cell, AllocError>
    ensures { IfOk result (λ cell. cell ≡ Text text.now) }
{
    Ok(Cell::Text(CellText::new(alloc, text)?))
}

// Passes one row of a table in memory, as cells, to a sink.
fn yield_row<S: RowSink>(name: Table, row: &[Cell], sink: &mut S) -> Result<(), Fault>
    ensures yields { SinkOutcome S.gives sink.old ((name, Some row.now) ∷ []) result sink.new }
    ensures err { IfErr result (λ fault. fault ≡ Fault.OutOfMemory) }
{
    sink.row(name, row)
}

/// Encodes the number and the IRI.
impl AsCells for OutsideRow {
    ghost use Rattle.thes_tables.specs.Cells.{outside_cells};

    ghost cells_of = { outside_cells };

    fn yield_to<S: RowSink>(&self, alloc: Global, name: Table, sink: &mut S) -> Result<(), Fault> {
        let iri = text(alloc, self.iri.as_str())?;
        yield_row(name, &[int(self.number.get()), iri], sink)
    }
}

/// Encodes the owner, the kind, the tag and the text.
impl AsCells for PackedLabel {
    ghost use Rattle.thes_tables.specs.Cells.{label_cells};

    ghost cells_of = { label_cells };

    fn yield_to<S: RowSink>(&self, alloc: Global, name: Table, sink: &mut S) -> Result<(), Fault> {
        let kind = self.kind().number();
        let tag = text(alloc, self.tag())?;
        let label = text(alloc, self.text())?;
        yield_row(
            name,
            &[int(self.owner().get()), int(kind), tag, label],
            sink,
        )
    }
}

/// Encodes the kind and the two ends.
impl AsCells for Link {
    ghost use Rattle.thes_tables.specs.Cells.{link_cells};

    ghost cells_of = { link_cells };

    fn yield_to<S: RowSink>(&self, _alloc: Global, name: Table, sink: &mut S) -> Result<(), Fault> {
        let kind = self.kind.number();
        yield_row(
            name,
            &[int(kind), int(self.a.get()), int(self.b.get())],
            sink,
        )
    }
}

/// Encodes the narrower concept, the broader one and the type.
impl AsCells for HierRow {
    ghost use Rattle.thes_tables.specs.Cells.{hier_cells};

    ghost cells_of = { hier_cells };

    fn yield_to<S: RowSink>(&self, _alloc: Global, name: Table, sink: &mut S) -> Result<(), Fault> {
        let typ = type_number(self.typ);
        yield_row(
            name,
            &[int(self.a.get()), int(self.b.get()), int(typ)],
            sink,
        )
    }
}

/// Encodes the number, the key, the record, the first concept, the place, and 1 if the posting is
/// withdrawn or else 0.
impl AsCells for PostingRow {
    ghost use Rattle.thes_tables.specs.Cells.{posting_cells};

    ghost cells_of = { posting_cells };

    fn yield_to<S: RowSink>(&self, alloc: Global, name: Table, sink: &mut S) -> Result<(), Fault> {
        let number = int(self.number.get());
        let key = text(alloc, self.key.as_str())?;
        let rec = text(alloc, self.rec.as_str())?;
        let first = int(self.first.get());
        let place = int(self.place.get());
        let withdrawn = int(flag_number(self.withdrawn));
        yield_row(name, &[number, key, rec, first, place, withdrawn], sink)
    }
}

/// Encodes the number, the posting, the source and the target.
impl AsCells for MoveRow {
    ghost use Rattle.thes_tables.specs.Cells.{move_cells};

    ghost cells_of = { move_cells };

    fn yield_to<S: RowSink>(&self, _alloc: Global, name: Table, sink: &mut S) -> Result<(), Fault> {
        let number = int(self.number.get());
        let posting = int(self.posting.get());
        let source = int(self.source.get());
        let target = int(self.target.get());
        yield_row(name, &[number, posting, source, target], sink)
    }
}

/// Passes the rows of a table to a sink, in their order.
pub fn yield_rows<R: AsCells, S: RowSink>(
    alloc: Global,
    name: Table,
    rows: &[R],
    sink: &mut S,
) -> Result<(), Fault>
    ensures yields { SinkOutcome S.gives sink.old
        (sink_rows_of_table name (Some (map R.cells_of rows.now)))
        result sink.new }
    ensures err { IfErr result (λ fault. fault ≡ Fault.OutOfMemory) }
{
    for row in rows {
        if let Err(fault) = row.yield_to(alloc, name, sink) {
            return Err(fault);
        }
    }
    Ok(())
}

// Passes the rows of a table with gaps to a sink, in their order and without the gaps.
fn yield_slots<R: AsCells + IndexedRow + Drop, S: RowSink>(
    alloc: Global,
    name: Table,
    rows: &Slots<R>,
    sink: &mut S,
) -> Result<(), Fault>
    ensures yields { SinkOutcome S.gives sink.old
        (sink_rows_of_table name (Some (map R.cells_of (rows_in rows.now))))
        result sink.new }
    ensures err { IfErr result (λ fault. fault ≡ Fault.OutOfMemory) }
{
    let slots = rows.as_slice();
    for slot in slots {
        if let Err(fault) = yield_slot(alloc, name, slot, sink) {
            return Err(fault);
        }
    }
    Ok(())
}

// Passes the row in a slot to a sink, or nothing if the slot is a gap.
fn yield_slot<R: AsCells, S: RowSink>(
    alloc: Global,
    name: Table,
    slot: &Option<R>,
    sink: &mut S,
) -> Result<(), Fault>
    ensures yields { SinkOutcome S.gives sink.old
        (sink_rows_of_table name (Some (map R.cells_of (cons_option slot.now []))))
        result sink.new }
    ensures err { IfErr result (λ fault. fault ≡ Fault.OutOfMemory) }
{
    match slot {
        Some(row) => row.yield_to(alloc, name, sink),
        None => Ok(()),
    }
}

/// Passes the only row of table meta to a sink: key 1, version 2 and the base.
pub fn yield_meta<S: RowSink>(alloc: Global, base: &Base, sink: &mut S) -> Result<(), Fault>
    ensures yields { SinkOutcome S.gives sink.old
        (sink_rows_of_table table.Meta (Some (meta_cells base.now ∷ [])))
        result sink.new }
    ensures err { IfErr result (λ fault. fault ≡ Fault.OutOfMemory) }
{
    let base = text(alloc, base.as_str())?;
    yield_row(Table::Meta, &[int(1), int(2), base], sink)
}

// Returns the cell with the number of the row at position `i`, which is `i + 1`.
fn row_number_cell(i: usize) -> Cell
    requires { i + 1 < 2 ^ 63 }
    ensures { result ≡ number_cell (i + 1) }
{
    Cell::Int(i as i64 + 1)
}

// Passes the row of a resource to a sink, given the cell with the resource's number.
fn yield_resource<S: RowSink>(number: Cell, resource: &Resource, sink: &mut S) -> Result<(), Fault>
    ensures yields { (n : ℕ) → number ≡ number_cell n
        → SinkOutcome S.gives sink.old
        ((table.Resource, Some (resource_cells n resource.now)) ∷ [])
        result sink.new }
    ensures err { IfErr result (λ fault. fault ≡ Fault.OutOfMemory) }
{
    let kind = int(resource_number(resource.kind));
    let scheme = optional(resource.scheme);
    let live = int(flag_number(resource.live));
    let replaced = optional(resource.replaced);
    yield_row(
        Table::Resource,
        &[number, kind, scheme, live, replaced],
        sink,
    )
}

/// Passes the rows of table resource to a sink, numbered from 1 by their positions.
pub fn yield_resources<S: RowSink>(rows: &[Resource], sink: &mut S) -> Result<(), Fault>
    ensures yields { SinkOutcome S.gives sink.old
        (sink_rows_of_table table.Resource (Some (resource_rows 1 rows.now)))
        result sink.new }
    ensures err { IfErr result (λ fault. fault ≡ Fault.OutOfMemory) }
{
    for i in 0..rows.len() {
        if let Err(fault) = yield_resource(row_number_cell(i), &rows[i], sink) {
            return Err(fault);
        }
    }
    Ok(())
}

// Passes the rows of the table `name` to a sink.
fn yield_table<S: RowSink>(
    alloc: Global,
    tables: &MemTables,
    name: Table,
    sink: &mut S,
) -> Result<(), Fault>
    ensures yields { SinkOutcome S.gives sink.old
        (sink_rows_of_table name (raw_rows_of name (cells_of_tables (tables_in_memory tables.now))))
        result sink.new }
    ensures err { IfErr result (λ fault. fault ≡ Fault.OutOfMemory) }
{
    match name {
        Table::Meta => yield_meta(alloc, &tables.base, sink),
        Table::Resource => yield_resources(tables.resource.as_slice(), sink),
        Table::Outside => yield_rows(alloc, Table::Outside, tables.outside.as_slice(), sink),
        Table::Label => yield_slots(alloc, Table::Label, &tables.label, sink),
        Table::Link => yield_slots(alloc, Table::Link, &tables.link, sink),
        Table::Hier => yield_slots(alloc, Table::Hier, &tables.hier, sink),
        Table::Posting => yield_rows(alloc, Table::Posting, tables.posting.as_slice(), sink),
        Table::Move => yield_rows(alloc, Table::Move, tables.steps.as_slice(), sink),
    }
}

// Passes the rows of these tables to a sink, table after table.
fn yield_tables<S: RowSink>(
    alloc: Global,
    tables: &MemTables,
    names: &[Table],
    sink: &mut S,
) -> Result<(), Fault>
    ensures yields { SinkOutcome S.gives sink.old
        (sink_rows_of_tables (cells_of_tables (tables_in_memory tables.now)) names.now)
        result sink.new }
    ensures err { IfErr result (λ fault. fault ≡ Fault.OutOfMemory) }
{
    for name in names {
        if let Err(fault) = yield_table(alloc, tables, *name, sink) {
            return Err(fault);
        }
    }
    Ok(())
}

/// Passes the rows of all tables to a sink, in the order in which a load yields them.
pub fn yield_all<S: RowSink>(alloc: Global, tables: &MemTables, sink: &mut S) -> Result<(), Fault>
    ensures yields { SinkOutcome S.gives sink.old
        (sink_rows (cells_of_tables (tables_in_memory tables.now)))
        result sink.new }
    ensures err { IfErr result (λ fault. fault ≡ Fault.OutOfMemory) }
{
    yield_tables(alloc, tables, &tables_in_order(), sink)
}
