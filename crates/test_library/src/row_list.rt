//! The rows of a storage, copied into lists.
use std::alloc::{AllocError, Global};
use thesaurus::{Cell, CellBytes, CellRow, CellText, Fault, RowSink, Rows, Table};

/// A sink that copies the rows of all tables.
#[derive(Drop)]
pub struct RowList {
    alloc: Global,
    rows: Rows,
}

// Returns a copy of a cell.
fn copy_cell(alloc: Global, cell: &Cell) -> Result<Cell, AllocError> {
    Ok(match cell {
        Cell::Int(number) => Cell::Int(*number),
        Cell::Text(text) => Cell::Text(CellText::new(alloc, text.as_str())?),
        Cell::Bytes(bytes) => Cell::Bytes(CellBytes::new(alloc, bytes.as_slice())?),
        Cell::Null => Cell::Null,
    })
}

// Returns a copy of a row.
fn copy_row(alloc: Global, row: &[Cell]) -> Result<CellRow, AllocError> {
    let mut cells = Vec::new(alloc);
    for cell in row {
        cells.push(copy_cell(alloc, cell)?)?;
    }
    Ok(CellRow::new(cells))
}

impl RowList {
    /// Returns a sink with eight empty tables.
    pub fn new(alloc: Global) -> RowList {
        RowList {
            alloc,
            rows: Rows {
                meta: Some(Vec::new(alloc)),
                resource: Some(Vec::new(alloc)),
                outside: Some(Vec::new(alloc)),
                label: Some(Vec::new(alloc)),
                link: Some(Vec::new(alloc)),
                hier: Some(Vec::new(alloc)),
                posting: Some(Vec::new(alloc)),
                steps: Some(Vec::new(alloc)),
            },
        }
    }

    // Returns the list of a table's rows; it holds None if the table can't be queried.
    fn list(&mut self, table: Table) -> &mut Option<Vec<CellRow>> {
        match table {
            Table::Meta => &mut self.rows.meta,
            Table::Resource => &mut self.rows.resource,
            Table::Outside => &mut self.rows.outside,
            Table::Label => &mut self.rows.label,
            Table::Link => &mut self.rows.link,
            Table::Hier => &mut self.rows.hier,
            Table::Posting => &mut self.rows.posting,
            Table::Move => &mut self.rows.steps,
        }
    }

    /// Returns the rows that were copied.
    pub fn into_rows(self) -> Rows {
        let RowList { alloc: _, rows } = self;
        rows
    }

    // Appends a copy of a row to the list of its table, if there is such a list.
    fn push(&mut self, table: Table, row: &[Cell]) -> Result<(), AllocError> {
        let row = copy_row(self.alloc, row)?;
        if let Some(rows) = self.list(table) {
            rows.push(row)?;
        }
        Ok(())
    }
}

impl RowSink for RowList {
    ghost gives = { λ old row result new. Unit {0} };

    fn row(&mut self, table: Table, row: &[Cell]) -> Result<(), Fault> {
        Ok(self.push(table, row)?)
    }

    fn report_unqueried(&mut self, table: Table) -> Result<(), Fault> {
        *self.list(table) = None;
        Ok(())
    }
}
