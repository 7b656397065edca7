//! Rows as lines of text, to compare storages.
use std::alloc::{AllocError, Global};
use std::fmt::Write;
use thes_base::fault::{Fault, Table};
use thes_store::sink::{PostingSink, RowSink};
use thes_tables::cells::Cell;
use thes_tables::rows::PostingRow;

/// A sink that appends each row to a text as a line, and only the table's name for a table that
/// can't be queried.
#[derive(Drop)]
pub struct RowText {
    pub text: String,
}

impl RowText {
    /// Returns a sink with an empty text.
    pub fn new(alloc: Global) -> RowText {
        RowText {
            text: String::new(alloc),
        }
    }

    // Appends a cell to the current line.
    fn push_cell(&mut self, cell: &Cell) -> Result<(), AllocError> {
        match cell {
            Cell::Int(number) => write!(self.text, " {number}"),
            Cell::Text(text) => write!(self.text, " '{}'", text.as_str()),
            Cell::Bytes(_) => self.text.push_str(" bytes"),
            Cell::Null => self.text.push_str(" null"),
        }
    }

    // Appends a line with the table's name and the row's cells.
    fn push_row(&mut self, table: Table, row: &[Cell]) -> Result<(), AllocError> {
        self.text.push_str(table.name())?;
        for cell in row {
            self.push_cell(cell)?;
        }
        self.text.push('\n')
    }

    // Appends a line with the posting's number and key.
    fn push_posting(&mut self, row: &PostingRow) -> Result<(), AllocError> {
        let number = row.number.get();
        writeln!(self.text, "{number} {}", row.key.as_str())
    }
}

impl RowSink for RowText {
    ghost gives = { λ old row result new. Unit {0} };

    fn row(&mut self, table: Table, row: &[Cell]) -> Result<(), Fault> {
        Ok(self.push_row(table, row)?)
    }

    fn report_unqueried(&mut self, table: Table) -> Result<(), Fault> {
        Ok(self.push_row(table, &[])?)
    }
}

impl PostingSink for RowText {
    ghost gives = { λ old row result new. Unit {0} };

    fn posting(&mut self, row: &PostingRow) -> Result<(), Fault> {
        Ok(self.push_posting(row)?)
    }
}
