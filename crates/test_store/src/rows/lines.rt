//! Rows of a store as lines of text, in the order in which they are yielded.
use std::alloc::{AllocError, Global};
use std::fmt::Write;
use thes_base::fault::{Fault, Table};
use thes_base::number::PostNo;
use thes_store::keeper::Posting;
use thes_store::sink::{PostingSink, RowSink};
use thes_tables::cells::Cell;
use thes_tables::rows::PostingRow;

/// A sink that appends each row to a text as a line, under a line with the name of its table.
#[derive(Drop)]
pub struct Lines {
    text: String,
    last: Option<Table>,
}

impl Lines {
    /// Returns a sink with an empty text.
    pub fn new(alloc: Global) -> Lines {
        Lines {
            text: String::new(alloc),
            last: None,
        }
    }

    /// Returns the text of all lines.
    pub fn as_str(&self) -> &str {
        self.text.as_str()
    }

    /// Appends a line and a line feed.
    pub fn push_line(&mut self, line: &str) -> Result<(), AllocError> {
        writeln!(self.text, "{line}")
    }

    // Appends a line with the name of a table, unless the last row is of that table.
    fn name(&mut self, table: Table) -> Result<(), AllocError> {
        if self.last == Some(table) {
            return Ok(());
        }
        self.last = Some(table);
        self.push_line(table.name())
    }

    // Appends a cell to the current line.
    fn cell(&mut self, cell: &Cell) -> Result<(), AllocError> {
        match cell {
            Cell::Int(n) => write!(self.text, " {n}"),
            Cell::Text(text) => write!(self.text, " {}", text.as_str()),
            Cell::Bytes(_) => self.text.push_str(" bytes"),
            Cell::Null => self.text.push_str(" null"),
        }
    }

    // Appends a line with the cells of a row of this table.
    fn cells(&mut self, table: Table, row: &[Cell]) -> Result<(), AllocError> {
        self.name(table)?;
        for cell in row {
            self.cell(cell)?;
        }
        self.push_line("")
    }

    /// Appends a line with a posting's number, key, record and present concept.
    pub fn push_posting(&mut self, row: &PostingRow) -> Result<(), AllocError> {
        let (number, place) = (row.number.get(), row.place.get());
        writeln!(
            self.text,
            " {number} {} {} {place}",
            row.key.as_str(),
            row.rec.as_str()
        )
    }

    /// Appends a line with a posting, and a line with each of its moves.
    pub fn push_posting_and_moves(&mut self, posting: &Posting) -> Result<(), AllocError> {
        self.push_posting(&posting.row)?;
        for step in posting.moves.as_slice() {
            let (number, source) = (step.number.get(), step.source.get());
            writeln!(self.text, " {number} {source} {}", step.target.get())?;
        }
        Ok(())
    }

    /// Appends a line with the numbers of these postings.
    pub fn push_numbers(&mut self, numbers: &[PostNo]) -> Result<(), AllocError> {
        for number in numbers {
            write!(self.text, " {}", number.get())?;
        }
        self.push_line("")
    }

    // Appends a line that reports that the table can't be queried.
    fn none(&mut self, table: Table) -> Result<(), AllocError> {
        self.name(table)?;
        self.push_line(" not queried")
    }
}

impl RowSink for Lines {
    ghost gives = { λ old row result new. Unit {0} };

    fn row(&mut self, table: Table, row: &[Cell]) -> Result<(), Fault> {
        Ok(self.cells(table, row)?)
    }

    fn report_unqueried(&mut self, table: Table) -> Result<(), Fault> {
        Ok(self.none(table)?)
    }
}

impl PostingSink for Lines {
    ghost gives = { λ old row result new. Unit {0} };

    fn posting(&mut self, row: &PostingRow) -> Result<(), Fault> {
        Ok(self.push_posting(row)?)
    }
}
