//! Stored tables, and the verdict of their load. "Stored examples" in CONTRIBUTING.md defines the
//! form of their files.
use std::alloc::Global;
use std::io;
use thes_base::data::Limits;
use thes_base::fault::Fault;
use thes_base::number::ResNo;
use thes_core::Core;
use thes_row_lists::{CellRow, CellRows, from_rows};
use thes_tables::cells::{Cell, CellText};

/// Rows of tables, with the expected verdict of their load.
#[derive(Drop)]
pub struct TableExample<'a> {
    pub name: &'a str,
    // Each row is the name of its table, a space, and its cells.
    rows: Vec<&'a str>,
    lost: Vec<&'a str>,
    pub verdict: &'a str,
}

impl<'a> TableExample<'a> {
    /// Parses an example from the lines common to all examples of its file, and from its own lines:
    /// its name, its changes of rows, and its verdict.
    pub fn read(alloc: Global, start: &'a str, part: &'a str) -> io::Result<TableExample<'a>> {
        let mut example = TableExample {
            name: part.lines().next().unwrap_or(""),
            rows: Vec::new(alloc),
            lost: Vec::new(alloc),
            verdict: "",
        };
        for line in start.lines() {
            example.change(line)?;
        }
        for line in part.lines().skip(1) {
            example.change(line)?;
        }
        Ok(example)
    }

    // Applies the change of rows that a line gives.
    fn change(&mut self, line: &'a str) -> io::Result<()> {
        let (sign, rest) = line.split_once(' ').unwrap_or((line, ""));
        match sign {
            "+" => self.rows.push(rest)?,
            "-" => self.remove_row(rest)?,
            "!" => self.lost.push(rest)?,
            "~" => self.rows.reverse(),
            "=" => self.verdict = rest,
            _ => {}
        }
        Ok(())
    }

    // Removes a row, which must exist.
    fn remove_row(&mut self, row: &str) -> io::Result<()> {
        match self.rows.iter().position(|other| *other == row) {
            Some(place) => {
                let _ = self.rows.remove(place);
                Ok(())
            }
            None => Err(invalid()),
        }
    }

    // Returns the rows of a table, or None if it can't be queried.
    fn table(&self, alloc: Global, name: &str) -> io::Result<Option<Vec<CellRow>>> {
        if self.lost.iter().any(|lost| *lost == name) {
            return Ok(None);
        }
        let mut rows = Vec::new(alloc);
        for line in self.rows.iter() {
            let (table, cells) = line.split_once(' ').unwrap_or((line, ""));
            if table == name {
                rows.push(row_in(alloc, cells)?)?;
            }
        }
        Ok(Some(rows))
    }

    // Returns the rows of all tables.
    fn rows(&self, alloc: Global) -> io::Result<CellRows> {
        Ok(CellRows {
            meta: self.table(alloc, "meta")?,
            resource: self.table(alloc, "resource")?,
            outside: self.table(alloc, "outside")?,
            label: self.table(alloc, "label")?,
            link: self.table(alloc, "link")?,
            hier: self.table(alloc, "hier")?,
            posting: self.table(alloc, "posting")?,
            steps: self.table(alloc, "move")?,
        })
    }
}

// Returns the error for a line of unknown form.
fn invalid() -> io::Error {
    io::Error::from(io::ErrorKind::InvalidData)
}

// Parses the cells of a row, which bars separate.
fn row_in(alloc: Global, cells: &str) -> io::Result<CellRow> {
    let mut row = Vec::new(alloc);
    for cell in cells.split('|') {
        row.push(cell_in(alloc, cell)?)?;
    }
    Ok(CellRow::new(row))
}

// Parses a cell: `null`, an apostrophe with a text, or a whole number.
fn cell_in(alloc: Global, cell: &str) -> io::Result<Cell> {
    if cell == "null" {
        return Ok(Cell::Null);
    }
    match cell.strip_prefix('\'') {
        Some(text) => Ok(Cell::Text(CellText::new(alloc, text)?)),
        None => Ok(Cell::Int(cell.parse().map_err(|_| invalid())?)),
    }
}

/// Loads the rows, and returns the verdict: a fault, or the sizes of the core and the counts of
/// postings of its concepts.
pub fn load_verdict(alloc: Global, example: &TableExample) -> io::Result<String> {
    match from_rows(alloc, example.rows(alloc)?, Limits::default()) {
        Ok(core) => sizes_of(alloc, &core),
        Err(Fault::BadStore(table)) => Ok(format!(in alloc; "BadStore {}", table.name())?),
        Err(fault) => Ok(format!(in alloc; "{}", fault.name())?),
    }
}

// Returns the sizes of a core, and the count of postings of each concept that has any.
fn sizes_of(alloc: Global, core: &Core) -> io::Result<String> {
    if core.is_spent() {
        return Err(invalid());
    }
    let sizes = core.sizes();
    let mut summary = format!(in alloc;
        "resources={} labels={} links={} accepted={} withdrawn={} moves={}",
        sizes.resources, sizes.labels, sizes.links, sizes.accepted, sizes.withdrawn, sizes.moves
    )?;
    let last = u32::try_from(sizes.resources).unwrap_or(u32::MAX);
    for i in 0..last {
        let n = i + 1;
        let standing = core.count(ResNo::new(n));
        if standing != 0 {
            summary.push_str(format!(in alloc; " at {n}: {standing}")?.as_str())?;
        }
    }
    Ok(summary)
}
