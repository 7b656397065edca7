//! Generated rows of a store of any size, and their load.

use crate::bench::reading::Counter;
use crate::failure::Failure;
use std::alloc::{AllocError, Global};
use test_keeper::workload::name_with_number;
use thes_base::data::{LabelKind, Limits, LinkKind, ResourceKind};
use thes_base::fault::{Fault, Table};
use thes_core::Core;
use thes_office::Loader;
use thes_store::sink::RowSink;
use thes_tables::cells::{Cell, CellText};
use thes_tables::numbers::resource_number;

/// The number of labels of each resource.
const LABELS: u32 = 10;

/// The number of resources and the number of postings of a store. Each posting has one move. There
/// are about as many links as resources; half of the links form a tree.
#[derive(Clone, Copy)]
pub struct Size {
    pub resources: u32,
    pub postings: u32,
}

impl Size {
    // Returns the concept to which the posting with this number is first assigned. It is never the
    // last resource, since the posting moves to the concept with the next number.
    fn concept(&self, number: u32) -> u32 {
        let concepts = self.resources.saturating_sub(2).max(1);
        (number % concepts).saturating_add(2)
    }
}

// Returns a number as a cell.
fn int(n: u32) -> Cell {
    Cell::Int(i64::from(n))
}

// Returns a letter followed by a number, as a cell.
fn text(alloc: Global, letter: &str, number: u32) -> Result<Cell, AllocError> {
    Ok(Cell::Text(CellText::new(alloc, name_with_number(alloc, letter, number)?.as_str())?))
}

// Yields the only row of the table `meta`.
fn yield_meta<S: RowSink>(alloc: Global, sink: &mut S) -> Result<(), Fault> {
    let base = Cell::Text(CellText::new(alloc, "http://example.org/")?);
    sink.row(Table::Meta, &[int(1), int(2), base])
}

// Yields the rows of a scheme, and of all other resources as concepts in it.
fn yield_resources<S: RowSink>(size: Size, sink: &mut S) -> Result<(), Fault> {
    let scheme = int(resource_number(ResourceKind::Scheme));
    sink.row(
        Table::Resource,
        &[int(1), scheme, Cell::Null, int(1), Cell::Null],
    )?;
    for made in 1..size.resources {
        let (number, kind) = (
            made.saturating_add(1),
            resource_number(ResourceKind::Concept),
        );
        sink.row(
            Table::Resource,
            &[int(number), int(kind), int(1), int(1), Cell::Null],
        )?;
    }
    Ok(())
}

// Yields the rows of labels; the first of each resource is preferred.
fn yield_labels<S: RowSink>(alloc: Global, size: Size, sink: &mut S) -> Result<(), Fault> {
    for made in 0..size.resources.saturating_mul(LABELS) {
        let kind = if made % LABELS == 0 {
            LabelKind::Pref
        } else {
            LabelKind::Alt
        };
        let owner = (made / LABELS).saturating_add(1);
        let tag = Cell::Text(CellText::new(alloc, "en")?);
        let label = text(alloc, "Label ", made)?;
        sink.row(Table::Label, &[int(owner), int(kind.number()), tag, label])?;
    }
    Ok(())
}

// Yields a link of kind Related from each resource of the second half, if its number is above 20,
// to the next one.
fn yield_links<S: RowSink>(size: Size, sink: &mut S) -> Result<(), Fault> {
    for number in size.resources / 2..size.resources {
        if 20 < number {
            let next = number.saturating_add(1).min(size.resources);
            let row = [int(LinkKind::Related.number()), int(number), int(next)];
            if number != next {
                sink.row(Table::Link, &row)?;
            }
        }
    }
    Ok(())
}

// Yields a hierarchical link for each concept of the first half from number 3 on, in a tree in
// which each concept has up to eight narrower ones.
fn yield_hier<S: RowSink>(size: Size, sink: &mut S) -> Result<(), Fault> {
    for made in 3..size.resources / 2 {
        let above = (made.saturating_sub(3) / 8).saturating_add(2);
        sink.row(Table::Hier, &[int(made), int(above), int(0)])?;
    }
    Ok(())
}

// Yields the rows of postings, each assigned to the target of its move.
fn yield_postings<S: RowSink>(alloc: Global, size: Size, sink: &mut S) -> Result<(), Fault> {
    for made in 0..size.postings {
        let number = made.saturating_add(1);
        let (key, rec) = (text(alloc, "k", number)?, text(alloc, "r", number)?);
        let first = size.concept(number);
        let place = first.saturating_add(1);
        sink.row(
            Table::Posting,
            &[int(number), key, rec, int(first), int(place), int(0)],
        )?;
    }
    Ok(())
}

// Yields the row of one move for each posting, to the concept with the next number.
fn yield_moves<S: RowSink>(size: Size, sink: &mut S) -> Result<(), Fault> {
    for made in 0..size.postings {
        let number = made.saturating_add(1);
        let first = size.concept(number);
        let place = first.saturating_add(1);
        sink.row(
            Table::Move,
            &[int(number), int(number), int(first), int(place)],
        )?;
    }
    Ok(())
}

// Yields the rows of all tables, in the order of a load.
fn yield_all<S: RowSink>(alloc: Global, size: Size, sink: &mut S) -> Result<(), Fault> {
    yield_meta(alloc, sink)?;
    yield_resources(size, sink)?;
    yield_labels(alloc, size, sink)?;
    yield_links(size, sink)?;
    yield_hier(size, sink)?;
    yield_postings(alloc, size, sink)?;
    yield_moves(size, sink)
}

// Loads the generated rows into a core.
fn load(alloc: Global, size: Size) -> Result<Core, Fault> {
    let mut loader = Loader::new(alloc, Limits::default());
    match yield_all(alloc, size, &mut loader) {
        Ok(_) => loader.finish(),
        Err(fault) => {
            drop(loader);
            Err(fault)
        }
    }
}

/// Loads the rows into `times` cores, keeps all cores until the end, and returns their number.
pub fn load_times(alloc: Global, size: Size, times: u32) -> Result<usize, Failure> {
    let mut cores: Vec<Core> = Vec::new(alloc);
    for _ in 0..times {
        cores.push(load(alloc, size)?).map_err(AllocError::from)?;
    }
    Ok(cores.len())
}

/// Generates the rows `times` times without loading them, and returns the number of all rows.
pub fn make_times(alloc: Global, size: Size, times: u32) -> Result<u64, Failure> {
    let mut counter = Counter { rows: 0 };
    for _ in 0..times {
        yield_all(alloc, size, &mut counter)?;
    }
    Ok(counter.rows)
}
