//! An office over storage in memory, and its rows, loaded back into a core.
use crate::commands::{COUNT, base, command_at};
use crate::core_example::write_core;
use crate::failure::{Failure, on_success};
use crate::report::push_answer;
use crate::row_list::RowList;
use std::alloc::Global;
use std::fmt::Write;
use thesaurus::{
    Answer, Cell, CellBytes, CellText, Command, Fault, Keeper, Limits, MemKeeper, Office, RowSink,
    Rows, Table, from_rows,
};

/// Performs a command in an office.
pub fn perform<K: Keeper>(office: &mut Office<K>, command: &Command) -> Result<Answer, Fault> {
    office.perform(command)
}

// Performs the first `count` commands, and appends their answers.
fn perform_first<K: Keeper>(
    alloc: Global,
    office: &mut Office<K>,
    count: usize,
    report: &mut String,
) -> Result<(), Failure> {
    for place in 0..count {
        let command = command_at(alloc, place)?;
        let answer = perform(office, &command);
        drop(command);
        push_answer(alloc, answer?, report)?;
    }
    Ok(())
}

/// Opens an office over a storage; drops the storage if that fails.
pub fn open<K: Keeper + Drop>(alloc: Global, keeper: K) -> Result<Office<K>, Fault> {
    match Office::start(alloc, keeper, Limits::default()) {
        Ok(office) => Ok(office),
        Err((fault, _)) => Err(fault),
    }
}

/// Returns a storage in memory in which the first `count` commands were performed, and appends
/// their answers.
pub fn keeper_after(
    alloc: Global,
    count: usize,
    report: &mut String,
) -> Result<MemKeeper, Failure> {
    let mut office = open(alloc, MemKeeper::new(alloc, base(alloc)?))?;
    let result = perform_first(alloc, &mut office, count, report);
    on_success(office.into_keeper(), result)
}

/// Passes all rows of a storage to a sink.
pub fn copy_rows<K: Keeper, S: RowSink>(keeper: &mut K, sink: &mut S) -> Result<(), Fault> {
    keeper.load(sink)
}

// Returns the rows of a storage.
fn rows_of<K: Keeper>(alloc: Global, keeper: &mut K) -> Result<Rows, Fault> {
    let mut list = RowList::new(alloc);
    let result = copy_rows(keeper, &mut list);
    on_success(list.into_rows(), result)
}

// Loads rows into a core, and appends what the core has, or the fault that stopped the load.
fn write_loaded(alloc: Global, rows: Rows, report: &mut String) -> Result<(), Failure> {
    match from_rows(alloc, rows, Limits::default()) {
        Ok(core) => {
            let outcome = write_core(alloc, &core, report);
            drop(core);
            outcome
        }
        Err(fault) => Ok(writeln!(report, "{fault:?}")?),
    }
}

// Returns the row of a label that has a blob in place of its text.
fn blob_row(alloc: Global) -> Result<[Cell; 4], Fault> {
    let tag = CellText::new(alloc, "en")?;
    let blob = CellBytes::new(alloc, b"Pussycats")?;
    Ok([
        Cell::Int(2),
        Cell::Int(2),
        Cell::Text(tag),
        Cell::Bytes(blob),
    ])
}

// Returns the rows of a storage, with a further label whose text is a blob.
fn rows_with_blob<K: Keeper>(alloc: Global, keeper: &mut K) -> Result<Rows, Fault> {
    let row = blob_row(alloc)?;
    let mut list = RowList::new(alloc);
    let result = copy_rows(keeper, &mut list);
    let added = list.row(Table::Label, &row);
    on_success(on_success(list.into_rows(), result)?, added)
}

// Loads the rows of a storage into a core, first as they are, and then with a blob among them.
fn load_back<K: Keeper>(alloc: Global, keeper: &mut K, report: &mut String) -> Result<(), Failure> {
    write_loaded(alloc, rows_of(alloc, keeper)?, report)?;
    write_loaded(alloc, rows_with_blob(alloc, keeper)?, report)
}

/// Performs the ten commands in an office, and appends their answers, what a core loaded from the
/// rows has, and the fault for rows with a blob.
pub fn run(alloc: Global, report: &mut String) -> Result<(), Failure> {
    let mut keeper = keeper_after(alloc, COUNT, report)?;
    load_back(alloc, &mut keeper, report)
}
