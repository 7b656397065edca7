//! The results of a storage's queries, as lines.
use crate::rows::lines::Lines;
use std::alloc::{AllocError, Global};
use thes_base::fault::Fault;
use thes_base::number::{PostNo, ResNo};
use thes_base::text::Key;
use thes_store::keeper::Keeper;

// Appends a line that reports a fault.
fn push_fault(lines: &mut Lines, fault: Fault) -> Result<(), AllocError> {
    match fault {
        Fault::OutOfMemory => lines.push_line("out of memory"),
        _ => lines.push_line("a fault of the store"),
    }
}

/// Loads all rows, and appends them as lines.
pub fn load<K: Keeper>(keeper: &mut K, lines: &mut Lines) -> Result<(), AllocError> {
    match keeper.load(lines) {
        Ok(_) => Ok(()),
        Err(fault) => push_fault(lines, fault),
    }
}

// Looks up the posting with a key, and appends its line.
fn find<K: Keeper>(
    alloc: Global,
    keeper: &mut K,
    key: &str,
    lines: &mut Lines,
) -> Result<(), AllocError> {
    lines.push_line("found")?;
    let Ok(key) = Key::read(alloc, key) else {
        return lines.push_line("no key");
    };
    match keeper.find(&key) {
        Ok(Some(row)) => lines.push_posting(&row),
        Ok(None) => lines.push_line(" none"),
        Err(fault) => push_fault(lines, fault),
    }
}

// Looks up a posting by its number, and appends its lines, moves included.
fn posting<K: Keeper>(keeper: &mut K, number: PostNo, lines: &mut Lines) -> Result<(), AllocError> {
    lines.push_line("told")?;
    match keeper.posting(number) {
        Ok(Some(posting)) => lines.push_posting_and_moves(&posting),
        Ok(None) => lines.push_line(" none"),
        Err(fault) => push_fault(lines, fault),
    }
}

// Looks up the row of a posting by its number, and appends its line.
fn row<K: Keeper>(keeper: &mut K, number: PostNo, lines: &mut Lines) -> Result<(), AllocError> {
    lines.push_line("row")?;
    match keeper.row(number) {
        Ok(Some(row)) => lines.push_posting(&row),
        Ok(None) => lines.push_line(" none"),
        Err(fault) => push_fault(lines, fault),
    }
}

// Looks up the postings assigned to a concept, and appends their lines.
fn standing<K: Keeper>(
    keeper: &mut K,
    concept: ResNo,
    lines: &mut Lines,
) -> Result<(), AllocError> {
    lines.push_line("standing")?;
    match keeper.standing(concept, lines) {
        Ok(_) => Ok(()),
        Err(fault) => push_fault(lines, fault),
    }
}

// Looks up the numbers of the postings assigned to a concept, and appends their line.
fn numbers<K: Keeper>(keeper: &mut K, concept: ResNo, lines: &mut Lines) -> Result<(), AllocError> {
    lines.push_line("numbers")?;
    match keeper.standing_numbers(concept) {
        Ok(numbers) => lines.push_numbers(numbers.as_slice()),
        Err(fault) => push_fault(lines, fault),
    }
}

/// Looks up postings by a key, by the same key in upper case, by number and by concept, and appends
/// their lines.
pub fn look_up<K: Keeper>(
    alloc: Global,
    keeper: &mut K,
    lines: &mut Lines,
) -> Result<(), AllocError> {
    find(alloc, keeper, "k3", lines)?;
    find(alloc, keeper, "K3", lines)?;
    posting(keeper, PostNo::new(3), lines)?;
    posting(keeper, PostNo::new(4), lines)?;
    row(keeper, PostNo::new(3), lines)?;
    row(keeper, PostNo::new(4), lines)?;
    standing(keeper, ResNo::new(3), lines)?;
    numbers(keeper, ResNo::new(3), lines)?;
    numbers(keeper, ResNo::new(2), lines)
}
