//! The results of a storage's calls, as lines of text.
use std::alloc::{AllocError, Global};
use std::fmt::Write;
use test_keeper::failure::Failure;
use test_keeper::rows::RowText;
use test_keeper::workload::commit_one;
use thes_base::fault::Fault;
use thes_base::number::{PostNo, ResNo};
use thes_base::text::Key;
use thes_store::keeper::{Keeper, Posting};
use thes_tables::change::Change;

// Returns a line that names a call and its fault.
fn call_fault_line(alloc: Global, call: &str, fault: Fault) -> Result<String, AllocError> {
    format!(in alloc; "{call}: {fault:?}\n")
}

/// Loads all rows, and returns them as lines, or the line of the fault.
pub fn load_report<K: Keeper>(alloc: Global, keeper: &mut K) -> Result<String, Failure> {
    let mut rows = RowText::new(alloc);
    match keeper.load(&mut rows) {
        Ok(_) => Ok(rows.text),
        Err(fault) => Ok(call_fault_line(alloc, "load", fault)?),
    }
}

/// Looks up a key, and returns a line with the number and the record of its posting.
pub fn find_report<K: Keeper>(alloc: Global, keeper: &mut K, key: &str) -> Result<String, Failure> {
    match keeper.find(&Key::read(alloc, key)?) {
        Ok(Some(row)) => {
            let number = row.number.get();
            Ok(format!(in alloc; "find {key}: {number} {}\n", row.rec.as_str())?)
        }
        Ok(None) => Ok(format!(in alloc; "find {key}: none\n")?),
        Err(fault) => Ok(call_fault_line(alloc, "find", fault)?),
    }
}

// Returns lines with a posting's first concept, its present concept and each of its moves.
fn posting_lines(alloc: Global, posting: &Posting) -> Result<String, AllocError> {
    let (first, place) = (posting.row.first.get(), posting.row.place.get());
    let mut text = format!(in alloc; "posting: from {first} at {place}\n")?;
    for step in posting.moves.as_slice() {
        let (number, source) = (step.number.get(), step.source.get());
        writeln!(text, "move {number} {source} {}", step.target.get())?;
    }
    Ok(text)
}

/// Looks up a posting by its number, and returns lines with its concepts and its moves.
pub fn posting_report<K: Keeper>(
    alloc: Global,
    keeper: &mut K,
    number: PostNo,
) -> Result<String, Failure> {
    match keeper.posting(number) {
        Ok(Some(posting)) => Ok(posting_lines(alloc, &posting)?),
        Ok(None) => Ok(String::from_str(alloc, "posting: none\n")?),
        Err(fault) => Ok(call_fault_line(alloc, "posting", fault)?),
    }
}

/// Looks up the row of a posting by its number, and returns a line with its key and its record.
pub fn row_report<K: Keeper>(
    alloc: Global,
    keeper: &mut K,
    number: PostNo,
) -> Result<String, Failure> {
    match keeper.row(number) {
        Ok(Some(row)) => {
            let (key, rec) = (row.key.as_str(), row.rec.as_str());
            Ok(format!(in alloc; "row: {key} {rec}\n")?)
        }
        Ok(None) => Ok(String::from_str(alloc, "row: none\n")?),
        Err(fault) => Ok(call_fault_line(alloc, "row", fault)?),
    }
}

// Returns a line with the numbers of these postings.
fn numbers_line(alloc: Global, numbers: &[PostNo]) -> Result<String, AllocError> {
    let mut text = String::from_str(alloc, "standing_numbers:")?;
    for number in numbers {
        write!(text, " {}", number.get())?;
    }
    text.push('\n')?;
    Ok(text)
}

/// Returns a line with the numbers of the postings assigned to a concept.
pub fn numbers_report<K: Keeper>(
    alloc: Global,
    keeper: &mut K,
    concept: ResNo,
) -> Result<String, Failure> {
    match keeper.standing_numbers(concept) {
        Ok(numbers) => Ok(numbers_line(alloc, numbers.as_slice())?),
        Err(fault) => Ok(call_fault_line(alloc, "standing_numbers", fault)?),
    }
}

/// Returns lines with the postings assigned to a concept.
pub fn standing_report<K: Keeper>(
    alloc: Global,
    keeper: &mut K,
    concept: ResNo,
) -> Result<String, Failure> {
    let mut rows = RowText::new(alloc);
    rows.text.push_str("standing:\n")?;
    match keeper.standing(concept, &mut rows) {
        Ok(_) => Ok(rows.text),
        Err(fault) => Ok(call_fault_line(alloc, "standing", fault)?),
    }
}

/// Assigns a posting to concept 2, and returns a line with the result.
pub fn assign_report<K: Keeper>(
    alloc: Global,
    keeper: &mut K,
    number: PostNo,
) -> Result<String, Failure> {
    match commit_one(alloc, keeper, Change::SetPlace(number, ResNo::new(2))) {
        Ok(_) => Ok(String::from_str(alloc, "assign: done\n")?),
        Err(fault) => Ok(call_fault_line(alloc, "assign", fault)?),
    }
}

// Looks up three keys, and returns a line for each.
fn find_reports<K: Keeper>(alloc: Global, keeper: &mut K) -> Result<String, Failure> {
    let mut text = String::new(alloc);
    for key in ["k2", "K2", "k11"] {
        text.push_str(find_report(alloc, keeper, key)?.as_str())?;
    }
    Ok(text)
}

/// Returns the results of all calls that change no table, as lines.
pub fn answers<K: Keeper>(alloc: Global, keeper: &mut K) -> Result<String, Failure> {
    let mut text = load_report(alloc, keeper)?;
    text.push_str(find_reports(alloc, keeper)?.as_str())?;
    for number in [PostNo::new(1), PostNo::new(2), PostNo::new(11)] {
        text.push_str(posting_report(alloc, keeper, number)?.as_str())?;
        text.push_str(row_report(alloc, keeper, number)?.as_str())?;
    }
    for concept in [ResNo::new(2), ResNo::new(3)] {
        text.push_str(standing_report(alloc, keeper, concept)?.as_str())?;
        text.push_str(numbers_report(alloc, keeper, concept)?.as_str())?;
    }
    Ok(text)
}
