//! The histories of an office's postings, and the postings at a concept.
use crate::failure::{Failure, on_success};
use crate::report::{push, view_line};
use std::alloc::{AllocError, Global};
use std::fmt::Write;
use thesaurus::{
    Fault, History, Keeper, Move, MoveNo, Moves, Office, PipeFault, PostNo, Posting, PostingRow,
    PostingRows, PostingSink, ResNo, View,
};

// A sink that collects the numbers of postings.
#[derive(Drop)]
struct PostingNumbers {
    numbers: Vec<PostNo>,
}

impl PostingSink for PostingNumbers {
    ghost gives = { λ old row result new. Unit {0} };

    fn posting(&mut self, row: &PostingRow) -> Result<(), Fault> {
        self.numbers.push(row.number)?;
        Ok(())
    }
}

// Returns the numbers of the postings assigned to a concept; none if the number isn't a concept's.
fn numbers_at<K: Keeper>(
    alloc: Global,
    office: &mut Office<K>,
    concept: ResNo,
) -> Result<Vec<PostNo>, Fault> {
    let mut sink = PostingNumbers {
        numbers: Vec::new(alloc),
    };
    let result = office.postings(concept, &mut sink);
    let PostingNumbers { numbers } = sink;
    on_success(numbers, result)
}

// Returns the number and the target of the last move of a posting.
fn last_move(history: &History) -> Option<(MoveNo, ResNo)> {
    let moves: &Moves = &history.moves;
    let step: Move = moves.as_slice().last().copied()?;
    Some((step.number, step.target))
}

// Returns the view of a list of one posting.
fn list_of_one(alloc: Global, history: &History) -> Result<View<'_>, AllocError> {
    let mut rows = Vec::new(alloc);
    rows.push(history)?;
    Ok(View::Postings(PostingRows { rows }))
}

// Returns a list of one posting as a line of JSON.
fn list_line(alloc: Global, history: &History) -> Result<Vec<u8>, PipeFault> {
    let view = list_of_one(alloc, history)?;
    let line = view_line(alloc, &view);
    drop(view);
    line
}

// Returns the number of moves that a storage has of a posting, or 0 if it lacks the posting.
fn stored_moves<K: Keeper>(keeper: &mut K, number: PostNo) -> Result<usize, Fault> {
    let posting: Option<Posting> = keeper.posting(number)?;
    match posting {
        Some(posting) => Ok(posting.moves.as_slice().len()),
        None => Ok(0),
    }
}

// Returns the history of a posting, if the office has it.
fn history_of<K: Keeper>(office: &mut Office<K>, number: PostNo) -> Result<Option<History>, Fault> {
    office.posting(number)
}

// Appends the last move of a posting, and a list of this posting as a line of JSON.
fn write_history(alloc: Global, history: &History, report: &mut String) -> Result<(), Failure> {
    writeln!(report, "{:?}", last_move(history))?;
    let line = list_line(alloc, history)?;
    Ok(push(report, &line)?)
}

/// Appends the postings of concept 4, and the history of posting 1.
pub fn run<K: Keeper>(
    alloc: Global,
    office: &mut Office<K>,
    report: &mut String,
) -> Result<(), Failure> {
    let numbers = numbers_at(alloc, office, ResNo::new(4))?;
    writeln!(report, "{numbers:?}")?;
    drop(numbers);
    let Some(history) = history_of(office, PostNo::new(1))? else {
        return Ok(());
    };
    let result = write_history(alloc, &history, report);
    drop(history);
    result
}

/// Appends the number of moves of posting 1 in a storage.
pub fn run_in_storage<K: Keeper>(keeper: &mut K, report: &mut String) -> Result<(), Failure> {
    let moves = stored_moves(keeper, PostNo::new(1))?;
    Ok(writeln!(report, "{moves} moves")?)
}
