//! Reports of an import: the outcome of each row, in order.
ghost use Rattle.std.specs.Prelude.{◌≡◌, ◌≤◌, ◌<◌, ◌+◌, ◌*◌, ◌^◌, ◌++◌, [], ◌∷◌, List, IfOk, OnOk, length};
ghost use Rattle.std.specs.Prelude.{vec_len, vec_capacity};
ghost use Rattle.thes_posting_files.specs.Outcomes.{AddsOutcomes, IsBlankReport, ReportsOutcomes, counts_of, no_counts};
ghost use Rattle.thes_posting_files.specs.Outcomes.{AddsRow, outcomes_of, row_count};
ghost use Rattle.thes_posting_files.specs.declared.outcome.Outcome.{Outcome};

use crate::outcome::{LINE_LIMIT, Outcome, next_outcome};
use std::alloc::{AllocError, Global};
use thes_base::fault::FormFault;
use thes_base::request::Answer;

/// The numbers of rows that an import has performed so far, by outcome.
#[derive(Clone, Copy, Debug, PartialEq, Eq)]
pub struct Counts {
    /// Rows that added a posting.
    pub posted: usize,
    /// Rows that repeat a posting: the same key, record and first concept.
    pub again: usize,
    /// Rows that were refused, or that aren't postings.
    pub refused: usize,
}

impl Counts {
    /// Returns the counts of no rows, all 0.
    pub fn new() -> Counts
        ensures { result ≡ no_counts }
    {
        Counts {
            posted: 0,
            again: 0,
            refused: 0,
        }
    }

    /// Returns the number of all rows counted.
    pub fn rows(self) -> usize
        requires { row_count self < 2 ^ 64 }
        ensures { result ≡ row_count self }
    {
        self.posted + self.again + self.refused
    }

    // Counts one row by its outcome.
    fn add(&mut self, outcome: Outcome)
        requires { row_count self.old + 1 < 2 ^ 64 }
        ensures counts { (outcomes : List Outcome) → self.old ≡ counts_of outcomes
            → self.new ≡ counts_of (outcomes ++ outcome ∷ []) }
        ensures count { row_count self.new ≡ row_count self.old + 1 }
    {
        match outcome {
            Outcome::Reply(Answer::Number(_)) => self.posted += 1,
            Outcome::Reply(Answer::Again(_)) => self.again += 1,
            _ => self.refused += 1,
        }
    }
}

/// The outcomes of rows as lines of text, and their counts.
#[derive(Debug, Drop)]
pub struct Report {
    /// The heading and the lines of the rows, or only the lines of the rows since the last `clear`.
    /// The text is empty if memory ran out before the heading was made.
    pub text: Vec<u8>,
    pub counts: Counts,
}

impl Report {
    /// Returns an empty report, which needs no memory.
    pub fn blank(alloc: Global) -> Report
        ensures { IsBlankReport result }
    {
        Report {
            text: Vec::new(alloc),
            counts: Counts::new(),
        }
    }

    /// Returns the report of no rows, which has only the heading.
    pub fn new(alloc: Global) -> Result<Report, AllocError>
        ensures { IfOk result (ReportsOutcomes []) }
    {
        let text = Vec::from_slice(alloc, b"row,outcome,number\n".as_slice())?;
        Ok(Report {
            text,
            counts: Counts::new(),
        })
    }

    /// Reserves memory for this number of further lines, at most 1,000.
    pub fn make_room(&mut self, lines: usize) -> Result<(), AllocError>
        requires { lines ≤ 1000 }
        ensures text { self.new.text.items ≡ self.old.text.items }
        ensures counts { self.new.counts ≡ self.old.counts }
        ensures room { OnOk result
            (vec_len self.new.text + LINE_LIMIT * lines ≤ vec_capacity self.new.text) }
    {
        self.text.try_reserve(LINE_LIMIT * lines)
    }

    // Appends the line of a row and counts the row; allocates nothing.
    fn push(&mut self, outcome: Outcome)
        requires room { vec_len self.old.text + LINE_LIMIT ≤ vec_capacity self.old.text }
        requires fits { row_count self.old.counts + 1 < 2 ^ 64 }
        ensures { AddsRow LINE_LIMIT outcome self.old self.new }
    {
        outcome.push_line(self.counts.rows() + 1, &mut self.text);
        self.counts.add(outcome);
    }

    /// Appends the lines of a block's rows before the first posting without an answer, and counts
    /// these rows; allocates nothing.
    pub fn push_outcomes(&mut self, faults: &[Option<FormFault>], answers: &[Answer])
        requires room { vec_len self.old.text + LINE_LIMIT * length faults.now ≤ vec_capacity
            self.old.text }
        requires fits { row_count self.old.counts + length faults.now < 2 ^ 64 }
        ensures { AddsOutcomes (outcomes_of faults.now answers.now) self.old self.new }
    {
        let mut unread = answers;
        for fault in faults {
            let Some((outcome, rest)) = next_outcome(*fault, unread) else {
                return;
            };
            self.push(outcome);
            unread = rest;
        }
    }

    /// Removes the lines and the heading, and keeps the counts.
    pub fn clear(&mut self)
        ensures text { self.new.text.items ≡ [] }
        ensures counts { self.new.counts ≡ self.old.counts }
    {
        self.text.clear();
    }
}
