//! The results of running an example.
use crate::failing::page::FixedPage;
use std::io::Write;
use thes_base::fault::{Fault, PipeFault};

// The greatest number of steps in an example.
const MOST: usize = 32;

/// The end of a run or a step.
#[derive(Clone, Copy, Debug, PartialEq, Eq)]
pub enum End {
    /// Every step was performed.
    Done,
    /// A step was answered with the fault `OutOfMemory`.
    OutOfMemory,
    /// A step ended in a way that isn't allowed.
    Wrong,
}

impl End {
    /// Returns the end of a step that was performed, or that a fault stopped.
    pub fn from_result(ended: Result<(), PipeFault>) -> End {
        match ended {
            Ok(()) => End::Done,
            Err(PipeFault::Fault(Fault::OutOfMemory)) => End::OutOfMemory,
            Err(_) => End::Wrong,
        }
    }
}

/// The answers to the steps of an example, on the stack, since allocations may fail.
#[derive(Drop)]
pub struct ExampleRun {
    /// The answers to the steps that were performed.
    pub page: FixedPage,
    /// Whether each step was performed, by its index.
    pub performed: [bool; 32],
    pub end: End,
}

impl ExampleRun {
    /// Returns a run without steps.
    pub fn new() -> ExampleRun {
        ExampleRun {
            page: FixedPage::new(),
            performed: [false; 32],
            end: End::Done,
        }
    }

    /// Records the end of a step and, if the step was performed, its answer. If a second step runs
    /// out of memory, the run is wrong.
    pub fn note(&mut self, step: usize, end: End, answer: &str) {
        if end == End::Done && step < MOST && self.page.write_all(answer.as_bytes()).is_ok() {
            self.performed[step] = true;
        } else if end == End::OutOfMemory && self.end == End::Done {
            self.end = End::OutOfMemory;
        } else {
            self.end = End::Wrong;
        }
    }
}
