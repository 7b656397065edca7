//! The outcome of a trial.
use crate::disk::FailPoint;
use crate::stop::TrialStop;
use std::alloc::Global;

/// The outcome of a run over a store of which calls fail, in files or in memory.
#[derive(Clone, Copy)]
pub enum StoreOutcome {
    /// No call failed, and the store has all changes.
    Whole,
    /// A call failed, and the store has all confirmed changes.
    Kept,
    /// The store lacks a confirmed change, or has another state that it must not have.
    Wrong,
}

impl StoreOutcome {
    /// Returns the outcome of a run, from whether the store is right and whether each call
    /// succeeded.
    pub fn of(is_right: bool, is_whole: bool) -> StoreOutcome {
        match (is_right, is_whole) {
            (false, _) => StoreOutcome::Wrong,
            (true, true) => StoreOutcome::Whole,
            (true, false) => StoreOutcome::Kept,
        }
    }
}

/// A run in files that can be repeated with another point at which a file stops working.
pub trait Trial {
    /// Runs with a file that stops working at this point, and returns the outcome.
    fn outcome(&self, alloc: Global, point: FailPoint) -> Result<StoreOutcome, TrialStop>;
}
