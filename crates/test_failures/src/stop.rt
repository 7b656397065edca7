//! The failure of a trial.
use std::alloc::AllocError;
use std::io;
use test_office::invalid;

/// The reason why an example couldn't be run: memory ran out, or the store behaved in a way that no
/// failing call explains.
#[derive(Clone, Copy)]
pub struct TrialStop;

impl From<AllocError> for TrialStop {
    fn from(_error: AllocError) -> TrialStop {
        TrialStop
    }
}

impl From<TrialStop> for io::Error {
    fn from(_stop: TrialStop) -> io::Error {
        invalid()
    }
}
