//! Failures of the calls that fill a storage.

use std::alloc::AllocError;
use thes_base::fault::{Fault, ReadStop};

/// The reason why a storage couldn't be filled.
#[derive(Clone, Copy, Debug, PartialEq, Eq)]
pub enum Failure {
    Memory,
    Form,
    Known,
    Keeper(Fault),
}

impl From<AllocError> for Failure {
    fn from(_: AllocError) -> Failure {
        Failure::Memory
    }
}

impl From<ReadStop> for Failure {
    fn from(stop: ReadStop) -> Failure {
        match stop {
            ReadStop::OutOfMemory => Failure::Memory,
            ReadStop::Form(_) => Failure::Form,
        }
    }
}

impl From<Fault> for Failure {
    fn from(fault: Fault) -> Failure {
        Failure::Keeper(fault)
    }
}
