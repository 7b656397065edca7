//! The reason why an example stopped, and functions that join results.
use std::alloc::AllocError;
use thesaurus::{Fault, PipeFault, ReadStop};

/// The reason why an example stopped before its end.
#[derive(Clone, Copy, Debug, PartialEq, Eq)]
pub enum Failure {
    /// A text doesn't have the form that it is read in, or memory ran out while it was read.
    Text(ReadStop),
    /// A call returned a fault.
    Fault(Fault),
    /// A call with a reader or a writer returned a fault.
    Pipe(PipeFault),
}

impl From<AllocError> for Failure {
    fn from(_: AllocError) -> Failure {
        Failure::Fault(Fault::OutOfMemory)
    }
}

impl From<ReadStop> for Failure {
    fn from(stop: ReadStop) -> Failure {
        Failure::Text(stop)
    }
}

impl From<Fault> for Failure {
    fn from(fault: Fault) -> Failure {
        Failure::Fault(fault)
    }
}

impl From<PipeFault> for Failure {
    fn from(fault: PipeFault) -> Failure {
        Failure::Pipe(fault)
    }
}

/// Returns the value if the outcome is a success; otherwise drops the value and returns the fault.
pub fn on_success<T: Drop, U: Copy, E>(value: T, outcome: Result<U, E>) -> Result<T, E> {
    match outcome {
        Ok(_) => Ok(value),
        Err(fault) => Err(fault),
    }
}

/// Returns both values, or the first fault.
pub fn both<A: Drop, B: Drop, E: Copy>(a: Result<A, E>, b: Result<B, E>) -> Result<(A, B), E> {
    let a = a?;
    let b = b?;
    Ok((a, b))
}
