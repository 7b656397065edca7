//! Failures that stop a benchmark or the filling of a store.

use sqlite::Error;
use std::alloc::AllocError;
use std::io;
use test_keeper::failure::Failure as KeeperFailure;
use thes_base::fault::{Fault, ReadStop};

/// The reason why a benchmark stopped, or a store couldn't be filled.
#[derive(Debug, Drop)]
pub enum Failure {
    Keeping(KeeperFailure),
    Busy,
    Sql(Error),
    Io(io::Error),
}

impl From<KeeperFailure> for Failure {
    fn from(failure: KeeperFailure) -> Failure {
        Failure::Keeping(failure)
    }
}

impl From<AllocError> for Failure {
    fn from(error: AllocError) -> Failure {
        Failure::Keeping(KeeperFailure::from(error))
    }
}

impl From<ReadStop> for Failure {
    fn from(stop: ReadStop) -> Failure {
        Failure::Keeping(KeeperFailure::from(stop))
    }
}

impl From<Fault> for Failure {
    fn from(fault: Fault) -> Failure {
        Failure::Keeping(KeeperFailure::from(fault))
    }
}

impl From<Error> for Failure {
    fn from(error: Error) -> Failure {
        Failure::Sql(error)
    }
}

impl From<io::Error> for Failure {
    fn from(error: io::Error) -> Failure {
        Failure::Io(error)
    }
}
