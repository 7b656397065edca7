//! The faults of storage in a database, and their count.
ghost use Rattle.std.specs.Prelude.{◌≡◌, ◌≢◌, ◌≤◌, ◌+◌, IfErr};
ghost use Rattle.thes_store.specs.Causes.{HasCause, IsCounted};
ghost use Rattle.thes_sqlite.specs.MigrationEffects.{IsStoreCounted};
ghost use Rattle.thes_sqlite.specs.Causes.{error_cause};
ghost use Rattle.thes_sqlite.specs.Faults.{IsKeeperFault, error_fault};

use crate::cause::{Cause, cause_of};
use sqlite::{Error, ErrorCode};
use thes_base::fault::Fault;

/// Maps an error of SQLite to a fault: `OutOfMemory` to itself, and any other error to `Store`.
pub fn fault_of(error: Error) -> Fault
    ensures memory { error ≡ Error.SqliteFailure ErrorCode.OutOfMemory
        → result ≡ Fault.OutOfMemory }
    ensures store { error ≢ Error.SqliteFailure ErrorCode.OutOfMemory → result ≡ Fault.Store }
    ensures kind { IsKeeperFault result }
    ensures is { result ≡ error_fault error }
{
    match error {
        Error::SqliteFailure(ErrorCode::OutOfMemory) => Fault::OutOfMemory,
        _ => Fault::Store,
    }
}

/// Maps an error of SQLite to a fault, as `fault_of` does, and records its cause.
pub(crate) fn fault_with_cause(error: Error, cause: &mut Cause) -> Fault
    ensures kind { IsKeeperFault result }
    ensures is { result ≡ error_fault error }
    ensures cause { cause.new ≡ error_cause error }
{
    *cause = cause_of(error);
    fault_of(error)
}

/// Counts a fault of the storage unless it is `OutOfMemory`, and returns it; the count saturates.
pub(crate) fn count_fault(failures: &mut u64, fault: Fault) -> Fault
    requires { IsKeeperFault fault }
    ensures same { result ≡ fault }
    ensures counted { IsCounted failures.old failures.new result }
    ensures once { failures.new ≤ failures.old + 1 }
{
    if fault == Fault::Store {
        *failures = failures.saturating_add(1);
    }
    fault
}

/// Counts the fault of a call as `count_fault` does, and returns the call's result.
pub(crate) fn count_fault_in<T>(failures: &mut u64, ended: Result<T, Fault>) -> Result<T, Fault>
    requires { IfErr ended IsKeeperFault }
    ensures same { result ≡ ended }
    ensures counted { HasCause failures.old failures.new ended }
{
    match ended {
        Ok(value) => Ok(value),
        Err(fault) => Err(count_fault(failures, fault)),
    }
}

/// Counts the fault of a migration if it is `Store`, and returns it; the count saturates.
pub(crate) fn count_if_store(failures: &mut u64, fault: Fault) -> Fault
    ensures same { result ≡ fault }
    ensures counted { IsStoreCounted failures.old failures.new fault }
{
    let is_store = fault == Fault::Store;
    if is_store {
        *failures = (*failures).saturating_add(1);
    }
    fault
}
