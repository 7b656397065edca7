//! Commits to a database, by SQL statements, without a storage over it.
use crate::failure::Failure;
use sqlite::{Alter, Connection};
use thes_sql::commit::commit_all;
use thes_tables::delta::Delta;

/// Commits the changes in one transaction; returns `Busy` if a transaction is open already.
pub fn commit<S: Alter>(conn: &mut Connection<S>, delta: &Delta) -> Result<(), Failure> {
    if commit_all(conn, delta.as_slice())? {
        Ok(())
    } else {
        Err(Failure::Busy)
    }
}
