//! The SQL statements that create, read, change and migrate a store's tables, and the check that a
//! database declares the tables as a store does.
#![tactic(auto)]

pub mod commit;
pub mod create;
pub mod declarations;
pub mod migrate;
pub mod outcome;
pub mod reads;
mod values;
pub mod versions;
mod writes;
