//! For the library: builds a core from lists of rows, in any order within each table.
#![tactic(auto)]

pub mod laws;
mod row_lists;

pub use row_lists::{CellRow, CellRows, from_rows};
