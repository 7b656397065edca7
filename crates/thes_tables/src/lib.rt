//! The rows, cells and order of the eight tables, and changes of rows as data.
#![tactic(auto)]

pub mod cells;
pub mod change;
pub mod delta;
pub mod laws;
pub mod numbers;
pub mod order;
pub mod rows;
