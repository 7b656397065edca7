//! Reads the rows of posting files (CSV), and makes reports of the rows' outcomes.
#![tactic(auto)]

pub mod block;
pub mod csv_row;
pub mod laws;
pub mod outcome;
pub mod reading;
mod records;
pub mod report;
pub mod whole_input;
