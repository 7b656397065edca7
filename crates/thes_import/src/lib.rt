//! Performs posting files over an office, and reports each row.
#![tactic(auto)]

pub mod import;
pub mod laws;
mod perform;
pub mod postings;

pub use thes_posting_files::report;
