//! The counts of postings that a core has, and lists of posting numbers.
#![tactic(auto)]

pub mod book;
pub mod loaded_counts;
pub mod rising;
