//! Sorted lists of values, one for each number of a resource.
#![tactic(auto)]

mod insertion;
mod lists;

pub use insertion::insert_sorted;
pub use lists::Lists;
