//! Posts and merges over any storage, rows as lines of text, and a storage of which one call fails,
//! for tests and benchmarks.
#![tactic(auto)]

pub mod fail_once;
pub mod failure;
pub mod rows;
pub mod workload;
