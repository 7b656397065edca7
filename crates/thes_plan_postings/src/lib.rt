//! The postings that the requests of a plan have changed so far, over tables in which nothing is
//! changed yet.
#![tactic(auto)]

pub mod plan_postings;
mod recording;
