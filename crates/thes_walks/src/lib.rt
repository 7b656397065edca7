//! Checks that one new link or merge breaks none of the rules Cycle, S27 and S46, by searches that
//! read only links near the edit.
#![tactic(auto)]

mod addition;
mod class;
mod ends;
pub mod judge;
mod paired_search;
mod side_search;
mod upward_link;
