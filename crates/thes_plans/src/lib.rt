//! Plans: several requests as one, all or nothing, in which a request may refer to what an earlier
//! one makes.
//!
//! `specs/` defines what a plan's outcome and the state after it are, by the machine's steps alone;
//! `laws` states what is proved of this definition.
#![tactic(auto)]

pub mod laws;
pub mod plan;
pub mod references;
pub mod report;
pub mod resolving;
