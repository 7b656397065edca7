//! Loads a store row by row: parses cells, and checks each row against the rule of its table.
#![tactic(auto)]

mod cells;
mod closing;
mod ends;
mod links;
mod meta;
mod moves;
mod names;
mod postings;
mod resources;
pub mod rows;
pub mod stage;
pub mod stage_steps;
pub mod turns;
