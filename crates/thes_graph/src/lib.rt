//! The graph of all links, indexed by their ends: its edits, its look-ups, and the check of a
//! loaded graph for the rules Cycle, S27 and S46.
#![tactic(auto)]

mod find_cycle;
mod first_ends;
pub mod graph;
mod mappings;
mod neighbours;
mod s27;
mod sided_links;
mod upper_sets;
mod whole;
