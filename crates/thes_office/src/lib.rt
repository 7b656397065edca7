//! Performs requests, groups and plans, and answers queries over a store's tables, with a copy in
//! memory of all but postings.
#![tactic(auto)]

mod commit;
mod facts;
mod group;
mod keeper_load;
pub mod laws;
mod loader;
mod office;
mod office_plan;
mod plan;
mod plan_facts;
mod reading;

pub use loader::Loader;
pub use office::Office;
