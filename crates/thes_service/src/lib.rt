//! Joins an office to scripts and HTTP: its answers, imports, displays and exports.
#![tactic(auto)]

mod displaying;
pub mod laws;
mod office_handler;
pub mod plan_mode;
mod posting_lister;
mod viewing;

pub use office_handler::{OfficeHandler, office_script, office_serve};
