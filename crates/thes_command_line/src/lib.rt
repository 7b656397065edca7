//! Parses the program's command line into a job, decides whether a job makes its store, prints
//! faults and refusals, escapes what a terminal would obey, and determines exit statuses.
#![tactic(auto)]

pub mod arguments;
mod commands;
pub mod early_exit;
pub mod opening;
pub mod printing;
pub mod start_failure;
pub mod terminal_output;
pub mod trouble;
