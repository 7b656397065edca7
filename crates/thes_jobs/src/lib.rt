//! Opens the job of a command line: its store, in a database or in memory, and its file or socket;
//! reports a store that can't be opened.
#![tactic(auto)]

pub mod databases;
mod making;
pub mod migrating;
pub mod new_store;
pub mod opening;
pub mod screen;
pub mod store_files;
pub mod trouble;
pub mod work;
