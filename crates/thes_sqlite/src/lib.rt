//! Storage of the tables in a database: its files, rows and faults, and migrations.
#![tactic(auto)]

mod any_cells;
pub mod cause;
mod commit_evidence;
pub mod faults;
pub mod files;
mod head;
pub mod keeper;
pub mod laws;
mod migrating;
mod opener;
mod page_cache;
mod posting_look_ups;
pub mod progress;
pub mod reopening;
mod row_streams;
mod rows;
pub mod unread;
