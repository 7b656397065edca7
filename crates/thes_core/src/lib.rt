//! The machine over a vocabulary, links and counts of postings: each request's answer, next state,
//! and changes of rows.
#![tactic(auto)]

mod applying;
mod arguments;
mod checking;
mod display_readers;
mod export_readers;
mod facts;
mod labels_by_kind;
mod losses;
mod machine;
mod named_postings;
mod parts;
pub mod reading;
mod room;
mod row_changes;
mod taking_back;
mod thesaurus;
mod undo_log;
mod unusable;
mod verdict;

pub use facts::Facts;
pub use machine::Core;
pub use thes_base::request::{Answer, Command};
pub use undo_log::UndoLog;
pub use verdict::Verdict;
