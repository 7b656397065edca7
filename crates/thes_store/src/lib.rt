//! The trait `Keeper` for storage of the tables, and storage in memory, which yields its rows as
//! cells.
#![tactic(auto)]

mod added_row;
pub mod keeper;
mod keys;
mod labels_and_links;
pub mod mem;
mod packed_label;
mod position_lists;
mod position_sets;
mod posting_indexes;
pub mod row_encoding;
pub mod sink;
mod slots;
mod tables;

pub use keys::digest_of;
