//! Reads requests and plans from JSON, writes the lines that answer them, and runs scripts over any
//! request handler.
#![tactic(auto)]

pub mod answer;
mod change_list;
mod each;
pub mod handler;
mod keywords;
pub mod laws;
mod line_buffer;
mod line_serving;
mod members;
mod numeral;
pub mod page;
pub mod plan;
mod plan_form;
pub mod plan_reply;
pub mod plan_serving;
mod references;
pub mod request;
pub mod script;
mod script_lines;
pub mod short_line;
mod tree;

pub use tree::JsonScratch;
