//! The answers to queries as lines of JSON: totals, a concept, a concept's postings, and a posting.
#![tactic(auto)]

pub mod concept;
pub mod laws;
pub mod posting_list;
pub mod query_answers;
pub mod view;
