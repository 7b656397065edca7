//! Resources and labels: which resource has which name in which language, and whether a new name is
//! allowed.
#![tactic(auto)]

mod changing;
mod checking;
mod concepts;
mod forwarding;
mod iris;
mod labels;
mod load;
mod merging;
mod names;
mod row;
mod taking_back;
mod vocab;

pub use forwarding::Forwarding;
pub use load::VocabLoad;
pub use thes_base::data::NewResource;
pub use vocab::{Vocab, is_outside, resource_at};
