//! The parts that checks of links share: the trait `Links`, which counts visits; the relations that
//! links state between nodes; the links after an edit; and sets of nodes, with marks.
#![tactic(auto)]

pub mod edit;
pub mod links;
mod marks;
pub mod nodes;
pub mod normal_form;
pub mod relation;
pub mod side;
pub mod walk;
pub mod words;
