//! Definitions and laws, without code, of which rows of cells load (exactly those of a legal
//! state), and of the fault that any others have.
#![tactic(auto)]

pub mod laws;
