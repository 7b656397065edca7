//! Offices for test programs. A `Store` is an office in memory, like the one that the program opens
//! if no file is named; the functions of `ways` call an office over any storage.
//!
//! The contracts of an office are long, and slow down the proofs of its callers. So each call is in
//! a function of its own, which borrows the office and has no contract about it. Dropping a store
//! is proved again for each exit of a function. So a function that creates a store passes a borrow
//! of it to another function, drops it, and returns that function's result.
#![tactic(auto)]

pub mod failing;
pub mod office_calls;
mod store;

pub use office_calls::serve_in;
pub use store::{Store, invalid, store_after};
