//! Reads HTTP requests from a connection: heads, the endpoints that they name, and bodies.
#![tactic(auto)]

pub mod body;
pub mod endpoint;
pub mod endpoint_request;
mod fields;
pub mod head;
pub mod inbox;
pub mod laws;
pub mod problem;
pub mod query;
