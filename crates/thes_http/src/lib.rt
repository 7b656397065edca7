//! An HTTP/1.0 and HTTP/1.1 server over any service: reads requests (by thes_http_request), has
//! them performed, and writes responses.
#![tactic(auto)]

mod act;
pub mod connection;
pub mod connection_count;
mod head_text;
pub mod laws;
mod response;
pub mod server;
pub mod service;
mod timed_connection;
mod timed_stream;

pub use response::Status;
