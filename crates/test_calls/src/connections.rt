//! Tests of connections. They run in memory and over devices that fail, with a service that only
//! counts the operations performed.
mod breaks;
mod counter;
mod heads;
mod rows;
