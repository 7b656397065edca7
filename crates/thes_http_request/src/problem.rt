//! The problems that the head of an HTTP request can have.
use crate::endpoint::Endpoint;

/// The reason why a request is rejected, found in its head or target.
#[derive(Clone, Copy, Debug, PartialEq, Eq)]
pub enum Problem {
    /// The head is malformed or exceeds the limits, or it states several lengths of the body, or
    /// one that isn't a number.
    BadHead,
    /// The head has a transfer coding; none is supported.
    TransferCoding,
    /// The path names no endpoint.
    NoSuchPath,
    /// The path names this endpoint, which doesn't allow the method of the request.
    BadMethod(Endpoint),
    /// The length of the body is missing.
    NoLength,
    /// The head states a longer body than the endpoint allows.
    TooLong,
    /// The query string isn't exactly a scheme and a language.
    BadQuery,
}
