//! The request in the head of an HTTP message.
ghost use Rattle.std.specs.Prelude.{◌≡◌, ◌≤◌, ℕ, List, length, map, take, drop, All, IfOk, IsErrOf, Ok, Err};
ghost use Rattle.httparse.specs.Spans.{IsHeaderWithin, header_bytes};
ghost use Rattle.thes_http_request.specs.Heads.{head_limit};
ghost use Rattle.thes_http_request.specs.Inbox.{IsHeadAt, HeadOutcome};
ghost use Rattle.thes_http_request.specs.Endpoints.{path_of, query_of};
ghost use Rattle.thes_http_request.specs.EndpointRequests.{request_of_parts};

use crate::endpoint::{Endpoint, Paths};
use crate::fields::{body_length, has_field};
use crate::problem::Problem;
use httparse::spans::{HeaderSpan, RequestSpans};
use std::alloc::Global;

/// The request in a head: an endpoint, the number and the query string in its target, and the
/// length of its body.
#[derive(Clone, Copy, Drop)]
pub struct EndpointRequest<'a> {
    pub endpoint: Endpoint,
    /// The text in the path where a number is expected; empty if none is expected.
    pub number: &'a str,
    pub query: &'a str,
    /// The length of the body in bytes.
    pub body: u32,
}

// The header fields of a head: its bytes, and where the fields are in them.
#[derive(Clone, Copy)]
struct FieldSpans<'a> {
    bytes: &'a [u8],
    headers: &'a [HeaderSpan],
}

/// Returns the request in a head, or the first problem with it.
#[tactic(auto, using(crate::proofs::HeadOutcomeLemmas::head_outcome_ok, crate::proofs::HeadOutcomeLemmas::head_outcome_err))]
pub fn request_of_head<'a>(
    alloc: Global,
    paths: Paths<'_>,
    head: &'a [u8],
    spans: RequestSpans,
    headers: &[HeaderSpan],
) -> Result<EndpointRequest<'a>, Problem>
    requires at { IsHeadAt head.now headers.now spans }
    requires short { length head.now ≤ head_limit }
    ensures ok { IfOk result (λ w. HeadOutcome paths.entry.takes_plans head.now
        (drop spans.len head.now) (Ok (record {
          endpoint = w.endpoint;
          number = w.number.now;
          query = w.query.now;
          body = w.body;
        }))) }
    ensures err { (p : _) → IsErrOf result p →
        HeadOutcome paths.entry.takes_plans head.now (drop spans.len head.now) (Err p) }
{
    let Ok(target) = str::from_utf8(spans.path.of(head)) else {
        return Err(Problem::BadHead);
    };
    let fields = FieldSpans {
        bytes: head,
        headers: &headers[..spans.headers],
    };
    request_of_parts(alloc, paths, spans.method.of(head), target, &fields)
}

// Checks the parts of a head in order: transfer coding, path, method, and length of the body;
// returns the request, or the first problem.
fn request_of_parts<'a>(
    alloc: Global,
    paths: Paths<'_>,
    method: &[u8],
    target: &'a str,
    spans: &FieldSpans<'_>,
) -> Result<EndpointRequest<'a>, Problem>
    requires { All (IsHeaderWithin (length spans.now.bytes.now)) spans.now.headers.now }
    ensures ok { IfOk result (λ w. request_of_parts paths.entry.takes_plans (record {
      method = method.now;
      target = target.now;
      fields = map (header_bytes spans.now.bytes.now) spans.now.headers.now;
    })
        ≡ Ok (record {
          endpoint = w.endpoint;
          number = w.number.now;
          query = w.query.now;
          body = w.body;
        })) }
    ensures err { (p : _) → IsErrOf result p
        → request_of_parts paths.entry.takes_plans (record {
          method = method.now;
          target = target.now;
          fields = map (header_bytes spans.now.bytes.now) spans.now.headers.now;
        }) ≡ Err p }
{
    if has_field(spans.bytes, spans.headers, b"transfer-encoding") {
        return Err(Problem::TransferCoding);
    }
    let (path, query) = split_target(target);
    let Some(found) = paths.find(path) else {
        return Err(Problem::NoSuchPath);
    };
    if !found.endpoint.has_method(alloc, method) {
        return Err(Problem::BadMethod(found.endpoint));
    }
    match body_length(spans.bytes, spans.headers, found.endpoint.body_limit()) {
        Ok(body) => Ok(EndpointRequest {
            endpoint: found.endpoint,
            number: found.number,
            query,
            body,
        }),
        Err(problem) => Err(problem),
    }
}

// Splits the target of an HTTP request at its first question mark into its path and its query
// string, which is empty without one.
fn split_target(target: &str) -> (&str, &str)
    ensures path { result.0.now ≡ path_of target.now }
    ensures query { result.1.now ≡ query_of target.now }
{
    match target.split_once('?') {
        Some((path, query)) => (path, query),
        None => (target, ""),
    }
}
