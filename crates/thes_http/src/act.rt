//! Performs a request of HTTP whose head and body were read, by the endpoint that the head names.
ghost use Rattle.std.specs.Prelude.{◌≡◌, if◌then◌else◌, true};
ghost use Rattle.thes_http.specs.Serving.{CommandEffect, PlanEffect, QueryEffect, NumberQueryEffect, DisplayQueryEffect, OrOutOfMemory, EndpointEffectOrFailure};
ghost use Rattle.thes_http_request.specs.Queries.{display_query_of};

use crate::response::{MediaType, Response};
use crate::service::Service;
use std::alloc::Global;
use thes_base::fault::{Fault, FormFault, ReadStop};
use thes_base::number::{PostNo, ResNo};
use thes_base::text::Tag;
use thes_http_request::endpoint::Endpoint;
use thes_http_request::endpoint_request::EndpointRequest;
use thes_http_request::problem::Problem;
use thes_http_request::query::read_query;
use thes_requests::JsonScratch;
use thes_requests::plan_serving::serve_plan;
use thes_requests::request::{Display, DisplayRequest, Query, Request, read_request};

/// Performs the request of a head with this body, and returns the response.
pub fn act<S: Service>(
    alloc: Global,
    service: &mut S,
    want: EndpointRequest<'_>,
    body: &[u8],
) -> Response
    requires { S.is_open service.old ≡ true }
    ensures { EndpointEffectOrFailure S.behaviour service.old result service.new
        want.entry.endpoint want.entry.number.now want.entry.query.now body.now }
{
    match want.endpoint {
        Endpoint::Requests => perform(alloc, service, body),
        Endpoint::Plans => perform_plan(alloc, service, body),
        Endpoint::Import => Response::for_import(service.import(alloc, body)),
        Endpoint::Totals => show(alloc, service, Query::Totals),
        Endpoint::Concept => show_resource(alloc, service, want.number, false),
        Endpoint::Postings => show_resource(alloc, service, want.number, true),
        Endpoint::Posting => show_posting(alloc, service, want.number),
        Endpoint::Export => Response::for_export(service.export(alloc)),
        Endpoint::Alphabetical => display(alloc, service, Display::Alphabetical, want.query),
        Endpoint::Hierarchical => display(alloc, service, Display::Hierarchical, want.query),
    }
}

// Performs the command in a body; a query in a body is `BadShape`.
fn perform<S: Service>(alloc: Global, service: &mut S, body: &[u8]) -> Response
    requires { S.is_open service.old ≡ true }
    ensures { OrOutOfMemory S.behaviour service.old result service.new
        (CommandEffect S.behaviour service.old result service.new body.now) }
{
    match read_request(&mut JsonScratch::new(alloc), body) {
        Ok(Request::Do(command)) => Response::for_command(service.perform(&command)),
        Ok(Request::Get(_)) => Response::form(FormFault::BadShape),
        Err(ReadStop::Form(fault)) => Response::form(fault),
        Err(ReadStop::OutOfMemory) => Response::fault(Fault::OutOfMemory),
    }
}

// Performs the plan in a body; a body that isn't a plan has no effect.
fn perform_plan<S: Service>(alloc: Global, service: &mut S, body: &[u8]) -> Response
    requires { S.is_open service.old ≡ true }
    ensures { PlanEffect S.behaviour service.old result service.new body.now }
{
    Response::for_plan(serve_plan(&mut JsonScratch::new(alloc), service, body))
}

// Passes a query to the service, and returns the response.
fn show<S: Service>(alloc: Global, service: &mut S, query: Query) -> Response
    requires { S.is_open service.old ≡ true }
    ensures { QueryEffect S.behaviour service.old result service.new query }
{
    Response::for_query(MediaType::Json, service.show(alloc, &query))
}

// Answers the query for a concept or, if `postings`, for its postings, by the number in the path.
fn show_resource<S: Service>(
    alloc: Global,
    service: &mut S,
    number: &str,
    postings: bool,
) -> Response
    requires { S.is_open service.old ≡ true }
    ensures { NumberQueryEffect S.behaviour service.old result service.new
        (λ n. if postings then Query.Postings n else Query.Concept n) number.now }
{
    match ResNo::read(number) {
        Ok(n) => show(
            alloc,
            service,
            if postings {
                Query::Postings(n)
            } else {
                Query::Concept(n)
            },
        ),
        Err(fault) => Response::form(fault),
    }
}

// Answers the query for a posting by the number in the path.
fn show_posting<S: Service>(alloc: Global, service: &mut S, number: &str) -> Response
    requires { S.is_open service.old ≡ true }
    ensures { NumberQueryEffect S.behaviour service.old result service.new
        Query.Posting number.now }
{
    match PostNo::read(number) {
        Ok(n) => show(alloc, service, Query::Posting(n)),
        Err(fault) => Response::form(fault),
    }
}

// Displays the scheme in the language that the query string names. The form of the scheme's number
// is checked before that of the tag, which is converted to lower case.
fn display<S: Service>(alloc: Global, service: &mut S, which: Display, query: &str) -> Response
    requires { S.is_open service.old ≡ true }
    ensures { OrOutOfMemory S.behaviour service.old result service.new
        (DisplayQueryEffect S.behaviour service.old result service.new which
        (display_query_of query.now)) }
{
    let asked = match read_query(alloc, query) {
        Ok(Some(asked)) => asked,
        Ok(None) => return Response::problem(Problem::BadQuery),
        Err(_) => return Response::fault(Fault::OutOfMemory),
    };
    let scheme = match ResNo::read(asked.scheme.as_str()) {
        Ok(scheme) => scheme,
        Err(fault) => return Response::form(fault),
    };
    let tag = match Tag::read(alloc, asked.lang.as_str()) {
        Ok(tag) => tag,
        Err(ReadStop::Form(fault)) => return Response::form(fault),
        Err(ReadStop::OutOfMemory) => return Response::fault(Fault::OutOfMemory),
    };
    let wanted = DisplayRequest {
        kind: which,
        scheme,
        tag: &tag,
    };
    Response::for_query(MediaType::Plain, service.display(alloc, &wanted))
}
