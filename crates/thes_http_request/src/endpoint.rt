//! The endpoints that a path can name, and the routes to them.
ghost use Rattle.std.specs.Prelude.{◌≡◌, ◌<◌, ◌^◌, ℕ, Some, None, IfSome, IfOk, OnOk, MatchOption};
ghost use Rattle.std.specs.Str.{bytes_eq};
ghost use Rattle.thes_http_request.specs.Endpoints.{method_of, body_limit, endpoint_at, endpoint_of_path};
ghost use Rattle.thes_http_request.specs.Routes.{with_route};

use http::Method;
use matchit::Router;
use std::alloc::{AllocError, Global};
use std::marker::Model;

// The greatest length of a method's name that the crate `http` parses without allocation.
const METHOD_LIMIT: usize = 15;

/// An endpoint of the service, which a path names.
#[derive(Clone, Copy, Debug, PartialEq, Eq)]
pub enum Endpoint {
    /// A command to perform, in the body.
    Requests,
    /// A plan to perform, in the body.
    Plans,
    /// A posting file to import, in the body.
    Import,
    /// The totals of all postings.
    Totals,
    /// The view of a concept, by its number.
    Concept,
    /// The list of the postings assigned to a concept.
    Postings,
    /// The view of a posting, by its number.
    Posting,
    /// The triples of the whole thesaurus.
    Export,
    /// The alphabetical display of a scheme in a language.
    Alphabetical,
    /// The hierarchical display of a scheme in a language.
    Hierarchical,
}

impl Endpoint {
    /// Returns the only method that the endpoint allows.
    pub fn method(self) -> Method
        ensures { result ≡ method_of self }
    {
        match self {
            Endpoint::Requests | Endpoint::Plans | Endpoint::Import => Method::POST,
            _ => Method::GET,
        }
    }

    /// Returns whether `name` is that of the endpoint's method; allocates nothing, since names of
    /// more than 15 bytes aren't parsed.
    pub fn has_method(self, alloc: Global, name: &[u8]) -> bool
        ensures { result ≡ bytes_eq name.now (method_of self) }
    {
        if name.len() > METHOD_LIMIT {
            return false;
        }
        let method = self.method();
        let allowed = method.as_str();
        match Method::from_bytes(alloc, name) {
            Ok(given) => given.as_str() == allowed,
            Err(_) => false,
        }
    }

    /// Returns the greatest length of a body in bytes, or `None` if the endpoint reads no body.
    pub fn body_limit(self) -> Option<u32>
        ensures limit { result ≡ body_limit self }
        ensures short { IfSome result (λ most. most < 2 ^ 30) }
    {
        match self {
            Endpoint::Requests | Endpoint::Plans => Some(1_048_576),
            Endpoint::Import => Some(16_777_216),
            _ => None,
        }
    }
}

/// An endpoint, and the text in its path where a number is expected; empty if none is expected.
#[derive(Clone, Copy, Drop)]
pub struct EndpointMatch<'a> {
    pub endpoint: Endpoint,
    pub number: &'a str,
}

/// The routes to all endpoints. That of plans is among them, whether or not plans are taken.
#[derive(Drop)]
pub struct Routes {
    router: Router<Endpoint>,
}

impl Model for Routes {
    ghost use Rattle.std.specs.Prelude.{◌≡◌};
    ghost use Rattle.thes_http_request.specs.Routes.{RouteRows, route_rows};

    ghost Value = { RouteRows };

    ghost view = { λ routes. routes.router };

    ghost invariant = { λ routes. routes.router ≡ route_rows };
}

// Adds a route to an endpoint. Any error means that memory ran out, since the routes are well
// formed and don't conflict.
#[tactic(auto, using(crate::proofs::RouteLemmas::rows_with_new_route))]
fn add_route(
    router: &mut Router<Endpoint>,
    route: &str,
    endpoint: Endpoint,
) -> Result<(), AllocError>
    ensures { OnOk result (router.new ≡ with_route route.now endpoint router.old) }
{
    match router.insert(route, endpoint) {
        Ok(()) => Ok(()),
        Err(_) => Err(AllocError),
    }
}

impl Routes {
    /// Allocates the routes to all ten endpoints.
    pub fn new(alloc: Global) -> Result<Routes, AllocError> {
        let mut router = Router::new(alloc);
        add_route(&mut router, "/requests", Endpoint::Requests)?;
        add_route(&mut router, "/plans", Endpoint::Plans)?;
        add_route(&mut router, "/import", Endpoint::Import)?;
        add_route(&mut router, "/totals", Endpoint::Totals)?;
        add_route(&mut router, "/concepts/{n}", Endpoint::Concept)?;
        add_route(&mut router, "/concepts/{n}/postings", Endpoint::Postings)?;
        add_route(&mut router, "/postings/{n}", Endpoint::Posting)?;
        add_route(&mut router, "/export", Endpoint::Export)?;
        add_route(&mut router, "/display/alphabetical", Endpoint::Alphabetical)?;
        add_route(&mut router, "/display/hierarchical", Endpoint::Hierarchical)?;
        Ok(Routes { router })
    }

    /// Returns the endpoint that a path names, if there is one; allocates nothing.
    pub fn find<'p>(&self, path: &'p str) -> Option<EndpointMatch<'p>>
        ensures { MatchOption result (endpoint_of_path path.now ≡ None)
            (λ f. endpoint_of_path path.now ≡ Some
            (record { endpoint = f.endpoint; number = f.number.now })) }
    {
        match self.router.at(path) {
            Ok(found) => Some(EndpointMatch {
                endpoint: *found.value,
                number: found.params.get("n").unwrap_or(""),
            }),
            Err(_) => None,
        }
    }
}

/// The routes by which paths are looked up, and whether plans are taken; if they aren't, `/plans`
/// names no endpoint.
#[derive(Clone, Copy)]
pub struct Paths<'r> {
    pub routes: &'r Routes,
    pub takes_plans: bool,
}

impl<'r> Paths<'r> {
    /// Returns the endpoint that a path names, if there is one, where `/plans` names one only if
    /// plans are taken; allocates nothing.
    pub fn find<'p>(self, path: &'p str) -> Option<EndpointMatch<'p>>
        ensures { MatchOption result (endpoint_at self.entry.takes_plans path.now ≡ None)
            (λ f. endpoint_at self.entry.takes_plans path.now ≡ Some
            (record { endpoint = f.endpoint; number = f.number.now })) }
    {
        match self.routes.find(path) {
            Some(found) if self.takes_plans || found.endpoint != Endpoint::Plans => Some(found),
            _ => None,
        }
    }
}
