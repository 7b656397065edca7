//! The trait `Service`, by which the server has requests performed.
ghost use Rattle.std.specs.Prelude.{◌≡◌, true};
ghost use Rattle.thes_http.specs.ServiceBehaviour.{ServiceBehaviour, DoesRequests};

use std::alloc::Global;
use thes_base::fault::Fault;
use thes_requests::handler::{QueryAnswer, RequestHandler};
use thes_requests::page::Page;
use thes_requests::request::DisplayRequest;

/// A request handler that also imports posting files, exports the vocabulary, and displays schemes.
pub trait Service: RequestHandler {
    // The behaviour of each call, including those of a request handler. (`Service` is a trait, so
    // that the proofs of a connection see no office and no storage: DECISIONS.md, The office.)
    ghost behaviour: { ServiceBehaviour Self };

    /// Imports a posting file, and returns the outcomes of its rows as CSV; None if it isn't a
    /// posting file, and then nothing is performed.
    fn import(&mut self, alloc: Global, file: &[u8]) -> Result<Option<Page>, Fault>
        requires { Self.is_open self.old ≡ true }
        ensures { behaviour.imports self.old file.now result self.new };

    /// Exports the vocabulary as N-Triples.
    fn export(&mut self, alloc: Global) -> Result<Page, Fault>
        requires { Self.is_open self.old ≡ true }
        ensures { behaviour.exports self.old result self.new };

    /// Displays a scheme in a language, or returns the refusal of the scheme's number.
    fn display(&mut self, alloc: Global, wanted: &DisplayRequest<'_>) -> Result<QueryAnswer, Fault>
        requires { Self.is_open self.old ≡ true }
        ensures { let asked = wanted.now in
            behaviour.displays self.old asked.kind asked.scheme asked.tag.now result self.new };

    // The calls of `RequestHandler` do for requests what `behaviour` says.
    ghost does_requests: { DoesRequests Self.requests behaviour };
}
