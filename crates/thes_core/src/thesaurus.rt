//! `Thesaurus`, the parts of a core as one struct without an invariant, so that a request may
//! change the parts one after another.
ghost use Rattle.std.specs.Prelude.{◌≡◌, Some, IfOk, []};
ghost use Rattle.thes_base.specs.Resources.{IsConcept, scheme_of};
ghost use Rattle.thes_core.specs.PartsView.{AreLegal};
ghost use Rattle.thes_links.specs.Reading.{IsRow};

use std::alloc::{AllocError, Global};
use thes_base::data::{Limits, Link};
use thes_base::number::ResNo;
use thes_graph::graph::Graph;
use thes_links::links::Links;
use thes_post::book::Book;
use thes_vocab::Vocab;

/// The parts of a thesaurus: its vocabulary, its links, the counts of its postings, and the limits
/// on its size.
#[derive(Drop)]
pub struct Thesaurus {
    pub alloc: Global,
    pub vocab: Vocab,
    pub graph: Graph,
    pub book: Book,
    pub limits: Limits,
}

impl Thesaurus {
    // Returns the scheme of a concept; each concept has one.
    pub(crate) fn scheme(&self, concept: ResNo) -> ResNo
        requires kept { AreLegal self.now [] }
        requires concept { IsConcept self.now.vocab.resources concept }
        ensures { scheme_of self.now.vocab.resources concept ≡ Some result }
    {
        self.vocab.resource(concept).unwrap().scheme.unwrap()
    }

    // Returns the held links with an end at a resource, each once.
    #[tactic(auto, using(crate::proofs::DeltaLemmas::take_got, crate::proofs::DeltaLemmas::take_none))]
    pub(crate) fn links_at(&self, n: ResNo) -> Result<Vec<Link>, AllocError>
        ensures { IfOk result (λ found. IsRow self.now.graph.links n found.items) }
    {
        let mut found = Vec::new(self.alloc);
        let mut walk = self.graph.walk();
        while let Some(link) = walk.link_at(n, found.len()) {
            found.push(link)?;
        }
        Ok(found)
    }
}
