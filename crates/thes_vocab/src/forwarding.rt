//! Chains of replacements, along which postings to merged concepts are forwarded.
ghost use Rattle.std.specs.Prelude.{◌≡◌, length, IfOk};
ghost use Rattle.thes_base.specs.Resources.{replacement_of, replacements};
ghost use Rattle.thes_base.specs.Postings.{path_end};

use crate::vocab::Vocab;
use std::alloc::{AllocError, Global};
use thes_base::number::ResNo;

/// The concept at which a concept's chain of replacements ends, and the length of the chain.
#[derive(Clone, Copy)]
pub struct Forwarding {
    /// The last replacement, or the concept itself if it has none.
    pub place: ResNo,
    /// The number of replacements in the chain.
    pub steps: u64,
}

impl Vocab {
    /// Returns the end and the length of a concept's chain of replacements.
    #[tactic(auto, using(crate::proofs::ForwardingLemmas::along_chain))]
    pub fn forwarding(&self, concept: ResNo) -> Forwarding
        ensures place { result.place ≡ path_end concept (replacements self.now.resources concept) }
        ensures steps { result.steps ≡ length (replacements self.now.resources concept) }
    {
        let count = self.resource_count();
        let mut place = concept;
        for steps in 0..count {
            match self.replacement(place) {
                Some(next) => place = next,
                None => return Forwarding { place, steps },
            }
        }
        Forwarding {
            place,
            steps: count,
        }
    }

    /// Returns the chain of replacements of a concept in order, without the concept itself.
    #[tactic(auto, using(crate::proofs::ForwardingLemmas::along_chain))]
    pub fn replacements(&self, alloc: Global, concept: ResNo) -> Result<Vec<ResNo>, AllocError>
        ensures { IfOk result (λ way. way.items ≡ replacements self.now.resources concept) }
    {
        let mut way = Vec::new(alloc);
        let mut place = concept;
        for _ in 0..self.resource_count() {
            match self.replacement(place) {
                Some(next) => {
                    way.push(next)?;
                    place = next;
                }
                None => return Ok(way),
            }
        }
        Ok(way)
    }

    // Returns the concept by which the resource was replaced, if it was.
    fn replacement(&self, n: ResNo) -> Option<ResNo>
        ensures { result ≡ replacement_of self.now.resources n }
    {
        self.resource(n)?.replaced
    }
}
