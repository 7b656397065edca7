//! Look-ups that displays need. The core must be usable (not `is_spent`).
ghost use Rattle.std.specs.Prelude.{◌≡◌, ◌↔◌, ℕ, false, string_bytes, IfOk};
ghost use Rattle.std.specs.Ordering.{nat_cmp};
ghost use Rattle.thes_base.specs.declared.data.LinkKind.{LinkKind as Kind};
ghost use Rattle.thes_base.specs.declared.data.LinkForm.TheVariants.{Within};
ghost use Rattle.thes_base.specs.Links.{form_of};
ghost use Rattle.thes_base.specs.Listing.{IsListing};
ghost use Rattle.thes_base.specs.State.{State};
ghost use Rattle.thes_base.specs.Views.{HasLink};
ghost use Rattle.thes_core.specs.CoreView.{IsViewOf};
ghost use Rattle.thes_core.specs.Terms.{term_text};
ghost use Rattle.thes_vocab.specs.Vocabulary.{IsConceptOf};

use crate::machine::Core;
use std::alloc::{AllocError, Global};
use thes_base::number::ResNo;
use thes_base::text::Tag;

impl Core {
    /// Returns the live concepts of the scheme in ascending order. A link within a scheme has both
    /// ends among them or neither.
    pub fn live_of(&self, scheme: ResNo) -> &[ResNo]
        requires { self.now.spent ≡ false }
        ensures listed { IsListing nat_cmp (IsConceptOf self.now.resources scheme) result.now }
        ensures closed { let is_in = IsConceptOf self.now.resources scheme in
            (s : State) → IsViewOf self.now s → (kind : Kind) (a b : ℕ) → form_of kind ≡ Within →
            HasLink self.now.links kind a b → is_in a ↔ is_in b }
    {
        self.thesaurus.vocab.live_of(scheme)
    }

    /// Returns the term that displays show for a concept: its preferred label in the language, or
    /// its number in square brackets if it has none.
    pub fn term(&self, alloc: Global, n: ResNo, tag: &Tag) -> Result<String, AllocError>
        requires { self.now.spent ≡ false }
        ensures { IfOk result (λ text. string_bytes text ≡ term_text self.now.labels tag.now n) }
    {
        match self.preferred(n, tag) {
            Some(text) => String::from_str(alloc, text.as_str()),
            None => format!(in alloc; "[{}]", n.get()),
        }
    }
}
