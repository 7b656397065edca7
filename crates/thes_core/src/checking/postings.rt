//! Checks of Split and Post requests.
ghost use Rattle.std.specs.Prelude.{◌≡◌, IfOk, IfNone, List, ℕ, [], map};
ghost use Rattle.thes_base.specs.declared.data.History.{History};
ghost use Rattle.thes_base.specs.declared.request.Command.TheVariants as request;
ghost use Rattle.thes_core.specs.Facts.{posting_row_at};
ghost use Rattle.thes_core.specs.Requests.{RefusalByParts};
ghost use Rattle.thes_core.specs.CoreDecisions.{IsAccepted};
ghost use Rattle.thes_core.specs.PartsView.{AreLegal, setting_of, parts_state};
ghost use Rattle.thes_post.specs.PostingCounts.{ArePostingCounts};

use crate::arguments::{check_forwarding, check_live_concept};
use crate::facts::Facts;
use crate::named_postings::check_listed;
use crate::room::Growth;
use crate::thesaurus::Thesaurus;
use std::alloc::AllocError;
use thes_base::fault::Refusal;
use thes_base::number::{PostNo, ResNo};
use thes_base::text::{Tag, Text};

impl Thesaurus {
    // Checks a Split request: its source, the postings that it lists, the new concept's preferred
    // label, and the limits.
    pub(super) fn check_split(
        &self,
        source: ResNo,
        tag: &Tag,
        text: &Text,
        postings: &[PostNo],
        facts: &Facts,
    ) -> Result<Option<Refusal>, AllocError>
        requires { AreLegal self.now [] }
        ensures row { IfOk result (λ refusal. (histories : List History)
            → AreLegal self.now histories
            → ArePostingCounts histories self.now.book
            → facts.now.named_postings.items ≡ map (posting_row_at histories) postings.now
            → RefusalByParts self.now histories
            (request.Split source tag.now text.now postings.now) refusal) }
        ensures may { IfOk result (λ refusal.
            IfNone refusal (IsAccepted (setting_of self.now) (parts_state self.now [])
            (request.Split source tag.now text.now []))) }
    {
        if let Some(refusal) = check_live_concept(&self.vocab, source) {
            return Ok(Some(refusal));
        }
        if let Some(refusal) = check_listed(
            self.alloc,
            source,
            postings,
            facts.named_postings.as_slice(),
        )? {
            return Ok(Some(refusal));
        }
        if let Some(refusal) = self.vocab.check_concept(self.scheme(source), tag, text) {
            return Ok(Some(refusal));
        }
        Ok(self.check_room(Growth {
            moves: postings.len() as u64,
            ..Growth::NAMED
        }))
    }

    // Checks a Post request with a new key: whether its concept's chain of replacements ends at a
    // live concept, and the limits.
    pub(super) fn check_post(&self, concept: ResNo) -> Option<Refusal>
        ensures { (histories : List History) → AreLegal self.now histories
            → ArePostingCounts histories self.now.book
            → (key rec : List ℕ)
            → RefusalByParts self.now histories (request.Post key rec concept) result }
    {
        let way = self.vocab.forwarding(concept);
        if let Some(refusal) = check_forwarding(&self.vocab, concept, way.place) {
            return Some(refusal);
        }
        self.check_room(Growth {
            postings: 1,
            moves: way.steps,
            ..Growth::NONE
        })
    }
}
