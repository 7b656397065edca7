//! Checks of Link, Unlink, Deprecate and Merge requests.
ghost use Rattle.std.specs.Prelude.{◌≢◌, IfOk, IfNone, List, []};
ghost use Rattle.thes_base.specs.declared.data.History.{History};
ghost use Rattle.thes_base.specs.declared.request.Command.TheVariants as request;
ghost use Rattle.thes_base.specs.Links.{Holds, links_after_merge};
ghost use Rattle.thes_base.specs.RuleParts.{unless_links_consistent};
ghost use Rattle.thes_base.specs.Resources.{is_outside};
ghost use Rattle.thes_base.specs.RefusalRules.{accepted};
ghost use Rattle.thes_core.specs.Requests.{RefusalByParts, unless_linkable};
ghost use Rattle.thes_core.specs.CoreDecisions.{IsAccepted};
ghost use Rattle.thes_core.specs.PartsView.{AreLegal, setting_of, parts_state};
ghost use Rattle.thes_post.specs.PostingCounts.{ArePostingCounts};

use crate::arguments::{check_ends, check_live_concept, check_pair};
use crate::room::Growth;
use crate::thesaurus::Thesaurus;
use std::alloc::AllocError;
use thes_base::data::{Link, LinkKind};
use thes_base::fault::Refusal;
use thes_base::number::ResNo;
use thes_walks::judge::{judge_add, judge_contract};

impl Thesaurus {
    // Checks a Link request: its ends, the rules on links, and the limits.
    pub(super) fn check_link(
        &self,
        kind: LinkKind,
        a: ResNo,
        b: ResNo,
    ) -> Result<Option<Refusal>, AllocError>
        requires { AreLegal self.now [] }
        ensures { IfOk result (λ refusal. (histories : List History) → AreLegal self.now histories
            → RefusalByParts self.now histories (request.Link kind a b) refusal) }
    {
        let link = Link { kind, a, b };
        if let Some(refusal) = check_ends(&self.vocab, &link) {
            return Ok(Some(refusal));
        }
        if let Some(refusal) = self.check_link_fits(&link)? {
            return Ok(Some(refusal));
        }
        Ok(self.check_room(Growth {
            links: 1,
            ..Growth::NONE
        }))
    }

    // Checks whether the link is new, and whether it would break Cycle, S27 or S46 with the links
    // held.
    fn check_link_fits(&self, link: &Link) -> Result<Option<Refusal>, AllocError>
        requires kept { AreLegal self.now [] }
        requires ends { link.now.a ≢ link.now.b }
        ensures { let outside = is_outside self.now.vocab.resources in
            IfOk result (unless_linkable outside self.now.graph.links link.now) }
    {
        let mut walk = self.graph.walk();
        let answer = judge_add(self.alloc, &mut walk, link)?;
        Ok(answer)
    }

    // Checks an Unlink request: its ends, and whether the link is held.
    pub(super) fn check_unlink(&self, kind: LinkKind, a: ResNo, b: ResNo) -> Option<Refusal>
        requires { AreLegal self.now [] }
        ensures { (histories : List History) → AreLegal self.now histories
            → RefusalByParts self.now histories (request.Unlink kind a b) result }
    {
        let link = Link { kind, a, b };
        if let Some(refusal) = check_ends(&self.vocab, &link) {
            return Some(refusal);
        }
        if !self.graph.has(&link) {
            return Some(Refusal::NoSuchLink);
        }
        None
    }

    // Checks a Deprecate request: whether its concept is live and without postings.
    pub(super) fn check_deprecate(&self, concept: ResNo) -> Option<Refusal>
        ensures row { (histories : List History) → AreLegal self.now histories
            → ArePostingCounts histories self.now.book
            → RefusalByParts self.now histories (request.Deprecate concept) result }
        ensures may { IfNone result (AreLegal self.now []
            → IsAccepted (setting_of self.now) (parts_state self.now [])
            (request.Deprecate concept)) }
    {
        if let Some(refusal) = check_live_concept(&self.vocab, concept) {
            return Some(refusal);
        }
        if self.book.count(concept) != 0 {
            return Some(Refusal::HasPostings);
        }
        None
    }

    // Checks a Merge request: its two concepts, the rules on links, and the limits.
    pub(super) fn check_merge(
        &self,
        source: ResNo,
        target: ResNo,
    ) -> Result<Option<Refusal>, AllocError>
        requires { AreLegal self.now [] }
        ensures row { IfOk result (λ refusal. (histories : List History)
            → AreLegal self.now histories
            → ArePostingCounts histories self.now.book
            → RefusalByParts self.now histories (request.Merge source target) refusal) }
        ensures may { IfOk result (λ refusal. IfNone refusal
            (IsAccepted (setting_of self.now) (parts_state self.now [])
            (request.Merge source target))) }
    {
        if let Some(refusal) = check_pair(&self.vocab, source, target) {
            return Ok(Some(refusal));
        }
        if let Some(refusal) = self.check_contraction(source, target)? {
            return Ok(Some(refusal));
        }
        Ok(self.check_room(Growth {
            labels: self.vocab.taken_count(source, target),
            moves: self.book.count(source),
            ..Growth::NONE
        }))
    }

    // Checks whether the links after a merge would break Cycle, S27 or S46.
    fn check_contraction(&self, source: ResNo, target: ResNo) -> Result<Option<Refusal>, AllocError>
        requires kept { AreLegal self.now [] }
        requires ends { source ≢ target }
        ensures { let outside = is_outside self.now.vocab.resources in
            let after = links_after_merge outside source target self.now.graph.links in
            IfOk result (unless_links_consistent (Holds after) accepted) }
    {
        let mut walk = self.graph.walk();
        let answer = judge_contract(self.alloc, &mut walk, source, target)?;
        Ok(answer)
    }
}
