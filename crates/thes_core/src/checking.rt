//! Checks of requests against the vocabulary, the graph, the counts of postings and the limits. The
//! first check that fails gives the refusal.
ghost use Rattle.std.specs.Prelude.{IfOk, IfNone, List, [], false};
ghost use Rattle.thes_base.specs.declared.data.History.{History};
ghost use Rattle.thes_base.specs.declared.fault.Refusal.TheVariants as no;
ghost use Rattle.thes_base.specs.RefusalRules.{refused_unless, accepted};
ghost use Rattle.thes_core.specs.Requests.{RefusalByParts};
ghost use Rattle.thes_core.specs.CoreDecisions.{MayApply};
ghost use Rattle.thes_core.specs.Facts.{AreFacts};
ghost use Rattle.thes_post.specs.PostingCounts.{ArePostingCounts};
ghost use Rattle.thes_core.specs.Room.{HasRoomForGrowth, amounts_of_parts};
ghost use Rattle.thes_core.specs.PartsView.{AreLegal, parts_view};

mod links;
mod names;
mod postings;

use crate::facts::Facts;
use crate::named_postings::check_withdraw;
use crate::room::{Growth, may_rise};
use crate::thesaurus::Thesaurus;
use std::alloc::AllocError;
use thes_base::fault::Refusal;
use thes_base::request::Command;

impl Thesaurus {
    // Checks a request other than a Post with a known key, in the order of docs/REQUESTS.md.
    pub(crate) fn check_request(
        &self,
        command: &Command,
        facts: &Facts,
    ) -> Result<Option<Refusal>, AllocError>
        requires { AreLegal self.now [] }
        ensures row { IfOk result (λ refusal. (histories : List History)
            → AreLegal self.now histories
            → ArePostingCounts histories self.now.book → AreFacts command.now histories facts.now
            → RefusalByParts self.now histories command.now refusal) }
        ensures may { IfOk result (λ refusal.
            IfNone refusal (MayApply (parts_view self.now false) command.now)) }
    {
        match command {
            Command::Scheme(_, _) => Ok(self.check_scheme()),
            Command::Concept(scheme, tag, text) => Ok(self.check_concept(*scheme, tag, text)),
            Command::Collection(scheme, _, _) => Ok(self.check_collection(*scheme)),
            Command::Outside(iri) => Ok(self.check_outside(iri)),
            Command::AddLabel(owner, label) => Ok(self.check_add_label(*owner, label)),
            Command::DropLabel(owner, label) => Ok(self.check_drop_label(*owner, label)),
            Command::Relabel(owner, tag, text, keep) => {
                Ok(self.check_relabel(*owner, tag, text, *keep))
            }
            Command::Link(kind, a, b) => self.check_link(*kind, *a, *b),
            Command::Unlink(kind, a, b) => Ok(self.check_unlink(*kind, *a, *b)),
            Command::Deprecate(concept) => Ok(self.check_deprecate(*concept)),
            Command::Merge(source, target) => self.check_merge(*source, *target),
            Command::Split(source, tag, text, postings) => {
                self.check_split(*source, tag, text, postings.as_slice(), facts)
            }
            Command::Post(_, _, concept) => Ok(self.check_post(*concept)),
            Command::Withdraw(posting) => Ok(check_withdraw(*posting, facts)),
        }
    }

    // Checks whether the limits leave room for the growth that a request causes.
    fn check_room(&self, growth: Growth) -> Option<Refusal>
        ensures { let has_room =
            HasRoomForGrowth self.now.limits (amounts_of_parts self.now) growth in
            refused_unless has_room no.TooMany accepted result }
    {
        let limits = &self.limits;
        if may_rise(
            limits.resources,
            self.vocab.resource_count(),
            growth.resources,
        ) && may_rise(limits.labels, self.vocab.label_count(), growth.labels)
            && may_rise(limits.links, self.graph.size(), growth.links)
            && may_rise(
                limits.postings,
                self.book.totals().accepted,
                growth.postings,
            )
            && may_rise(limits.moves, u64::from(self.book.moves()), growth.moves)
        {
            None
        } else {
            Some(Refusal::TooMany)
        }
    }
}
