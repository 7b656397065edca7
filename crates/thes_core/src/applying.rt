//! Applies accepted requests to the parts of a thesaurus. If memory runs out, the parts may be
//! inconsistent.
ghost use Rattle.std.specs.Prelude.{◌≡◌, ℕ, OnOk, List, []};
ghost use Rattle.thes_base.specs.declared.data.History.{History};
ghost use Rattle.thes_base.specs.declared.request.Command.TheVariants as request;
ghost use Rattle.thes_core.specs.Requests.{PartsAccept, AreMatching, CountsAfter, IsChangedBy, MayChange, PartsAfter, creation_request, is_foreign};
ghost use Rattle.thes_core.specs.PartsView.{AreLegal};

use crate::facts::Facts;
use crate::named_postings::count_postings;
use crate::thesaurus::Thesaurus;
use std::alloc::AllocError;
use thes_base::data::{Label, Link, LinkKind, NewResource};
use thes_base::number::{PostNo, ResNo};
use thes_base::request::Command;
use thes_base::text::{Tag, Text};

// Checks whether the new resource is an outside concept.
fn is_outside(new: &NewResource) -> bool
    ensures { result ≡ is_foreign new.now }
{
    matches!(new, NewResource::Outside(_))
}

impl Thesaurus {
    // Applies an accepted request to the vocabulary, the links and the counts of postings.
    pub(crate) fn change(&mut self, command: &Command, facts: &Facts) -> Result<(), AllocError>
        requires { MayChange self.old command.now }
        ensures becomes { OnOk result (PartsAfter command.now self.old self.new) }
        ensures counts { OnOk result ((histories : List History)
            → AreMatching self.old command.now facts.now histories
            → CountsAfter command.now histories self.old self.new) }
    {
        let alloc = self.alloc;
        match command {
            Command::Scheme(tag, text) => self.create_resource(NewResource::Scheme(
                tag.try_clone(alloc)?,
                text.try_clone(alloc)?,
            )),
            Command::Concept(scheme, tag, text) => self.create_resource(NewResource::Concept(
                *scheme,
                tag.try_clone(alloc)?,
                text.try_clone(alloc)?,
            )),
            Command::Collection(scheme, tag, text) => self.create_resource(NewResource::Collection(
                *scheme,
                tag.try_clone(alloc)?,
                text.try_clone(alloc)?,
            )),
            Command::Outside(iri) => self.create_resource(NewResource::Outside(iri.try_clone(
                alloc,
            )?)),
            Command::AddLabel(owner, label) => self.add_label(*owner, label),
            Command::DropLabel(owner, label) => {
                self.drop_label(*owner, label);
                Ok(())
            }
            Command::Relabel(owner, tag, text, keep) => self.relabel(*owner, tag, text, *keep),
            Command::Link(kind, a, b) => self.link(*kind, *a, *b),
            Command::Unlink(kind, a, b) => {
                self.unlink(*kind, *a, *b);
                Ok(())
            }
            Command::Deprecate(concept) => {
                self.deprecate(*concept);
                Ok(())
            }
            Command::Merge(source, target) => self.merge(*source, *target),
            Command::Split(source, tag, text, postings) => {
                self.split(*source, tag, text, postings.as_slice())
            }
            Command::Post(_, _, concept) => self.post(*concept),
            Command::Withdraw(posting) => {
                self.withdraw(*posting, facts);
                Ok(())
            }
        }
    }

    // Adds a resource to the vocabulary, and marks an outside concept in the graph.
    fn create_resource(&mut self, new: NewResource) -> Result<(), AllocError>
        requires { PartsAccept self.old [] (creation_request new) }
        ensures { OnOk result (IsChangedBy (creation_request new) self.old self.new) }
    {
        let is_outside = is_outside(&new);
        let number = self.vocab.add_resource(new)?;
        if is_outside {
            self.graph.mark_outside(number)?;
        }
        Ok(())
    }

    // Applies an AddLabel request: adds the label to its owner.
    fn add_label(&mut self, owner: ResNo, label: &Label) -> Result<(), AllocError>
        requires { PartsAccept self.old [] (request.AddLabel owner label.now) }
        ensures { OnOk result (IsChangedBy (request.AddLabel owner label.now) self.old self.new) }
    {
        self.vocab.add_label(owner, label)?;
        Ok(())
    }

    // Applies a DropLabel request: removes the label from its owner.
    fn drop_label(&mut self, owner: ResNo, label: &Label)
        requires { PartsAccept self.old [] (request.DropLabel owner label.now) }
        ensures { IsChangedBy (request.DropLabel owner label.now) self.old self.new }
    {
        self.vocab.drop_label(owner, label);
    }

    // Applies a Relabel request: replaces the owner's preferred label in the language, and keeps
    // the old one as an alternative label if `keep` is true.
    fn relabel(
        &mut self,
        owner: ResNo,
        tag: &Tag,
        text: &Text,
        keep: bool,
    ) -> Result<(), AllocError>
        requires { PartsAccept self.old [] (request.Relabel owner tag.now text.now keep) }
        ensures { let command = request.Relabel owner tag.now text.now keep in
            OnOk result (IsChangedBy command self.old self.new) }
    {
        self.vocab.relabel(owner, tag, text, keep)?;
        Ok(())
    }

    // Applies a Link request: adds the link in its normal form.
    fn link(&mut self, kind: LinkKind, a: ResNo, b: ResNo) -> Result<(), AllocError>
        requires { PartsAccept self.old [] (request.Link kind a b) }
        ensures { OnOk result (IsChangedBy (request.Link kind a b) self.old self.new) }
    {
        self.graph.add(&Link { kind, a, b })?;
        Ok(())
    }

    // Applies an Unlink request: removes the link, which is held in its normal form.
    fn unlink(&mut self, kind: LinkKind, a: ResNo, b: ResNo)
        requires { PartsAccept self.old [] (request.Unlink kind a b) }
        ensures { IsChangedBy (request.Unlink kind a b) self.old self.new }
    {
        self.graph.remove(&Link { kind, a, b });
    }

    // Applies a Deprecate request: marks the concept as dead without a replacement, and removes its
    // links.
    #[tactic(auto, using(crate::proofs::ApplyLemmas::parts_become_state, crate::proofs::OutsideLemmas::outside_marked_dead))]
    fn deprecate(&mut self, concept: ResNo)
        requires { PartsAccept self.old [] (request.Deprecate concept) }
        ensures { IsChangedBy (request.Deprecate concept) self.old self.new }
    {
        self.vocab.mark_dead(concept, None);
        self.graph.drop_all(concept);
    }

    // Applies a Merge request: merges the source into the target, and counts the source's postings
    // as moved to the target.
    fn merge(&mut self, source: ResNo, target: ResNo) -> Result<(), AllocError>
        requires { PartsAccept self.old [] (request.Merge source target) }
        ensures { OnOk result (IsChangedBy (request.Merge source target) self.old self.new) }
    {
        self.vocab.take_labels(source, target)?;
        self.graph.contract(source, target)?;
        self.book.move_all(source, target)?;
        self.vocab.mark_dead(source, Some(target));
        Ok(())
    }

    // Applies a Split request: adds a concept in the scheme of the source, and counts the listed
    // postings as moved to that concept.
    fn split(
        &mut self,
        source: ResNo,
        tag: &Tag,
        text: &Text,
        postings: &[PostNo],
    ) -> Result<(), AllocError>
        requires { PartsAccept self.old [] (request.Split source tag.now text.now []) }
        ensures { let command = request.Split source tag.now text.now postings.now in
            OnOk result (IsChangedBy command self.old self.new) }
    {
        let scheme = self.scheme(source);
        let new = NewResource::Concept(
            scheme,
            tag.try_clone(self.alloc)?,
            text.try_clone(self.alloc)?,
        );
        let concept = self.vocab.add_resource(new)?;
        self.book
            .move_listed(source, concept, count_postings(postings))?;
        Ok(())
    }

    // Applies a Post request with a new key: counts its posting at the end of the concept's chain
    // of replacements.
    fn post(&mut self, concept: ResNo) -> Result<(), AllocError>
        requires { AreLegal self.old [] }
        ensures { OnOk result ((key rec : List ℕ)
            → IsChangedBy (request.Post key rec concept) self.old self.new) }
    {
        let way = self.vocab.forwarding(concept);
        self.book.post(way.place, way.steps)?;
        Ok(())
    }

    // Applies a Withdraw request: counts its posting as withdrawn from the concept to which it is
    // assigned; counts nothing if the facts don't have the posting.
    fn withdraw(&mut self, posting: PostNo, facts: &Facts)
        requires { AreLegal self.old [] }
        ensures becomes { PartsAfter (request.Withdraw posting) self.old self.new }
        ensures counts { (histories : List History)
            → AreMatching self.old (request.Withdraw posting) facts.now histories
            → CountsAfter (request.Withdraw posting) histories self.old self.new }
    {
        let Some(row) = facts.first() else {
            return;
        };
        self.book.withdraw(row.place);
    }
}
