//! Takes back, in the parts of a thesaurus, the request that was applied last. If memory runs out,
//! the parts may be inconsistent.
ghost use Rattle.std.specs.Prelude.{◌≡◌, true, IfOk, OnOk, List, ℕ};
ghost use Rattle.std.specs.FinSet as set;
ghost use Rattle.thes_base.specs.declared.data.LabelKind.TheVariants.{Alt};
ghost use Rattle.thes_base.specs.declared.data.History.{History};
ghost use Rattle.thes_base.specs.declared.request.Command.TheVariants as request;
ghost use Rattle.thes_base.specs.Changes.{histories_after_post, label};
ghost use Rattle.thes_base.specs.Resources.{replacements};
ghost use Rattle.thes_base.specs.State.{State};
ghost use Rattle.thes_core.specs.CoreView.{without_postings};
ghost use Rattle.thes_core.specs.Losses.{IsLostFromParts, labels_without_kept};
ghost use Rattle.thes_core.specs.Requests.{PartsOfState};
ghost use Rattle.thes_core.specs.declared.losses.Lost.{Lost};
ghost use Rattle.thes_core.specs.UndoLogs.{AreCountsTakenBack, ArePartsAfter, ArePartsAfterCreation};
ghost use Rattle.thes_core.specs.UndoLogs.{ArePartsTakenBack};
ghost use Rattle.thes_post.specs.PostingCounts.{ArePostingCounts};
ghost use Rattle.thes_vocab.specs.OwnLabels.{own_label};
ghost use Rattle.thes_vocab.specs.Vocabulary.{IsLiveOwner, with_labels};

use crate::losses::Lost;
use crate::named_postings::count_postings;
use crate::thesaurus::Thesaurus;
use std::alloc::{AllocError, Global};
use thes_base::data::{Label, LabelValue, Link, LinkKind};
use thes_base::number::{PostNo, ResNo};
use thes_base::request::Command;
use thes_base::text::{Iri, Tag, Text};

// Returns the alternative label that a Relabel has added, with copies of the tag and the text.
fn alternative_label(alloc: Global, tag: &Tag, text: &Text) -> Result<Label, AllocError>
    ensures { IfOk result (λ label. label ≡ own_label Alt tag.now text.now) }
{
    Ok(Label {
        tag: tag.try_clone(alloc)?,
        value: LabelValue::Alt(text.try_clone(alloc)?),
    })
}

impl Thesaurus {
    // Takes back the request that was applied last; `lost` is what the request removed or added
    // without naming it in its arguments.
    pub(crate) fn take_back(&mut self, command: &Command, lost: &Lost) -> Result<(), AllocError>
        requires { (s : State) × ArePartsAfter command.now s self.old
            × IsLostFromParts command.now s lost.now }
        ensures parts { OnOk result ((s : State)
            → ArePartsTakenBack command.now s lost.now self.old self.new) }
        ensures counts { OnOk result ((s : State) → ArePartsAfter command.now s self.old
            → AreCountsTakenBack command.now s lost.now self.old self.new) }
    {
        match command {
            Command::Scheme(tag, text) => {
                self.take_back_named(tag, text);
                Ok(())
            }
            Command::Concept(_, tag, text) => {
                self.take_back_named(tag, text);
                Ok(())
            }
            Command::Collection(_, tag, text) => {
                self.take_back_named(tag, text);
                Ok(())
            }
            Command::Outside(iri) => {
                self.take_back_outside(iri);
                Ok(())
            }
            Command::AddLabel(owner, label) => {
                self.take_back_added(*owner, label);
                Ok(())
            }
            Command::DropLabel(owner, label) => self.take_back_dropped(*owner, label),
            Command::Relabel(owner, tag, _, keep) => {
                self.take_back_relabel(*owner, tag, *keep, lost)
            }
            Command::Link(kind, a, b) => {
                self.take_back_link(*kind, *a, *b);
                Ok(())
            }
            Command::Unlink(kind, a, b) => self.take_back_unlink(*kind, *a, *b),
            Command::Post(_, _, concept) => {
                self.take_back_post(*concept);
                Ok(())
            }
            Command::Withdraw(_) => self.take_back_withdrawal(lost),
            Command::Split(source, tag, text, postings) => {
                self.take_back_split(*source, tag, text, postings.as_slice())
            }
            Command::Deprecate(concept) => self.take_back_deprecate(*concept, lost),
            Command::Merge(source, target) => self.take_back_merge(*source, *target, lost),
        }
    }

    // Takes back the creation of the last resource, a scheme, concept or collection with this
    // preferred label.
    fn take_back_named(&mut self, tag: &Tag, text: &Text)
        requires { (s : State) × ArePartsAfterCreation tag.now text.now s self.old }
        ensures parts { (s : State) → ArePartsAfterCreation tag.now text.now s self.old
            → PartsOfState self.old (without_postings s) self.new }
        ensures book { self.new.book ≡ self.old.book }
    {
        self.vocab.take_back_named(tag, text);
    }

    // Takes back the creation of the last resource, an outside concept.
    fn take_back_outside(&mut self, iri: &Iri)
        requires { (s : State) × ArePartsAfter (request.Outside iri.now) s self.old }
        ensures parts { (s : State) → ArePartsAfter (request.Outside iri.now) s self.old
            → PartsOfState self.old (without_postings s) self.new }
        ensures book { self.new.book ≡ self.old.book }
    {
        let concept = ResNo::new(self.vocab.resource_count() as u32);
        self.vocab.take_back_outside(iri);
        self.graph.unmark_outside(concept);
    }

    // Takes back the addition of a label.
    fn take_back_added(&mut self, owner: ResNo, label: &Label)
        requires { (s : State) × ArePartsAfter (request.AddLabel owner label.now) s self.old }
        ensures parts { (s : State) → ArePartsAfter (request.AddLabel owner label.now) s self.old
            → PartsOfState self.old (without_postings s) self.new }
        ensures book { self.new.book ≡ self.old.book }
    {
        self.vocab.drop_label(owner, label);
    }

    // Takes back the removal of a label.
    fn take_back_dropped(&mut self, owner: ResNo, label: &Label) -> Result<(), AllocError>
        requires { (s : State) × ArePartsAfter (request.DropLabel owner label.now) s self.old }
        ensures parts { OnOk result ((s : State)
            → ArePartsAfter (request.DropLabel owner label.now) s self.old
            → PartsOfState self.old (without_postings s) self.new) }
        ensures book { OnOk result (self.new.book ≡ self.old.book) }
    {
        self.vocab.add_label(owner, label)?;
        Ok(())
    }

    // Takes back the addition of a link.
    fn take_back_link(&mut self, kind: LinkKind, a: ResNo, b: ResNo)
        requires { (s : State) × ArePartsAfter (request.Link kind a b) s self.old }
        ensures parts { (s : State) → ArePartsAfter (request.Link kind a b) s self.old
            → PartsOfState self.old (without_postings s) self.new }
        ensures book { self.new.book ≡ self.old.book }
    {
        self.graph.remove(&Link { kind, a, b });
    }

    // Takes back the removal of a link.
    fn take_back_unlink(&mut self, kind: LinkKind, a: ResNo, b: ResNo) -> Result<(), AllocError>
        requires { (s : State) × ArePartsAfter (request.Unlink kind a b) s self.old }
        ensures parts { OnOk result ((s : State)
            → ArePartsAfter (request.Unlink kind a b) s self.old
            → PartsOfState self.old (without_postings s) self.new) }
        ensures book { OnOk result (self.new.book ≡ self.old.book) }
    {
        self.graph.add(&Link { kind, a, b })?;
        Ok(())
    }

    // Takes back the deprecation of a concept, whose links are in `lost`.
    fn take_back_deprecate(&mut self, concept: ResNo, lost: &Lost) -> Result<(), AllocError>
        requires { (s : State) × ArePartsAfter (request.Deprecate concept) s self.old
            × IsLostFromParts (request.Deprecate concept) s lost.now }
        ensures parts { OnOk result ((s : State)
            → ArePartsTakenBack (request.Deprecate concept) s lost.now self.old self.new) }
        ensures book { OnOk result (self.new.book ≡ self.old.book) }
    {
        let Lost::Links(links) = lost else {
            return Ok(());
        };
        self.vocab.take_back_death(concept)?;
        self.graph.add_all(links.as_slice())?;
        Ok(())
    }

    // Takes back a merge; what it changed is in `lost`.
    fn take_back_merge(
        &mut self,
        source: ResNo,
        target: ResNo,
        lost: &Lost,
    ) -> Result<(), AllocError>
        requires { (s : State) × ArePartsAfter (request.Merge source target) s self.old
            × IsLostFromParts (request.Merge source target) s lost.now }
        ensures parts { OnOk result ((s : State)
            → ArePartsTakenBack (request.Merge source target) s lost.now self.old self.new) }
        ensures counts { OnOk result ((s : State)
            → ArePartsAfter (request.Merge source target) s self.old
            → AreCountsTakenBack (request.Merge source target) s lost.now self.old self.new) }
    {
        let Lost::Merge(loss) = lost else {
            return Ok(());
        };
        let loss = &**loss;
        self.vocab.take_back_death(source)?;
        self.vocab.drop_labels(target, loss.copies.as_slice());
        self.graph.add_all(loss.links.as_slice())?;
        self.graph.detach_all(loss.additions.as_slice());
        self.book.take_back_moves(source, target, loss.moves)?;
        Ok(())
    }

    // Takes back the counts of a new posting to a concept, and of its moves along the replacements.
    fn take_back_post(&mut self, concept: ResNo)
        ensures same { self.new ≡ record self.old { book = self.new.book } }
        ensures counts { (key rec : List ℕ) (histories : List History)
            → ArePostingCounts (histories_after_post key rec concept
            (replacements self.old.vocab.resources concept) histories) self.old.book
            → ArePostingCounts histories self.new.book }
    {
        let way = self.vocab.forwarding(concept);
        self.book.take_back_post(way.place, way.steps);
    }

    // Takes back the count of a withdrawal; changes nothing if `lost` isn't the place of the
    // posting.
    fn take_back_withdrawal(&mut self, lost: &Lost) -> Result<(), AllocError>
        ensures same { OnOk result (self.new ≡ record self.old { book = self.new.book }) }
        ensures counts { OnOk result ((posting : ℕ) (s : State)
            → ArePartsAfter (request.Withdraw posting) s self.old
            → AreCountsTakenBack (request.Withdraw posting) s lost.now self.old self.new) }
    {
        let Lost::Place(concept) = lost else {
            return Ok(());
        };
        self.book.take_back_withdrawal(*concept)?;
        Ok(())
    }

    // Takes back a Relabel: restores the old text, which is in `lost`, and removes the alternative
    // label with that text if `keep` is true.
    fn take_back_relabel(
        &mut self,
        owner: ResNo,
        tag: &Tag,
        keep: bool,
        lost: &Lost,
    ) -> Result<(), AllocError>
        requires { (s : State) × (text : List ℕ)
            × ArePartsAfter (request.Relabel owner tag.now text keep) s self.old
            × IsLostFromParts (request.Relabel owner tag.now text keep) s lost.now }
        ensures parts { OnOk result ((s : State) (text : List ℕ)
            → ArePartsTakenBack (request.Relabel owner tag.now text keep) s lost.now self.old
            self.new) }
        ensures book { OnOk result (self.new.book ≡ self.old.book) }
    {
        let Lost::Preferred(old) = lost else {
            return Ok(());
        };
        self.drop_kept(owner, tag, keep, old)?;
        self.vocab.relabel(owner, tag, old, false)?;
        Ok(())
    }

    // If `keep` is true, removes the alternative label with the old text, which the Relabel added.
    fn drop_kept(
        &mut self,
        owner: ResNo,
        tag: &Tag,
        keep: bool,
        old: &Text,
    ) -> Result<(), AllocError>
        requires owner { IsLiveOwner self.old.vocab.resources owner }
        requires kept { keep ≡ true → set.contains self.old.vocab.labels
            (label owner Alt tag.now old.now) ≡ true }
        ensures { let vocab = self.old.vocab in
            OnOk result (self.new ≡ record self.old {
              vocab = with_labels vocab
                  (labels_without_kept owner tag.now old.now keep vocab.labels);
            }) }
    {
        if keep {
            let label = alternative_label(self.alloc, tag, old)?;
            self.vocab.drop_label(owner, &label);
        }
        Ok(())
    }

    // Takes back a split: removes the new concept, and counts the listed postings at the source
    // again.
    fn take_back_split(
        &mut self,
        source: ResNo,
        tag: &Tag,
        text: &Text,
        postings: &[PostNo],
    ) -> Result<(), AllocError>
        requires { (s : State)
            × ArePartsAfter (request.Split source tag.now text.now postings.now) s self.old }
        ensures parts { OnOk result ((s : State)
            → ArePartsAfter (request.Split source tag.now text.now postings.now) s self.old
            → PartsOfState self.old (without_postings s) self.new) }
        ensures counts { OnOk result ((s : State) (lost : Lost)
            → ArePartsAfter (request.Split source tag.now text.now postings.now) s self.old
            → AreCountsTakenBack (request.Split source tag.now text.now postings.now) s lost
            self.old self.new) }
    {
        let concept = ResNo::new(self.vocab.resource_count() as u32);
        self.take_back_named(tag, text);
        self.book
            .take_back_moves(source, concept, count_postings(postings))?;
        Ok(())
    }
}
