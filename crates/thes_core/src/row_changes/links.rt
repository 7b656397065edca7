//! The changes of rows that deprecations and merges make.
ghost use Rattle.std.specs.Prelude.{◌≡◌, ◌++◌, IfOk, OnOk, List, [], map};
ghost use Rattle.thes_base.specs.declared.data.History.{History};
ghost use Rattle.thes_base.specs.declared.request.Command.TheVariants as request;
ghost use Rattle.thes_base.specs.Changes.{state_after_deprecation, state_after_merge};
ghost use Rattle.thes_base.specs.Machine.{owned_label};
ghost use Rattle.thes_core.specs.Requests.{PartsAccept, AreMatching};
ghost use Rattle.thes_core.specs.PartsView.{parts_state};
ghost use Rattle.thes_tables.specs.declared.change.Change.TheVariants as change;
ghost use Rattle.thes_tables.specs.Changes.{add_link, drop_link};
ghost use Rattle.thes_tables.specs.ChangeLaw.{AreChangesBetween};

use super::moves::{items_within_numbers, push_moves};
use super::{link_insertion, link_removal, one};
use crate::facts::Facts;
use crate::thesaurus::Thesaurus;
use std::alloc::AllocError;
use thes_base::data::{Label, Link};
use thes_base::number::ResNo;
use thes_tables::change::Change;
use thes_tables::delta::Delta;
use thes_tables::rows::LabelRow;

// Appends to the changes of a request, for each link, the deletion of its row.
fn push_removals(delta: &mut Delta, links: &[Link]) -> Result<(), AllocError>
    ensures { OnOk result (delta.new ≡ delta.old ++ map drop_link links.now) }
{
    for link in links {
        delta.push(link_removal(link))?;
    }
    Ok(())
}

// Appends to the changes of a request, for each link, the insertion of its row.
fn push_insertions(delta: &mut Delta, links: &[Link]) -> Result<(), AllocError>
    ensures { OnOk result (delta.new ≡ delta.old ++ map add_link links.now) }
{
    for link in links {
        delta.push(link_insertion(link))?;
    }
    Ok(())
}

// Appends, for each label, the insertion of its row, as a label of the owner.
fn push_labels(delta: &mut Delta, owner: ResNo, labels: Vec<Label>) -> Result<(), AllocError>
    ensures { let rows = map (owned_label owner) labels.items in
        OnOk result (delta.new ≡ delta.old ++ map change.AddLabel rows) }
{
    for label in labels {
        delta.push(Change::AddLabel(LabelRow { owner, label }))?;
    }
    Ok(())
}

impl Thesaurus {
    // Returns the changes that mark a concept as dead and delete its links.
    #[tactic(auto, using(crate::proofs::DeltaLemmas::deprecated_leads))]
    pub(super) fn changes_of_deprecate(&self, concept: ResNo) -> Result<Delta, AllocError>
        ensures { IfOk result (λ delta. (histories : List History)
            → PartsAccept self.now histories (request.Deprecate concept)
            → AreChangesBetween self.now.vocab.base delta (parts_state self.now histories)
            (state_after_deprecation concept (parts_state self.now histories))) }
    {
        let mut delta = one(self.alloc, Change::Retire(concept))?;
        let gone = self.links_at(concept)?;
        push_removals(&mut delta, gone.as_slice())?;
        Ok(delta)
    }

    // Returns the changes of a merge: labels are copied, links are redirected, postings move, and
    // the source dies.
    pub(super) fn changes_of_merge(
        &self,
        source: ResNo,
        target: ResNo,
        facts: &Facts,
    ) -> Result<Delta, AllocError>
        requires { PartsAccept self.now [] (request.Merge source target) }
        ensures { IfOk result (λ delta. (histories : List History)
            → AreMatching self.now (request.Merge source target) facts.now histories
            → AreChangesBetween self.now.vocab.base delta (parts_state self.now histories)
            (state_after_merge source target (parts_state self.now histories))) }
    {
        let mut delta = one(self.alloc, Change::Replace(source, target))?;
        let labels = self.vocab.missing_labels(source, target)?;
        push_labels(&mut delta, target, labels)?;
        let gone = self.links_at(source)?;
        push_removals(&mut delta, gone.as_slice())?;
        let added = self.graph.merge_additions(source, target)?;
        push_insertions(&mut delta, added.as_slice())?;
        delta.push(Change::MoveAll(source, target))?;
        let first = u64::from(self.book.moves()) + 1;
        let standing = items_within_numbers(first, facts.standing.as_slice());
        push_moves(&mut delta, first, source, target, standing)?;
        Ok(delta)
    }
}
