//! What an accepted request removes from the state, or adds to it, without naming it in its
//! arguments: what is needed to take the request back.
ghost use Rattle.std.specs.Prelude.{◌≡◌, ◌<◌, ◌^◌, ℕ, [], IfOk, length};
ghost use Rattle.thes_base.specs.declared.request.Command.TheVariants as request;
ghost use Rattle.thes_base.specs.State.{State};
ghost use Rattle.thes_base.specs.Refusals.{Setting};
ghost use Rattle.thes_base.specs.Postings.{assigned_count};
ghost use Rattle.thes_core.specs.CoreDecisions.{IsAccepted};
ghost use Rattle.thes_core.specs.Facts.{AreFacts};
ghost use Rattle.thes_core.specs.Losses.{IsLostFromParts, IsLostFromPostings, IsMergeLoss};
ghost use Rattle.thes_core.specs.PartsView.{parts_state};
ghost use Rattle.thes_core.specs.Requests.{MayChange, PartsAccept};

use crate::facts::Facts;
use crate::named_postings::count_postings;
use crate::thesaurus::Thesaurus;
use std::alloc::AllocError;
use thes_base::data::{Label, Link};
use thes_base::number::ResNo;
use thes_base::request::Command;
use thes_base::text::Text;

/// What a merge removes from the state, or adds to it, without naming it in its arguments.
#[derive(Debug, Drop)]
pub struct MergeLoss {
    /// The links of the source.
    pub links: Vec<Link>,
    /// The links that are held after the merge, and weren't before.
    pub additions: Vec<Link>,
    /// The labels that are copied to the target.
    pub copies: Vec<Label>,
    /// The number of postings that move.
    pub moves: u32,
}

/// What an accepted request removes from the state, or adds to it, without naming it in its
/// arguments, as far as taking the request back needs it.
#[derive(Debug, Drop)]
pub enum Lost {
    /// Nothing, since the request names all that it changes.
    Nothing,
    /// The concept to which a withdrawn posting was assigned.
    Place(ResNo),
    /// The text of a preferred label that was replaced.
    Preferred(Text),
    /// The links of a concept that was deprecated.
    Links(Vec<Link>),
    /// What a merge changed, in a box, so that the other losses take little memory.
    Merge(Box<MergeLoss>),
}

// Returns the place of the posting that a Withdraw names; `Nothing` if the facts don't have the
// posting.
fn lost_place(facts: &Facts) -> Lost
    ensures { (posting : ℕ) (setting : Setting) (s : State)
        → IsAccepted setting s (request.Withdraw posting)
        → AreFacts (request.Withdraw posting) s.histories facts.now
        → IsLostFromPostings (request.Withdraw posting) s result }
{
    match facts.first() {
        Some(row) => Lost::Place(row.place),
        None => Lost::Nothing,
    }
}

impl Thesaurus {
    // Returns the links and labels that a merge removes or adds, and the number of postings that it
    // moves.
    fn lost_by_merge(
        &self,
        source: ResNo,
        target: ResNo,
        facts: &Facts,
    ) -> Result<MergeLoss, AllocError>
        requires { PartsAccept self.now [] (request.Merge source target) }
        ensures parts { IfOk result (IsMergeLoss source target (parts_state self.now [])) }
        ensures moves { IfOk result (λ loss. (s : State)
            → AreFacts (request.Merge source target) s.histories facts.now
            → length s.histories < 2 ^ 32 → loss.moves ≡ assigned_count source s.histories) }
    {
        let copies = self.vocab.missing_labels(source, target)?;
        let links = self.links_at(source)?;
        let additions = self.graph.merge_additions(source, target)?;
        Ok(MergeLoss {
            links,
            additions,
            copies,
            moves: count_postings(facts.standing.as_slice()),
        })
    }

    // Returns what an accepted request removes from the state, or adds to it, without naming it in
    // its arguments.
    pub(crate) fn lost_by(&self, command: &Command, facts: &Facts) -> Result<Lost, AllocError>
        requires { MayChange self.now command.now }
        ensures parts { IfOk result (IsLostFromParts command.now (parts_state self.now [])) }
        ensures postings { IfOk result (λ lost. (setting : Setting) (s : State)
            → IsAccepted setting s command.now → AreFacts command.now s.histories facts.now
            → IsLostFromPostings command.now s lost) }
    {
        match command {
            Command::Withdraw(_) => Ok(lost_place(facts)),
            Command::Relabel(owner, tag, _, _) => match self.vocab.preferred(*owner, tag) {
                Some(old) => Ok(Lost::Preferred(old.try_clone(self.alloc)?)),
                None => Ok(Lost::Nothing),
            },
            Command::Deprecate(concept) => Ok(Lost::Links(self.links_at(*concept)?)),
            Command::Merge(source, target) => {
                let loss = self.lost_by_merge(*source, *target, facts)?;
                Ok(Lost::Merge(Box::new(self.alloc, loss)?))
            }
            _ => Ok(Lost::Nothing),
        }
    }
}
