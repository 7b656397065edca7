//! Facts on the postings that a request concerns. They come from the storage, since the core has
//! only counts.
ghost use Rattle.std.specs.Prelude.{◌≡◌, None, [], IfSome, IfNone};
ghost use Rattle.std.specs.Option.{option_copied};
ghost use Rattle.thes_base.specs.Machine.{HasNewKey, IsKnownKeyAnswer};
ghost use Rattle.thes_base.specs.State.{State};
ghost use Rattle.thes_core.specs.Facts.{AreFacts};
ghost use Rattle.thes_core.specs.NamedPostings.{first_named_posting};

use std::alloc::Global;
use thes_base::fault::Refusal;
use thes_base::number::PostNo;
use thes_base::request::{Answer, Command};
use thes_tables::rows::PostingRow;

/// The facts on postings that the decision on a request needs, as the storage reports them. They
/// are passed in, so that no device can make the core fail (DECISIONS.md, The core).
#[derive(Debug, Drop)]
pub struct Facts {
    /// For a Post, the posting with its key, if there is one.
    pub known: Option<PostingRow>,
    /// For a Withdraw or a Split, the postings that it lists, in the order of its list; `None` for
    /// an unknown one.
    pub named_postings: Vec<Option<PostingRow>>,
    /// For a Merge, the numbers of the postings assigned to its source, in ascending order.
    pub standing: Vec<PostNo>,
}

impl Facts {
    /// Creates facts without postings, for a request that concerns none.
    pub fn new(alloc: Global) -> Facts
        ensures known { result.known ≡ None }
        ensures named_postings { result.named_postings.items ≡ [] }
        ensures standing { result.standing.items ≡ [] }
    {
        Facts {
            known: None,
            named_postings: Vec::new(alloc),
            standing: Vec::new(alloc),
        }
    }

    // Returns the answer to a Post with a known key; None for other requests.
    pub(crate) fn known_answer(&self, command: &Command) -> Option<Answer>
        ensures some { IfSome result (λ answer. (state : State)
            → AreFacts command.now state.histories self.now
            → IsKnownKeyAnswer command.now state answer) }
        ensures none { IfNone result ((state : State)
            → AreFacts command.now state.histories self.now → HasNewKey command.now state) }
    {
        let Command::Post(_, rec, concept) = command else {
            return None;
        };
        let row = self.known.as_ref()?;
        if row.rec == *rec && row.first == *concept {
            Some(Answer::Again(row.number.get()))
        } else {
            Some(Answer::No(Refusal::KeyReused))
        }
    }

    // Returns the row of the first posting that the request lists; None if it lists none, or if
    // that posting is unknown.
    pub(crate) fn first(&self) -> Option<&PostingRow>
        ensures { option_copied result ≡ first_named_posting self.now.named_postings.items }
    {
        self.named_postings.first()?.as_ref()
    }
}
