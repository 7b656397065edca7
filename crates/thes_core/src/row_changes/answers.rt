//! The answers to accepted requests, and the verdicts on these requests.
ghost use Rattle.std.specs.Prelude.{◌≡◌, IfOk, List, false};
ghost use Rattle.thes_base.specs.declared.data.History.{History};
ghost use Rattle.thes_base.specs.Machine.{answer_of};
ghost use Rattle.thes_core.specs.CoreDecisions.{IsVerdict, VerdictMayApply};
ghost use Rattle.thes_core.specs.Requests.{PartsAccept, AreMatching, MayChange};
ghost use Rattle.thes_core.specs.PartsView.{parts_view, setting_of, parts_state};
ghost use Rattle.thes_post.specs.PostingCounts.{ArePostingCounts};

use crate::facts::Facts;
use crate::named_postings::count_postings;
use crate::thesaurus::Thesaurus;
use crate::verdict::Verdict;
use std::alloc::AllocError;
use thes_base::request::{Answer, Command};

impl Thesaurus {
    // Returns the answer to an accepted request: a new number, the number of postings moved, both,
    // or neither.
    fn answer(&self, command: &Command) -> Answer
        requires { MayChange self.now command.now }
        ensures { (histories : List History) → PartsAccept self.now histories command.now
            → ArePostingCounts histories self.now.book
            → result ≡ answer_of command.now (parts_state self.now histories) }
    {
        match command {
            Command::Scheme(_, _)
            | Command::Concept(_, _, _)
            | Command::Collection(_, _, _)
            | Command::Outside(_) => Answer::Number(self.next_resource_number().get()),
            Command::AddLabel(_, _)
            | Command::DropLabel(_, _)
            | Command::Relabel(_, _, _, _)
            | Command::Link(_, _, _)
            | Command::Unlink(_, _, _)
            | Command::Deprecate(_)
            | Command::Withdraw(_) => Answer::Done,
            Command::Merge(source, _) => Answer::Moved(self.book.count(*source) as u32),
            Command::Split(_, _, _, postings) => {
                Answer::Parted(
                    self.next_resource_number().get(),
                    count_postings(postings.as_slice()),
                )
            }
            Command::Post(_, _, _) => Answer::Number(self.book.accepted().saturating_add(1)),
        }
    }

    // Returns the verdict on an accepted request: its answer and its changes of rows.
    pub(crate) fn accepted(&self, command: &Command, facts: &Facts) -> Result<Verdict, AllocError>
        requires { MayChange self.now command.now }
        ensures ok { IfOk result (λ verdict. (histories : List History)
            → AreMatching self.now command.now facts.now histories
            → IsVerdict (setting_of self.now)
            (parts_state self.now histories) command.now verdict) }
        ensures may { IfOk result (VerdictMayApply (parts_view self.now false) command.now) }
    {
        let answer = self.answer(command);
        let changes = self.changes(command, facts)?;
        Ok(Verdict::Accepted(answer, changes))
    }
}
