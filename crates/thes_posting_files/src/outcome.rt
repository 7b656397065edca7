//! The outcome of a row, and its line in a report.
ghost use Rattle.std.specs.Prelude.{◌≡◌, ◌≤◌, ◌+◌, ◌++◌, [], ◌∷◌, List, Option, IfNone, IfSome, length};
ghost use Rattle.std.specs.Prelude.{vec_capacity, vec_len};
ghost use Rattle.thes_base.specs.declared.fault.FormFault.{FormFault};
ghost use Rattle.thes_posting_files.specs.Outcomes.{outcome_line, outcome_number, outcome_word, outcomes_of};

use itoa::Buffer;
use thes_base::fault::FormFault;
use thes_base::request::Answer;

/// The outcome of a row: the office's answer, or the row's own form fault.
#[derive(Clone, Copy, Debug, PartialEq, Eq)]
pub enum Outcome {
    /// The office's answer to a row that is a posting.
    Reply(Answer),
    /// The fault of a row that isn't a posting.
    Bad(FormFault),
}

impl Outcome {
    // Returns the keyword of the outcome: `new`, `again`, or the name of the refusal or of the form
    // fault; empty for an answer that a post never has.
    fn word(self) -> &'static str
        ensures word { result.now ≡ outcome_word self }
        ensures short { length result.now ≤ 16 }
    {
        match self {
            Outcome::Reply(Answer::Number(_)) => "new",
            Outcome::Reply(Answer::Again(_)) => "again",
            Outcome::Reply(Answer::No(refusal)) => refusal.name(),
            Outcome::Reply(Answer::Done | Answer::Moved(_) | Answer::Parted(..)) => "",
            Outcome::Bad(fault) => fault.name(),
        }
    }

    // Returns the number of the posting that the row added or repeats; None for any other row.
    fn number(self) -> Option<u32>
        ensures { result ≡ outcome_number self }
    {
        match self {
            Outcome::Reply(Answer::Number(n) | Answer::Again(n)) => Some(n),
            _ => None,
        }
    }

    /// Appends the line of the outcome: row number, keyword and posting's number; allocates
    /// nothing.
    pub(crate) fn push_line(self, row: usize, text: &mut Vec<u8>)
        requires { vec_len text.old + LINE_LIMIT ≤ vec_capacity text.old }
        ensures items { text.new.items ≡ text.old.items ++ outcome_line row self }
        ensures len { vec_len text.new ≤ vec_len text.old + LINE_LIMIT }
        ensures room { vec_capacity text.old ≤ vec_capacity text.new }
    {
        push_text(text, Buffer::new().format(row));
        push_text(text, ",");
        push_text(text, self.word());
        push_text(text, ",");
        if let Some(number) = self.number() {
            push_text(text, Buffer::new().format(number));
        }
        push_text(text, "\n");
    }
}

// Returns the outcome of the next row, and the answers left for later rows. The outcome is the
// row's fault, or else (the row is a posting) the first answer; None if there is no answer.
pub(crate) fn next_outcome(
    fault: Option<FormFault>,
    answers: &[Answer],
) -> Option<(Outcome, &[Answer])>
    ensures none { IfNone result ((faults : List (Option FormFault))
        → outcomes_of (fault ∷ faults) answers.now ≡ []) }
    ensures some { IfSome result (λ next. (faults : List (Option FormFault))
        → outcomes_of (fault ∷ faults) answers.now ≡ next.0 ∷ outcomes_of faults next.1.now) }
{
    match fault {
        Some(fault) => Some((Outcome::Bad(fault), answers)),
        None => {
            if answers.is_empty() {
                return None;
            }
            Some((Outcome::Reply(answers[0]), &answers[1..]))
        }
    }
}

/// An upper bound on the length of a report's line, with its line feed, in bytes.
pub const LINE_LIMIT: usize = 64;

// Appends a part of a report's line, for which the capacity suffices; allocates nothing.
fn push_text(text: &mut Vec<u8>, more: &str)
    requires { vec_len text.old + length more.now ≤ vec_capacity text.old }
    ensures items { text.new.items ≡ text.old.items ++ more.now }
    ensures len { vec_len text.new ≡ vec_len text.old + length more.now }
    ensures room { vec_capacity text.old ≤ vec_capacity text.new }
{
    text.extend_from_slice(more.as_bytes()).unwrap();
}
