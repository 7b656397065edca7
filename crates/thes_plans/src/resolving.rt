//! The replacement of a request's references by the numbers in the answers to earlier requests.
ghost use Rattle.std.specs.Prelude.{◌≡◌, IfOk};
ghost use Rattle.thes_base.specs.Resources.{entry_at};
ghost use Rattle.thes_plans.specs.Resolving.{answer_number, reference_of, resolved_command, resolved_number, resolved_numbers};

use crate::plan::PlanRequest;
use std::alloc::{AllocError, Global};
use thes_base::number::Number;
use thes_base::request::{Answer, Command, PostNos};

// Returns the number that a request made or found; 0 if its answer has none.
fn number_of_answer(answer: &Answer) -> u32
    ensures { result ≡ answer_number answer.now }
{
    match answer {
        Answer::Number(number) | Answer::Again(number) | Answer::Parted(number, _) => *number,
        Answer::Done | Answer::Moved(_) | Answer::No(_) => 0,
    }
}

// Returns the answer to the request at the place (from 1), if there is one.
fn answer_at(answers: &[Answer], place: u32) -> Option<Answer>
    ensures { result ≡ entry_at answers.now place }
{
    answers.get((place as usize).checked_sub(1)?).copied()
}

// Returns the number to which the reference refers; `own` if there is no reference, or no answer
// with a number for it.
fn number_for<S>(answers: &[Answer], reference: Option<u32>, own: Number<S>) -> Number<S>
    ensures { result ≡ resolved_number answers.now reference own }
{
    let Some(place) = reference else {
        return own;
    };
    let Some(answer) = answer_at(answers, place) else {
        return own;
    };
    match Number::from_u32(number_of_answer(&answer)) {
        Some(number) => number,
        None => own,
    }
}

// Returns the reference at an index; `None` for a number without one, and beyond the end of the
// list.
fn reference_at(references: &[Option<u32>], index: usize) -> Option<u32>
    ensures { result ≡ reference_of references.now index }
{
    match references.get(index) {
        Some(reference) => *reference,
        None => None,
    }
}

// Returns the numbers of the postings that a request lists, with each reference replaced.
#[tactic(auto, using(crate::proofs::ResolvingLemmas::replaced_more, crate::proofs::ResolvingLemmas::replaced_all))]
fn postings_for(
    alloc: Global,
    answers: &[Answer],
    references: &[Option<u32>],
    own: &PostNos,
) -> Result<PostNos, AllocError>
    ensures { IfOk result
        (λ numbers. numbers ≡ resolved_numbers answers.now references.now own.now) }
{
    let mut numbers = PostNos::new(alloc);
    for (index, number) in own.as_slice().iter().enumerate() {
        let reference = reference_at(references, index);
        numbers.push(number_for(answers, reference, *number))?;
    }
    Ok(numbers)
}

/// Returns the command of a plan's request, with each reference replaced by the number in the
/// answer to the request that it names. `answers` are those to the requests before this one. If
/// they have no number for a reference, the command's own number stays. Texts are moved, not
/// copied.
pub fn resolve(alloc: Global, answers: &[Answer], asked: PlanRequest) -> Result<Command, AllocError>
    ensures { IfOk result (λ command. command ≡ resolved_command answers.now asked) }
{
    let PlanRequest {
        command,
        first,
        second,
        postings,
    } = asked;
    Ok(match command {
        Command::Concept(scheme, tag, text) => {
            Command::Concept(number_for(answers, first, scheme), tag, text)
        }
        Command::Collection(scheme, tag, text) => {
            Command::Collection(number_for(answers, first, scheme), tag, text)
        }
        Command::AddLabel(owner, label) => {
            Command::AddLabel(number_for(answers, first, owner), label)
        }
        Command::DropLabel(owner, label) => {
            Command::DropLabel(number_for(answers, first, owner), label)
        }
        Command::Relabel(owner, tag, text, keep) => {
            Command::Relabel(number_for(answers, first, owner), tag, text, keep)
        }
        Command::Link(kind, a, b) => Command::Link(
            kind,
            number_for(answers, first, a),
            number_for(answers, second, b),
        ),
        Command::Unlink(kind, a, b) => Command::Unlink(
            kind,
            number_for(answers, first, a),
            number_for(answers, second, b),
        ),
        Command::Deprecate(concept) => Command::Deprecate(number_for(answers, first, concept)),
        Command::Merge(source, target) => Command::Merge(
            number_for(answers, first, source),
            number_for(answers, second, target),
        ),
        Command::Split(source, tag, text, own) => {
            let listed = postings_for(alloc, answers, postings.as_slice(), &own)?;
            Command::Split(number_for(answers, first, source), tag, text, listed)
        }
        Command::Post(key, rec, concept) => {
            Command::Post(key, rec, number_for(answers, first, concept))
        }
        Command::Withdraw(posting) => Command::Withdraw(number_for(answers, first, posting)),
        Command::Scheme(..) | Command::Outside(_) => command,
    })
}
