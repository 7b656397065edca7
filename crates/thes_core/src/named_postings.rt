//! Checks of the postings that a Split or a Withdraw lists.
ghost use Rattle.std.specs.Prelude.{◌≡◌, ◌<◌, ◌^◌, IfOk, List, [], ◌∷◌, length, map};
ghost use Rattle.thes_base.specs.declared.data.History.{History};
ghost use Rattle.thes_base.specs.RefusalRules.{accepted};
ghost use Rattle.thes_base.specs.Refusals.{EachOnce};
ghost use Rattle.thes_base.specs.RuleParts.{unless_split_postings, unless_assigned};
ghost use Rattle.thes_core.specs.Facts.{posting_row_at};

use crate::facts::Facts;
use std::alloc::{AllocError, Global};
use thes_base::fault::Refusal;
use thes_base::number::{PostNo, ResNo};
use thes_post::rising::is_each_once;
use thes_tables::rows::PostingRow;

/// Returns the number of postings that a Split lists or a Merge moves, at most `u32::MAX`.
pub fn count_postings(postings: &[PostNo]) -> u32
    ensures { length postings.now < 2 ^ 32 → result ≡ length postings.now }
{
    if postings.len() < 1 << 32 {
        postings.len() as u32
    } else {
        u32::MAX
    }
}

/// Checks by the facts whether the posting that a Withdraw names is known and not yet withdrawn.
pub fn check_withdraw(posting: PostNo, facts: &Facts) -> Option<Refusal>
    ensures { (histories : List History)
        → facts.now.named_postings.items ≡ posting_row_at histories posting ∷ []
        → unless_assigned histories posting accepted result }
{
    match facts.first() {
        None => Some(Refusal::UnknownPosting),
        Some(row) if row.withdrawn => Some(Refusal::Withdrawn),
        Some(_) => None,
    }
}

/// Checks whether the listed postings may move from the source: none is listed twice, and all are
/// known, not withdrawn and assigned to it. Each condition is checked for the whole list before the
/// next one.
pub fn check_listed(
    alloc: Global,
    source: ResNo,
    postings: &[PostNo],
    named_postings: &[Option<PostingRow>],
) -> Result<Option<Refusal>, AllocError>
    ensures { IfOk result (λ refusal. (histories : List History)
        → named_postings.now ≡ map (posting_row_at histories) postings.now
        → unless_split_postings histories source postings.now accepted refusal) }
{
    if !is_each_once(alloc, postings)? {
        return Ok(Some(Refusal::ListedTwice));
    }
    Ok(check_named(source, postings, named_postings))
}

// Checks whether the postings, each listed once, are known, not withdrawn and assigned to the
// source.
fn check_named(
    source: ResNo,
    postings: &[PostNo],
    named_postings: &[Option<PostingRow>],
) -> Option<Refusal>
    requires { EachOnce postings.now }
    ensures { (histories : List History)
        → named_postings.now ≡ map (posting_row_at histories) postings.now
        → unless_split_postings histories source postings.now accepted result }
{
    let mut withdrawn = false;
    let mut elsewhere = false;
    for row in named_postings {
        match row {
            None => return Some(Refusal::UnknownPosting),
            Some(row) => {
                withdrawn |= row.withdrawn;
                elsewhere |= row.place != source;
            }
        }
    }
    if withdrawn {
        Some(Refusal::Withdrawn)
    } else if elsewhere {
        Some(Refusal::NotAtSource)
    } else {
        None
    }
}
