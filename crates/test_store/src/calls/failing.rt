//! Calls of a storage in memory, one of which fails.
use crate::calls::answers::{
    answers, assign_report, find_report, load_report, numbers_report, posting_report, row_report,
    standing_report,
};
use std::alloc::Global;
use std::fmt::Write;
use test_keeper::fail_once::{FailOnce, Next};
use test_keeper::failure::Failure;
use test_keeper::workload::{merge, post_all};
use thes_base::number::{PostNo, ResNo};
use thes_base::text::Base;
use thes_store::keeper::Keeper;
use thes_store::mem::MemKeeper;

/// Returns a storage with ten postings, assigned to the concepts 2 to 11; the first was then moved
/// to concept 3.
pub fn filled_keeper(alloc: Global) -> Result<MemKeeper, Failure> {
    let mut keeper = MemKeeper::new(alloc, Base::read(alloc, "http://example.org/")?);
    post_all(alloc, &mut keeper, 10)?;
    merge(alloc, &mut keeper, 10, 1)?;
    Ok(keeper)
}

// Makes a call of this kind, and returns its result as a text.
fn call_report(alloc: Global, keeper: &mut FailOnce, kind: Next) -> Result<String, Failure> {
    match kind {
        Next::Nothing => Ok(String::new(alloc)),
        Next::Load => load_report(alloc, keeper),
        Next::Commit => assign_report(alloc, keeper, PostNo::new(1)),
        Next::Find => find_report(alloc, keeper, "k2"),
        Next::Posting => posting_report(alloc, keeper, PostNo::new(1)),
        Next::Row => row_report(alloc, keeper, PostNo::new(1)),
        Next::Standing => standing_report(alloc, keeper, ResNo::new(3)),
        Next::StandingNumbers => numbers_report(alloc, keeper, ResNo::new(3)),
    }
}

/// Reports a failing call of this kind: its result, whether the storage is unchanged, the result of
/// the same call made again, the postings at concept 3 after that, and the count of failures after
/// each call.
///
/// The storage is dropped in one place, since a function that drops it at each `?` is slow to
/// prove.
pub fn fail_once_report(alloc: Global, next: Next) -> Result<String, Failure> {
    let mut keeper = FailOnce {
        keeper: filled_keeper(alloc)?,
        next: Next::Nothing,
        failures: 0,
    };
    let report = fail_once_lines(alloc, &mut keeper, next);
    drop(keeper);
    report
}

// Makes the failing call and the calls after it, and returns their results as lines.
fn fail_once_lines(alloc: Global, keeper: &mut FailOnce, next: Next) -> Result<String, Failure> {
    let before = answers(alloc, keeper)?;
    keeper.next = next;
    let mut text = call_report(alloc, keeper, next)?;
    let same = answers(alloc, keeper)? == before;
    writeln!(text, "failures: {}, as before: {same}", keeper.failures())?;
    text.push_str(call_report(alloc, keeper, next)?.as_str())?;
    text.push_str(standing_report(alloc, keeper, ResNo::new(3))?.as_str())?;
    writeln!(text, "failures: {}", keeper.failures())?;
    Ok(text)
}
