//! The results of the calls of a storage in memory and, for each kind of call, the results when one
//! such call fails.
mod answers;
mod failing;

use crate::calls::answers::answers;
use crate::calls::failing::{fail_once_report, filled_keeper};
use std::alloc::Global;
use std::io;
use test_keeper::fail_once::Next;
use test_keeper::failure::Failure;

// Returns the results of all calls, and then those with one failing call of each kind.
fn full_report(alloc: Global) -> Result<String, Failure> {
    let mut keeper = filled_keeper(alloc)?;
    let text = answers(alloc, &mut keeper);
    drop(keeper);
    let mut text = text?;
    let kinds = [
        Next::Load,
        Next::Find,
        Next::Posting,
        Next::Row,
        Next::Standing,
        Next::StandingNumbers,
        Next::Commit,
    ];
    for next in kinds {
        text.push_str(fail_once_report(alloc, next)?.as_str())?;
    }
    Ok(text)
}

/// Prints the results, or the reason why there are none.
pub fn print_calls<R: Print + Alloc<A = Global>>(rt: &R) -> io::Result<()> {
    match full_report(rt.alloc()) {
        Ok(text) => print!(rt; "{text}"),
        Err(failure) => println!(rt; "{failure:?}"),
    }
}
