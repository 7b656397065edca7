//! The commits of the workload, by SQL statements on a database, without a storage over it.

use crate::database::commit;
use crate::failure::Failure;
use sqlite::{Alter, Connection};
use std::alloc::Global;
use test_keeper::workload::{CONCEPTS, merge_delta, name_with_number};
use thes_base::number::{PostNo, ResNo};
use thes_base::text::{Key, RecordName};
use thes_tables::change::Change;
use thes_tables::delta::Delta;
use thes_tables::rows::PostingRow;

// Inserts a posting with this number, in a commit of its own.
fn store_posting<S: Alter>(
    alloc: Global,
    conn: &mut Connection<S>,
    number: u32,
    concept: ResNo,
) -> Result<(), Failure> {
    let mut delta = Delta::new(alloc);
    delta.push(Change::AddPosting(PostingRow {
        number: PostNo::new(number.max(1)),
        key: Key::read(alloc, name_with_number(alloc, "k", number)?.as_str())?,
        rec: RecordName::read(alloc, name_with_number(alloc, "r", number)?.as_str())?,
        first: concept,
        place: concept,
        withdrawn: false,
    }))?;
    commit(conn, &delta)
}

/// Inserts the postings 1 to `count`, each in a commit of its own, and assigns them in turn to the
/// concepts 2 to 11.
pub fn store_all<S: Alter>(
    alloc: Global,
    conn: &mut Connection<S>,
    count: u32,
) -> Result<(), Failure> {
    for made in 0..count {
        let concept = ResNo::new(2 + made % CONCEPTS);
        store_posting(alloc, conn, made.wrapping_add(1), concept)?;
    }
    Ok(())
}

/// Moves all postings from the source to the target in one commit, which also adds `posts` / 10
/// rows of moves.
pub fn store_merge<S: Alter>(
    alloc: Global,
    conn: &mut Connection<S>,
    source: ResNo,
    target: ResNo,
    posts: u32,
) -> Result<(), Failure> {
    let delta = merge_delta(alloc, source, target, posts / CONCEPTS)?;
    commit(conn, &delta)
}
