//! Look-ups in a storage of any kind, and the load of all its rows.

use crate::failure::Failure;
use std::alloc::Global;
use test_keeper::workload::name_with_number;
use thes_base::fault::{Fault, Table};
use thes_base::number::PostNo;
use thes_base::text::Key;
use thes_store::keeper::Keeper;
use thes_store::sink::RowSink;
use thes_tables::cells::Cell;

// Checks whether there is a posting with the key `k` and this number.
fn is_found<K: Keeper>(alloc: Global, keeper: &mut K, number: u32) -> Result<bool, Failure> {
    let key = Key::read(alloc, name_with_number(alloc, "k", number)?.as_str())?;
    Ok(keeper.find(&key)?.is_some())
}

/// Looks up keys of the first `posts` postings, `count` times, and returns how often one was found.
pub fn find_all<K: Keeper>(
    alloc: Global,
    keeper: &mut K,
    posts: u32,
    count: u32,
) -> Result<u32, Failure> {
    let mut found = 0u32;
    for i in 0..count {
        let number = i.wrapping_mul(7919) % posts.max(1);
        if is_found(alloc, keeper, number.wrapping_add(1))? {
            found = found.wrapping_add(1);
        }
    }
    Ok(found)
}

// Looks up a posting by its number, and returns the number of its moves.
fn count_moves<K: Keeper>(keeper: &mut K, number: PostNo) -> Result<usize, Failure> {
    match keeper.posting(number)? {
        Some(posting) => Ok(posting.moves.as_slice().len()),
        None => Ok(0),
    }
}

/// Looks up the first `posts` postings by number, `count` times, and returns how many moves they
/// have in all.
pub fn count_all_moves<K: Keeper>(
    keeper: &mut K,
    posts: u32,
    count: u32,
) -> Result<usize, Failure> {
    let mut moves = 0usize;
    for i in 0..count {
        let number = i.wrapping_mul(7919) % posts.max(1);
        moves = moves.wrapping_add(count_moves(keeper, PostNo::new(number.max(1)))?);
    }
    Ok(moves)
}

/// A sink that counts the rows that it receives.
#[derive(Drop)]
pub struct Counter {
    pub rows: u64,
}

impl RowSink for Counter {
    ghost gives = { λ old row result new. Unit {0} };

    fn row(&mut self, _table: Table, _row: &[Cell]) -> Result<(), Fault> {
        self.rows = self.rows.wrapping_add(1);
        Ok(())
    }

    fn report_unqueried(&mut self, _table: Table) -> Result<(), Fault> {
        Ok(())
    }
}

/// Loads all rows, and returns their number.
pub fn load_all<K: Keeper>(keeper: &mut K) -> Result<u64, Failure> {
    let mut counter = Counter { rows: 0 };
    keeper.load(&mut counter)?;
    Ok(counter.rows)
}
