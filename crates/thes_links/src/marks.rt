//! Marks of nodes by number, a bit for each, which replace a linear search in long lists of nodes.
ghost use Rattle.std.specs.Prelude.{◌≡◌, ◌++◌, ◌∷◌, [], ℕ, MatchBool, OnErr, OnOk};
ghost use Rattle.thes_links.specs.NodeSet.{mark_at, AreMarked, IsNodeSet, IsOneMore, HasSharedBit};

use crate::words::{has_bit, set_bits};
use std::alloc::AllocError;
use thes_base::number::ResNo;

/// The length up to which a list of nodes is searched linearly, without marks.
pub const MOST_UNMARKED: usize = 16;

/// Checks whether the node is marked; nodes past the end of the marks aren't.
#[inline(always)]
pub fn has_mark(marks: &[u64], n: ResNo) -> bool
    ensures { result ≡ mark_at marks.now n }
{
    let number = n.get();
    has_bit(marks, number / 64, (number % 64) as usize)
}

/// Checks whether the node's bit is set in the word; nodes whose numbers are equal modulo 64 share
/// a bit.
#[inline(always)]
pub fn has_shared_bit(word: u64, n: ResNo) -> bool
    ensures { MatchBool result (HasSharedBit word n) (HasSharedBit word n → ⊥) }
{
    (word >> (n.get() % 64)) & 1 == 1
}

/// Returns the word with the node's bit also set.
#[inline(always)]
pub fn with_shared_bit(word: u64, n: ResNo) -> u64
    ensures new { HasSharedBit result n }
    ensures old { (m : ℕ) → HasSharedBit word m → HasSharedBit result m }
{
    word | 1 << (n.get() % 64)
}

// Marks the node, and extends the marks if they end before it.
#[inline(always)]
fn mark(marks: &mut Vec<u64>, n: ResNo) -> Result<(), AllocError>
    ensures ok { OnOk result (IsOneMore marks.old.items marks.new.items n) }
    ensures err { OnErr result (marks.new.items ≡ marks.old.items) }
{
    let number = n.get();
    set_bits(marks, number / 64, 1 << (number % 64))?;
    Ok(())
}

// Marks exactly these nodes, and removes all other marks.
#[cold]
#[inline(never)]
fn mark_all(marks: &mut Vec<u64>, nodes: &[ResNo]) -> Result<(), AllocError>
    ensures { OnOk result (AreMarked nodes.now marks.new.items) }
{
    marks.clear();
    for n in nodes {
        mark(marks, *n)?;
    }
    Ok(())
}

/// Updates the marks for a list to which the node `n` is to be appended; a list of at most
/// `MOST_UNMARKED` nodes needs none.
#[inline(always)]
pub fn mark_more(marks: &mut Vec<u64>, list: &[ResNo], n: ResNo) -> Result<(), AllocError>
    requires { IsNodeSet list.now marks.old.items }
    ensures ok { OnOk result (IsNodeSet (list.now ++ n ∷ []) marks.new.items) }
    ensures err { OnErr result (IsNodeSet list.now marks.new.items) }
{
    if list.len() < MOST_UNMARKED {
        return Ok(());
    }
    if list.len() == MOST_UNMARKED {
        mark_all(marks, list)?;
    }
    mark(marks, n)
}
