//! The nodes of a block that are at or above each node. A block has at most 64 nodes. Each node has
//! a word of 64 bits: bit j states whether the j-th node of the block is at or above it. One pass
//! down the hierarchy finds the words of all nodes.
ghost use Rattle.std.specs.Prelude.{◌≡◌, ◌<◌, ◌≤◌, ◌⊎◌, ◌↔◌, ℕ, Contains, OnOk, MatchBool, Some, length, slice_get};
ghost use Rattle.thes_base.specs.Links.{Links};
ghost use Rattle.thes_links.specs.Words.{word_at, HasBit, HasBitsSet};
ghost use Rattle.thes_graph.specs.UpperSets.{AreUpwardRows, AreUpperSets};

use crate::find_cycle::PathNode;
use std::alloc::AllocError;
use thes_base::number::ResNo;
use thes_links::words::{has_bit, set_bits, word_of};

/// The maximum number of nodes in a block: the number of bits in a word.
pub const BLOCK: usize = 64;

// Returns the node's word of 64 bits; 0 if the node is past the end of the words.
fn word_of_node(words: &[u64], n: ResNo) -> u64
    ensures { result ≡ word_at words.now n }
{
    word_of(words, n.get())
}

/// Checks whether bit j of the node's word is set, so that the j-th node of the block is at or
/// above the node.
pub fn is_set(words: &[u64], n: ResNo, j: usize) -> bool
    requires { j < 64 }
    ensures { MatchBool result (HasBit words.now n j) (HasBit words.now n j → ⊥) }
{
    has_bit(words, n.get(), j)
}

// Sets these bits in the node's word of 64 bits, and leaves all other bits as they are.
fn set_bits_of_node(words: &mut Vec<u64>, n: ResNo, bits: u64) -> Result<(), AllocError>
    ensures { OnOk result (HasBitsSet words.old.items words.new.items n bits) }
{
    set_bits(words, n.get(), bits)?;
    Ok(())
}

// Sets the bit of each node of the block in its own word, and clears all other bits.
#[tactic(auto, using(crate::proofs::UpperSetLemmas::bits_started))]
fn start_block(words: &mut Vec<u64>, block: &[ResNo]) -> Result<(), AllocError>
    requires { length block.now ≤ 64 }
    ensures { OnOk result
        ((n j : ℕ) → HasBit words.new.items n j ↔ (slice_get block.now j ≡ Some n)) }
{
    words.clear();
    for (j, n) in block.iter().enumerate() {
        set_bits_of_node(words, *n, 1 << j)?;
    }
    Ok(())
}

// Sets, in the word of the row's node, all bits that are set in the words of its broader nodes.
fn set_bits_above(words: &mut Vec<u64>, row: &PathNode) -> Result<(), AllocError>
    ensures { OnOk result ((m j : ℕ) → HasBit words.new.items m j
        ↔ (HasBit words.old.items m j ⊎ ((row.now.node ≡ m)
        × ((h : ℕ) × Contains row.now.above.items h × HasBit words.old.items h j)))) }
{
    for high in &row.above {
        let bits = word_of_node(words, *high);
        set_bits_of_node(words, row.node, bits)?;
    }
    Ok(())
}

/// Finds the words of all nodes for a block, by one pass over rows in which each node comes after
/// its broader nodes.
#[tactic(auto, using(crate::proofs::UpperSetLemmas::sets_found))]
pub fn find_upper_sets(
    words: &mut Vec<u64>,
    rows: &[PathNode],
    block: &[ResNo],
) -> Result<(), AllocError>
    requires { length block.now ≤ 64 }
    ensures { OnOk result ((held : Links) → AreUpwardRows held rows.now
        → AreUpperSets held block.now words.new.items) }
{
    start_block(words, block)?;
    for row in rows {
        set_bits_above(words, row)?;
    }
    Ok(())
}
