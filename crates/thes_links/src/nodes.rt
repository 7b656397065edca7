//! The nodes that a search has met, in the order in which it met them, with fast look-up.
ghost use Rattle.std.specs.Prelude.{◌≡◌, ◌<◌, ◌^◌, ◌∷◌, [], Contains, IfOk, OnOk, MatchBool, length, slice_get};
ghost use Rattle.thes_links.specs.Steps.{GrowsBy};

use crate::marks::{MOST_UNMARKED, has_mark, has_shared_bit, mark_more, with_shared_bit};
use std::alloc::{AllocError, Global};
use std::marker::Model;
use thes_base::number::ResNo;

// The number of nodes for which a search makes room when it starts, so that most searches allocate
// their list once.
const USUAL: usize = 64;

/// The distinct nodes that a search has met, in the order in which it met them. A long list also
/// has marks for fast look-up, made anew for each search (DECISIONS.md, Links).
#[derive(Drop)]
pub struct Nodes {
    list: Vec<ResNo>,
    marks: Vec<u64>,
    // A word in which the bit of each node met is set; several nodes may share a bit. A node whose
    // bit isn't set wasn't met.
    bits: u64,
}

impl Model for Nodes {
    ghost use Rattle.std.specs.Prelude.{List, ℕ};
    ghost use Rattle.thes_links.specs.NodeSet.{IsNodeSet, HasSharedBits};

    ghost Value = { List ℕ };

    ghost view = { λ a. a.list.items };

    ghost invariant = { λ a. IsNodeSet a.list.items a.marks.items
        × HasSharedBits a.list.items a.bits };
}

impl Nodes {
    /// Creates an empty list without allocating.
    pub fn none(alloc: Global) -> Nodes
        ensures { result ≡ [] }
    {
        Nodes {
            list: Vec::new(alloc),
            marks: Vec::new(alloc),
            bits: 0,
        }
    }

    /// Creates a list of one node, from which a search starts.
    #[tactic(auto, using(crate::proofs::NodeSetLemmas::shared_bits_push))]
    pub fn singleton(alloc: Global, start: ResNo) -> Result<Nodes, AllocError>
        ensures { IfOk result (λ nodes. nodes ≡ start ∷ []) }
    {
        let mut list = Vec::new(alloc);
        list.reserve(USUAL)?;
        list.push(start)?;
        Ok(Nodes {
            list,
            marks: Vec::new(alloc),
            bits: with_shared_bit(0, start),
        })
    }

    /// Returns the nodes in the order in which they were met.
    #[inline(always)]
    pub fn as_slice(&self) -> &[ResNo]
        ensures { result.now ≡ self.now }
    {
        self.list.as_slice()
    }

    /// Returns the i-th node that was met, counted from 0.
    #[inline(always)]
    pub fn get(&self, i: usize) -> Option<ResNo>
        ensures node { result ≡ slice_get self.now i }
        ensures small { length self.now < 2 ^ 63 }
    {
        self.list.get(i).copied()
    }

    // Checks whether the node was met, by its bit and a search of the list.
    #[inline(always)]
    fn is_listed(&self, n: ResNo) -> bool
        ensures { MatchBool result (Contains self.now n) (Contains self.now n → ⊥) }
    {
        if !has_shared_bit(self.bits, n) {
            return false;
        }
        self.list.contains(&n)
    }

    /// Checks whether the node was met, in constant time.
    #[inline(always)]
    pub fn has(&self, n: ResNo) -> bool
        ensures { MatchBool result (Contains self.now n) (Contains self.now n → ⊥) }
    {
        if self.list.len() <= MOST_UNMARKED {
            return self.is_listed(n);
        }
        has_mark(&self.marks, n)
    }

    /// Appends the node, unless it was met before.
    #[inline(always)]
    #[tactic(auto, using(crate::proofs::NodeSetLemmas::shared_bits_push))]
    pub fn meet(&mut self, n: ResNo) -> Result<(), AllocError>
        ensures grows { OnOk result (GrowsBy self.old self.new (λ m. n ≡ m)) }
        ensures small { length self.new < 2 ^ 63 }
    {
        if self.has(n) {
            return Ok(());
        }
        self.list.reserve(1)?;
        mark_more(&mut self.marks, self.list.as_slice(), n)?;
        self.list.push_reserved(n);
        self.bits = with_shared_bit(self.bits, n);
        Ok(())
    }
}
