//! The check of S27 in all links: whether one of two related concepts is above the other. The check
//! splits the related concepts into blocks: one pass down the hierarchy serves all concepts of a
//! block, as bits of a word (DECISIONS.md, Links).
ghost use Rattle.std.specs.Prelude.{◌≡◌, ◌<◌, ◌≤◌, ◌++◌, ℕ, Contains, OnOk, IfOk, MatchBool, length};
ghost use Rattle.thes_base.specs.declared.data.Link.{Link};
ghost use Rattle.thes_base.specs.Links.{Holds, S27};
ghost use Rattle.thes_links.specs.declared.relation.Relation.TheVariants as relation;
ghost use Rattle.thes_links.specs.Reading.{HaveTwoEnds, AreAll};
ghost use Rattle.thes_links.specs.Words.{HasBit};
ghost use Rattle.thes_graph.specs.UpperSets.{AreUpwardRows, AreBlockWords};
ghost use Rattle.thes_links.specs.Steps.{HasDirection};
ghost use Rattle.thes_graph.specs.Whole.{IsWholeOrder, KeepsS27Below, BreaksS27};

use crate::find_cycle::{PathNode, path_node_at};
use crate::upper_sets::{BLOCK, find_upper_sets, is_set};
use std::alloc::{AllocError, Global};
use thes_base::data::Link;
use thes_base::number::ResNo;
use thes_links::links::Links;
use thes_links::nodes::Nodes;
use thes_links::relation::{Relation, has_direction};
use thes_links::walk::next_nodes;

// Reads the broader nodes of each node of `order`, in the order of that list.
fn read_upward_rows<L: Links>(
    alloc: Global,
    links: &mut L,
    order: &Nodes,
) -> Result<Vec<PathNode>, AllocError>
    requires { IsWholeOrder (Holds (L.net links.old).links) order.now }
    ensures net { L.net links.new ≡ L.net links.old }
    ensures rows { IfOk result (λ rows. AreUpwardRows (L.net links.old).links rows.items) }
{
    let mut rows = Vec::new(alloc);
    for n in order.as_slice() {
        let row = path_node_at(alloc, links, *n)?;
        rows.push(row)?;
    }
    Ok(rows)
}

// Appends the ends of a related link or related match, unless they are there; does nothing for
// other links.
fn meet_related(nodes: &mut Nodes, link: &Link) -> Result<(), AllocError>
    ensures extends { OnOk result ((n : ℕ) → Contains nodes.old n → Contains nodes.new n) }
    ensures ends { OnOk result (HasDirection relation.Related link.now
        → Contains nodes.new link.now.a × Contains nodes.new link.now.b) }
{
    if !has_direction(Relation::Related, link) {
        return Ok(());
    }
    nodes.meet(link.a)?;
    nodes.meet(link.b)?;
    Ok(())
}

// Collects the nodes at the ends of related links and related matches, each once.
fn related_nodes(alloc: Global, all: &[Link]) -> Result<Nodes, AllocError>
    ensures { IfOk result (λ nodes. (l : Link) → Contains all.now l
        → HasDirection relation.Related l → Contains nodes l.a × Contains nodes l.b) }
{
    let mut nodes = Nodes::none(alloc);
    for link in all {
        meet_related(&mut nodes, link)?;
    }
    Ok(nodes)
}

// Checks whether bit j is set in the word of at least one of the nodes.
fn some_has_bit(words: &[u64], nodes: &[ResNo], j: usize) -> bool
    requires { j < 64 }
    ensures { MatchBool result ((n : ℕ) × Contains nodes.now n × HasBit words.now n j)
        ((n : ℕ) → Contains nodes.now n → HasBit words.now n j → ⊥) }
{
    for n in nodes {
        if is_set(words, *n, j) {
            return true;
        }
    }
    false
}

// Checks whether some concept of the block is related to one below it. Bit j of a node's word
// states whether the j-th concept of the block is at or above the node.
fn some_breaks_s27<L: Links>(
    alloc: Global,
    links: &mut L,
    words: &[u64],
    block: &[ResNo],
) -> Result<bool, AllocError>
    requires words { AreBlockWords (L.net links.old).links block.now words.now }
    requires two_ends { HaveTwoEnds (Holds (L.net links.old).links) }
    ensures net { L.net links.new ≡ L.net links.old }
    ensures s27 { IfOk result (λ found. MatchBool found (BreaksS27 (Holds (L.net links.old).links))
        ((n : ℕ) → Contains block.now n → KeepsS27Below (Holds (L.net links.old).links) n)) }
{
    for (j, n) in block.iter().enumerate() {
        let related = next_nodes(alloc, links, Relation::Related, *n)?;
        if some_has_bit(words, &related, j) {
            return Ok(true);
        }
    }
    Ok(false)
}

// Splits the nodes into the first block, of at most 64, and the nodes after it.
fn split_block(nodes: &[ResNo]) -> (&[ResNo], &[ResNo])
    ensures size { length result.0.now ≤ 64 }
    ensures whole { result.0.now ++ result.1.now ≡ nodes.now }
    ensures less { 0 < length nodes.now → length result.1.now < length nodes.now }
{
    nodes.split_at(nodes.len().min(BLOCK))
}

// Checks whether one of the nodes is related to a node below it.
fn some_block_breaks_s27<L: Links>(
    alloc: Global,
    links: &mut L,
    rows: &[PathNode],
    nodes: &[ResNo],
) -> Result<bool, AllocError>
    requires rows { AreUpwardRows (L.net links.old).links rows.now }
    requires two_ends { HaveTwoEnds (Holds (L.net links.old).links) }
    ensures net { L.net links.new ≡ L.net links.old }
    ensures s27 { IfOk result (λ found. MatchBool found (BreaksS27 (Holds (L.net links.old).links))
        ((n : ℕ) → Contains nodes.now n → KeepsS27Below (Holds (L.net links.old).links) n)) }
{
    let mut words = Vec::new(alloc);
    let mut rest = nodes;
    'passes: while !rest.is_empty() {
        let (block, more) = split_block(rest);
        find_upper_sets(&mut words, rows, block)?;
        if some_breaks_s27(alloc, links, &words, block)? {
            return Ok(true);
        }
        rest = more;
    }
    Ok(false)
}

/// Checks whether one of two related concepts is above the other (SKOS S27). The list `all` has
/// exactly the links, and `order` the ends of all links, each node after all nodes broader than it.
pub fn breaks_s27<L: Links>(
    alloc: Global,
    links: &mut L,
    all: &[Link],
    order: &Nodes,
) -> Result<bool, AllocError>
    requires all { AreAll (L.net links.old).links all.now }
    requires whole { IsWholeOrder (Holds (L.net links.old).links) order.now }
    ensures net { L.net links.new ≡ L.net links.old }
    ensures s27 { IfOk result (λ found. MatchBool found (BreaksS27 (Holds (L.net links.old).links))
        (S27 (Holds (L.net links.old).links))) }
{
    let related = related_nodes(alloc, all)?;
    if related.as_slice().is_empty() {
        return Ok(false);
    }
    let rows = read_upward_rows(alloc, links, order)?;
    let found = some_block_breaks_s27(alloc, links, &rows, related.as_slice())?;
    Ok(found)
}
