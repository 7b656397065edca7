//! The depth-first search for a cycle of broader links. A node is done once all nodes above it are
//! done: then no cycle runs through it, and no search from it is needed again.
ghost use Rattle.std.specs.Prelude.{◌≡◌, ◌↔◌, ◌++◌, ◌∷◌, [], ℕ, Contains, IfOk};
ghost use Rattle.thes_base.specs.Links.{Holds, IsNarrower};
ghost use Rattle.thes_graph.specs.CycleSearch.{IsUpwardOrder, IsCycleSearch, IsSearchStep, IsSearchFrom};

use std::alloc::{AllocError, Global};
use thes_base::number::ResNo;
use thes_links::links::Links;
use thes_links::nodes::Nodes;
use thes_links::relation::Relation;
use thes_links::walk::next_nodes;

/// A node on the stack of the search for a cycle, with those of its broader nodes that are still to
/// be searched from.
#[derive(Drop)]
pub struct PathNode {
    pub node: ResNo,
    pub above: Vec<ResNo>,
}

/// Returns the node with all its broader nodes, as the search for a cycle pushes it.
pub fn path_node_at<L: Links>(
    alloc: Global,
    links: &mut L,
    n: ResNo,
) -> Result<PathNode, AllocError>
    ensures net { L.net links.new ≡ L.net links.old }
    ensures node { IfOk result (λ stop. stop.node ≡ n) }
    ensures above { IfOk result (λ stop. (h : ℕ)
        → Contains stop.above.items h ↔ IsNarrower (Holds (L.net links.old).links) n h) }
{
    let above = next_nodes(alloc, links, Relation::Broader, n)?;
    Ok(PathNode { node: n, above })
}

// A search for a cycle: the nodes met, and the stack of those on the path to the last one.
#[derive(Drop)]
struct PathSearch {
    nodes: Nodes,
    stack: Vec<PathNode>,
}

// Advances the search by one broader node of `last`, the node popped from the stack. If the broader
// node is done, removes it from the list of `last`; if it is new, pushes it above `last`; otherwise
// it closes a cycle. If the list is empty, `last` is done. Returns whether a cycle was found.
fn advance_path<L: Links>(
    alloc: Global,
    links: &mut L,
    search: &mut PathSearch,
    done: &mut Nodes,
    mut last: PathNode,
) -> Result<bool, AllocError>
    requires { IsCycleSearch (Holds (L.net links.old).links) search.old.nodes done.old
        (search.old.stack.items ++ last ∷ []) }
    ensures net { L.net links.new ≡ L.net links.old }
    ensures outcome { IfOk result
        (IsSearchStep (Holds (L.net links.old).links) search.old.nodes done.old
        (search.old.stack.items ++ last ∷ []) search.new.nodes done.new search.new.stack.items) }
{
    let Some(high) = last.above.last().copied() else {
        done.meet(last.node)?;
        return Ok(false);
    };
    if done.has(high) {
        last.above.pop();
        search.stack.push(last)?;
        return Ok(false);
    }
    if search.nodes.has(high) {
        return Ok(true);
    }
    search.nodes.meet(high)?;
    let next = path_node_at(alloc, links, high)?;
    search.stack.push(last)?;
    search.stack.push(next)?;
    Ok(false)
}

/// Searches for a cycle of broader links through the node or above it, unless the node is done, and
/// returns whether there is one. If there is none, appends the node to those that are done, after
/// all nodes broader than it.
pub fn find_cycle<L: Links>(
    alloc: Global,
    links: &mut L,
    start: ResNo,
    done: &mut Nodes,
) -> Result<bool, AllocError>
    requires { IsUpwardOrder (Holds (L.net links.old).links) done.old }
    ensures net { L.net links.new ≡ L.net links.old }
    ensures outcome { IfOk result
        (IsSearchFrom (Holds (L.net links.old).links) start done.old done.new) }
{
    if done.has(start) {
        return Ok(false);
    }
    let nodes = Nodes::singleton(alloc, start)?;
    let first = path_node_at(alloc, links, start)?;
    let stack = vec![in alloc; first]?;
    let mut search = PathSearch { nodes, stack };
    while let Some(last) = search.stack.pop() {
        if advance_path(alloc, links, &mut search, done, last)? {
            return Ok(true);
        }
    }
    Ok(false)
}
