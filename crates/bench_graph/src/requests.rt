//! Counts the allocations that are granted after a check, from which
//! `tests/builds/test_count_requests.py` derives how many the check has made.
use std::alloc::{AllocError, Global};
use thes_base::data::{Link, LinkKind};
use thes_base::fault::Refusal;
use thes_base::number::ResNo;
use thes_graph::graph::Graph;
use thes_walks::judge::judge_add;

// Returns the link of this kind from `a` to `b`.
fn link(kind: LinkKind, a: u32, b: u32) -> Link {
    Link {
        kind,
        a: ResNo::new(a.max(1)),
        b: ResNo::new(b.max(1)),
    }
}

// Adds a link from the node up to the one with the next number.
fn add_step(graph: &mut Graph, node: u32) -> Result<(), AllocError> {
    let step = link(LinkKind::Broader, node, node.saturating_add(1));
    if step.a != step.b {
        graph.add(&step)?;
    }
    Ok(())
}

// Returns a graph in which node 3 is above node 2, and the nodes from 5 on are a chain of `further`
// nodes.
fn chain(alloc: Global, further: u32) -> Result<Graph, AllocError> {
    let mut graph = Graph::new(alloc);
    add_step(&mut graph, 2)?;
    for node in 5..further.saturating_add(4) {
        add_step(&mut graph, node)?;
    }
    Ok(graph)
}

// Checks the graph and, if `judged` is true, the link.
fn check_link(
    alloc: Global,
    graph: &Graph,
    link: &Link,
    judged: bool,
) -> Result<Option<Refusal>, AllocError> {
    if link.a == link.b {
        return Ok(Some(Refusal::SameResource));
    }
    match graph.check_whole(alloc)? {
        None if judged => {
            let mut walk = graph.walk();
            judge_add(alloc, &mut walk, link)
        }
        broken => Ok(broken),
    }
}

// Returns the number of allocations that are granted before one fails, at most 1,000,000.
fn count_grants(alloc: Global) -> u32 {
    for granted in 0..1000000 {
        if Vec::<u32>::with_capacity(alloc, 1).is_err() {
            return granted;
        }
    }
    1000000
}

/// Returns the number of allocations granted after a check of a graph and, if `judged` is true, of
/// a related link from 2 to 4 in it. The graph has `further` nodes that are linked to neither.
/// Returns None if the graph or the link breaks a rule.
pub fn grants_after_check(
    alloc: Global,
    further: u32,
    judged: bool,
) -> Result<Option<u32>, AllocError> {
    let graph = chain(alloc, further)?;
    match check_link(alloc, &graph, &link(LinkKind::Related, 2, 4), judged)? {
        None => Ok(Some(count_grants(alloc))),
        Some(_) => Ok(None),
    }
}
