//! Checks of related links and merges in a hierarchy of levels, in which each concept has one or
//! two broader ones, chosen at random, in the level above.
ghost use Rattle.std.specs.Prelude.{◌≡◌};
ghost use Rattle.thes_base.specs.Links.{Holds};
ghost use Rattle.thes_links.specs.Rules.{BreakNone};

use std::alloc::{AllocError, Global};
use test_devices::numbers::Numbers;
use thes_base::data::{Link, LinkKind};
use thes_base::fault::Refusal;
use thes_base::number::ResNo;
use thes_graph::graph::{Graph, Walk};
use thes_walks::judge::{judge_add, judge_contract};

fn link(kind: LinkKind, a: u32, b: u32) -> Link {
    Link {
        kind,
        a: ResNo::new(a.max(1)),
        b: ResNo::new(b.max(1)),
    }
}

// Adds a link from the node up to a random node of the level above.
fn link_to_level_above(
    graph: &mut Graph,
    numbers: &mut Numbers,
    node: u32,
    width: u32,
) -> Result<(), AllocError> {
    let level = node / width.max(1);
    let above = level.saturating_sub(1).wrapping_mul(width);
    let broader = above.wrapping_add(numbers.below(width));
    let new = link(
        LinkKind::Broader,
        node.wrapping_add(1),
        broader.wrapping_add(1),
    );
    if new.a != new.b {
        graph.add(&new)?;
    }
    Ok(())
}

// Returns a graph of twelve levels, in which each node below the first has one or two broader ones.
fn levels(alloc: Global, numbers: &mut Numbers, width: u32) -> Result<Graph, AllocError> {
    let mut graph = Graph::new(alloc);
    for node in width..width.saturating_mul(12) {
        link_to_level_above(&mut graph, numbers, node, width)?;
        link_to_level_above(&mut graph, numbers, node, width)?;
    }
    Ok(graph)
}

// Checks the link, or the merge of its second end into its first, and returns whether it is
// refused, as it is if both ends are one node.
fn is_refused(
    alloc: Global,
    walk: &mut Walk<'_>,
    new: &Link,
    merges: bool,
) -> Result<bool, AllocError>
    requires { BreakNone (Holds walk.old.net.links) }
    ensures { walk.new.net.links ≡ walk.old.net.links }
{
    if new.a == new.b {
        return Ok(true);
    }
    if merges {
        let answer = judge_contract(alloc, walk, new.b, new.a)?;
        return Ok(answer.is_some());
    }
    let answer = judge_add(alloc, walk, new)?;
    Ok(answer.is_some())
}

// Returns a related link between two random nodes of one level. For a merge, the second end is the
// node at the first one's position in the next level.
fn pair(numbers: &mut Numbers, width: u32, merges: bool) -> Link {
    let level = numbers.below(11);
    let a = level
        .wrapping_mul(width)
        .wrapping_add(numbers.below(width))
        .wrapping_add(1);
    let b = level
        .wrapping_mul(width)
        .wrapping_add(numbers.below(width))
        .wrapping_add(1);
    link(
        LinkKind::Related,
        a,
        if merges { a.wrapping_add(width) } else { b },
    )
}

// The checks of a benchmark: `count` random links, or merges, in levels of `width` nodes.
#[derive(Clone, Copy)]
struct Trial {
    width: u32,
    count: u32,
    merges: bool,
}

// Checks random links or merges, and returns the number of refusals.
fn check_random_links(
    alloc: Global,
    walk: &mut Walk<'_>,
    numbers: &mut Numbers,
    trial: Trial,
) -> Result<u32, AllocError>
    requires { BreakNone (Holds walk.old.net.links) }
{
    let mut count_refused = 0u32;
    for _ in 0..trial.count {
        let new = pair(numbers, trial.width, trial.merges);
        if is_refused(alloc, walk, &new, trial.merges)? {
            count_refused = count_refused.wrapping_add(1);
        }
    }
    Ok(count_refused)
}

/// Returns the number of refusals among `count` random related links, or merges, in a hierarchy of
/// twelve levels with `nodes` concepts in all; 0 if the hierarchy breaks a rule.
pub fn count_refused(
    alloc: Global,
    nodes: u32,
    count: u32,
    merges: bool,
) -> Result<u32, AllocError> {
    let mut numbers = Numbers(1);
    let width = nodes / 12;
    let graph = levels(alloc, &mut numbers, width)?;
    match graph.check_whole(alloc)? {
        None => {
            let mut walk = graph.walk();
            let trial = Trial {
                width,
                count,
                merges,
            };
            check_random_links(alloc, &mut walk, &mut numbers, trial)
        }
        Some(_) => Ok(0),
    }
}
