//! A hierarchy of a hundred layers, with broader links to the layer above and related links within
//! each layer.
use std::alloc::{AllocError, Global};
use test_devices::numbers::Numbers;
use thes_base::data::{Link, LinkKind};
use thes_base::number::ResNo;
use thes_graph::graph::Graph;

// Adds a link from `a` to `b`, unless they are the same node.
fn add(graph: &mut Graph, kind: LinkKind, a: u32, b: u32) -> Result<(), AllocError> {
    let link = Link {
        kind,
        a: ResNo::new(a.max(1)),
        b: ResNo::new(b.max(1)),
    };
    if link.a != link.b {
        graph.add(&link)?;
    }
    Ok(())
}

// Adds links from the node to random ones: `count` up to the layer above, if there is one, and
// `count` related ones.
fn link_node(
    graph: &mut Graph,
    numbers: &mut Numbers,
    node: u32,
    width: u32,
    count: u32,
) -> Result<(), AllocError> {
    let layer = node / width.max(1);
    let first = layer.wrapping_mul(width).wrapping_add(1);
    let low = node.wrapping_add(1);
    for _ in 0..count {
        if layer > 0 {
            let above = first.wrapping_sub(width);
            let high = above.wrapping_add(numbers.below(width));
            add(graph, LinkKind::Broader, low, high)?;
        }
        let other = first.wrapping_add(numbers.below(width));
        add(graph, LinkKind::Related, low, other)?;
    }
    Ok(())
}

/// Returns a hierarchy of a hundred layers, with up to `count` broader and `count` related links
/// from each node.
pub fn layers(alloc: Global, nodes: u32, count: u32) -> Result<Graph, AllocError> {
    let mut numbers = Numbers(1);
    let width = nodes / 100;
    let mut graph = Graph::new(alloc);
    for node in 0..nodes {
        link_node(&mut graph, &mut numbers, node, width, count)?;
    }
    Ok(graph)
}
