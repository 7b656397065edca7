//! Builds graphs of links and checks them, for `bench/graph` to time.
//!
//! Arguments: `ladder` or `tree`, the number of nodes and the width, or `layers`, the number of
//! nodes, and of broader and of related links from each; with a further argument `made`, nothing is
//! checked. Or `levels`, the number of nodes, the number of links to check, and `merges` to check
//! merges in place of related links. For `tests/builds/test_count_requests.py`: `requests`, the
//! number of further nodes, and `judged` to check a link.
#![tactic(auto)]

mod layers;
mod levels;
mod requests;

use crate::layers::layers;
use crate::levels::count_refused;
use crate::requests::grants_after_check;
use std::alloc::{AllocError, Global};
use std::process::ExitCode;
use std::rt::Env;
use thes_base::data::{Link, LinkKind};
use thes_base::fault::Refusal;
use thes_base::number::ResNo;
use thes_graph::graph::Graph;

// Adds a link from `a` up to the broader node `b`.
fn add(graph: &mut Graph, a: u32, b: u32) -> Result<(), AllocError> {
    let link = Link {
        kind: LinkKind::Broader,
        a: ResNo::new(a.max(1)),
        b: ResNo::new(b.max(1)),
    };
    if link.a != link.b {
        graph.add(&link)?;
    }
    Ok(())
}

// Adds links from a node up to the `width` nodes after it.
fn link_to_following(
    graph: &mut Graph,
    node: u32,
    nodes: u32,
    width: u32,
) -> Result<(), AllocError> {
    for step in 0..width {
        add(
            graph,
            node,
            node.saturating_add(step).saturating_add(1).min(nodes),
        )?;
    }
    Ok(())
}

// Adds links from each node up to the `width` nodes after it, or as many as there are, which makes
// the deepest graph of that width.
fn ladder(graph: &mut Graph, nodes: u32, width: u32) -> Result<(), AllocError> {
    for node in 1..nodes {
        link_to_following(graph, node, nodes, width)?;
    }
    Ok(())
}

// Adds a link from each node but the last up to the node whose number is its own divided by
// `width`, rounded down, or to node 1 if that is 0.
fn tree(graph: &mut Graph, nodes: u32, width: u32) -> Result<(), AllocError> {
    for node in 1..nodes {
        add(graph, node, node / width.max(1))?;
    }
    Ok(())
}

// Returns the number in the argument at this index, or 1 if the argument is missing or no number.
fn number(words: &[String], place: usize) -> u32 {
    match words.get(place) {
        Some(word) => ResNo::read(word.as_str()).map_or(1, ResNo::get),
        None => 1,
    }
}

// Builds the graph that the arguments describe, and returns the first rule that it breaks.
fn first_broken_rule(alloc: Global, words: &[String]) -> Result<Option<Refusal>, AllocError> {
    let (nodes, width) = (number(words, 2), number(words, 3));
    let mut graph = Graph::new(alloc);
    match words.get(1) {
        Some(shape) if shape.as_str() == "tree" => tree(&mut graph, nodes, width)?,
        Some(shape) if shape.as_str() == "layers" => graph = layers(alloc, nodes, width)?,
        _ => ladder(&mut graph, nodes, width)?,
    }
    if has_argument(words, 4, "made") {
        return Ok(None);
    }
    graph.check_whole(alloc)
}

// Checks whether the argument at this index is the wanted one.
fn has_argument(words: &[String], place: usize, wanted: &str) -> bool {
    match words.get(place) {
        Some(word) => word.as_str() == wanted,
        None => false,
    }
}

// Prints the number of allocations granted after the check, and returns the exit status 0, or 1 if
// the graph or the link breaks a rule.
fn print_left<R: Print + Alloc<A = Global>>(rt: &R, words: &[String]) -> Result<u8, AllocError> {
    match grants_after_check(
        rt.alloc(),
        number(words, 2),
        has_argument(words, 3, "judged"),
    )? {
        Some(left) => {
            let _ = println!(rt; "{left}");
            Ok(0)
        }
        None => Ok(1),
    }
}

// Runs the benchmark that the arguments name, and returns the exit status: 1 if the graph or the
// link checked breaks a rule, or else 0; for `levels` always 0.
fn obey<R: Env + Print + Alloc<A = Global>>(rt: &R) -> Result<u8, AllocError> {
    let alloc = rt.alloc();
    let Ok(args) = std::env::args(rt) else {
        return Err(AllocError);
    };
    let words: Vec<String> = args.collect(alloc)?;
    if has_argument(words.as_slice(), 1, "requests") {
        return print_left(rt, words.as_slice());
    }
    if has_argument(words.as_slice(), 1, "levels") {
        let merges = has_argument(words.as_slice(), 4, "merges");
        let _ = count_refused(
            alloc,
            number(words.as_slice(), 2),
            number(words.as_slice(), 3),
            merges,
        )?;
        return Ok(0);
    }
    match first_broken_rule(alloc, words.as_slice())? {
        None => Ok(0),
        Some(_) => Ok(1),
    }
}

fn main(rt: HostRuntime) -> ExitCode {
    ExitCode::from(obey(&rt).unwrap_or(3))
}
