//! Collects the nodes reachable from a start node in a relation, and the links at these nodes.
ghost use Rattle.std.specs.Prelude.{◌≡◌, ◌≢◌, ◌↔◌, ◌+◌, ◌*◌, ◌≤◌, ℕ, List, Contains, OnOk, IfOk, MatchBool, length, sum_by};
ghost use Rattle.std.specs.List.{filter_map};
ghost use Rattle.thes_base.specs.declared.data.Link.{Link};
ghost use Rattle.thes_base.specs.Links.{Holds};
ghost use Rattle.thes_links.specs.declared.edit.LinkEdit.TheVariants.{AfterMerge};
ghost use Rattle.thes_links.specs.Reading.{HaveTwoEnds, IsRow};
ghost use Rattle.thes_links.specs.Steps.{Steps, GrowsBy, Ties, step_along};
ghost use Rattle.thes_links.specs.LinkEdit.{HeldAfter, ends_at_node, IsReadOf, CoversAt, IsValidEdit};
ghost use Rattle.thes_links.specs.Rules.{IsReachableSet};

use crate::edit::{LinkEdit, links_after_edit};
use crate::links::Links;
use crate::nodes::Nodes;
use crate::relation::{Relation, direction, step};
use std::alloc::{AllocError, Global};
use thes_base::data::{Direction, Link};
use thes_base::number::ResNo;

// Appends the nodes to which the links lead from `x` in the relation, unless they are there.
fn meet_steps(
    nodes: &mut Nodes,
    links: &[Link],
    relation: Relation,
    x: ResNo,
) -> Result<(), AllocError>
    ensures { OnOk result (GrowsBy nodes.old nodes.new (Steps relation (Contains links.now) x)) }
{
    for link in links {
        match step(relation, link, x) {
            Some(y) => nodes.meet(y)?,
            None => {}
        }
    }
    Ok(())
}

/// Reads all links at the node, in as many visits as it has links.
pub fn fetch<L: Links>(alloc: Global, links: &mut L, node: ResNo) -> Result<Vec<Link>, AllocError>
    ensures net { L.net links.new ≡ L.net links.old }
    ensures two_ends { OnOk result (HaveTwoEnds (Holds (L.net links.old).links)) }
    ensures listed { IfOk result (λ row. IsRow (L.net links.old).links node row.items) }
    ensures count { IfOk result (λ row. L.count links.new ≤ L.count links.old + length row.items) }
{
    let mut row = Vec::new(alloc);
    for i in 0..usize::MAX {
        match links.link_at(node, i) {
            Some(link) => row.push(link)?,
            None => return Ok(row),
        }
    }
    Ok(row)
}

// Returns the nodes to which these links lead from `n` in the relation, with duplicates.
fn nodes_along(
    alloc: Global,
    links: &[Link],
    relation: Relation,
    n: ResNo,
) -> Result<Vec<ResNo>, AllocError>
    ensures { IfOk result
        (λ next. next.items ≡ filter_map (λ l. step_along relation l n) links.now) }
{
    let mut next = Vec::new(alloc);
    for link in links {
        match step(relation, link, n) {
            Some(y) => next.push(y)?,
            None => {}
        }
    }
    Ok(next)
}

/// Returns the nodes to which the held links lead from `n` in the relation, perhaps with
/// duplicates.
pub fn next_nodes<L: Links>(
    alloc: Global,
    links: &mut L,
    relation: Relation,
    n: ResNo,
) -> Result<Vec<ResNo>, AllocError>
    ensures net { L.net links.new ≡ L.net links.old }
    ensures next { IfOk result (λ next. (y : ℕ)
        → Contains next.items y ↔ Steps relation (Holds (L.net links.old).links) n y) }
{
    let row = fetch(alloc, links, n)?;
    let next = nodes_along(alloc, &row, relation, n)?;
    Ok(next)
}

// Reads the held links that will have an end at the node after the edit, as they are before it.
fn read<L: Links>(
    alloc: Global,
    links: &mut L,
    edit: &LinkEdit,
    node: ResNo,
) -> Result<Vec<Link>, AllocError>
    requires { IsValidEdit edit.now }
    ensures net { L.net links.new ≡ L.net links.old }
    ensures read { IfOk result (λ row. IsReadOf edit.now (L.net links.old).links node row.items) }
    ensures count { OnOk result ((ns : List Link)
        → CoversAt edit.now (L.net links.old).links node ns
        → L.count links.new ≤ L.count links.old + sum_by (ends_at_node edit.now node) ns) }
{
    match edit {
        LinkEdit::NoEdit => {
            let row = fetch(alloc, links, node)?;
            Ok(row)
        }
        LinkEdit::WithLink(_) => {
            let row = fetch(alloc, links, node)?;
            Ok(row)
        }
        LinkEdit::AfterMerge(source, target) => {
            let row = read_merged_links(alloc, links, *source, *target, node)?;
            Ok(row)
        }
    }
}

// Reads the held links that will have an end at the node after the merge: none for the source, and
// for the target those at either of the two.
fn read_merged_links<L: Links>(
    alloc: Global,
    links: &mut L,
    source: ResNo,
    target: ResNo,
    node: ResNo,
) -> Result<Vec<Link>, AllocError>
    requires { source ≢ target }
    ensures net { L.net links.new ≡ L.net links.old }
    ensures read { IfOk result
        (λ row. IsReadOf (AfterMerge source target) (L.net links.old).links node row.items) }
    ensures count { OnOk result ((ns : List Link) → CoversAt (AfterMerge source target)
        (L.net links.old).links node ns → L.count links.new
        ≤ L.count links.old + sum_by (ends_at_node (AfterMerge source target) node) ns) }
{
    if node == source {
        return Ok(Vec::new(alloc));
    }
    if node != target {
        let row = fetch(alloc, links, node)?;
        return Ok(row);
    }
    let mut row = fetch(alloc, links, target)?;
    let more = fetch(alloc, links, source)?;
    row.extend_from_slice(&more)?;
    Ok(row)
}

/// The nodes reachable from a start node in a relation, and the links with an end at one of them.
#[derive(Drop)]
pub struct ReachableSet {
    pub nodes: Nodes,
    pub links: Vec<Link>,
}

/// Collects the nodes reachable from `start` in the relation after the edit, `start` included, and
/// the links after the edit that have an end at one of them.
pub fn gather<L: Links>(
    alloc: Global,
    links: &mut L,
    edit: &LinkEdit,
    start: ResNo,
    relation: Relation,
) -> Result<ReachableSet, AllocError>
    requires { IsValidEdit edit.now }
    ensures net { L.net links.new ≡ L.net links.old }
    ensures gathered { IfOk result (λ got. IsReachableSet (HeldAfter edit.now
        (L.net links.old).links) relation start got.nodes got.links.items) }
    ensures count { IfOk result (λ got. (ns : List Link) → ((n : ℕ) → Contains got.nodes n
        → CoversAt edit.now (L.net links.old).links n ns)
        → L.count links.new ≤ L.count links.old + 2 * length ns) }
{
    let mut nodes = Nodes::singleton(alloc, start)?;
    let mut found = Vec::new(alloc);
    let mut i = 0;
    while let Some(x) = nodes.get(i) {
        let raw = read(alloc, links, edit, x)?;
        let row = links_after_edit(alloc, edit, raw)?;
        meet_steps(&mut nodes, &row, relation, x)?;
        found.extend_from_slice(&row)?;
        i += 1;
    }
    Ok(ReachableSet {
        nodes,
        links: found,
    })
}

// Checks whether the link leads from one of `xs` to one of `ys` in the relation.
fn ties(relation: Relation, link: &Link, xs: &Nodes, ys: &Nodes) -> bool
    ensures { MatchBool result (Ties relation link.now xs.now ys.now)
        (Ties relation link.now xs.now ys.now → ⊥) }
{
    match direction(relation, link.kind) {
        Direction::Forward => xs.has(link.a) && ys.has(link.b),
        Direction::Backward => xs.has(link.b) && ys.has(link.a),
        Direction::Either => {
            (xs.has(link.a) && ys.has(link.b)) || (xs.has(link.b) && ys.has(link.a))
        }
        Direction::Never => false,
    }
}

/// Checks whether some link of the list leads from one of `xs` to one of `ys` in the relation.
pub fn has_link_between(relation: Relation, links: &[Link], xs: &Nodes, ys: &Nodes) -> bool
    ensures { MatchBool result ((l : Link) × Contains links.now l × Ties relation l xs.now ys.now)
        ((l : Link) → Contains links.now l → Ties relation l xs.now ys.now → ⊥) }
{
    for link in links {
        if ties(relation, link, xs, ys) {
            return true;
        }
    }
    false
}
