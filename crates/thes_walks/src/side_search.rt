//! A breadth-first search that reads the links on one side of each node, and can pause after each
//! node.
ghost use Rattle.std.specs.Prelude.{◌≡◌, ◌+◌, ◌-◌, ◌≤◌, ◌<◌, ◌^◌, ◌∷◌, [], true, false, List, OnOk, IfOk, MatchBool, length, sum_by, slice_get, option_and_then};
ghost use Rattle.thes_base.specs.declared.data.Link.{Link};
ghost use Rattle.thes_links.specs.declared.edit.LinkEdit.TheVariants.{NoEdit, AfterMerge};
ghost use Rattle.thes_links.specs.declared.relation.Relation.{Relation};
ghost use Rattle.thes_links.specs.declared.side.Side.{Side};
ghost use Rattle.thes_links.specs.Side.{side_in};
ghost use Rattle.thes_links.specs.Steps.{Steps};
ghost use Rattle.thes_links.specs.LinkEdit.{HeldAfter, CoversAt};
ghost use Rattle.thes_walks.specs.SideSearch.{other_end, far_node_after, LeadsWithin, LeadsFrom, IsSearchResult, CoversSide, one_on_side, link_visits, IsHierarchySearch, IsPartAt, HasNextPart, CanFollowAt, CanFollow, CanAdvance, ContinuesSearch, AdvancesByNode};

use std::alloc::{AllocError, Global};
use thes_base::data::Link;
use thes_base::number::ResNo;
use thes_links::edit::LinkEdit;
use thes_links::links::Links;
use thes_links::nodes::Nodes;
use thes_links::relation::{Relation, step};
use thes_links::side::{Part, side_for};

/// The number by which two searches that take turns raise their limit on nodes and links after each
/// turn. Choosing a search at each node costs more than links read in vain (DECISIONS.md, Links).
pub const TURN: usize = 16;

/// A relation between nodes, as links state it after an edit.
#[derive(Clone, Copy)]
pub struct EditedRelation {
    pub edit: LinkEdit,
    pub relation: Relation,
}

// A range of the links held at the node `at`, which lead from `x` after an edit: `x` is `at`, or
// the target of a merge whose source is `at`.
#[derive(Clone, Copy)]
struct LinkRange {
    at: ResNo,
    x: ResNo,
    part: Part,
}

/// A node, with the range of its held links on one side.
#[derive(Clone, Copy)]
pub struct NodePart {
    pub node: ResNo,
    pub part: Part,
}

// A merge, with the range of the links held at its target on one side.
#[derive(Clone, Copy)]
struct MergePart {
    source: ResNo,
    target: ResNo,
    part: Part,
}

/// A breadth-first search: the nodes met so far, and the number of them whose links were read.
#[derive(Drop)]
pub struct SideSearch {
    pub nodes: Nodes,
    pub next: usize,
}

// Returns the other end of a link that has the node as one of its ends.
#[inline(always)]
fn other_end(link: &Link, n: ResNo) -> ResNo
    ensures { result ≡ other_end n link.now }
{
    if link.a == n { link.b } else { link.a }
}

// Returns the node to which a held link at `at` leads from `x` after the edit, where `x` replaces
// `at`; None if a merge drops the link. The link's kind doesn't matter: in the relation of a side,
// all links on that side of a node lead to their other ends.
#[inline(always)]
fn far_node(edit: &LinkEdit, link: &Link, at: ResNo, x: ResNo) -> Option<ResNo>
    ensures { result ≡ far_node_after edit.now at x link.now }
{
    let end = other_end(link, at);
    match edit {
        LinkEdit::NoEdit => Some(end),
        LinkEdit::WithLink(_) => Some(end),
        LinkEdit::AfterMerge(source, target) => {
            let y = if end == *source { *target } else { end };
            if y == x { None } else { Some(y) }
        }
    }
}

// Reads the i-th link at the node `at`, and returns the node to which it leads from `x` after the
// edit, if any.
#[inline(always)]
fn step_at_place<L: Links>(
    links: &mut L,
    edit: &LinkEdit,
    at: ResNo,
    x: ResNo,
    i: usize,
) -> Option<ResNo>
    ensures net { L.net links.new ≡ L.net links.old }
    ensures far { result ≡ option_and_then (far_node_after edit.now at x)
        (slice_get (L.links_of (L.net links.old) at) i) }
    ensures count { L.count links.new ≤ L.count links.old + 1 }
{
    let link = links.link_at(at, i)?;
    far_node(edit, &link, at, x)
}

// Adds the node `next`, if there is one, to `nodes`, unless it is a goal of the search. Returns
// whether it is a goal.
#[inline(always)]
fn take(nodes: &mut Nodes, next: Option<ResNo>, goals: &Nodes) -> Result<bool, AllocError>
    ensures { IfOk result
        (λ found. IsSearchResult found nodes.old nodes.new goals.now (λ y. next ≡ Some y)) }
{
    let Some(y) = next else {
        return Ok(false);
    };
    if goals.has(y) {
        return Ok(true);
    }
    nodes.meet(y)?;
    Ok(false)
}

// Adds to `nodes` each node to which a link of this range leads after the edit. Stops at the first
// goal of the search, without adding it, and returns whether there is one.
#[inline(always)]
fn follow_part<L: Links>(
    links: &mut L,
    nodes: &mut Nodes,
    edit: &LinkEdit,
    range: LinkRange,
    goals: &Nodes,
) -> Result<bool, AllocError>
    ensures net { L.net links.new ≡ L.net links.old }
    ensures finds { IfOk result (λ found. IsSearchResult found nodes.old nodes.new goals.now
        (LeadsWithin (far_node_after edit.now range.at range.x)
        (L.links_of (L.net links.old) range.at) range.part.from range.part.to)) }
    ensures count { L.count links.new
        ≤ L.count links.old + (range.part.to - range.part.from) }
{
    for i in range.part.from..range.part.to {
        let next = step_at_place(links, edit, range.at, range.x, i);
        if take(nodes, next, goals)? {
            return Ok(true);
        }
    }
    Ok(false)
}

/// Returns the range of the node's held links that lie on the side of the relation, without reading
/// them.
#[inline(always)]
pub fn part_along<L: Links>(links: &L, relation: Relation, n: ResNo) -> Part
    ensures { IsPartAt (L.net links.now).links (L.links_of (L.net links.now) n) n (side_in relation)
        result }
{
    links.part(n, side_for(relation))
}

// Adds to `nodes` each node to which a link of this range leads after the edit. Stops at the first
// goal of the search, without adding it, and returns whether there is one. If the range has the
// links on the side of a relation, they lead to the nodes to which `range.x` leads in that
// relation.
#[inline(always)]
fn follow<L: Links>(
    links: &mut L,
    nodes: &mut Nodes,
    edit: &LinkEdit,
    range: LinkRange,
    goals: &Nodes,
) -> Result<bool, AllocError>
    ensures net { L.net links.new ≡ L.net links.old }
    ensures finds { IfOk result (λ found. (relation : Relation)
        → CanFollowAt edit.now (L.net links.old).links (L.links_of (L.net links.old) range.at)
        relation range.at range.x range.part → IsSearchResult found nodes.old nodes.new goals.now
        (LeadsFrom edit.now (L.net links.old).links relation range.at range.x)) }
    ensures bound { L.count links.new
        ≤ L.count links.old + (range.part.to - range.part.from) }
    ensures count { OnOk result ((side : Side)
        → IsPartAt (L.net links.old).links (L.links_of (L.net links.old) range.at) range.at side
        range.part
        → (ns : List Link) → CoversSide (L.net links.old).links range.at side ns
        → L.count links.new ≤ L.count links.old + sum_by (one_on_side range.at side) ns) }
{
    let found = follow_part(links, nodes, edit, range, goals)?;
    Ok(found)
}

// Adds to `nodes` each node to which the target of a merge leads in the relation after the merge.
// Stops at the first goal of the search, without adding it, and returns whether there is one. Reads
// the links held at the target in the range `merge.part`, and then those held at the source on the
// side of the relation.
#[inline(never)]
fn follow_merged<L: Links>(
    links: &mut L,
    nodes: &mut Nodes,
    relation: Relation,
    merge: MergePart,
    goals: &Nodes,
) -> Result<bool, AllocError>
    requires { CanFollow (AfterMerge merge.source merge.target) (L.net links.old).links
        (L.links_of (L.net links.old)) relation merge.target merge.part }
    ensures net { L.net links.new ≡ L.net links.old }
    ensures finds { IfOk result (λ found. IsSearchResult found nodes.old nodes.new goals.now
        (Steps relation (HeldAfter (AfterMerge merge.source merge.target) (L.net links.old).links)
        merge.target)) }
    ensures count { OnOk result ((ns : List Link)
        → CoversAt (AfterMerge merge.source merge.target) (L.net links.old).links merge.target ns
        → L.count links.new ≤ L.count links.old + sum_by
        (link_visits (AfterMerge merge.source merge.target) merge.target (side_in relation)) ns) }
{
    let edit = LinkEdit::AfterMerge(merge.source, merge.target);
    let range = LinkRange {
        at: merge.target,
        x: merge.target,
        part: merge.part,
    };
    if follow(links, nodes, &edit, range, goals)? {
        return Ok(true);
    }
    let more = part_along(links, relation, merge.source);
    let moved = LinkRange {
        at: merge.source,
        x: merge.target,
        part: more,
    };
    let found = follow(links, nodes, &edit, moved, goals)?;
    Ok(found)
}

/// Adds to `nodes` each node to which `from.node` leads in the relation after the edit. Stops at
/// the first goal, without adding it, and returns whether there is one. The range `from.part` has
/// the node's held links on the side of the relation.
#[inline(always)]
pub fn follow_after_edit<L: Links>(
    links: &mut L,
    nodes: &mut Nodes,
    along: &EditedRelation,
    from: NodePart,
    goals: &Nodes,
) -> Result<bool, AllocError>
    requires { CanFollow along.now.edit (L.net links.old).links (L.links_of (L.net links.old))
        along.now.relation from.node from.part }
    ensures net { L.net links.new ≡ L.net links.old }
    ensures finds { IfOk result (λ found. IsSearchResult found nodes.old nodes.new goals.now
        (Steps along.now.relation (HeldAfter along.now.edit (L.net links.old).links) from.node)) }
    ensures count { OnOk result
        ((ns : List Link) → CoversAt along.now.edit (L.net links.old).links from.node ns
        → L.count links.new ≤ L.count links.old
        + sum_by (link_visits along.now.edit from.node (side_in along.now.relation)) ns) }
{
    let range = LinkRange {
        at: from.node,
        x: from.node,
        part: from.part,
    };
    match &along.edit {
        LinkEdit::NoEdit => {
            let found = follow(links, nodes, &along.edit, range, goals)?;
            Ok(found)
        }
        LinkEdit::WithLink(new) => {
            if follow(links, nodes, &along.edit, range, goals)? {
                return Ok(true);
            }
            let found = take(nodes, step(along.relation, new, from.node), goals)?;
            Ok(found)
        }
        LinkEdit::AfterMerge(source, target) => {
            if from.node == *source {
                return Ok(false);
            }
            if from.node == *target {
                let merge = MergePart {
                    source: *source,
                    target: *target,
                    part: from.part,
                };
                let found = follow_merged(links, nodes, along.relation, merge, goals)?;
                return Ok(found);
            }
            let found = follow(links, nodes, &along.edit, range, goals)?;
            Ok(found)
        }
    }
}

impl SideSearch {
    /// Starts a search at the node, which is met but not yet read.
    pub fn start(alloc: Global, start: ResNo) -> Result<SideSearch, AllocError>
        ensures nodes { IfOk result (λ side_search. side_search.nodes ≡ start ∷ []) }
        ensures unread { IfOk result (λ side_search. side_search.next ≡ 0) }
    {
        let nodes = Nodes::singleton(alloc, start)?;
        Ok(SideSearch { nodes, next: 0 })
    }

    /// Checks whether the links of all nodes met were read, so that the search is at its end.
    #[inline(always)]
    pub fn is_done(&self) -> bool
        ensures done { MatchBool result (length self.now.nodes ≤ self.now.next)
            (self.now.next < length self.now.nodes) }
        ensures small { length self.now.nodes < 2 ^ 63 }
    {
        self.nodes.as_slice().len() <= self.next
    }

    /// Reads the links that lead from the next node in the relation after the edit; `part` is the
    /// range of those held at the node. Adds each node to which they lead to those met, stops at
    /// the first goal, without adding it, and returns whether there is one.
    #[inline(always)]
    pub fn advance<L: Links>(
        &mut self,
        links: &mut L,
        along: &EditedRelation,
        part: Part,
        goals: &Nodes,
    ) -> Result<bool, AllocError>
        requires { CanAdvance along.now.edit (L.net links.old).links
            (L.links_of (L.net links.old)) along.now.relation self.old part }
        ensures net { L.net links.new ≡ L.net links.old }
        ensures advances { IfOk result (AdvancesByNode along.now.edit (L.net links.old).links
            along.now.relation goals.now self.old self.new
            (L.count links.new - L.count links.old)) }
    {
        let x = self.nodes.as_slice()[self.next];
        let from = NodePart { node: x, part };
        let found = follow_after_edit(links, &mut self.nodes, along, from, goals)?;
        self.next += 1;
        Ok(found)
    }

    /// Returns the range of the next node's held links on the side of the relation, without reading
    /// them; an empty range if there is no next node.
    #[inline(always)]
    pub fn next_part<L: Links>(&self, links: &L, relation: Relation) -> Part
        ensures { HasNextPart (L.net links.now).links (L.links_of (L.net links.now)) relation
            self.now result }
    {
        match self.nodes.get(self.next) {
            Some(x) => part_along(links, relation, x),
            None => Part { from: 0, to: 0 },
        }
    }

    /// Reads this range of the next node's held links, without an edit. Adds each node to which
    /// they lead to those met, stops at the first goal, without adding it, and returns whether
    /// there is one.
    #[inline(always)]
    pub fn advance_at<L: Links>(
        &mut self,
        links: &mut L,
        part: Part,
        goals: &Nodes,
    ) -> Result<bool, AllocError>
        requires { self.old.next < length self.old.nodes }
        ensures net { L.net links.new ≡ L.net links.old }
        ensures count { L.count links.new ≤ L.count links.old + (part.to - part.from) }
        ensures advances { IfOk result (λ found. (relation : Relation)
            → CanAdvance NoEdit (L.net links.old).links (L.links_of (L.net links.old)) relation
            self.old part → AdvancesByNode NoEdit (L.net links.old).links relation goals.now
            self.old self.new (part.to - part.from) found) }
    {
        let x = self.nodes.as_slice()[self.next];
        let edit = LinkEdit::NoEdit;
        let range = LinkRange { at: x, x, part };
        let found = follow(links, &mut self.nodes, &edit, range, goals)?;
        self.next += 1;
        Ok(found)
    }

    /// Advances the search until all nodes are read, one leads to a goal, or the number of nodes
    /// met and of the next node's links on the side of the relation exceeds `limit`. Returns
    /// whether a goal is found.
    pub fn advance_to<L: Links>(
        &mut self,
        links: &mut L,
        along: &EditedRelation,
        goals: &Nodes,
        limit: usize,
    ) -> Result<bool, AllocError>
        requires { IsHierarchySearch along.now.edit along.now.relation }
        ensures net { L.net links.new ≡ L.net links.old }
        ensures done { IfOk result (λ found. found ≡ false → limit ≡ 2 ^ 64 - 1
            → length self.new.nodes ≤ self.new.next) }
        ensures continues { IfOk result (ContinuesSearch along.now.edit (L.net links.old).links
            along.now.relation goals.now self.old self.new
            (L.count links.new - L.count links.old)) }
    {
        'reading: while !self.is_done() {
            let part = self.next_part(links, along.relation);
            if limit < self.nodes.as_slice().len().saturating_add(part.size()) {
                return Ok(false);
            }
            if self.advance(links, along, part, goals)? {
                return Ok(true);
            }
        }
        Ok(false)
    }

    /// Advances the search until all nodes are read or one leads to a goal. Returns whether a goal
    /// is found.
    pub fn finish<L: Links>(
        &mut self,
        links: &mut L,
        along: &EditedRelation,
        goals: &Nodes,
    ) -> Result<bool, AllocError>
        requires { IsHierarchySearch along.now.edit along.now.relation }
        ensures net { L.net links.new ≡ L.net links.old }
        ensures done { IfOk result
            (λ found. found ≡ false → length self.new.nodes ≤ self.new.next) }
        ensures continues { IfOk result (ContinuesSearch along.now.edit (L.net links.old).links
            along.now.relation goals.now self.old self.new
            (L.count links.new - L.count links.old)) }
    {
        let found = self.advance_to(links, along, goals, usize::MAX)?;
        Ok(found)
    }
}
