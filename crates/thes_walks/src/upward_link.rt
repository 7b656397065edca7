//! Checks a link from a low node up to a high one by two searches that take turns, up from the high
//! node and down from the low one. The search that ends first has met all nodes of its side; the
//! other one is finished only if a related link may lead from one of these nodes.
ghost use Rattle.std.specs.Prelude.{◌≡◌, ◌+◌, ◌-◌, ◌*◌, ◌^◌, ◌≤◌, ◌<◌, ℕ, true, false, List, Contains, OnOk, IfOk, MatchBool, length};
ghost use Rattle.thes_base.specs.declared.data.Link.{Link};
ghost use Rattle.thes_links.specs.declared.relation.Relation.TheVariants.{Related};
ghost use Rattle.thes_links.specs.declared.side.Side.TheVariants.{Sideways};
ghost use Rattle.thes_links.specs.Steps.{Steps, Reaches};
ghost use Rattle.thes_links.specs.LinkEdit.{HeldAfter, IsValidEdit, CoversAt};
ghost use Rattle.thes_walks.specs.Ends.{IsEnd};
ghost use Rattle.thes_walks.specs.SideSearch.{read_cost, IsHierarchySearch, IsSideSearch, AreAmong, ContinuesInTurn, AreTied, IsSecondResult, IsBrokenBetween, CoversBetween};

use crate::ends::is_end_after;
use crate::side_search::{
    EditedRelation, NodePart, SideSearch, TURN, follow_after_edit, part_along,
};
use std::alloc::{AllocError, Global};
use thes_base::fault::Refusal;
use thes_base::number::ResNo;
use thes_links::edit::LinkEdit;
use thes_links::links::Links;
use thes_links::nodes::Nodes;
use thes_links::relation::Relation;

// Advances the upward search to this limit, and then the downward one, until one is done or they
// meet, and returns whether they have met. The limit is on the number of nodes that a search has
// met and of its next node's links, so that neither search reads a node with many links while the
// other has few to read.
fn take_turns<L: Links>(
    links: &mut L,
    edit: &LinkEdit,
    up: &mut SideSearch,
    down: &mut SideSearch,
    limit: usize,
) -> Result<bool, AllocError>
    requires { IsValidEdit edit.now }
    ensures net { L.net links.new ≡ L.net links.old }
    ensures done { IfOk result (λ met. met ≡ false → limit ≡ 2 ^ 64 - 1
        → length up.new.nodes ≤ up.new.next) }
    ensures continues { IfOk result (ContinuesInTurn edit.now (L.net links.old).links up.old
        down.old up.new down.new (L.count links.old) (L.count links.new)) }
{
    let broader = EditedRelation {
        edit: *edit,
        relation: Relation::Broader,
    };
    if up.advance_to(links, &broader, &down.nodes, limit)? {
        return Ok(true);
    }
    if !up.is_done() {
        let narrower = EditedRelation {
            edit: *edit,
            relation: Relation::Narrower,
        };
        let met = down.advance_to(links, &narrower, &up.nodes, limit)?;
        return Ok(met);
    }
    Ok(false)
}

// Advances the two searches in turns until one is done or they meet, and returns whether they have
// met.
fn search_in_turns<L: Links>(
    links: &mut L,
    edit: &LinkEdit,
    up: &mut SideSearch,
    down: &mut SideSearch,
) -> Result<bool, AllocError>
    requires { IsValidEdit edit.now }
    ensures net { L.net links.new ≡ L.net links.old }
    ensures done { IfOk result (λ met. met ≡ false → up.new.next < length up.new.nodes
        → length down.new.nodes ≤ down.new.next) }
    ensures continues { IfOk result (ContinuesInTurn edit.now (L.net links.old).links up.old
        down.old up.new down.new (L.count links.old) (L.count links.new)) }
{
    let mut limit = TURN;
    'turns: while !up.is_done() && !down.is_done() {
        if take_turns(links, edit, up, down, limit)? {
            return Ok(true);
        }
        limit = limit.saturating_add(TURN);
    }
    Ok(false)
}

// Returns true only if no related link leads from any of the nodes after the edit. Reads no link,
// so a false result decides nothing.
fn have_none<L: Links>(links: &L, edit: &LinkEdit, xs: &Nodes) -> bool
    ensures { result ≡ true → (x : ℕ) → Contains xs.now x
        → IsEnd Related (HeldAfter edit.now (L.net links.now).links) x }
{
    for x in xs.as_slice() {
        if !is_end_after(links, edit, *x, Relation::Related) {
            return false;
        }
    }
    true
}

// Checks whether a related link joins one of `xs` to one of `ys` after the edit.
fn are_tied<L: Links>(
    alloc: Global,
    links: &mut L,
    edit: &LinkEdit,
    xs: &Nodes,
    ys: &Nodes,
) -> Result<bool, AllocError>
    requires { IsValidEdit edit.now }
    ensures net { L.net links.new ≡ L.net links.old }
    ensures tied { IfOk result
        (λ found. MatchBool found (AreTied edit.now (L.net links.old).links xs.now ys.now)
        (AreTied edit.now (L.net links.old).links xs.now ys.now → ⊥)) }
    ensures count { OnOk result ((ns : List Link)
        → ((n : ℕ) → Contains xs.now n → CoversAt edit.now (L.net links.old).links n ns)
        → L.count links.new ≤ L.count links.old + read_cost edit.now Sideways xs.now ns) }
{
    let mut met = Nodes::none(alloc);
    for x in xs.as_slice() {
        let related = EditedRelation {
            edit: *edit,
            relation: Relation::Related,
        };
        let part = part_along(links, Relation::Related, *x);
        let from = NodePart { node: *x, part };
        if follow_after_edit(links, &mut met, &related, from, ys)? {
            return Ok(true);
        }
    }
    Ok(false)
}

// Returns which of Cycle and S27 would be broken, if any; `ended` has all nodes that the first
// search could reach. Finishes the other search only if a related link may lead from one of these
// nodes.
fn check_second_search<L: Links>(
    alloc: Global,
    links: &mut L,
    along: &EditedRelation,
    ended: &Nodes,
    other: &mut SideSearch,
) -> Result<Option<Refusal>, AllocError>
    requires { IsHierarchySearch along.now.edit along.now.relation }
    ensures net { L.net links.new ≡ L.net links.old }
    ensures rest { IfOk result (λ answer. (kept : List ℕ) (start read : ℕ)
        → AreAmong kept ended.now
        → IsSideSearch along.now.edit (L.net links.old).links along.now.relation kept start
        other.old read
        → IsSecondResult along.now.edit (L.net links.old).links along.now.relation ended.now start
        answer) }
    ensures count { OnOk result ((kept : List ℕ) (start read : ℕ) (ns : List Link)
        → AreAmong kept ended.now
        → IsSideSearch along.now.edit (L.net links.old).links along.now.relation kept start
        other.old read
        → ((n : ℕ) → Reaches (Steps along.now.relation
        (HeldAfter along.now.edit (L.net links.old).links)) start n
        → CoversAt along.now.edit (L.net links.old).links n ns)
        → ((n : ℕ) → Contains ended.now n → CoversAt along.now.edit (L.net links.old).links n ns)
        → read + L.count links.new
        ≤ L.count links.old + 2 * length ns + read_cost along.now.edit Sideways ended.now ns) }
{
    if have_none(links, &along.edit, ended) {
        return Ok(None);
    }
    if other.finish(links, along, ended)? {
        return Ok(Some(Refusal::Cycle));
    }
    if are_tied(alloc, links, &along.edit, ended, &other.nodes)? {
        return Ok(Some(Refusal::S27));
    }
    Ok(None)
}

/// Returns the first of Cycle and S27 that a link from the low node up to the high one would break,
/// together with the links after the edit. If both are the same node, returns the first of these
/// that the links break around that node.
pub fn check_upward_link<L: Links>(
    alloc: Global,
    links: &mut L,
    edit: &LinkEdit,
    low: ResNo,
    high: ResNo,
) -> Result<Option<Refusal>, AllocError>
    requires { IsValidEdit edit.now }
    ensures net { L.net links.new ≡ L.net links.old }
    ensures broken { IfOk result
        (IsBrokenBetween (HeldAfter edit.now (L.net links.old).links) low high) }
    ensures count { OnOk result
        ((ns : List Link) → CoversBetween edit.now (L.net links.old).links low high ns
        → L.count links.new ≤ L.count links.old + 4 * length ns) }
{
    let mut up = SideSearch::start(alloc, high)?;
    let mut down = SideSearch::start(alloc, low)?;
    if search_in_turns(links, edit, &mut up, &mut down)? {
        return Ok(Some(Refusal::Cycle));
    }
    if up.is_done() {
        let narrower = EditedRelation {
            edit: *edit,
            relation: Relation::Narrower,
        };
        let rest = check_second_search(alloc, links, &narrower, &up.nodes, &mut down)?;
        return Ok(rest);
    }
    let broader = EditedRelation {
        edit: *edit,
        relation: Relation::Broader,
    };
    let rest = check_second_search(alloc, links, &broader, &down.nodes, &mut up)?;
    Ok(rest)
}
