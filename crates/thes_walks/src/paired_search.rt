//! Checks whether one end of a link is above the other by two searches, one from each end. The
//! bound on visits counts only links near the first end, so the second search may read no more
//! links than the first has read.
ghost use Rattle.std.specs.Prelude.{◌≡◌, ◌≢◌, ◌+◌, ◌-◌, ◌*◌, ◌^◌, ◌≤◌, ◌<◌, ℕ, false, List, OnOk, IfOk, MatchBool, length};
ghost use Rattle.thes_base.specs.declared.data.Link.{Link};
ghost use Rattle.thes_base.specs.Links.{Holds, Chain};
ghost use Rattle.thes_links.specs.declared.edit.LinkEdit.TheVariants.{NoEdit};
ghost use Rattle.thes_links.specs.Steps.{Steps};
ghost use Rattle.thes_walks.specs.SideSearch.{IsHierarchy, ContinuesSearch, CoversBetween};
ghost use Rattle.thes_walks.specs.PairedSearch.{converse, AreVisitsBounded, ArePairedSearches, HasFoundChain, HasEndAbove, HasNoEndAbove};

use crate::side_search::{EditedRelation, SideSearch, TURN};
use std::alloc::{AllocError, Global};
use thes_base::data::Link;
use thes_base::number::ResNo;
use thes_links::edit::LinkEdit;
use thes_links::links::Links;
use thes_links::nodes::Nodes;
use thes_links::relation::Relation;

// Returns the converse relation: narrower for broader, broader for narrower, and any other itself.
fn converse_of(relation: Relation) -> Relation
    ensures { result ≡ converse relation }
{
    match relation {
        Relation::Broader => Relation::Narrower,
        Relation::Narrower => Relation::Broader,
        other => other,
    }
}

// Two searches, one from each end of a link, and the number of links that the second may still
// read: the number that the first has read, less the number that the second has read.
#[derive(Drop)]
struct PairedSearch {
    first: SideSearch,
    second: SideSearch,
    allowance: u64,
}

// Advances the first search until the number of its nodes and its next node's links exceeds the
// limit. Returns whether it met the second search, and the number of links that it read in this
// turn.
fn advance_first<L: Links>(
    links: &mut L,
    relation: Relation,
    first: &mut SideSearch,
    seconds: &Nodes,
    limit: usize,
) -> Result<(bool, u64), AllocError>
    requires { IsHierarchy relation }
    ensures net { L.net links.new ≡ L.net links.old }
    ensures done { IfOk result (λ turn. turn.0 ≡ false → limit ≡ 2 ^ 64 - 1
        → length first.new.nodes ≤ first.new.next) }
    ensures read { IfOk result (λ turn. turn.1 ≤ L.count links.new - L.count links.old) }
    ensures continues { IfOk result (λ turn. ContinuesSearch NoEdit (L.net links.old).links
        relation seconds.now first.old first.new (L.count links.new - L.count links.old) turn.0) }
{
    let before = links.visits();
    let held = EditedRelation {
        edit: LinkEdit::NoEdit,
        relation,
    };
    let met = first.advance_to(links, &held, seconds, limit)?;
    Ok((met, links.visits().saturating_sub(before)))
}

// Advances the second search as long as its next node has at most `allowance` links to read, and
// subtracts their number from `allowance`. Returns whether it met the first search.
fn advance_second<L: Links>(
    links: &mut L,
    relation: Relation,
    second: &mut SideSearch,
    firsts: &Nodes,
    allowance: &mut u64,
) -> Result<bool, AllocError>
    requires { IsHierarchy relation }
    ensures net { L.net links.new ≡ L.net links.old }
    ensures allowance { allowance.new ≤ allowance.old }
    ensures count { OnOk result (L.count links.new
        ≤ L.count links.old + (allowance.old - allowance.new)) }
    ensures continues { IfOk result (ContinuesSearch NoEdit (L.net links.old).links relation
        firsts.now second.old second.new (allowance.old - allowance.new)) }
{
    'reading: while !second.is_done() {
        let part = second.next_part(links, relation);
        let size = part.size() as u64;
        if *allowance < size {
            return Ok(false);
        }
        *allowance -= size;
        if second.advance_at(links, part, firsts)? {
            return Ok(true);
        }
    }
    Ok(false)
}

// Advances the second search within its allowance, and then the first to this limit, until one is
// done or they meet, and returns whether they have met. The second takes its turn first, so that no
// link is read if the second has none to read.
fn take_paired_turns<L: Links>(
    links: &mut L,
    relation: Relation,
    paired: &mut PairedSearch,
    limit: usize,
) -> Result<bool, AllocError>
    requires { IsHierarchy relation }
    ensures net { L.net links.new ≡ L.net links.old }
    ensures done { IfOk result (λ met. met ≡ false → limit ≡ 2 ^ 64 - 1
        → paired.new.second.next < length paired.new.second.nodes
        → length paired.new.first.nodes ≤ paired.new.first.next) }
    ensures continues { IfOk result (λ met. (from to before : ℕ)
        → ArePairedSearches (L.net links.old).links relation from to paired.old.first
        paired.old.second paired.old.allowance before (L.count links.old)
        → MatchBool met (HasFoundChain (L.net links.old).links relation from to before
        (L.count links.new))
        (ArePairedSearches (L.net links.old).links relation from to paired.new.first
        paired.new.second paired.new.allowance before (L.count links.new))) }
{
    let back = converse_of(relation);
    if advance_second(
        links,
        back,
        &mut paired.second,
        &paired.first.nodes,
        &mut paired.allowance,
    )? {
        return Ok(true);
    }
    if !paired.second.is_done() {
        let turn = advance_first(
            links,
            relation,
            &mut paired.first,
            &paired.second.nodes,
            limit,
        )?;
        let allowance = paired.allowance.saturating_add(turn.1);
        paired.allowance = allowance;
        return Ok(turn.0);
    }
    Ok(false)
}

// Advances the two searches in turns until one of them is done or they meet, and returns whether
// they have met.
fn run_paired_search<L: Links>(
    links: &mut L,
    relation: Relation,
    paired: &mut PairedSearch,
) -> Result<bool, AllocError>
    requires { IsHierarchy relation }
    ensures net { L.net links.new ≡ L.net links.old }
    ensures done { IfOk result (λ met. met ≡ false
        → paired.new.first.next < length paired.new.first.nodes
        → length paired.new.second.nodes ≤ paired.new.second.next) }
    ensures continues { IfOk result (λ met. (from to before : ℕ)
        → ArePairedSearches (L.net links.old).links relation from to paired.old.first
        paired.old.second paired.old.allowance before (L.count links.old)
        → MatchBool met (HasFoundChain (L.net links.old).links relation from to before
        (L.count links.new))
        (ArePairedSearches (L.net links.old).links relation from to paired.new.first
        paired.new.second paired.new.allowance before (L.count links.new))) }
{
    let mut limit = TURN;
    'turns: while !paired.first.is_done() && !paired.second.is_done() {
        if take_paired_turns(links, relation, paired, limit)? {
            return Ok(true);
        }
        limit = limit.saturating_add(TURN);
    }
    Ok(false)
}

// Checks whether a chain of one or more steps in the relation leads from the first node to the
// second.
fn leads_to<L: Links>(
    alloc: Global,
    links: &mut L,
    relation: Relation,
    from: ResNo,
    to: ResNo,
) -> Result<bool, AllocError>
    requires { IsHierarchy relation }
    ensures net { L.net links.new ≡ L.net links.old }
    ensures leads { IfOk result
        (λ found. MatchBool found (Chain (Steps relation (Holds (L.net links.old).links)) from to)
        (Chain (Steps relation (Holds (L.net links.old).links)) from to → ⊥)) }
    ensures count { OnOk result (AreVisitsBounded (L.net links.old).links relation from
        (L.count links.old) (L.count links.new)) }
{
    let first = SideSearch::start(alloc, from)?;
    let second = SideSearch::start(alloc, to)?;
    let mut paired = PairedSearch {
        first,
        second,
        allowance: 0,
    };
    let found = run_paired_search(links, relation, &mut paired)?;
    Ok(found)
}

/// Checks whether one end of the link is above the other by the links held.
pub fn has_end_above<L: Links>(
    alloc: Global,
    links: &mut L,
    link: &Link,
) -> Result<bool, AllocError>
    requires { link.now.a ≢ link.now.b }
    ensures net { L.net links.new ≡ L.net links.old }
    ensures above { IfOk result
        (λ found. MatchBool found (HasEndAbove (Holds (L.net links.old).links) link.now)
        (HasNoEndAbove (Holds (L.net links.old).links) link.now)) }
    ensures count { OnOk result
        ((ns : List Link) → CoversBetween NoEdit (L.net links.old).links link.now.a link.now.a ns
        → L.count links.new ≤ L.count links.old + 4 * length ns) }
{
    if leads_to(alloc, links, Relation::Broader, link.a, link.b)? {
        return Ok(true);
    }
    let found = leads_to(alloc, links, Relation::Narrower, link.a, link.b)?;
    Ok(found)
}
