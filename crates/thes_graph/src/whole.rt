//! The check of all links: Cycle by one search of all nodes, S27 for the related concepts in
//! blocks, S46 once for each class of exact matches.
ghost use Rattle.std.specs.Prelude.{◌≡◌, Contains, IfOk, OnOk, MatchBool};
ghost use Rattle.thes_base.specs.declared.data.Link.{Link};
ghost use Rattle.thes_base.specs.Links.{Holds, NoCycle, S46, IsFirstBroken};
ghost use Rattle.thes_links.specs.Reading.{HaveTwoEnds, AreAll};
ghost use Rattle.thes_links.specs.Steps.{GrowsBy};
ghost use Rattle.thes_links.specs.Rules.{BreaksS46};
ghost use Rattle.thes_graph.specs.Whole.{IsWholeOrder, KeepS46, IsClassVerdict};
ghost use Rattle.thes_graph.specs.CycleSearch.{HasCycle, IsUpwardOrder};

use crate::find_cycle::find_cycle;
use crate::s27::breaks_s27;
use std::alloc::{AllocError, Global};
use thes_base::data::Link;
use thes_base::fault::Refusal;
use thes_base::number::ResNo;
use thes_links::edit::LinkEdit;
use thes_links::links::Links;
use thes_links::nodes::Nodes;
use thes_links::relation::{Relation, has_direction};
use thes_links::walk::{gather, has_link_between};

// Checks whether a chain of broader links leads from some node back to itself. If none does,
// `order` has the ends of all links afterwards, each node after all nodes broader than it.
fn has_cycle<L: Links>(
    alloc: Global,
    links: &mut L,
    all: &[Link],
    order: &mut Nodes,
) -> Result<bool, AllocError>
    requires all { AreAll (L.net links.old).links all.now }
    requires order { IsUpwardOrder (Holds (L.net links.old).links) order.old }
    ensures net { L.net links.new ≡ L.net links.old }
    ensures cycle { IfOk result (λ found. MatchBool found (HasCycle (Holds (L.net links.old).links))
        (NoCycle (Holds (L.net links.old).links)
        × IsWholeOrder (Holds (L.net links.old).links) order.new)) }
{
    for link in all {
        if find_cycle(alloc, links, link.a, order)? {
            return Ok(true);
        }
        if find_cycle(alloc, links, link.b, order)? {
            return Ok(true);
        }
    }
    Ok(false)
}

// Appends to the nodes whose class of exact matches has been checked each of these nodes that isn't
// among them yet.
fn add_done(done: &mut Nodes, nodes: &[ResNo]) -> Result<(), AllocError>
    ensures { OnOk result (GrowsBy done.old done.new (Contains nodes.now)) }
{
    for n in nodes {
        done.meet(*n)?;
    }
    Ok(())
}

// Checks whether two members of the node's class of exact matches are also broader or related
// matches (SKOS S46). If not, appends all members of the class to `done`.
fn breaks_s46_at<L: Links>(
    alloc: Global,
    links: &mut L,
    n: ResNo,
    done: &mut Nodes,
) -> Result<bool, AllocError>
    requires done { KeepS46 (Holds (L.net links.old).links) done.old }
    requires two_ends { HaveTwoEnds (Holds (L.net links.old).links) }
    ensures net { L.net links.new ≡ L.net links.old }
    ensures outcome { IfOk result (IsClassVerdict (Holds (L.net links.old).links)
        n done.old done.new) }
{
    let same = gather(alloc, links, &LinkEdit::NoEdit, n, Relation::Exact)?;
    if has_link_between(Relation::Apart, &same.links, &same.nodes, &same.nodes) {
        return Ok(true);
    }
    add_done(done, same.nodes.as_slice())?;
    Ok(false)
}

// Checks whether two exact matches are also broader or related matches (SKOS S46).
fn breaks_s46<L: Links>(alloc: Global, links: &mut L, all: &[Link]) -> Result<bool, AllocError>
    requires { AreAll (L.net links.old).links all.now }
    ensures net { L.net links.new ≡ L.net links.old }
    ensures s46 { IfOk result (λ found. MatchBool found (BreaksS46 (Holds (L.net links.old).links))
        (S46 (Holds (L.net links.old).links))) }
{
    let mut done = Nodes::none(alloc);
    for link in all {
        if has_direction(Relation::Exact, link)
            && !done.has(link.a)
            && breaks_s46_at(alloc, links, link.a, &mut done)?
        {
            return Ok(true);
        }
    }
    Ok(false)
}

/// Returns the first of Cycle, S27 and S46 that the links break. The list `all` has exactly these
/// links.
pub fn check_listed_links<L: Links>(
    alloc: Global,
    links: &mut L,
    all: &[Link],
) -> Result<Option<Refusal>, AllocError>
    requires { AreAll (L.net links.old).links all.now }
    ensures net { L.net links.new ≡ L.net links.old }
    ensures first { IfOk result (IsFirstBroken (Holds (L.net links.old).links)) }
{
    let mut order = Nodes::none(alloc);
    if has_cycle(alloc, links, all, &mut order)? {
        return Ok(Some(Refusal::Cycle));
    }
    if breaks_s27(alloc, links, all, &order)? {
        return Ok(Some(Refusal::S27));
    }
    if breaks_s46(alloc, links, all)? {
        return Ok(Some(Refusal::S46));
    }
    Ok(None)
}
