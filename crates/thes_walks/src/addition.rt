//! Checks a new link against the rules Cycle, S27 and S46. Each rule is checked only for the kinds
//! of link that can break it.
ghost use Rattle.std.specs.Prelude.{◌≡◌, ◌+◌, ◌*◌, ◌≤◌, false, List, OnOk, IfOk, MatchBool, length};
ghost use Rattle.thes_base.specs.declared.data.Link.{Link};
ghost use Rattle.thes_base.specs.declared.data.Direction.TheVariants.{Either, Never};
ghost use Rattle.thes_base.specs.Links.{S46, related_direction, exact_direction, disjoint_direction, IsFirstBroken};
ghost use Rattle.thes_links.specs.declared.edit.LinkEdit.TheVariants.{WithLink};
ghost use Rattle.thes_links.specs.LinkEdit.{HeldAfter};
ghost use Rattle.thes_links.specs.Rules.{AreSoundWith, CoversNear, BreaksS46};
ghost use Rattle.thes_walks.specs.EditChecks.{AreSoundWithLevel, IsCycleAndS27Result};

use crate::class::breaks_class;
use crate::paired_search::has_end_above;
use crate::upward_link::check_upward_link;
use std::alloc::{AllocError, Global};
use thes_base::data::{Direction, Link, LinkKind};
use thes_base::fault::Refusal;
use thes_links::edit::LinkEdit;
use thes_links::links::Links;
use thes_links::relation::{Relation, direction};

// Checks whether links of this kind state that their ends are related (SKOS S23, S41).
fn relates(kind: LinkKind) -> bool
    ensures { MatchBool result (related_direction kind ≡ Either) (related_direction kind ≡ Never) }
{
    matches!(kind, LinkKind::Related | LinkKind::RelMatch)
}

// Checks whether links of this kind are exact, broader, narrower or related matches, the only ones
// that can break S46.
fn matches_exactly_or_apart(kind: LinkKind) -> bool
    ensures { result ≡ false → (exact_direction kind ≡ Never) × (disjoint_direction kind ≡ Never) }
{
    matches!(
        kind,
        LinkKind::Exact | LinkKind::Broad | LinkKind::Narrow | LinkKind::RelMatch
    )
}

// Returns S27 if the new link, which leads neither up nor down, would break S27, or else None; such
// a link can't break Cycle.
fn check_level_link<L: Links>(
    alloc: Global,
    links: &mut L,
    new: &Link,
) -> Result<Option<Refusal>, AllocError>
    requires { AreSoundWithLevel (L.net links.old).links new.now }
    ensures net { L.net links.new ≡ L.net links.old }
    ensures checked { IfOk result (IsCycleAndS27Result (L.net links.old).links new.now
        (L.count links.old) (L.count links.new)) }
{
    if !relates(new.kind) {
        return Ok(None);
    }
    if has_end_above(alloc, links, new)? {
        return Ok(Some(Refusal::S27));
    }
    Ok(None)
}

// Returns the first of Cycle and S27 that the links held and the new one would break together.
fn check_cycle_and_s27<L: Links>(
    alloc: Global,
    links: &mut L,
    new: &Link,
) -> Result<Option<Refusal>, AllocError>
    requires { AreSoundWith (L.net links.old).links new.now }
    ensures net { L.net links.new ≡ L.net links.old }
    ensures checked { IfOk result (IsCycleAndS27Result (L.net links.old).links new.now
        (L.count links.old) (L.count links.new)) }
{
    let edit = LinkEdit::NoEdit;
    match direction(Relation::Broader, new.kind) {
        Direction::Forward => {
            let answer = check_upward_link(alloc, links, &edit, new.a, new.b)?;
            Ok(answer)
        }
        Direction::Backward => {
            let answer = check_upward_link(alloc, links, &edit, new.b, new.a)?;
            Ok(answer)
        }
        _ => {
            let answer = check_level_link(alloc, links, new)?;
            Ok(answer)
        }
    }
}

// Checks whether two exact matches would also be broader or related matches after the new link
// (SKOS S46).
fn breaks_s46<L: Links>(alloc: Global, links: &mut L, new: &Link) -> Result<bool, AllocError>
    requires { AreSoundWith (L.net links.old).links new.now }
    ensures net { L.net links.new ≡ L.net links.old }
    ensures s46 { IfOk result
        (λ found. MatchBool found (BreaksS46 (HeldAfter (WithLink new.now) (L.net links.old).links))
        (S46 (HeldAfter (WithLink new.now) (L.net links.old).links))) }
    ensures count { OnOk result
        ((ns : List Link) → CoversNear (WithLink new.now) (L.net links.old).links new.now.a ns
        → L.count links.new ≤ L.count links.old + 2 * length ns) }
{
    if !matches_exactly_or_apart(new.kind) {
        return Ok(false);
    }
    let found = breaks_class(alloc, links, &LinkEdit::WithLink(*new), new.a)?;
    Ok(found)
}

/// Returns the first of Cycle, S27 and S46 that the links held and the new one would break
/// together.
pub fn check_added_link<L: Links>(
    alloc: Global,
    links: &mut L,
    new: &Link,
) -> Result<Option<Refusal>, AllocError>
    requires { AreSoundWith (L.net links.old).links new.now }
    ensures net { L.net links.new ≡ L.net links.old }
    ensures first { IfOk result
        (IsFirstBroken (HeldAfter (WithLink new.now) (L.net links.old).links)) }
    ensures count { OnOk result
        ((ns : List Link) → CoversNear (WithLink new.now) (L.net links.old).links new.now.a ns
        → L.count links.new ≤ L.count links.old + 6 * length ns) }
{
    match check_cycle_and_s27(alloc, links, new)? {
        Some(refusal) => return Ok(Some(refusal)),
        None => {}
    }
    if breaks_s46(alloc, links, new)? {
        return Ok(Some(Refusal::S46));
    }
    Ok(None)
}
