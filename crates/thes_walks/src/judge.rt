//! Checks links against the rules Cycle, S27 and S46: those after an edit, or those held, if only
//! links at one node, the pivot, may break a rule. A check reads only links near the edit or the
//! pivot. Two searches, for broader and for narrower concepts, decide Cycle and S27; one along
//! exact matches decides S46.
ghost use Rattle.std.specs.Prelude.{◌≡◌, ◌+◌, ◌*◌, ◌≤◌, List, Contains, OnOk, IfOk, length};
ghost use Rattle.thes_base.specs.declared.data.Link.{Link};
ghost use Rattle.thes_base.specs.Links.{Holds, normal_form, links_after_merge, IsFirstBroken};
ghost use Rattle.thes_base.specs.Neighbourhood.{Add, Merge, Recheck};
ghost use Rattle.thes_links.specs.declared.edit.LinkEdit.TheVariants.{WithLink};
ghost use Rattle.thes_links.specs.GraphView.{is_marked};
ghost use Rattle.thes_links.specs.Reading.{HaveTwoEnds};
ghost use Rattle.thes_links.specs.LinkEdit.{HeldAfter, IsValidEdit};
ghost use Rattle.thes_links.specs.Rules.{BreakNone, AreSoundWith, HeldAwayFrom, IsFirstBrokenAt, CoversNear};
ghost use Rattle.thes_walks.specs.EditChecks.{checks_of_add, AreJoinable, CoversEdit, AreFewVisits};

use crate::addition::check_added_link;
use crate::class::breaks_class;
use crate::ends::is_harmless;
use crate::upward_link::check_upward_link;
use std::alloc::{AllocError, Global};
use thes_base::data::Link;
use thes_base::fault::Refusal;
use thes_base::number::ResNo;
use thes_links::edit::LinkEdit;
use thes_links::links::Links;
use thes_links::normal_form::normalize_ends;

// Returns the normal form of the link, in which it would be held.
fn normal<L: Links>(links: &L, link: &Link) -> Link
    ensures normal { result ≡ normal_form (is_marked (L.net links.now)) link.now }
    ensures two_ends { HaveTwoEnds (Holds (L.net links.now).links) }
{
    normalize_ends(link, links.is_outside(link.a) || links.is_outside(link.b))
}

// No effect; for the proof, states that each link held has two different ends.
fn learn_two_ends<L: Links>(links: &L, n: ResNo)
    ensures { HaveTwoEnds (Holds (L.net links.now).links) }
{
    links.is_outside(n);
}

// Returns the first rule that the links after the edit break by a chain or pair through the pivot;
// None says nothing about other nodes.
fn first_broken_at<L: Links>(
    alloc: Global,
    links: &mut L,
    edit: &LinkEdit,
    pivot: ResNo,
) -> Result<Option<Refusal>, AllocError>
    requires { IsValidEdit edit.now }
    ensures net { L.net links.new ≡ L.net links.old }
    ensures first { IfOk result (IsFirstBrokenAt (HeldAfter edit.now (L.net links.old).links)
        pivot) }
    ensures count { OnOk result ((ns : List Link)
        → CoversNear edit.now (L.net links.old).links pivot ns
        → L.count links.new ≤ L.count links.old + 6 * length ns) }
{
    match check_upward_link(alloc, links, edit, pivot, pivot)? {
        Some(refusal) => return Ok(Some(refusal)),
        None => {}
    }
    if breaks_class(alloc, links, edit, pivot)? {
        return Ok(Some(Refusal::S46));
    }
    Ok(None)
}

/// Returns the first rule that the links held break, if those without an end at the pivot break
/// none.
///
/// Makes at most six visits for each link with an end at the pivot, or at a node above it, below it
/// or in its class of exact matches.
pub fn check_at<L: Links>(
    alloc: Global,
    links: &mut L,
    pivot: ResNo,
) -> Result<Option<Refusal>, AllocError>
    requires { BreakNone (HeldAwayFrom (Holds (L.net links.old).links) pivot) }
    ensures net { L.net links.new ≡ L.net links.old }
    ensures first { IfOk result (IsFirstBroken (Holds (L.net links.old).links)) }
    ensures count { OnOk result (AreFewVisits (is_marked (L.net links.old)) (Recheck pivot)
        (L.net links.old).links (L.count links.old) (L.count links.new)) }
{
    learn_two_ends(links, pivot);
    let answer = first_broken_at(alloc, links, &LinkEdit::NoEdit, pivot)?;
    Ok(answer)
}

/// Checks a new link: returns LinkThere if it is held, or else the first rule that the links with
/// it would break.
///
/// Makes at most six visits for each link near the first end of the new link, which counts as one
/// of these links.
pub fn judge_add<L: Links>(
    alloc: Global,
    links: &mut L,
    link: &Link,
) -> Result<Option<Refusal>, AllocError>
    requires { AreJoinable (L.net links.old).links link.now.a link.now.b }
    ensures net { L.net links.new ≡ L.net links.old }
    ensures answer { IfOk result
        (checks_of_add (L.net links.old).links
        (normal_form (is_marked (L.net links.old)) link.now)) }
    ensures count { let edit = Add (normal_form (is_marked (L.net links.old)) link.now) in
        OnOk result (AreFewVisits
        (is_marked (L.net links.old)) edit (L.net links.old).links (L.count links.old)
        (L.count links.new)) }
{
    let new = normal(links, link);
    let answer = check_normal_link(alloc, links, &new)?;
    Ok(answer)
}

// Checks a new link in normal form: returns LinkThere if it is held, or else the first rule that
// the links with it would break.
fn check_normal_link<L: Links>(
    alloc: Global,
    links: &mut L,
    new: &Link,
) -> Result<Option<Refusal>, AllocError>
    requires { AreSoundWith (L.net links.old).links new.now }
    ensures net { L.net links.new ≡ L.net links.old }
    ensures answer { IfOk result (checks_of_add (L.net links.old).links new.now) }
    ensures count { OnOk result ((ns : List Link) → Contains ns new.now
        → CoversEdit (WithLink new.now) (L.net links.old).links new.now.a ns
        → L.count links.new ≤ L.count links.old + 6 * length ns) }
{
    if links.holds(new) {
        return Ok(Some(Refusal::LinkThere));
    }
    if is_harmless(links, new) {
        return Ok(None);
    }
    let answer = check_added_link(alloc, links, new)?;
    Ok(answer)
}

/// Checks a merge of the source into the target: returns the first rule that the links after it
/// would break.
///
/// Makes at most six visits for each link near the two concepts. Searches from the target alone
/// (DECISIONS.md, Links).
pub fn judge_contract<L: Links>(
    alloc: Global,
    links: &mut L,
    source: ResNo,
    target: ResNo,
) -> Result<Option<Refusal>, AllocError>
    requires { AreJoinable (L.net links.old).links source target }
    ensures net { L.net links.new ≡ L.net links.old }
    ensures first { IfOk result (IsFirstBroken
        (Holds (links_after_merge (is_marked (L.net links.old)) source target
        (L.net links.old).links))) }
    ensures count { OnOk result
        (AreFewVisits (is_marked (L.net links.old)) (Merge source target) (L.net links.old).links
        (L.count links.old) (L.count links.new)) }
{
    let edit = LinkEdit::AfterMerge(source, target);
    let answer = first_broken_at(alloc, links, &edit, target)?;
    Ok(answer)
}
