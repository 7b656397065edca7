//! The check of S46 in one class of exact matches, which is a set of concepts that chains of exact
//! matches join.
ghost use Rattle.std.specs.Prelude.{◌≡◌, ◌+◌, ◌*◌, ◌≤◌, List, OnOk, IfOk, MatchBool, length};
ghost use Rattle.thes_base.specs.declared.data.Link.{Link};
ghost use Rattle.thes_links.specs.LinkEdit.{HeldAfter, IsValidEdit};
ghost use Rattle.thes_links.specs.Rules.{BreaksS46At, KeepsS46At, CoversNear};

use crate::ends::is_end_after;
use std::alloc::{AllocError, Global};
use thes_base::number::ResNo;
use thes_links::edit::LinkEdit;
use thes_links::links::Links;
use thes_links::relation::Relation;
use thes_links::walk::{gather, has_link_between};

/// Checks whether two members of the pivot's class of exact matches are broader or related matches
/// after the edit (SKOS S46).
pub fn breaks_class<L: Links>(
    alloc: Global,
    links: &mut L,
    edit: &LinkEdit,
    pivot: ResNo,
) -> Result<bool, AllocError>
    requires { IsValidEdit edit.now }
    ensures net { L.net links.new ≡ L.net links.old }
    ensures found { IfOk result
        (λ found. MatchBool found (BreaksS46At (HeldAfter edit.now (L.net links.old).links) pivot)
        (KeepsS46At (HeldAfter edit.now (L.net links.old).links) pivot)) }
    ensures count { OnOk result ((ns : List Link)
        → CoversNear edit.now (L.net links.old).links pivot ns
        → L.count links.new ≤ L.count links.old + 2 * length ns) }
{
    if is_end_after(links, edit, pivot, Relation::Exact) {
        return Ok(false);
    }
    let same = gather(alloc, links, edit, pivot, Relation::Exact)?;
    let found = has_link_between(Relation::Apart, &same.links, &same.nodes, &same.nodes);
    Ok(found)
}
