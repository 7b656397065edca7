//! Finds links that break no rule because of their kind, or because their narrower end has neither
//! narrower nor related concepts, or their broader end neither broader nor related ones. Most links
//! of a hierarchy that is built from its top or its bottom are such links. No function of this
//! module makes a visit.
ghost use Rattle.std.specs.Prelude.{◌≡◌, true, MatchBool};
ghost use Rattle.thes_base.specs.Links.{Holds};
ghost use Rattle.thes_links.specs.declared.relation.Relation.TheVariants as relation;
ghost use Rattle.thes_links.specs.declared.edit.LinkEdit.TheVariants.{WithLink};
ghost use Rattle.thes_links.specs.Reading.{HaveTwoEnds};
ghost use Rattle.thes_links.specs.Side.{IsOneSided};
ghost use Rattle.thes_links.specs.LinkEdit.{HeldAfter};
ghost use Rattle.thes_links.specs.Rules.{BreakNone};
ghost use Rattle.thes_walks.specs.EditChecks.{AreJoinable};
ghost use Rattle.thes_walks.specs.Ends.{IsEnd, LeadsUp, IsLoose};

use thes_base::data::{Link, LinkKind};
use thes_base::number::ResNo;
use thes_links::edit::LinkEdit;
use thes_links::links::Links;
use thes_links::relation::{Relation, step};
use thes_links::side::side_for;

// Returns true only if no held link leads from the node in the relation.
fn is_end<L: Links>(links: &L, n: ResNo, relation: Relation) -> bool
    requires { IsOneSided relation }
    ensures two_ends { HaveTwoEnds (Holds (L.net links.now).links) }
    ensures end { result ≡ true → IsEnd relation (Holds (L.net links.now).links) n }
{
    let part = links.part(n, side_for(relation));
    part.to <= part.from
}

/// Returns true only if no link leads from the node in the relation after the edit; false decides
/// nothing.
pub fn is_end_after<L: Links>(links: &L, edit: &LinkEdit, x: ResNo, relation: Relation) -> bool
    requires { IsOneSided relation }
    ensures two_ends { HaveTwoEnds (Holds (L.net links.now).links) }
    ensures end { result ≡ true → IsEnd relation (HeldAfter edit.now (L.net links.now).links) x }
{
    match edit {
        LinkEdit::NoEdit => is_end(links, x, relation),
        LinkEdit::WithLink(new) => {
            let end = is_end(links, x, relation);
            match step(relation, new, x) {
                Some(_) => false,
                None => end,
            }
        }
        LinkEdit::AfterMerge(source, target) => {
            if x == *target && !is_end(links, *source, relation) {
                return false;
            }
            is_end(links, x, relation)
        }
    }
}

// Returns true only if, by the held links, no concept is narrower than the node or related to it.
fn is_lowest<L: Links>(links: &L, n: ResNo) -> bool
    ensures narrower { result ≡ true → IsEnd relation.Narrower (Holds (L.net links.now).links) n }
    ensures related { result ≡ true → IsEnd relation.Related (Holds (L.net links.now).links) n }
{
    is_end(links, n, Relation::Narrower) && is_end(links, n, Relation::Related)
}

// Returns true only if, by the held links, no concept is broader than the node or related to it.
fn is_highest<L: Links>(links: &L, n: ResNo) -> bool
    ensures broader { result ≡ true → IsEnd relation.Broader (Holds (L.net links.now).links) n }
    ensures related { result ≡ true → IsEnd relation.Related (Holds (L.net links.now).links) n }
{
    is_end(links, n, Relation::Broader) && is_end(links, n, Relation::Related)
}

/// Checks whether links of this kind lead from their first end to a broader concept, and can break
/// only Cycle and S27.
pub fn leads_up(kind: LinkKind) -> bool
    ensures { MatchBool result (LeadsUp kind) (Unit {0}) }
{
    match kind {
        LinkKind::Broader => true,
        LinkKind::BroaderGeneric => true,
        LinkKind::BroaderPartitive => true,
        LinkKind::BroaderInstantial => true,
        _ => false,
    }
}

// Checks whether links of this kind (close matches and memberships) can break none of Cycle, S27
// and S46.
fn is_loose(kind: LinkKind) -> bool
    ensures { MatchBool result (IsLoose kind) (Unit {0}) }
{
    match kind {
        LinkKind::Close => true,
        LinkKind::Member => true,
        _ => false,
    }
}

// Returns true only if a link to a broader concept breaks no rule, because its narrower end has
// neither narrower nor related concepts, or its broader end neither broader nor related ones; false
// decides nothing.
fn is_outermost<L: Links>(links: &L, new: &Link) -> bool
    requires joins { AreJoinable (L.net links.now).links new.now.a new.now.b }
    requires up { LeadsUp new.now.kind }
    ensures { result ≡ true → BreakNone (HeldAfter (WithLink new.now) (L.net links.now).links) }
{
    if is_lowest(links, new.a) {
        return true;
    }
    is_highest(links, new.b)
}

/// Returns true only if the link breaks no rule, because its kind can break none, or its narrower
/// end has neither narrower nor related concepts, or its broader end neither broader nor related
/// ones; false decides nothing.
pub fn is_harmless<L: Links>(links: &L, new: &Link) -> bool
    requires { AreJoinable (L.net links.now).links new.now.a new.now.b }
    ensures { result ≡ true → BreakNone (HeldAfter (WithLink new.now) (L.net links.now).links) }
{
    if is_loose(new.kind) {
        return true;
    }
    if leads_up(new.kind) {
        return is_outermost(links, new);
    }
    false
}
