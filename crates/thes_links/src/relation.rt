//! The relations between two nodes that links state, and the direction in which each kind of link
//! states them.
ghost use Rattle.std.specs.Prelude.{◌≡◌, MatchBool};
ghost use Rattle.thes_base.specs.Links.{broader_direction};
ghost use Rattle.thes_links.specs.Steps.{reverse_of, direction_of, step_in, step_along, HasDirection};

use thes_base::data::{Direction, Link, LinkKind};
use thes_base::number::ResNo;

/// A relation between two nodes that links of some kinds state.
#[derive(Clone, Copy)]
pub enum Relation {
    /// The second node is broader than the first, by a link or a mapping (SKOS S22, S41).
    Broader,
    /// The second node is narrower than the first, the converse of `Broader` (SKOS S25, S43).
    Narrower,
    /// The nodes are related, by a link or a mapping (SKOS S23, S41).
    Related,
    /// The nodes are exact matches (SKOS S44).
    Exact,
    /// The nodes are broader or related matches, which can't be exact matches (SKOS S46).
    Apart,
}

// Returns the direction in which a link of this kind leads to the broader concept.
#[inline(always)]
fn direction_up(kind: LinkKind) -> Direction
    ensures { result ≡ broader_direction kind }
{
    match kind {
        LinkKind::Broader | LinkKind::Broad => Direction::Forward,
        LinkKind::BroaderGeneric | LinkKind::BroaderPartitive | LinkKind::BroaderInstantial => {
            Direction::Forward
        }
        LinkKind::Narrow => Direction::Backward,
        _ => Direction::Never,
    }
}

// Returns the opposite direction; `Either` and `Never` are their own opposites.
#[inline(always)]
fn reverse_direction(direction: Direction) -> Direction
    ensures { result ≡ reverse_of direction }
{
    match direction {
        Direction::Forward => Direction::Backward,
        Direction::Backward => Direction::Forward,
        Direction::Either => Direction::Either,
        Direction::Never => Direction::Never,
    }
}

/// Returns the direction in which links of this kind lead in the relation; in `Broader`, for
/// example, the direction to the broader concept.
#[inline(always)]
pub fn direction(relation: Relation, kind: LinkKind) -> Direction
    ensures { result ≡ direction_of relation kind }
{
    match (relation, kind) {
        (Relation::Broader, kind) => direction_up(kind),
        (Relation::Narrower, kind) => reverse_direction(direction_up(kind)),
        (Relation::Related, LinkKind::Related | LinkKind::RelMatch) => Direction::Either,
        (Relation::Exact, LinkKind::Exact) => Direction::Either,
        (Relation::Apart, LinkKind::Broad) => Direction::Forward,
        (Relation::Apart, LinkKind::Narrow) => Direction::Backward,
        (Relation::Apart, LinkKind::RelMatch) => Direction::Either,
        _ => Direction::Never,
    }
}

/// Returns the other end of the link if the direction leads there from `x`, or else None.
#[inline(always)]
pub fn lead(direction: Direction, link: &Link, x: ResNo) -> Option<ResNo>
    ensures { result ≡ step_in direction link.now.a link.now.b x }
{
    match direction {
        Direction::Forward if link.a == x => Some(link.b),
        Direction::Backward if link.b == x => Some(link.a),
        Direction::Either if link.a == x => Some(link.b),
        Direction::Either if link.b == x => Some(link.a),
        _ => None,
    }
}

/// Returns the other end of the link if the link leads there from `x` in the relation, or else
/// None.
#[inline(always)]
pub fn step(relation: Relation, link: &Link, x: ResNo) -> Option<ResNo>
    ensures { result ≡ step_along relation link.now x }
{
    lead(direction(relation, link.kind), link, x)
}

/// Checks whether links of this link's kind lead somewhere in the relation, in either direction.
pub fn has_direction(relation: Relation, link: &Link) -> bool
    ensures { MatchBool result (HasDirection relation link.now)
        (HasDirection relation link.now → ⊥) }
{
    match direction(relation, link.kind) {
        Direction::Never => false,
        _ => true,
    }
}
