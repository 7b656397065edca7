//! The neighbours of a concept that a view lists: concepts of its scheme, and collections.
ghost use Rattle.std.specs.Prelude.{◌≡◌};
ghost use Rattle.thes_base.specs.Links as links;
ghost use Rattle.thes_graph.specs.Neighbours.{neighbour_direction};

use thes_base::data::{Direction, LinkForm, LinkKind};
use thes_links::relation::{Relation, direction};

/// A sort of neighbour: broader, narrower or related concepts of the same scheme, or collections of
/// which the concept is a member.
#[derive(Clone, Copy)]
pub enum NeighbourKind {
    /// Concepts broader than the concept, by links of any type.
    Broader,
    /// Concepts narrower than the concept, by links of any type.
    Narrower,
    /// Concepts related to the concept.
    Related,
    /// Collections of which the concept is a member.
    Collections,
}

// Returns the form of the kind: a relation within a scheme, a mapping or a membership.
fn form_of(kind: LinkKind) -> LinkForm
    ensures { result ≡ links.form_of kind }
{
    match kind {
        LinkKind::Broader | LinkKind::Related => LinkForm::Within,
        LinkKind::BroaderGeneric | LinkKind::BroaderPartitive | LinkKind::BroaderInstantial => {
            LinkForm::Within
        }
        LinkKind::Member => LinkForm::Membership,
        _ => LinkForm::Mapping,
    }
}

/// Returns the direction in which a link of this kind leads to a neighbour of this sort.
pub fn direction_to(neighbours: NeighbourKind, kind: LinkKind) -> Direction
    ensures { result ≡ neighbour_direction neighbours kind }
{
    match (form_of(kind), neighbours) {
        (LinkForm::Within, NeighbourKind::Broader) => direction(Relation::Broader, kind),
        (LinkForm::Within, NeighbourKind::Narrower) => direction(Relation::Narrower, kind),
        (LinkForm::Within, NeighbourKind::Related) => direction(Relation::Related, kind),
        (LinkForm::Membership, NeighbourKind::Collections) => Direction::Backward,
        _ => Direction::Never,
    }
}
