//! The sides of a node, by which its links are sorted.
ghost use Rattle.std.specs.Prelude.{◌≡◌, ◌-◌};
ghost use Rattle.thes_links.specs.Side.{side_no, side_in};

use crate::relation::Relation;

/// The side of a node on which a link lies, by what the link leads to from there.
#[derive(Clone, Copy, PartialEq, Eq, PartialOrd, Ord)]
pub enum Side {
    /// The link leads up to a broader concept.
    Up,
    /// The link leads to a related concept.
    Sideways,
    /// The link leads to an exact match.
    Alike,
    /// The link leads down to a narrower concept.
    Down,
    /// The link leads to none of these; it is, for example, a close match or a membership.
    Other,
}

impl Side {
    /// Returns the rank of the side in the order of a node's links, from 1 to 5.
    #[inline(always)]
    pub fn number(self) -> u8
        ensures { result ≡ side_no self }
    {
        self as u8 + 1
    }
}

/// Returns the side of a node on which the links of the relation lie; the result is arbitrary for
/// `Apart`, whose links lie on several sides.
#[inline(always)]
pub fn side_for(relation: Relation) -> Side
    ensures { result ≡ side_in relation }
{
    match relation {
        Relation::Broader => Side::Up,
        Relation::Narrower => Side::Down,
        Relation::Related => Side::Sideways,
        Relation::Exact => Side::Alike,
        Relation::Apart => Side::Other,
    }
}

/// The range of a node's links that lie on one side: the indexes at least `from` and less than
/// `to`.
#[derive(Clone, Copy)]
pub struct Part {
    pub from: usize,
    pub to: usize,
}

impl Part {
    /// Returns the number of links in the range: 0 if `to` isn't greater than `from`.
    #[inline(always)]
    pub fn size(self) -> usize
        ensures { result ≡ self.to - self.from }
    {
        self.to.saturating_sub(self.from)
    }
}
