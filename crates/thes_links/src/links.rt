//! A reader that returns links one at a time and counts its visits. Contracts bound the work of a
//! check by this count.
ghost use Rattle.std.specs.Prelude.{◌≡◌, ℕ, List, slice_get};
ghost use Rattle.std.specs.FinSet.{contains};
ghost use Rattle.thes_base.specs.Links.{Holds};
ghost use Rattle.thes_base.specs.declared.data.Link.{Link};
ghost use Rattle.thes_links.specs.GraphView.{GraphView, is_marked};
ghost use Rattle.thes_links.specs.Side.{IsPart};
ghost use Rattle.thes_links.specs.Reading.{HaveTwoEnds, IsTwoEndedRow, count_after_visit, count_after_read};

use crate::side::{Part, Side};
use thes_base::data::Link;
use thes_base::number::ResNo;

/// A reader of a set of links. Each visit, which is one link returned at one of its ends or one
/// look-up of a given link, is counted. No method creates or copies a set, or resets the count.
pub trait Links {
    /// The links held, and the outside concepts.
    ghost net: { Self → GraphView };

    /// The links held that have an end at a node, in the order in which `link_at` returns them.
    ghost links_of: { GraphView → ℕ → List Link };

    /// The number of visits made so far.
    ghost count: { Self → ℕ };

    /// Returns the link at index `i` of those with an end at the node, and counts a visit if there
    /// is such a link.
    fn link_at(&mut self, node: ResNo, i: usize) -> Option<Link>
        ensures net { net self.new ≡ net self.old }
        ensures row { IsTwoEndedRow (net self.old).links node (links_of (net self.old) node) }
        ensures link { result ≡ slice_get (links_of (net self.old) node) i }
        ensures count { count self.new ≡ count_after_read (count self.old) result };

    /// Returns the range of the node's links that lie on this side. Counts no visit, since counting
    /// could double the visits of a search (DECISIONS.md, Links).
    fn part(&self, node: ResNo, side: Side) -> Part
        ensures row { IsTwoEndedRow (net self.now).links node (links_of (net self.now) node) }
        ensures part { IsPart (links_of (net self.now) node) node side result };

    /// Checks whether the link is held in this order of its ends, and counts a visit.
    fn holds(&mut self, link: &Link) -> bool
        ensures net { net self.new ≡ net self.old }
        ensures two_ends { HaveTwoEnds (Holds (net self.old).links) }
        ensures holds { result ≡ contains (net self.old).links link.now }
        ensures count { count self.new ≡ count_after_visit (count self.old) };

    /// Checks whether the resource is marked as an outside concept, without counting a visit.
    fn is_outside(&self, n: ResNo) -> bool
        ensures outside { result ≡ is_marked (net self.now) n }
        ensures two_ends { HaveTwoEnds (Holds (net self.now).links) };

    /// Returns the number of visits so far, which saturates at `u64::MAX`.
    fn visits(&self) -> u64
        ensures { result ≡ count self.now };
}
