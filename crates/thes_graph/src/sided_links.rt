//! A node's links, sorted by the side of the node on which they lie.
ghost use Rattle.std.specs.Prelude.{◌≡◌, ◌≤◌, length};
ghost use Rattle.std.proofs.Math.Dec.{ltb, leb};
ghost use Rattle.thes_links.specs.Side.{side_no, side_at};
ghost use Rattle.thes_graph.specs.SidedLinks.{sided_link_at, IsPartitionIndex};

use thes_base::data::{Direction, Link, LinkKind};
use thes_base::number::ResNo;
use thes_links::relation::{Relation, direction};
use thes_links::side::Side;

/// A link, and the side of one of its ends on which it lies; ordered by side, then by link.
#[derive(Clone, Copy, PartialEq, Eq, PartialOrd, Ord)]
pub struct SidedLink {
    pub side: Side,
    pub link: Link,
}

/// Returns the side of the node on which the link lies, where the node is one of its ends.
pub fn side_of(link: &Link, n: ResNo) -> Side
    ensures { result ≡ side_at n link.now }
{
    let first = link.a == n;
    match direction(Relation::Broader, link.kind) {
        Direction::Forward if first => return Side::Up,
        Direction::Forward => return Side::Down,
        Direction::Backward if first => return Side::Down,
        Direction::Backward => return Side::Up,
        _ => {}
    }
    match link.kind {
        LinkKind::Related | LinkKind::RelMatch => Side::Sideways,
        LinkKind::Exact => Side::Alike,
        _ => Side::Other,
    }
}

// The number of links at the start of a row that are looked at one by one, before a binary search:
// in most rows the end of the side is among these, and a loop finds it faster.
const MOST_SCANNED: usize = 4;

// Checks whether the link lies on a side whose rank is less than `number`.
#[inline(always)]
fn is_before(sided_link: &SidedLink, number: u8) -> bool
    ensures { result ≡ ltb (side_no sided_link.now.side) number }
{
    sided_link.side.number() < number
}

// Checks whether the link lies on a side whose rank is at most `number`.
#[inline(always)]
fn is_at_most(sided_link: &SidedLink, number: u8) -> bool
    ensures { result ≡ leb (side_no sided_link.now.side) number }
{
    sided_link.side.number() <= number
}

// Returns what `count_before` does, in logarithmic time.
#[inline(never)]
fn search_before(row: &[SidedLink], number: u8) -> usize
    ensures bound { result ≤ length row.now }
    ensures place { IsPartitionIndex (λ s. ltb (side_no s.side) number) row.now result }
{
    row.partition_point(|sided_link| is_before(sided_link, number))
}

// Returns what `count_until` does, in logarithmic time.
#[inline(never)]
fn search_until(row: &[SidedLink], number: u8) -> usize
    ensures bound { result ≤ length row.now }
    ensures place { IsPartitionIndex (λ s. leb (side_no s.side) number) row.now result }
{
    row.partition_point(|sided_link| is_at_most(sided_link, number))
}

/// Returns the number of links on sides whose rank is less than `number`, in a row that is sorted
/// by side.
#[inline(always)]
pub fn count_before(row: &[SidedLink], number: u8) -> usize
    ensures bound { result ≤ length row.now }
    ensures place { IsPartitionIndex (λ s. ltb (side_no s.side) number) row.now result }
{
    for i in 0..MOST_SCANNED {
        let Some(sided_link) = row.get(i) else {
            return i;
        };
        if !is_before(sided_link, number) {
            return i;
        }
    }
    search_before(row, number)
}

// Returns what `count_until` does: looks at the first `MOST_SCANNED` links one by one, and then
// calls `search_until`.
#[inline(always)]
fn scan_until(row: &[SidedLink], number: u8) -> usize
    ensures bound { result ≤ length row.now }
    ensures place { IsPartitionIndex (λ s. leb (side_no s.side) number) row.now result }
{
    for i in 0..MOST_SCANNED {
        let Some(sided_link) = row.get(i) else {
            return i;
        };
        if !is_at_most(sided_link, number) {
            return i;
        }
    }
    search_until(row, number)
}

/// Returns the number of links on sides whose rank is at most `number`, in a row that is sorted by
/// side.
#[inline(always)]
pub fn count_until(row: &[SidedLink], number: u8) -> usize
    ensures bound { result ≤ length row.now }
    ensures place { IsPartitionIndex (λ s. leb (side_no s.side) number) row.now result }
{
    match row.last() {
        Some(last) if !is_at_most(last, number) => scan_until(row, number),
        _ => row.len(),
    }
}

/// Returns the link with the side of the node on which it lies.
pub fn sided_link_of(link: &Link, n: ResNo) -> SidedLink
    ensures { result ≡ sided_link_at n link.now }
{
    SidedLink {
        side: side_of(link, n),
        link: *link,
    }
}
