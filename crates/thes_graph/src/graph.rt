//! A set of links, indexed by their ends, with its edits and its look-ups.
ghost use Rattle.std.specs.Prelude.{◌≡◌, ◌≢◌, ◌⊎◌, ◌≤◌, ℕ, [], IfOk, OnOk, OnErr, MatchOption, slice_get};
ghost use Rattle.std.specs.Ordering.{nat_cmp};
ghost use Rattle.std.specs.FinSet.{empty, contains, insert, remove, len, items};
ghost use Rattle.thes_base.specs.declared.data.Link.{Link};
ghost use Rattle.thes_base.specs.declared.data.LinkKind.TheVariants as kinds;
ghost use Rattle.thes_base.specs.Links.{Holds, normal_form, links_after_merge, links_after_deprecation, IsFirstBroken, HasEnd};
ghost use Rattle.thes_base.specs.Listing.{IsListing};
ghost use Rattle.thes_links.specs.Reading.{AreAll, HaveTwoEnds};
ghost use Rattle.thes_links.specs.Side.{IsPart};
ghost use Rattle.thes_lists.specs.Lists.{HasSpare, HaveSameValues};
ghost use Rattle.thes_links.specs.GraphView.{is_marked};
ghost use Rattle.thes_graph.specs.SidedLinks.{sided_links_at, links_at};
ghost use Rattle.thes_base.specs.Views.{HasLink, HasBroader, IsMapping, mapping_cmp, IsTypedLink, typed_cmp};
ghost use Rattle.thes_graph.specs.Neighbours.{IsNeighbour};
ghost use Rattle.thes_graph.specs.MergeAdditions.{AreNormal, AreMergeAdditions, AreNew, added_link, with_all, without_links};

use crate::first_ends::list_first_ends;
use crate::mappings::{list_mapping, mapping_from, typed_link_from};
use crate::neighbours::{NeighbourKind, direction_to};
use crate::sided_links::{SidedLink, count_before, count_until, sided_link_of};
use crate::whole::check_listed_links;
use std::alloc::{AllocError, Global};
use std::collections::BTreeSet;
use std::marker::Model;
use thes_base::data::{Link, LinkKind, TypedKind};
use thes_base::fault::Refusal;
use thes_base::number::ResNo;
use thes_links::edit::link_after_merge;
use thes_links::links::Links;
use thes_links::normal_form::normalize_ends;
use thes_links::relation::lead;
use thes_links::side::{Part, Side};
use thes_lists::{Lists, insert_sorted};

// Reserves room for one more link in the rows of both its ends.
fn reserve_ends(rows: &mut Lists<SidedLink>, link: &Link) -> Result<(), AllocError>
    ensures same { HaveSameValues rows.old rows.new }
    ensures rooms { OnOk result (HasSpare rows.new link.now.a × HasSpare rows.new link.now.b) }
{
    rows.make_room(link.a)?;
    rows.make_room(link.b)?;
    Ok(())
}

/// A set of links, indexed by their ends, and the resources marked as outside concepts. Each link
/// has two different ends, and is held in normal form, whichever end it was stated from.
#[derive(Drop)]
pub struct Graph {
    alloc: Global,
    // Each link is in the rows of both its ends.
    rows: Lists<SidedLink>,
    // The number of links, each counted once.
    total: u64,
    marked: BTreeSet<ResNo>,
}

impl Model for Graph {
    ghost use Rattle.std.specs.Coded.{codes};
    ghost use Rattle.std.specs.FinSet as set;
    ghost use Rattle.std.specs.FinSet.{from_list};
    ghost use Rattle.thes_links.specs.GraphView.{GraphView};
    ghost use Rattle.thes_graph.specs.Index.{IsCountedIndex, links_in};

    ghost Value = { GraphView };

    ghost coded = { Prim.hlevel (codes, set.code) };

    ghost view = { λ g.
        record { links = links_in g.rows; outside = from_list g.marked.keys } };

    ghost invariant = { λ g. IsCountedIndex g.rows g.marked.keys g.total };
}

impl Graph {
    /// Creates a graph without links and without outside concepts, without allocating.
    pub fn new(alloc: Global) -> Graph
        ensures { result ≡ record { links = empty; outside = empty } }
    {
        Graph {
            alloc,
            rows: Lists::new(alloc),
            total: 0,
            marked: BTreeSet::new(alloc),
        }
    }

    /// Returns the normal form of the link, the only form in which the graph holds it.
    pub fn normal(&self, link: &Link) -> Link
        ensures { result ≡ normal_form (is_marked self.now) link.now }
    {
        normalize_ends(link, self.is_outside(link.a) || self.is_outside(link.b))
    }

    // Returns the links with an end at the node, sorted by the side of the node on which they lie.
    #[inline(always)]
    fn row_of_node(&self, n: ResNo) -> &[SidedLink]
        ensures row { result.now ≡ sided_links_at self.now.links n }
        ensures two_ends { HaveTwoEnds (Holds self.now.links) }
        ensures normal { AreNormal self.now }
    {
        self.rows.at(n)
    }

    // Returns the links with an end at the node of this number, sorted by the side of the node on
    // which they lie.
    fn row_at(&self, number: usize) -> &[SidedLink]
        ensures { result.now ≡ sided_links_at self.now.links number }
    {
        self.rows.list(number)
    }

    // Returns a number above those of all nodes with links.
    fn row_count(&self) -> usize
        ensures none { (n : ℕ) → result ≤ n → sided_links_at self.now.links n ≡ [] }
        ensures two_ends { HaveTwoEnds (Holds self.now.links) }
    {
        self.rows.list_count()
    }

    // Lists all links, sorted by their first ends.
    #[tactic(auto, using(crate::proofs::FirstEndLemmas::none_below, crate::proofs::FirstEndLemmas::listed_more, crate::proofs::FirstEndLemmas::all_below))]
    fn all_links(&self, alloc: Global) -> Result<Vec<Link>, AllocError>
        ensures { IfOk result (λ all. AreAll self.now.links all.items) }
    {
        let mut all = Vec::new(alloc);
        for number in 0..self.row_count() {
            list_first_ends(&mut all, self.row_at(number), number)?;
        }
        Ok(all)
    }

    // Returns the i-th of the node's links, with the side on which it lies.
    #[inline(always)]
    fn sided_link(&self, n: ResNo, i: usize) -> Option<SidedLink>
        ensures place { result ≡ slice_get (sided_links_at self.now.links n) i }
        ensures two_ends { HaveTwoEnds (Holds self.now.links) }
    {
        self.row_of_node(n).get(i).copied()
    }

    // Returns the i-th of the node's links, in the order of sides.
    #[inline(always)]
    fn nth_at(&self, n: ResNo, i: usize) -> Option<Link>
        ensures link { result ≡ slice_get (links_at self.now.links n) i }
        ensures two_ends { HaveTwoEnds (Holds self.now.links) }
    {
        match self.sided_link(n, i) {
            Some(sided_link) => Some(sided_link.link),
            None => None,
        }
    }

    // Returns the range of the node's links that lie on this side, in logarithmic time.
    #[inline(always)]
    fn part_at(&self, n: ResNo, side: Side) -> Part
        ensures part { IsPart (links_at self.now.links n) n side result }
        ensures two_ends { HaveTwoEnds (Holds self.now.links) }
    {
        let number = side.number();
        let row = self.row_of_node(n);
        let from = count_before(row, number);
        let to = count_until(row, number);
        Part { from, to }
    }

    // Returns the end of the link at which fewer links are held.
    fn emptier_end(&self, link: &Link) -> ResNo
        ensures { HasEnd result link.now }
    {
        if self.row_of_node(link.b).len() < self.row_of_node(link.a).len() {
            link.b
        } else {
            link.a
        }
    }

    // Checks whether the link is held with its ends in this order, in logarithmic time.
    fn holds(&self, link: &Link) -> bool
        ensures holds { result ≡ contains self.now.links link.now }
        ensures two_ends { HaveTwoEnds (Holds self.now.links) }
    {
        let end = self.emptier_end(link);
        self.row_of_node(end)
            .binary_search(&sided_link_of(link, end))
            .is_ok()
    }

    // Checks whether the resource is marked as an outside concept.
    fn has_marked(&self, n: ResNo) -> bool
        ensures outside { result ≡ is_marked self.now n }
        ensures two_ends { HaveTwoEnds (Holds self.now.links) }
    {
        self.marked.contains(&n)
    }

    /// Checks whether the resource is marked as an outside concept, so that mappings to it are held
    /// with their ends in the order given.
    pub fn is_outside(&self, n: ResNo) -> bool
        ensures { result ≡ is_marked self.now n }
    {
        self.has_marked(n)
    }

    /// Checks whether the link is held in its normal form, so that a symmetric link may be stated
    /// from either end.
    pub fn has(&self, link: &Link) -> bool
        ensures { result ≡ contains self.now.links (normal_form (is_marked self.now) link.now) }
    {
        self.holds(&self.normal(link))
    }

    /// Returns the number of links held, each counted once.
    pub fn size(&self) -> u64
        ensures { result ≡ len self.now.links }
    {
        self.total
    }

    // Lists the concept's neighbours of this sort in ascending order.
    fn neighbours(
        &self,
        alloc: Global,
        n: ResNo,
        neighbours: NeighbourKind,
    ) -> Result<Vec<ResNo>, AllocError>
        ensures { IfOk result
            (λ found. IsListing nat_cmp (IsNeighbour self.now.links neighbours n) found.items) }
    {
        let mut found = Vec::new(alloc);
        for sided_link in self.row_of_node(n) {
            let link = sided_link.link;
            let direction = direction_to(neighbours, link.kind);
            if let Some(m) = lead(direction, &link, n) {
                insert_sorted(&mut found, m)?;
            }
        }
        Ok(found)
    }

    /// Lists the concepts broader than this one in its scheme, by links of any type, in ascending
    /// order.
    pub fn broader_of(&self, alloc: Global, n: ResNo) -> Result<Vec<ResNo>, AllocError>
        ensures { IfOk result
            (λ found. IsListing nat_cmp (λ b. HasBroader self.now.links n b) found.items) }
    {
        self.neighbours(alloc, n, NeighbourKind::Broader)
    }

    /// Lists the concepts narrower than this one in its scheme, by links of any type, in ascending
    /// order.
    pub fn narrower_of(&self, alloc: Global, n: ResNo) -> Result<Vec<ResNo>, AllocError>
        ensures { IfOk result
            (λ found. IsListing nat_cmp (λ a. HasBroader self.now.links a n) found.items) }
    {
        self.neighbours(alloc, n, NeighbourKind::Narrower)
    }

    /// Lists the concepts related to this one in its scheme, in ascending order.
    pub fn related_of(&self, alloc: Global, n: ResNo) -> Result<Vec<ResNo>, AllocError>
        ensures { IfOk result (λ found. IsListing nat_cmp
            (λ m. HasLink self.now.links kinds.Related n m
            ⊎ HasLink self.now.links kinds.Related m n) found.items) }
    {
        self.neighbours(alloc, n, NeighbourKind::Related)
    }

    /// Lists the collections of which the resource is a member, in ascending order.
    pub fn collections_of(&self, alloc: Global, n: ResNo) -> Result<Vec<ResNo>, AllocError>
        ensures { IfOk result (λ found. IsListing nat_cmp
            (λ c. HasLink self.now.links kinds.Member c n) found.items) }
    {
        self.neighbours(alloc, n, NeighbourKind::Collections)
    }

    /// Lists the mappings of the concept as seen from it, sorted by the names of their kinds and
    /// then by number.
    pub fn mappings(&self, alloc: Global, n: ResNo) -> Result<Vec<(LinkKind, ResNo)>, AllocError>
        ensures { IfOk result
            (λ found. IsListing mapping_cmp (IsMapping self.now.links n) found.items) }
    {
        let mut found = Vec::new(alloc);
        for sided_link in self.row_of_node(n) {
            if let Some(mapping) = mapping_from(&sided_link.link, n) {
                list_mapping(&mut found, mapping)?;
            }
        }
        Ok(found)
    }

    /// Lists the typed hierarchical links of the concept as seen from it, sorted by the names of
    /// their types and then by number.
    pub fn typed_of(&self, alloc: Global, n: ResNo) -> Result<Vec<(TypedKind, ResNo)>, AllocError>
        ensures { IfOk result
            (λ found. IsListing typed_cmp (IsTypedLink self.now.links n) found.items) }
    {
        let mut found = Vec::new(alloc);
        for sided_link in self.row_of_node(n) {
            if let Some(typed) = typed_link_from(&sided_link.link, n) {
                insert_sorted(&mut found, typed)?;
            }
        }
        Ok(found)
    }

    /// Adds the link in normal form, unless it is held.
    pub fn add(&mut self, link: &Link) -> Result<(), AllocError>
        requires { link.now.a ≢ link.now.b }
        ensures ok { OnOk result (self.new ≡ record self.old {
          links = insert self.old.links (normal_form
              (is_marked self.old) link.now);
        }) }
        ensures err { OnErr result (self.new ≡ self.old) }
    {
        let new = self.normal(link);
        if self.holds(&new) {
            return Ok(());
        }
        let Some(total) = self.total.checked_add(1) else {
            return Err(AllocError);
        };
        reserve_ends(&mut self.rows, &new)?;
        self.rows.insert(new.a, sided_link_of(&new, new.a));
        self.rows.insert(new.b, sided_link_of(&new, new.b));
        self.total = total;
        Ok(())
    }

    /// Removes the normal form of the link, if it is held.
    pub fn remove(&mut self, link: &Link)
        ensures { self.new ≡ record self.old {
          links = remove self.old.links
              (normal_form (is_marked self.old) link.now);
        } }
    {
        let old = self.normal(link);
        self.detach(&old);
    }

    // Removes the link at both its ends, if it is held with its ends in this order.
    fn detach(&mut self, link: &Link)
        ensures { self.new ≡ record self.old { links = remove self.old.links link.now } }
    {
        if self.holds(link) {
            self.rows.remove(link.a, &sided_link_of(link, link.a));
            self.rows.remove(link.b, &sided_link_of(link, link.b));
            self.total = self.total.saturating_sub(1);
        }
    }

    // Returns the link that a merge adds in place of this one, in normal form, or None if both its
    // ends would be the target or it is held already.
    fn merge_addition(&self, link: &Link, source: ResNo, target: ResNo) -> Option<Link>
        ensures { result ≡ added_link self.now source target link.now }
    {
        let new = self.normal(&link_after_merge(link, source, target)?);
        if self.holds(&new) { None } else { Some(new) }
    }

    /// Returns the links that a merge adds in place of those at the source: those that are held
    /// after the merge, in normal form, and aren't held before.
    pub fn merge_additions(&self, source: ResNo, target: ResNo) -> Result<Vec<Link>, AllocError>
        requires { source ≢ target }
        ensures merge_additions { IfOk result
            (λ merge_additions. AreMergeAdditions self.now source target merge_additions.items) }
        ensures two_ends { HaveTwoEnds (Holds self.now.links) }
        ensures normal { AreNormal self.now }
    {
        let mut merge_additions = Vec::new(self.alloc);
        for sided_link in self.row_of_node(source) {
            if let Some(new) = self.merge_addition(&sided_link.link, source, target) {
                merge_additions.push(new)?;
            }
        }
        Ok(merge_additions)
    }

    /// Adds these links, none of which is held yet; adds none if memory runs out.
    pub fn add_all(&mut self, links: &[Link]) -> Result<(), AllocError>
        requires { AreNew self.old links.now }
        ensures ok { OnOk result
            (self.new ≡ record self.old { links = with_all self.old.links links.now }) }
        ensures err { OnErr result (self.new ≡ self.old) }
    {
        for (i, link) in links.iter().enumerate() {
            if let Err(error) = self.add(link) {
                // The links added before this one are held, so they are removed again
                // (DECISIONS.md, Links).
                self.detach_all(&links[..i]);
                return Err(error);
            }
        }
        Ok(())
    }

    /// Removes each of these links that is held with its ends in this order; never fails.
    pub fn detach_all(&mut self, links: &[Link])
        ensures { self.new ≡ record self.old { links = without_links self.old.links links.now } }
    {
        for link in links {
            self.detach(link);
        }
    }

    // Returns a link with an end at the node, or None if there is none.
    fn last_at(&self, n: ResNo) -> Option<Link>
        ensures { MatchOption result ((l : Link) → Holds self.now.links l → HasEnd n l
            → ⊥) (λ l. Holds self.now.links l × HasEnd n l) }
    {
        match self.row_of_node(n).last() {
            Some(sided_link) => Some(sided_link.link),
            None => None,
        }
    }

    /// Removes all links with an end at the node; never fails.
    #[tactic(auto, using(crate::proofs::ChangeLemmas::fewer_links, crate::proofs::ChangeLemmas::without_node_none, crate::proofs::ChangeLemmas::without_node_removed))]
    pub fn drop_all(&mut self, n: ResNo)
        ensures { self.new ≡ record self.old { links = links_after_deprecation n self.old.links } }
    {
        while let Some(link) = self.last_at(n) {
            self.detach(&link);
        }
    }

    /// Replaces the source with the target in each link, and drops links whose two ends are then
    /// the target.
    pub fn contract(&mut self, source: ResNo, target: ResNo) -> Result<(), AllocError>
        requires { source ≢ target }
        ensures ok { OnOk result (self.new ≡ record self.old {
          links = links_after_merge
              (is_marked self.old) source target self.old.links;
        }) }
        ensures err { OnErr result (self.new ≡ self.old) }
    {
        let merge_additions = self.merge_additions(source, target)?;
        // Adding can run out of memory; removing can't fail.
        self.add_all(&merge_additions)?;
        self.drop_all(source);
        Ok(())
    }

    /// Marks a resource without links as an outside concept, so that mappings to it are held with
    /// their ends in the order given.
    pub fn mark_outside(&mut self, n: ResNo) -> Result<(), AllocError>
        requires { (l : Link) → Holds self.old.links l → HasEnd n l → ⊥ }
        ensures ok { OnOk result
            (self.new ≡ record self.old { outside = insert self.old.outside n }) }
        ensures err { OnErr result (self.new ≡ self.old) }
    {
        self.marked.insert(n)?;
        Ok(())
    }

    /// Removes the mark of a resource without links as an outside concept; never fails.
    pub fn unmark_outside(&mut self, n: ResNo)
        requires { (l : Link) → Holds self.old.links l → HasEnd n l → ⊥ }
        ensures { self.new ≡ record self.old { outside = remove self.old.outside n } }
    {
        self.marked.remove(&n);
    }

    /// Returns a reader of the links, with its count of visits at 0.
    pub fn walk(&self) -> Walk<'_>
        ensures { result ≡ record { net = self.now; visits = 0 } }
    {
        Walk {
            graph: self,
            visits: 0,
        }
    }

    /// Returns the first of Cycle, S27 and S46 that the links held break, by a check of all links.
    pub fn check_whole(&self, alloc: Global) -> Result<Option<Refusal>, AllocError>
        ensures { IfOk result (IsFirstBroken (Holds self.now.links)) }
    {
        let all = self.all_links(alloc)?;
        let mut walk = self.walk();
        let first = check_listed_links(alloc, &mut walk, &all)?;
        Ok(first)
    }
}

/// A reader of a graph's links, one at a time, with a count of the visits.
#[derive(Drop)]
pub struct Walk<'a> {
    graph: &'a Graph,
    visits: u64,
}

impl<'a> Model for Walk<'a> {
    ghost use Rattle.std.specs.Coded.{codes};
    ghost use Rattle.std.specs.FinSet as set;
    ghost use Rattle.thes_links.specs.GraphView.{CountedGraphView};

    ghost Value = { CountedGraphView };

    ghost coded = { Prim.hlevel (codes, set.code) };

    ghost view = { λ w. record { net = w.graph.now; visits = w.visits } };
}

/// Counts a visit for each link returned and each look-up of a given link, up to `u64::MAX`.
impl<'a> Links for Walk<'a> {
    ghost net = { λ w. w.net };

    ghost links_of = { λ n. links_at n.links };

    ghost count = { λ w. w.visits };

    fn link_at(&mut self, node: ResNo, i: usize) -> Option<Link> {
        match self.graph.nth_at(node, i) {
            Some(link) => {
                self.visits = self.visits.saturating_add(1);
                Some(link)
            }
            None => None,
        }
    }

    #[inline(always)]
    fn part(&self, node: ResNo, side: Side) -> Part {
        self.graph.part_at(node, side)
    }

    fn holds(&mut self, link: &Link) -> bool {
        self.visits = self.visits.saturating_add(1);
        self.graph.holds(link)
    }

    fn is_outside(&self, n: ResNo) -> bool {
        self.graph.has_marked(n)
    }

    fn visits(&self) -> u64 {
        self.visits
    }
}
