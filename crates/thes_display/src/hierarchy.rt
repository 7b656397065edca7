//! Computes the hierarchy of a scheme from the links of a core, and the text of its display. The
//! rank of a concept is the index of its term in alphabetical order; the home of a concept is its
//! broader concept with the least rank.
ghost use Rattle.std.specs.Prelude.{◌≡◌, ◌<◌, ◌↔◌, [], true, false, OnOk, IsPermutation, IsSorted, ℕ, Some, None, length, IfOk, IsTrue};
ghost use Rattle.thes_base.specs.Listing.{IsListing};
ghost use Rattle.thes_base.specs.State.{State};
ghost use Rattle.thes_core.specs.CoreView.{IsViewOf};
ghost use Rattle.thes_vocab.specs.Vocabulary.{IsConceptOf};
ghost use Rattle.thes_display.specs.ChildLists.{child_cmp, lists};
ghost use Rattle.thes_display.specs.Lines.{untyped as no_types};
ghost use Rattle.thes_display.specs.EntryTerms.{HasNoTypedLink};
ghost use Rattle.thes_display.specs.Hierarchical.{AreTerms, AreTypes, HasRank, IsHierarchicalDisplay};
ghost use Rattle.thes_display.specs.HierarchyParts.{AreBelow, AreHomes, AreHomesSet, CanFollowLinks, HaveOneRank, IsChild, IsClosed, IsTopByHomes, rank_at};

use crate::entry_terms::{has_link, has_typed_link, sorted_terms_of};
use crate::number_table::{concept_values, ranks_of, set_value, value_at};
use crate::term::Term;
use crate::walk::{Child, Types, hierarchy_text};
use std::alloc::{AllocError, Global};
use thes_base::data::LinkKind;
use thes_base::number::ResNo;
use thes_base::text::Tag;
use thes_core::Core;

// Returns the terms of the live concepts of a scheme, in alphabetical order.
fn terms_of(alloc: Global, core: &Core, scheme: ResNo, tag: &Tag) -> Result<Vec<Term>, AllocError>
    requires { core.now.spent ≡ false }
    ensures terms { (s : State) → IsViewOf core.now s →
        IfOk result (λ terms. AreTerms s scheme tag.now terms.items) }
    ensures one_rank { IfOk result (λ terms. HaveOneRank terms.items) }
    ensures closed { (s : State) → IsViewOf core.now s →
        IfOk result (λ terms. IsClosed core.now.links terms.items) }
{
    let terms = sorted_terms_of(alloc, core, core.live_of(scheme), tag)?;
    Ok(terms)
}

// Checks whether `homes` has no home for the concept with the rank `child`.
fn is_homeless(homes: &[Option<usize>], child: usize) -> bool
    ensures none { result ≡ true → rank_at homes.now child ≡ None }
    ensures some { result ≡ false → (home : ℕ) × (rank_at homes.now child ≡ Some home) }
{
    match value_at(homes, child) {
        Some(_) => false,
        None => true,
    }
}

// Sorts children by their ranks, in ascending order.
fn sort_children(children: &mut Vec<Child>) -> Result<(), AllocError>
    ensures same { IsPermutation children.old.items children.new.items }
    ensures sorted { OnOk result (IsSorted child_cmp children.new.items) }
{
    children.sort_by_key(|child| child.rank)?;
    Ok(())
}

// Returns the types of a line without a typed link.
fn untyped() -> Types
    ensures { result ≡ no_types }
{
    Types {
        generic: false,
        partitive: false,
        instantial: false,
    }
}

// Returns the types of the links from the concept with the rank `child` to the broader one with the
// rank `rank`. If `is_typed` is false, the latter has no typed link, and none is looked up.
#[tactic(auto, using(crate::proofs::RankLemmas::rank_of_term, crate::proofs::SideLemmas::no_type))]
fn types_at(core: &Core, terms: &[Term], is_typed: bool, child: usize, rank: usize) -> Types
    requires unspent { core.now.spent ≡ false }
    requires within { (child < length terms.now) × (rank < length terms.now) }
    requires typed { is_typed ≡ false → (n : ℕ) → HasRank terms.now n rank
        → HasNoTypedLink core.now.links n }
    ensures { AreTypes core.now.links terms.now result child rank }
{
    if !is_typed {
        return untyped();
    }
    let (a, b) = (terms[child].concept(), terms[rank].concept());
    Types {
        generic: has_link(core, LinkKind::BroaderGeneric, a, b),
        partitive: has_link(core, LinkKind::BroaderPartitive, a, b),
        instantial: has_link(core, LinkKind::BroaderInstantial, a, b),
    }
}

// The terms of a scheme's concepts, sorted, and, at the number of each concept, its rank: the index
// of its term.
#[derive(Clone, Copy)]
struct RankedTerms<'a> {
    terms: &'a [Term],
    ranks: &'a [Option<usize>],
}

// Returns the children of the concept with this rank, sorted by rank: its narrower concepts that
// have a rank. The concept is the home of each child that has none in `homes`, which lists the
// homes with lesser ranks.
fn children_of(
    alloc: Global,
    core: &Core,
    ranked: &RankedTerms<'_>,
    homes: &[Option<usize>],
    rank: usize,
) -> Result<Vec<Child>, AllocError>
    requires links { CanFollowLinks core.now ranked.now.terms.now (rank_at ranked.now.ranks.now) }
    requires within { rank < length ranked.now.terms.now }
    requires homes { AreHomes core.now.links ranked.now.terms.now rank homes.now }
    ensures { let is_child = IsChild core.now.links ranked.now.terms.now rank in
        IfOk result (λ children. IsListing child_cmp is_child children.items) }
{
    let terms = ranked.terms;
    let n = terms[rank].concept();
    let narrower = core.narrower_of(alloc, n)?;
    let is_typed = has_typed_link(alloc, core, n)?;
    // Narrower concepts without a rank, of which a legal state has none, are left out
    // (DECISIONS.md, Displays and exports).
    let found = concept_values(alloc, ranked.ranks, narrower.as_slice())?;
    let mut children = Vec::new(alloc);
    for child in &found {
        let types = types_at(core, terms, is_typed, *child, rank);
        let at_home = is_homeless(homes, *child);
        children.push(Child {
            rank: *child,
            types,
            at_home,
        })?;
    }
    sort_children(&mut children)?;
    Ok(children)
}

// Records the concept with this rank as the home of each child that is at home below it.
fn set_homes(
    homes: &mut Vec<Option<usize>>,
    children: &[Child],
    rank: usize,
) -> Result<(), AllocError>
    ensures { OnOk result (AreHomesSet rank children.now homes.old.items homes.new.items) }
{
    for child in children {
        if child.at_home {
            set_value(homes, child.rank, rank)?;
        }
    }
    Ok(())
}

// Returns the children of each concept, in the order of the concepts' ranks, and records the home
// of each child in `homes`.
fn below_of(
    alloc: Global,
    core: &Core,
    ranked: &RankedTerms<'_>,
    homes: &mut Vec<Option<usize>>,
) -> Result<Vec<Vec<Child>>, AllocError>
    requires links { CanFollowLinks core.now ranked.now.terms.now (rank_at ranked.now.ranks.now) }
    requires none { homes.old.items ≡ [] }
    ensures below { let terms = ranked.now.terms.now in
        IfOk result (λ below. AreBelow core.now.links terms (length terms) (lists below.items)) }
    ensures homes { let terms = ranked.now.terms.now in
        OnOk result (AreHomes core.now.links terms (length terms) homes.new.items) }
{
    let mut below = Vec::new(alloc);
    for rank in 0..ranked.terms.len() {
        let children = children_of(alloc, core, ranked, homes, rank)?;
        set_homes(homes, children.as_slice(), rank)?;
        below.push(children)?;
    }
    Ok(below)
}

// Returns the top concepts, sorted by rank: those of the first `count` ranks that have no home.
fn tops_of(alloc: Global, homes: &[Option<usize>], count: usize) -> Result<Vec<Child>, AllocError>
    ensures { IfOk result
        (λ tops. IsListing child_cmp (IsTopByHomes homes.now count) tops.items) }
{
    let mut tops = Vec::new(alloc);
    for rank in 0..count {
        if is_homeless(homes, rank) {
            tops.push(Child {
                rank,
                types: untyped(),
                at_home: true,
            })?;
        }
    }
    Ok(tops)
}

/// Returns the text of the hierarchical display of a scheme in a language, in UTF-8.
pub fn hierarchical_text(
    alloc: Global,
    core: &Core,
    scheme: ResNo,
    tag: &Tag,
) -> Result<Vec<u8>, AllocError>
    requires { core.now.spent ≡ false }
    ensures { (s : State) → IsViewOf core.now s →
        IfOk result (λ text. IsHierarchicalDisplay s scheme tag.now text.items) }
{
    let owned = terms_of(alloc, core, scheme, tag)?;
    let terms = owned.as_slice();
    let owned_ranks = ranks_of(alloc, terms)?;
    let ranks = owned_ranks.as_slice();
    let ranked = RankedTerms { terms, ranks };
    let mut homes = Vec::new(alloc);
    let below = below_of(alloc, core, &ranked, &mut homes)?;
    let tops = tops_of(alloc, homes.as_slice(), terms.len())?;
    let text = hierarchy_text(alloc, terms, tops, below)?;
    Ok(text)
}
