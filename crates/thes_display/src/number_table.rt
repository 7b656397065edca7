//! Tables of values at numbers: ranks of concepts, which are the indexes of their terms in
//! alphabetical order, places of headings, and homes of ranks.
ghost use Rattle.std.specs.Prelude.{◌≡◌, ◌≢◌, ℕ, Some, OnOk, IfOk};
ghost use Rattle.std.specs.List.{filter_map};
ghost use Rattle.thes_display.specs.HierarchyParts.{AreRanks, HaveOneRank, rank_at};

use crate::term::Term;
use std::alloc::{AllocError, Global};
use thes_base::number::ResNo;

/// Sets the value at this place of a table, and extends the table if it ends before the place.
pub fn set_value(
    table: &mut Vec<Option<usize>>,
    place: usize,
    value: usize,
) -> Result<(), AllocError>
    ensures here { OnOk result (rank_at table.new.items place ≡ Some value) }
    ensures other { OnOk result
        ((m : ℕ) → m ≢ place → rank_at table.new.items m ≡ rank_at table.old.items m) }
{
    'opening: while table.len() <= place {
        table.push(None)?;
    }
    table[place] = Some(value);
    Ok(())
}

/// Returns the ranks of the concepts of these terms, each at the number of its concept.
#[tactic(auto, using(crate::proofs::RankLemmas::ranks_more, crate::proofs::RankLemmas::all_ranks))]
pub fn ranks_of(alloc: Global, terms: &[Term]) -> Result<Vec<Option<usize>>, AllocError>
    requires { HaveOneRank terms.now }
    ensures { IfOk result (λ ranks. AreRanks terms.now (rank_at ranks.items)) }
{
    let mut ranks = Vec::new(alloc);
    for (rank, term) in terms.iter().enumerate() {
        set_value(&mut ranks, term.concept().get() as usize, rank)?;
    }
    Ok(ranks)
}

/// Returns the value at this place of a table; None if no value is set there, or past the end.
pub fn value_at(table: &[Option<usize>], place: usize) -> Option<usize>
    ensures { result ≡ rank_at table.now place }
{
    match table.get(place) {
        Some(value) => *value,
        None => None,
    }
}

/// Returns the values of the concepts in a table, in the order of the concepts, leaving out those
/// without a value.
pub fn concept_values(
    alloc: Global,
    table: &[Option<usize>],
    concepts: &[ResNo],
) -> Result<Vec<usize>, AllocError>
    ensures { IfOk result (λ found. found.items ≡ filter_map (rank_at table.now) concepts.now) }
{
    let mut found = Vec::new(alloc);
    for concept in concepts {
        if let Some(value) = value_at(table, concept.get() as usize) {
            found.push(value)?;
        }
    }
    Ok(found)
}
