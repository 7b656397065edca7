//! The facts about postings that the check of a plan's request needs: those of the state after the
//! plan's earlier requests, which aren't committed yet.
ghost use Rattle.std.specs.Prelude.{◌≡◌, IfOk, map};
ghost use Rattle.thes_base.specs.Resources.{entry_at};
ghost use Rattle.thes_store.specs.Storage.{QueryFrame};
ghost use Rattle.thes_office.specs.PlanFacts.{FactsInPlan};
ghost use Rattle.thes_plan_postings.specs.PlanPostings.{InPlanRows};

use crate::facts::named_facts;
use std::alloc::Global;
use thes_base::fault::Fault;
use thes_base::number::PostNo;
use thes_base::request::Command;
use thes_core::Facts;
use thes_plan_postings::plan_postings::PlanPostings;
use thes_store::keeper::Keeper;
use thes_tables::rows::PostingRow;

/// Collects the facts about postings that the check of one more request of a plan needs: what the
/// storage has, with the changes that the plan has made so far.
pub fn facts_in_plan<K: Keeper>(
    alloc: Global,
    keeper: &mut K,
    postings: &PlanPostings,
    command: &Command,
) -> Result<Facts, Fault>
    ensures in_plan { IfOk result (λ facts. (K.view keeper.new).is_up
        → FactsInPlan (K.view keeper.old).rows postings.now command.now facts) }
    ensures asks { QueryFrame (K.view keeper.old) (K.view keeper.new) result }
{
    match command {
        Command::Post(key, _, _) => {
            let known = postings.find(keeper, key)?;
            Ok(Facts {
                known,
                named_postings: Vec::new(alloc),
                standing: Vec::new(alloc),
            })
        }
        Command::Withdraw(posting) => {
            let named_postings = rows_in_plan(alloc, keeper, postings, &[*posting])?;
            Ok(named_facts(alloc, named_postings))
        }
        Command::Split(_, _, _, listed) => {
            let named_postings = rows_in_plan(alloc, keeper, postings, listed.as_slice())?;
            Ok(named_facts(alloc, named_postings))
        }
        Command::Merge(source, _) => {
            let standing = postings.assigned_numbers(keeper, *source)?;
            Ok(Facts {
                known: None,
                named_postings: Vec::new(alloc),
                standing,
            })
        }
        _ => Ok(Facts::new(alloc)),
    }
}

// Looks up the rows of the postings with these numbers, in that order, as the plan has changed
// them; None for a number without a posting.
fn rows_in_plan<K: Keeper>(
    alloc: Global,
    keeper: &mut K,
    postings: &PlanPostings,
    numbers: &[PostNo],
) -> Result<Vec<Option<PostingRow>>, Fault>
    ensures in_plan { IfOk result (λ found. (K.view keeper.new).is_up
        → InPlanRows (K.view keeper.old).rows postings.now
        (λ rows. found.items ≡ map (entry_at rows) numbers.now)) }
    ensures asks { QueryFrame (K.view keeper.old) (K.view keeper.new) result }
{
    let mut rows = Vec::new(alloc);
    for number in numbers {
        match postings.row(keeper, *number) {
            Ok(row) => rows.push(row)?,
            Err(fault) => return Err(fault),
        }
    }
    Ok(rows)
}
