//! Queries of the storage for the facts about postings that the check of a request needs.
ghost use Rattle.std.specs.Prelude.{◌≡◌, [], None, IfOk};
ghost use Rattle.thes_store.specs.Storage.{QueryFrame};
ghost use Rattle.thes_office.specs.QueryFrames.{FactsInTables, KeyInTables, RowInTables, RowsInTables, AssignedInTables};

use std::alloc::Global;
use thes_base::fault::Fault;
use thes_base::number::{PostNo, ResNo};
use thes_base::request::Command;
use thes_base::text::Key;
use thes_core::Facts;
use thes_store::keeper::Keeper;
use thes_tables::rows::PostingRow;

/// Queries the storage for the facts about postings that the check of the request needs. A post
/// needs the posting with its key. A withdrawal or a split needs the postings that it names, and a
/// merge the numbers of the postings that it moves. Any other request needs none.
pub fn facts_of<K: Keeper>(alloc: Global, keeper: &mut K, command: &Command) -> Result<Facts, Fault>
    ensures in_tables { IfOk result (λ facts. (K.view keeper.new).is_up
        → FactsInTables (K.view keeper.old).rows command.now facts) }
    ensures asks { QueryFrame (K.view keeper.old) (K.view keeper.new) result }
{
    match command {
        Command::Post(key, _, _) => {
            let known = posting_of_key(keeper, key)?;
            Ok(Facts {
                known,
                named_postings: Vec::new(alloc),
                standing: Vec::new(alloc),
            })
        }
        Command::Withdraw(posting) => {
            let named_postings = postings_of_numbers(alloc, keeper, &[*posting])?;
            Ok(named_facts(alloc, named_postings))
        }
        Command::Split(_, _, _, postings) => {
            let named_postings = postings_of_numbers(alloc, keeper, postings.as_slice())?;
            Ok(named_facts(alloc, named_postings))
        }
        Command::Merge(source, _) => {
            let standing = numbers_assigned_to(keeper, *source)?;
            Ok(Facts {
                known: None,
                named_postings: Vec::new(alloc),
                standing,
            })
        }
        _ => Ok(Facts::new(alloc)),
    }
}

/// Returns facts that consist of the rows of the named postings alone.
pub fn named_facts(alloc: Global, named_postings: Vec<Option<PostingRow>>) -> Facts
    ensures known { result.known ≡ None }
    ensures named_postings { result.named_postings.items ≡ named_postings.items }
    ensures standing { result.standing.items ≡ [] }
{
    Facts {
        known: None,
        named_postings,
        standing: Vec::new(alloc),
    }
}

// Looks up in the storage the row of the posting with this key; None if no posting has the key.
fn posting_of_key<K: Keeper>(keeper: &mut K, key: &Key) -> Result<Option<PostingRow>, Fault>
    ensures in_tables { IfOk result (λ found. (K.view keeper.new).is_up
        → KeyInTables (K.view keeper.old).rows key.now found) }
    ensures asks { QueryFrame (K.view keeper.old) (K.view keeper.new) result }
{
    keeper.find(key)
}

// Looks up in the storage the row of the posting with this number; None if no posting has it.
fn posting_of_number<K: Keeper>(
    keeper: &mut K,
    posting: PostNo,
) -> Result<Option<PostingRow>, Fault>
    ensures in_tables { IfOk result (λ row. (K.view keeper.new).is_up
        → RowInTables (K.view keeper.old).rows posting row) }
    ensures asks { QueryFrame (K.view keeper.old) (K.view keeper.new) result }
{
    keeper.row(posting)
}

// Looks up the rows of the postings with these numbers, in that order; None for a number without a
// posting.
fn postings_of_numbers<K: Keeper>(
    alloc: Global,
    keeper: &mut K,
    postings: &[PostNo],
) -> Result<Vec<Option<PostingRow>>, Fault>
    ensures in_tables { IfOk result (λ rows. (K.view keeper.new).is_up
        → RowsInTables (K.view keeper.old).rows postings.now rows.items) }
    ensures asks { QueryFrame (K.view keeper.old) (K.view keeper.new) result }
{
    let mut rows = Vec::new(alloc);
    for posting in postings {
        match posting_of_number(keeper, *posting) {
            Ok(row) => rows.push(row)?,
            Err(fault) => return Err(fault),
        }
    }
    Ok(rows)
}

// Looks up the numbers of the postings assigned to a concept, in increasing order.
fn numbers_assigned_to<K: Keeper>(keeper: &mut K, concept: ResNo) -> Result<Vec<PostNo>, Fault>
    ensures in_tables { IfOk result (λ numbers. (K.view keeper.new).is_up
        → AssignedInTables (K.view keeper.old).rows concept numbers.items) }
    ensures asks { QueryFrame (K.view keeper.old) (K.view keeper.new) result }
{
    keeper.standing_numbers(concept)
}
