//! Posts and merges over any storage.
ghost use Rattle.std.specs.Prelude.{◌≡◌, ◌+◌, [], true, IfOk, OnOk};
ghost use Rattle.thes_tables.specs.Cells.{cells_of_tables};
ghost use Rattle.thes_tables.specs.Rows.{tables_after_change, ChangeFits, DeltaFits};
ghost use Rattle.thes_tables.specs.Tables.{Tables};
ghost use Rattle.thes_store.specs.Storage.{CommitFrame};
ghost use Rattle.test_keeper.specs.PostedTables.{AwaitsPosting};

use crate::failure::Failure;
use std::alloc::{AllocError, Global};
use thes_base::fault::Fault;
use thes_base::number::{MoveNo, PostNo, ResNo};
use thes_base::text::{Key, RecordName};
use thes_store::keeper::Keeper;
use thes_tables::change::Change;
use thes_tables::delta::Delta;
use thes_tables::rows::{MoveRow, PostingRow};

/// The number of concepts to which postings are assigned in turn; the first has the number 2.
pub const CONCEPTS: u32 = 10;

/// Commits one change in a transaction of its own.
pub fn commit_one<K: Keeper>(alloc: Global, keeper: &mut K, change: Change) -> Result<(), Fault>
    requires { (K.view keeper.old).is_up → (t : Tables)
        → (K.view keeper.old).rows ≡ cells_of_tables t → ChangeFits change t }
    ensures ok { OnOk result ((K.view keeper.new).is_up → (t : Tables)
        → (K.view keeper.old).rows ≡ cells_of_tables t
        → (K.view keeper.new).rows ≡ cells_of_tables (tables_after_change change t)) }
    ensures keeps { CommitFrame (K.view keeper.old) (K.view keeper.new) result }
{
    let mut delta = Delta::new(alloc);
    delta.push(change)?;
    keeper.commit(delta)
}

// Inserts the row of the next posting if its key is new, and returns whether it was.
fn post<K: Keeper>(alloc: Global, keeper: &mut K, row: PostingRow) -> Result<bool, Fault>
    requires { AwaitsPosting (K.view keeper.old) row.number }
    ensures { IfOk result (λ is_new. is_new ≡ true
        → AwaitsPosting (K.view keeper.new) (row.number + 1)) }
{
    match keeper.find(&row.key)? {
        Some(_) => Ok(false),
        None => {
            commit_one(alloc, keeper, Change::AddPosting(row))?;
            Ok(true)
        }
    }
}

/// Returns a letter followed by a number in decimal.
pub fn name_with_number(alloc: Global, letter: &str, number: u32) -> Result<String, AllocError> {
    format!(in alloc; "{letter}{number}")
}

/// Inserts the postings 1 to `count`, each in a commit of its own, and assigns them in turn to the
/// concepts 2 to 11.
pub fn post_all<K: Keeper>(alloc: Global, keeper: &mut K, count: u32) -> Result<(), Failure>
    requires { AwaitsPosting (K.view keeper.old) 1 }
    ensures { OnOk result (AwaitsPosting (K.view keeper.new) (count + 1)) }
{
    for made in 0..count {
        let number = made + 1;
        let key = Key::read(alloc, name_with_number(alloc, "k", number)?.as_str())?;
        let rec = RecordName::read(alloc, name_with_number(alloc, "r", number)?.as_str())?;
        let concept = ResNo::new(2 + made % CONCEPTS);
        let row = PostingRow {
            number: PostNo::new(number),
            key,
            rec,
            first: concept,
            place: concept,
            withdrawn: false,
        };
        if !post(alloc, keeper, row)? {
            return Err(Failure::Known);
        }
    }
    Ok(())
}

/// Returns the changes of a merge: one that moves all postings from the source to the target, and
/// `count` that each add a row of moves.
pub fn merge_delta(
    alloc: Global,
    source: ResNo,
    target: ResNo,
    count: u32,
) -> Result<Delta, AllocError>
    ensures { IfOk result (λ delta. (t : Tables) → t.move ≡ [] → DeltaFits delta t) }
{
    let mut delta = Delta::new(alloc);
    delta.push(Change::MoveAll(source, target))?;
    for i in 0..count {
        let number = i + 1;
        delta.push(Change::AddMove(MoveRow {
            number: MoveNo::new(number),
            posting: PostNo::new(i.wrapping_mul(CONCEPTS).max(1)),
            source,
            target,
        }))?;
    }
    Ok(delta)
}

/// Moves all postings from concept 2 to concept 3 in one commit, which also adds `count` rows of
/// moves. The storage must have exactly `posts` postings.
pub fn merge<K: Keeper>(
    alloc: Global,
    keeper: &mut K,
    posts: u32,
    count: u32,
) -> Result<(), Failure>
    requires { AwaitsPosting (K.view keeper.old) (posts + 1) }
{
    let delta = merge_delta(alloc, ResNo::new(2), ResNo::new(3), count)?;
    keeper.commit(delta)?;
    Ok(())
}
