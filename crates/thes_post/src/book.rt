//! The counts of postings, kept in memory; the postings themselves are in the storage.
ghost use Rattle.std.specs.Prelude.{◌≡◌, ◌≢◌, ◌<◌, ◌≤◌, ◌+◌, ◌-◌, ◌^◌, ℕ, [], length, slice_index, IfOk, OnOk, OnErr};
ghost use Rattle.thes_post.specs.PostingCounts.{count_of, HasRoomForPost, HasPostingToWithdraw, HasRoomForMoves, CountsAfterPost, CountsAfterWithdrawal, CountsAfterMoves};
ghost use Rattle.thes_post.specs.PostingCounts.{HasMovesToTakeBack, HasPostToTakeBack, HasWithdrawalToTakeBack, ShiftsCounts};

use std::alloc::{AllocError, Global};
use std::marker::Model;
use thes_base::data::Totals;
use thes_base::number::{PostNo, ResNo};

/// The number of postings assigned to each concept, and the total numbers of postings accepted, of
/// postings withdrawn, and of moves.
#[derive(Drop)]
pub struct Book {
    counts: Vec<u32>,
    accepted: u32,
    withdrawn: u32,
    moves: u32,
}

impl Model for Book {
    ghost use Rattle.std.specs.Prelude.{◌≤◌};
    ghost use Rattle.thes_post.specs.PostingCounts.{PostingCounts};

    ghost Value = { PostingCounts };

    ghost view = { λ a. record {
      counts = a.counts.items;
      accepted = a.accepted;
      withdrawn = a.withdrawn;
      moves = a.moves;
    } };

    ghost invariant = { λ a. a.withdrawn ≤ a.accepted };
}

// Returns the number of postings assigned to the concept `place`; 0 past the end.
fn count_at(counts: &[u32], place: usize) -> u32
    ensures { result ≡ slice_index counts.now place }
{
    counts.get(place).copied().unwrap_or(0)
}

// Appends counts of 0 until there is one for the concept `place`; after an error the counts are as
// before.
fn grow_counts(counts: &mut Vec<u32>, place: usize) -> Result<(), AllocError>
    requires { place < 2 ^ 32 }
    ensures same { (n : ℕ) → slice_index counts.new.items n ≡ slice_index counts.old.items n }
    ensures within { OnOk result (place < length counts.new.items) }
    ensures err { OnErr result (counts.new.items ≡ counts.old.items) }
{
    if counts.len() <= place {
        counts.resize(place + 1, 0)?;
    }
    Ok(())
}

// Moves `count` postings from the count of the concept `from` to that of `to`, which saturates at
// 2³² - 1; after an error the counts are as before.
fn shift_counts(counts: &mut Vec<u32>, from: usize, to: usize, count: u32) -> Result<(), AllocError>
    requires has { (0 < count) × (count ≤ slice_index counts.old.items from) }
    requires ends { (from ≢ to) × (to < 2 ^ 32) }
    ensures ok { OnOk result (ShiftsCounts from to count counts.old.items counts.new.items) }
    ensures err { OnErr result (counts.new.items ≡ counts.old.items) }
{
    grow_counts(counts, to)?;
    counts[from] -= count;
    counts[to] = counts[to].saturating_add(count);
    Ok(())
}

impl Book {
    /// Creates counts that are all 0, without allocating.
    pub fn new(alloc: Global) -> Book
        ensures { result ≡ record { counts = []; accepted = 0; withdrawn = 0; moves = 0 } }
    {
        Book {
            counts: Vec::new(alloc),
            accepted: 0,
            withdrawn: 0,
            moves: 0,
        }
    }

    /// Counts a new posting, which came to the concept by `moves` moves along replacements, and
    /// returns its number. Counts saturate at 2³² - 1; after an error they are as before.
    pub fn post(&mut self, concept: ResNo, moves: u64) -> Result<PostNo, AllocError>
        ensures number { IfOk result (λ n.
            HasRoomForPost concept moves self.old → n ≡ self.old.accepted + 1) }
        ensures ok { OnOk result (HasRoomForPost concept moves self.old
            → CountsAfterPost concept moves self.old self.new) }
        ensures err { OnErr result (self.new ≡ self.old) }
    {
        let place = concept.get() as usize;
        grow_counts(&mut self.counts, place)?;
        self.counts[place] = self.counts[place].saturating_add(1);
        self.accepted = self.accepted.saturating_add(1);
        self.moves = self
            .moves
            .saturating_add(u32::try_from(moves).unwrap_or(u32::MAX));
        Ok(PostNo::new(self.accepted))
    }

    /// Counts a posting assigned to the concept as withdrawn; changes nothing if there is none.
    pub fn withdraw(&mut self, concept: ResNo)
        ensures counted { HasPostingToWithdraw concept self.old
            → CountsAfterWithdrawal concept self.old self.new }
        ensures none { (HasPostingToWithdraw concept self.old → ⊥) → self.new ≡ self.old }
    {
        let count = count_at(self.counts.as_slice(), concept.get() as usize);
        if count > 0 && self.withdrawn < self.accepted {
            self.counts[concept.get() as usize] = count - 1;
            self.withdrawn += 1;
        }
    }

    /// Undoes `post` for a posting that came to the concept by `moves` moves; changes nothing if
    /// the counts show that there is none.
    pub fn take_back_post(&mut self, concept: ResNo, moves: u64)
        ensures counted { HasPostToTakeBack concept moves self.old
            → CountsAfterPost concept moves self.new self.old }
        ensures none { (HasPostToTakeBack concept moves self.old → ⊥) → self.new ≡ self.old }
    {
        let place = concept.get() as usize;
        let count = count_at(self.counts.as_slice(), place);
        if count > 0 && self.withdrawn < self.accepted && moves <= u64::from(self.moves) {
            self.counts[place] = count - 1;
            self.accepted -= 1;
            self.moves -= moves as u32;
        }
    }

    /// Undoes `withdraw`: counts the posting as assigned to the concept again. After an error the
    /// counts are as before.
    pub fn take_back_withdrawal(&mut self, concept: ResNo) -> Result<(), AllocError>
        ensures ok { OnOk result (HasWithdrawalToTakeBack concept self.old
            → CountsAfterWithdrawal concept self.new self.old) }
        ensures err { OnErr result (self.new ≡ self.old) }
    {
        let place = concept.get() as usize;
        grow_counts(&mut self.counts, place)?;
        let count = self.counts[place];
        self.counts[place] = count.saturating_add(1);
        self.withdrawn = self.withdrawn.saturating_sub(1);
        Ok(())
    }

    /// Counts all postings of the source as moved to the target, with one move each, and returns
    /// the number of postings moved. Counts saturate at 2³² - 1.
    pub fn move_all(&mut self, source: ResNo, target: ResNo) -> Result<u32, AllocError>
        requires apart { source ≢ target }
        ensures count { IfOk result (λ k. k ≡ count_of self.old source) }
        ensures ok { let k = count_of self.old source in
            OnOk result (HasRoomForMoves source target k self.old
            → CountsAfterMoves source target k self.old self.new) }
        ensures err { OnErr result (self.new ≡ self.old) }
    {
        let count = count_at(self.counts.as_slice(), source.get() as usize);
        self.move_listed(source, target, count)?;
        Ok(count)
    }

    /// Counts `count` postings of the source as moved to the target, with one move each; changes
    /// nothing if the source has fewer. Counts saturate at 2³² - 1.
    pub fn move_listed(
        &mut self,
        source: ResNo,
        target: ResNo,
        count: u32,
    ) -> Result<(), AllocError>
        requires apart { source ≢ target }
        ensures ok { OnOk result (HasRoomForMoves source target count self.old
            → CountsAfterMoves source target count self.old self.new) }
        ensures fewer { count_of self.old source < count → self.new ≡ self.old }
        ensures err { OnErr result (self.new ≡ self.old) }
    {
        let (from, to) = (source.get() as usize, target.get() as usize);
        if count == 0 || count_at(self.counts.as_slice(), from) < count {
            return Ok(());
        }
        shift_counts(&mut self.counts, from, to, count)?;
        self.moves = self.moves.saturating_add(count);
        Ok(())
    }

    /// Undoes `move_all` or `move_listed`: counts `count` postings of the target as the source's
    /// again, and `count` moves fewer. Changes nothing if the target has fewer postings, or if
    /// fewer moves are counted.
    pub fn take_back_moves(
        &mut self,
        source: ResNo,
        target: ResNo,
        count: u32,
    ) -> Result<(), AllocError>
        requires apart { source ≢ target }
        ensures ok { OnOk result (HasMovesToTakeBack source target count self.old
            → CountsAfterMoves source target count self.new self.old) }
        ensures fewer { count_of self.old target < count → self.new ≡ self.old }
        ensures err { OnErr result (self.new ≡ self.old) }
    {
        let (from, to) = (target.get() as usize, source.get() as usize);
        if count == 0 || count_at(self.counts.as_slice(), from) < count || self.moves < count {
            return Ok(());
        }
        shift_counts(&mut self.counts, from, to, count)?;
        self.moves -= count;
        Ok(())
    }

    /// Returns the number of postings assigned to a concept, 0 for a number without a count.
    pub fn count(&self, concept: ResNo) -> u64
        ensures value { result ≡ count_of self.now concept }
        ensures small { result < 2 ^ 32 }
    {
        u64::from(count_at(self.counts.as_slice(), concept.get() as usize))
    }

    /// Returns the numbers of postings accepted, withdrawn, and not withdrawn.
    pub fn totals(&self) -> Totals
        ensures accepted { result.accepted ≡ self.now.accepted }
        ensures withdrawn { result.withdrawn ≡ self.now.withdrawn }
        ensures standing { result.standing ≡ self.now.accepted - self.now.withdrawn }
    {
        let accepted = u64::from(self.accepted);
        let withdrawn = u64::from(self.withdrawn);
        Totals {
            accepted,
            withdrawn,
            standing: accepted - withdrawn,
        }
    }

    /// Returns the number of postings accepted, withdrawn ones included.
    pub fn accepted(&self) -> u32
        ensures { result ≡ self.now.accepted }
    {
        self.accepted
    }

    /// Returns the number of moves of all postings.
    pub fn moves(&self) -> u32
        ensures { result ≡ self.now.moves }
    {
        self.moves
    }

    // Sets the number of moves, because a `LoadedCounts` doesn't count them.
    pub(crate) fn set_moves(&mut self, moves: u32)
        ensures { self.new ≡ record self.old { moves = moves } }
    {
        self.moves = moves;
    }
}
