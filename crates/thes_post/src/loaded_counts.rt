//! The counts of postings while a store is loaded.
ghost use Rattle.std.specs.Prelude.{◌≡◌, ◌≤◌, ◌<◌, ◌+◌, ◌^◌, ℕ, [], OnOk, OnErr};
ghost use Rattle.thes_post.specs.PostingCounts.{CountsAfterLoad, count_of};

use crate::book::Book;
use std::alloc::{AllocError, Global};
use std::marker::Model;
use thes_base::number::ResNo;

/// The counts of the postings loaded so far. Moves aren't counted; `close` sets their number.
#[derive(Drop)]
pub struct LoadedCounts {
    book: Book,
}

impl Model for LoadedCounts {
    ghost use Rattle.std.specs.Prelude.{◌≡◌};
    ghost use Rattle.thes_post.specs.PostingCounts.{PostingCounts, AreLoadedCounts};

    ghost Value = { PostingCounts };

    ghost view = { λ a. a.book };

    ghost invariant = { λ a. AreLoadedCounts a.book };
}

impl LoadedCounts {
    /// Creates counts that are all 0, without allocating.
    pub fn new(alloc: Global) -> LoadedCounts
        ensures { result ≡ record { counts = []; accepted = 0; withdrawn = 0; moves = 0 } }
    {
        LoadedCounts {
            book: Book::new(alloc),
        }
    }

    /// Counts one more posting, which is assigned to the concept `place` unless it was withdrawn.
    pub fn count_posting(&mut self, place: ResNo, withdrawn: bool) -> Result<(), AllocError>
        requires { self.old.accepted + 1 < 2 ^ 32 }
        ensures ok { OnOk result (CountsAfterLoad place withdrawn self.old self.new) }
        ensures err { OnErr result (self.new ≡ self.old) }
    {
        self.book.post(place, 0)?;
        if withdrawn {
            self.book.withdraw(place);
        }
        Ok(())
    }

    /// Returns the counts as a `Book`, with `moves` as the number of moves.
    pub fn close(self, moves: u64) -> Book
        requires { moves < 2 ^ 32 }
        ensures { result ≡ record self { moves = moves } }
    {
        let mut book = self.book;
        book.set_moves(moves as u32);
        book
    }
}
