//! Traits for opening a database again, and for the contents of its files: so the proofs about
//! storage don't involve files.
ghost use Rattle.std.specs.Prelude.{◌≡◌};
ghost use Rattle.sqlite_wal.specs.Recovery.{Image};
ghost use Rattle.thes_sqlite.specs.Reopenings.{next_count};

use crate::cause::Cause;
use std::snapshot::Snapshot;

/// A way to open a database again, as a connection of type `C`.
pub trait Reopen<C> {
    /// Returns whether the database's name still leads to the file that is open.
    fn is_in_place(&mut self) -> bool;

    /// Closes the connection `lost`, if one is given, which a failure has shut, and opens the
    /// database again. The database then has the rows that are on the disk.
    fn reopen(&mut self, lost: Option<C>) -> Result<C, Cause>;
}

/// The contents that a database's files had before they were opened; only contracts use them.
pub trait HeldImage {
    // The contents of the two files: the database file and its log.
    ghost image: { Image };
}

/// A way to open a database again, with the number of times that it did, the connection that it was
/// last given, and what it returned then; only contracts use these, and only its methods set them.
#[derive(Drop)]
pub struct RecordedOpener<C, O> {
    opener: O,
    // The number saturates.
    reopenings: u64,
    closed: Snapshot<Option<C>>,
    opened: Snapshot<Result<C, Cause>>,
}

impl<C, O: Reopen<C>> RecordedOpener<C, O> {
    pub(crate) fn new(opener: O) -> RecordedOpener<C, O>
        ensures { result.reopenings ≡ 0 }
    {
        RecordedOpener {
            opener,
            reopenings: 0,
            closed: Snapshot::of(&None),
            opened: Snapshot::of(&Err(Cause::Other)),
        }
    }

    /// Returns whether the database's name still leads to the file that is open.
    pub(crate) fn is_in_place(&mut self) -> bool
        ensures count { self.new.reopenings ≡ self.old.reopenings }
        ensures closed { self.new.closed ≡ self.old.closed }
        ensures opened { self.new.opened ≡ self.old.opened }
    {
        self.opener.is_in_place()
    }

    /// Closes the connection `lost`, if one is given, and opens the database again.
    pub(crate) fn reopen(&mut self, lost: Option<C>) -> Result<C, Cause>
        ensures count { self.new.reopenings ≡ next_count self.old.reopenings }
        ensures closed { self.new.closed.value ≡ lost }
        ensures opened { self.new.opened.value ≡ result }
    {
        self.reopenings = self.reopenings.saturating_add(1);
        self.closed = Snapshot::of(&lost);
        let result = self.opener.reopen(lost);
        self.opened = Snapshot::of(&result);
        result
    }
}
