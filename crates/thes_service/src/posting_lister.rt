//! A sink that lists the postings of a concept as JSON.
ghost use Rattle.std.specs.Prelude.{◌≡◌, [], IfOk};
ghost use Rattle.thes_exchange.specs.PostingList.{entries};
ghost use Rattle.thes_exchange.specs.ViewTexts.{line_text, listing_data};

use std::alloc::{AllocError, Global};
use thes_base::fault::Fault;
use thes_exchange::posting_list::PostingList;
use thes_store::sink::PostingSink;
use thes_tables::rows::PostingRow;

/// A sink that appends each posting that it receives to a list as JSON.
#[derive(Drop)]
pub(crate) struct PostingLister {
    alloc: Global,
    listing: PostingList,
}

impl PostingLister {
    /// Returns a sink with an empty list, and allocates nothing.
    pub(crate) fn new(alloc: Global) -> PostingLister
        ensures { entries result.listing ≡ [] }
    {
        PostingLister {
            alloc,
            listing: PostingList::new(alloc),
        }
    }

    /// Returns the line of JSON for all postings received, with its line feed.
    pub(crate) fn into_line(self) -> Result<Vec<u8>, AllocError>
        ensures { IfOk result
            (λ text. text.items ≡ line_text (listing_data (entries self.listing))) }
    {
        let PostingLister { alloc, listing } = self;
        listing.line(alloc)
    }
}

/// Appends each posting to the list, or leaves the list unchanged if memory runs out.
impl PostingSink for PostingLister {
    ghost use Rattle.thes_service.specs.PostingLists.{ListsRow};

    ghost gives = { ListsRow };

    fn posting(&mut self, row: &PostingRow) -> Result<(), Fault> {
        self.listing
            .push(self.alloc, row.number, &row.key, &row.rec)?;
        Ok(())
    }
}
