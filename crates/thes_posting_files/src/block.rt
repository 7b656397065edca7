//! Blocks: consecutive rows of a posting file, which are read and then performed together.
ghost use Rattle.std.specs.Prelude.{◌≡◌, ◌++◌, ◌∷◌, [], OnOk};
ghost use Rattle.thes_posting_files.specs.Outcomes.{fault_of_row, posts_of};

use crate::csv_row::CsvRow;
use std::alloc::{AllocError, Global};
use thes_base::fault::FormFault;
use thes_base::request::Command;

/// A block of rows: the requests of the rows that are postings, and for each row its fault, or None
/// if it is a posting.
#[derive(Drop)]
pub struct Block {
    pub posts: Vec<Command>,
    pub faults: Vec<Option<FormFault>>,
}

impl Block {
    /// Returns a block of no rows.
    pub fn new(alloc: Global) -> Block
        ensures posts { result.posts.items ≡ [] }
        ensures faults { result.faults.items ≡ [] }
    {
        Block {
            posts: Vec::new(alloc),
            faults: Vec::new(alloc),
        }
    }

    /// Removes all rows, and keeps the vectors' memory for the next block.
    pub fn clear(&mut self)
        ensures posts { self.new.posts.items ≡ [] }
        ensures faults { self.new.faults.items ≡ [] }
    {
        self.posts.clear();
        self.faults.clear();
    }

    /// Appends a row: the request of a posting, or the fault of any other row. Fails only if memory
    /// runs out.
    pub fn push(&mut self, row: CsvRow) -> Result<(), AllocError>
        ensures posts { OnOk result
            (self.new.posts.items ≡ self.old.posts.items ++ posts_of (row ∷ [])) }
        ensures faults { OnOk result
            (self.new.faults.items ≡ self.old.faults.items ++ fault_of_row row ∷ []) }
    {
        match row {
            CsvRow::Post(key, rec, concept) => {
                self.posts.push(Command::Post(key, rec, concept))?;
                self.faults.push(None)?;
                Ok(())
            }
            CsvRow::Bad(fault) => {
                self.faults.push(Some(fault))?;
                Ok(())
            }
        }
    }
}
