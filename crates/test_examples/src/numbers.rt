//! A sink for rows of postings, which collects their numbers.
use std::alloc::Global;
use thes_base::fault::Fault;
use thes_base::number::PostNo;
use thes_store::sink::PostingSink;
use thes_tables::rows::PostingRow;

/// A sink that collects the numbers of postings, in the order of the rows that it receives.
#[derive(Drop)]
pub struct Numbers {
    pub list: Vec<PostNo>,
}

impl Numbers {
    /// Returns a sink that has received no number yet.
    pub fn new(alloc: Global) -> Numbers {
        Numbers {
            list: Vec::new(alloc),
        }
    }
}

impl PostingSink for Numbers {
    ghost gives = { λ old row result new. Unit {0} };

    fn posting(&mut self, row: &PostingRow) -> Result<(), Fault> {
        self.list.push(row.number)?;
        Ok(())
    }
}
