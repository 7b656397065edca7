//! The postings of a concept as one line of JSON.
ghost use Rattle.std.specs.Prelude.{◌≡◌, ◌++◌, ◌∷◌, [], false, IfOk, OnOk, OnErr};
ghost use Rattle.serde_json.specs.View.{items_view};
ghost use Rattle.serde_json.specs.Written.{items_have_float};
ghost use Rattle.thes_exchange.specs.ViewTexts.{entry_data, line_text, listing_data};

use crate::view::{entry_value, value_line};
use serde_json::{Value, json};
use std::alloc::{AllocError, Global};
use thes_base::number::PostNo;
use thes_base::text::{Key, RecordName};

/// A list of postings as JSON, in the order in which they are appended.
#[derive(Drop)]
pub struct PostingList {
    rows: Vec<Value>,
    ghost no_float: { items_have_float (items_view rows.items) ≡ false },
}

impl PostingList {
    ghost use Rattle.thes_exchange.specs.PostingList.{entries};

    /// Returns an empty list; allocates nothing.
    pub fn new(alloc: Global) -> PostingList
        ensures { entries result ≡ [] }
    {
        PostingList {
            rows: Vec::new(alloc),
        }
    }

    /// Appends a posting as an array of its number, key and record name; if memory runs out, the
    /// list is unchanged.
    pub fn push(
        &mut self,
        alloc: Global,
        number: PostNo,
        key: &Key,
        rec: &RecordName,
    ) -> Result<(), AllocError>
        ensures ok { OnOk result (entries self.new
            ≡ entries self.old ++ entry_data number key.now rec.now ∷ []) }
        ensures err { OnErr result (entries self.new ≡ entries self.old) }
    {
        let row = entry_value(alloc, number, key, rec)?;
        self.rows.push(row)?;
        Ok(())
    }

    /// Returns the line of JSON for the list, with its line feed.
    pub fn line(self, alloc: Global) -> Result<Vec<u8>, AllocError>
        ensures { IfOk result (λ text. text.items ≡ line_text (listing_data (entries self))) }
    {
        let PostingList { rows } = self;
        let value = json!(in alloc; {"postings": rows})?;
        value_line(alloc, &value)
    }
}
