//! The changes of one request, which are committed atomically.
ghost use Rattle.std.specs.Prelude.{◌≡◌, [], ◌∷◌, ◌++◌, OnOk, OnErr};

use crate::change::Change;
use std::alloc::{AllocError, Global};
use std::marker::Model;

/// The changes of one request, in the order in which the storage applies them.
#[derive(Debug, Drop)]
pub struct Delta {
    changes: Vec<Change>,
}

impl Model for Delta {
    ghost use Rattle.std.specs.Prelude.{List};
    ghost use Rattle.thes_tables.specs.declared.change.Change.{Change};

    ghost Value = { List Change };

    ghost view = { λ a. a.changes.items };
}

impl Delta {
    /// Creates an empty list of changes, without allocating.
    pub fn new(alloc: Global) -> Delta
        ensures { result ≡ [] }
    {
        Delta {
            changes: Vec::new(alloc),
        }
    }

    /// Returns the changes in order, without copying them.
    pub fn as_slice(&self) -> &[Change]
        ensures { result.now ≡ self.now }
    {
        self.changes.as_slice()
    }

    /// Returns the vector of the changes, without copying them.
    pub fn into_changes(self) -> Vec<Change>
        ensures { result.items ≡ self }
    {
        let Delta { changes } = self;
        changes
    }

    /// Appends a change of a row; if memory runs out, the list is unchanged and the change is
    /// dropped.
    pub fn push(&mut self, change: Change) -> Result<(), AllocError>
        ensures ok { OnOk result (self.new ≡ self.old ++ change ∷ []) }
        ensures err { OnErr result (self.new ≡ self.old) }
    {
        self.changes.push(change)?;
        Ok(())
    }
}
