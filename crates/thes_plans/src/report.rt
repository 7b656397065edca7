//! Reports of the changes of rows that requests and plans make.
ghost use Rattle.std.specs.Prelude.{◌≡◌, List, OnOk, OnErr};
ghost use Rattle.thes_tables.specs.declared.change.Change.{Change};

use std::alloc::AllocError;
use thes_tables::change::Change;

/// A report of the changes of rows that requests make. It gets the changes before they are
/// committed, so that no commit is made for whose report memory runs out.
pub trait ChangeReport {
    // The effect of adding changes. The arguments are the report before, the changes in the order
    // in which they are made, and the report after.
    ghost adds: { Self → List Change → Self → Type 0 };

    /// Adds changes of rows, in the order in which they are made; if memory runs out, the report is
    /// unchanged.
    fn add(&mut self, changes: &[Change]) -> Result<(), AllocError>
        ensures ok { OnOk result (adds self.old changes.now self.new) }
        ensures err { OnErr result (self.new ≡ self.old) };
}

/// No report, for a caller that doesn't need the changes.
#[derive(Clone, Copy, Debug)]
pub struct NoReport;

impl ChangeReport for NoReport {
    ghost adds = { λ _ _ _. Unit {0} };

    fn add(&mut self, _changes: &[Change]) -> Result<(), AllocError> {
        Ok(())
    }
}
