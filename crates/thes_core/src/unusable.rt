//! Marks a core as unusable.
ghost use Rattle.std.specs.Prelude.{◌≡◌, true};

use crate::machine::Core;

impl Core {
    /// Marks the core as unusable until it is loaded again (`is_spent`), because its state may
    /// differ from that of the tables, as after a failed commit.
    pub fn mark_spent(&mut self)
        ensures { self.new ≡ record self.old { spent = true } }
    {
        self.spent = true;
    }
}
