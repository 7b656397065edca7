//! Look-ups that exports need. The core must be usable (not `is_spent`).
ghost use Rattle.std.specs.Prelude.{◌≡◌, ◌<◌, ◌^◌, false, length};

use crate::machine::Core;
use thes_base::data::Resource;
use thes_base::text::Base;

impl Core {
    /// Returns the base of the core's vocabulary, the prefix of the IRIs of schemes, concepts and
    /// collections.
    pub fn base(&self) -> &Base
        requires { self.now.spent ≡ false }
        ensures { result.now ≡ self.now.setting.base }
    {
        self.thesaurus.vocab.base()
    }

    /// Returns all resources of the core's vocabulary, live and dead; number `n` is at index
    /// `n - 1`.
    pub fn resources(&self) -> &[Resource]
        requires { self.now.spent ≡ false }
        ensures all { result.now ≡ self.now.resources }
        ensures few { length result.now < 2 ^ 32 }
    {
        self.thesaurus.vocab.resources()
    }
}
