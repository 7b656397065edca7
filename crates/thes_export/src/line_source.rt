//! The resource of a core about which lines are written.
ghost use Rattle.std.specs.Prelude.{◌≡◌, false, Some};
ghost use Rattle.thes_base.specs.Resources.{entry_at};

use crate::holdings::Holdings;
use std::alloc::Global;
use thes_base::data::Resource;
use thes_base::number::ResNo;
use thes_core::Core;

/// A resource about which lines are written, with its core and the core's `Holdings`.
#[derive(Clone, Copy)]
pub struct LineSource<'a> {
    pub alloc: Global,
    pub core: &'a Core,
    pub n: ResNo,
    pub resource: &'a Resource,
    pub holdings: &'a Holdings,
    ghost unspent: { core.now.spent ≡ false },
    ghost found: { entry_at core.now.resources n ≡ Some resource.now },
}
