//! Has the storage yield the rows of its tables to a loader, and returns the core that the loader
//! builds.
ghost use Rattle.std.specs.Prelude.{◌≡◌, ◌≢◌, IfOk, IfErr};
ghost use Rattle.thes_office.specs.Opening.{LoadsCore, LoadsNone};
ghost use Rattle.thes_office.specs.QueryFrames.{LoadFrame};

use crate::loader::Loader;
use std::alloc::Global;
use thes_base::data::Limits;
use thes_base::fault::{Fault, Table};
use thes_core::Core;
use thes_store::keeper::Keeper;

/// Builds a core from the tables of the storage. Any fault but OutOfMemory and Store is the verdict
/// on the rows of the tables.
pub fn load<K: Keeper>(alloc: Global, keeper: &mut K, limits: Limits) -> Result<Core, Fault>
    ensures ok { IfOk result (LoadsCore K.view K.is_open K.finds keeper.old keeper.new limits) }
    ensures err { IfErr result (LoadsNone K.view K.is_open K.finds keeper.old keeper.new) }
    ensures reads { LoadFrame (K.view keeper.old) (K.view keeper.new) result }
{
    let mut loader = Loader::new(alloc, limits);
    match keeper.load(&mut loader) {
        Ok(()) => match loader.finish() {
            Ok(core) => Ok(core),
            Err(fault) => Err(verdict(fault)),
        },
        Err(fault) => {
            drop(loader);
            Err(fault)
        }
    }
}

// Returns a loader's fault unchanged. A loader never reports Store, which only the storage does;
// Store would become BadStore of table meta.
fn verdict(fault: Fault) -> Fault
    ensures same { fault ≢ Fault.Store → result ≡ fault }
    ensures never { result ≢ Fault.Store }
{
    match fault {
        Fault::Store => Fault::BadStore(Table::Meta),
        other => other,
    }
}
