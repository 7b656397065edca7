//! Insertion into a sorted list.
ghost use Rattle.std.specs.Prelude.{◌≡◌, OnOk};
ghost use Rattle.std.specs.BTreeSet.{insert_key};
ghost use Rattle.std.specs.List.Sorted.{IsStrictlySortedBy};

use std::alloc::AllocError;

/// Inserts a value at its place in a list sorted in ascending order, unless the list has an equal
/// one.
pub fn insert_sorted<T: Ord + Drop>(list: &mut Vec<T>, x: T) -> Result<(), AllocError>
    requires { IsStrictlySortedBy T.cmp list.old.items }
    ensures { OnOk result (list.new.items ≡ insert_key T.cmp list.old.items x) }
{
    match list.binary_search(&x) {
        Ok(_) => {}
        Err(place) => list.insert(place, x)?,
    }
    Ok(())
}
