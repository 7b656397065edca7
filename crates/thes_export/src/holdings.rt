//! What schemes and collections hold: the top concepts of a scheme, the members of a collection.
ghost use Rattle.std.specs.Prelude.{◌≡◌, ◌+◌, ◌<◌, false, IfOk, OnOk, length};
ghost use Rattle.std.specs.BTreeSet.{insert_key};
ghost use Rattle.std.specs.Ordering.{nat_cmp};
ghost use Rattle.thes_lists.specs.Lists.{AreAllRising, ChangesOnlyAt, listed_at};
ghost use Rattle.thes_export.specs.Holdings.{AreHoldings, AreMembersUpTo, AreTopsUpTo};

use crate::resource_lines::top_scheme_of;
use std::alloc::{AllocError, Global};
use thes_base::number::ResNo;
use thes_core::Core;
use thes_lists::Lists;

/// The top concepts of each scheme, and the members of each collection.
#[derive(Drop)]
pub struct Holdings {
    tops: Lists<ResNo>,
    members: Lists<ResNo>,
}

// Inserts a concept into the list of its holder: a scheme's list of top concepts, or a collection's
// list of members.
fn insert(lists: &mut Lists<ResNo>, holder: ResNo, n: ResNo) -> Result<(), AllocError>
    requires { AreAllRising nat_cmp lists.old }
    ensures { let list = insert_key nat_cmp (listed_at lists.old holder) n in
        OnOk result (ChangesOnlyAt lists.old lists.new holder list) }
{
    lists.make_room(holder)?;
    lists.insert(holder, n);
    Ok(())
}

/// Returns the number of the core's resources of all kinds, which an export goes through.
pub(crate) fn resource_count(core: &Core) -> usize
    requires { core.now.spent ≡ false }
    ensures { result ≡ length core.now.resources }
{
    core.resources().len()
}

// If the resource with this index, counted from 0, is a top concept, adds it to those of its
// scheme.
fn add_top(alloc: Global, core: &Core, tops: &mut Lists<ResNo>, i: usize) -> Result<(), AllocError>
    requires unspent { core.now.spent ≡ false }
    requires within { i < length core.now.resources }
    requires listed { AreTopsUpTo core.now i tops.old }
    ensures { OnOk result (AreTopsUpTo core.now (i + 1) tops.new) }
{
    let resources = core.resources();
    let n = ResNo::new(i as u32 + 1);
    match top_scheme_of(alloc, core, n, &resources[i])? {
        None => Ok(()),
        Some(scheme) => {
            insert(tops, scheme, n)?;
            Ok(())
        }
    }
}

// Adds the resource with this index, counted from 0, to the members of its collections.
fn add_member(
    alloc: Global,
    core: &Core,
    members: &mut Lists<ResNo>,
    i: usize,
) -> Result<(), AllocError>
    requires unspent { core.now.spent ≡ false }
    requires within { i < length core.now.resources }
    requires listed { AreMembersUpTo core.now i members.old }
    ensures { OnOk result (AreMembersUpTo core.now (i + 1) members.new) }
{
    // No effect; for the proof, states that there are fewer than 2³² resources.
    let _resources = core.resources();
    let n = ResNo::new(i as u32 + 1);
    let collections = core.collections_of(alloc, n)?;
    for collection in &collections {
        insert(members, *collection, n)?;
    }
    Ok(())
}

// Lists the top concepts of each scheme, for the lines of an export.
fn tops_by_scheme(alloc: Global, core: &Core) -> Result<Lists<ResNo>, AllocError>
    requires { core.now.spent ≡ false }
    ensures { IfOk result (AreTopsUpTo core.now (length core.now.resources)) }
{
    let mut tops = Lists::new(alloc);
    for i in 0..resource_count(core) {
        add_top(alloc, core, &mut tops, i)?;
    }
    Ok(tops)
}

// Lists the members of each collection, for the lines of an export.
fn members_by_collection(alloc: Global, core: &Core) -> Result<Lists<ResNo>, AllocError>
    requires { core.now.spent ≡ false }
    ensures { IfOk result (AreMembersUpTo core.now (length core.now.resources)) }
{
    let mut members = Lists::new(alloc);
    for i in 0..resource_count(core) {
        add_member(alloc, core, &mut members, i)?;
    }
    Ok(members)
}

impl Holdings {
    /// Collects the top concepts of all schemes, and the members of all collections.
    pub(crate) fn collect(alloc: Global, core: &Core) -> Result<Holdings, AllocError>
        requires { core.now.spent ≡ false }
        ensures { IfOk result (AreHoldings core.now) }
    {
        let tops = tops_by_scheme(alloc, core)?;
        let members = members_by_collection(alloc, core)?;
        Ok(Holdings { tops, members })
    }

    /// Returns the top concepts of a scheme, in ascending order.
    pub(crate) fn tops_of(&self, scheme: ResNo) -> &[ResNo]
        ensures { result.now ≡ listed_at self.now.tops scheme }
    {
        self.tops.at(scheme)
    }

    /// Returns the members of a collection, in ascending order.
    pub(crate) fn members_of(&self, collection: ResNo) -> &[ResNo]
        ensures { result.now ≡ listed_at self.now.members collection }
    {
        self.members.at(collection)
    }
}
