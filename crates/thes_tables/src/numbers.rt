//! The numbers that encode kinds, types and flags in cells.
ghost use Rattle.std.specs.Prelude.{◌≡◌, cond};
ghost use Rattle.thes_tables.specs.Cells.{resource_kind_no, hier_type_no};

use crate::rows::HierType;
use thes_base::data::ResourceKind;

/// Returns the number that encodes a flag in a cell: 1 if the flag is set, and 0 otherwise.
pub fn flag_number(is_set: bool) -> u32
    ensures { result ≡ cond is_set 1 0 }
{
    if is_set { 1 } else { 0 }
}

/// Returns the number that encodes a kind of resource in column kind, from 1 to 4.
pub fn resource_number(kind: ResourceKind) -> u32
    ensures { result ≡ resource_kind_no kind }
{
    match kind {
        ResourceKind::Scheme => 1,
        ResourceKind::Concept => 2,
        ResourceKind::Collection => 3,
        ResourceKind::Outside => 4,
    }
}

/// Returns the number that encodes a type of hierarchical relationship in column typ, from 0 to 3.
pub fn type_number(typ: HierType) -> u32
    ensures { result ≡ hier_type_no typ }
{
    match typ {
        HierType::Untyped => 0,
        HierType::Generic => 1,
        HierType::Partitive => 2,
        HierType::Instantial => 3,
    }
}
