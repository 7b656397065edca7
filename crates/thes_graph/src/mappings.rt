//! Mappings and typed hierarchical links as seen from one of their ends, in the order in which
//! views list them: by the name of the kind, then by the other end.
ghost use Rattle.std.specs.Prelude.{◌≡◌, OnOk};
ghost use Rattle.std.specs.BTreeSet.{insert_key};
ghost use Rattle.std.specs.List.Sorted.{IsStrictlySortedBy};
ghost use Rattle.thes_base.specs.Views.{mapping_cmp};
ghost use Rattle.thes_graph.specs.Mappings.{kind_name_rank, mapping_seen_from, typed_link_seen_from};

use std::alloc::AllocError;
use thes_base::data::{Link, LinkKind, TypedKind};
use thes_base::number::ResNo;

// Returns the rank by which views sort mappings: that of the kind's name among the names of all
// kinds, sorted by their bytes.
fn rank_of_kind_name(kind: LinkKind) -> u8
    ensures { result ≡ kind_name_rank kind }
{
    match kind {
        LinkKind::Broad => 1,
        LinkKind::Broader => 2,
        LinkKind::BroaderGeneric => 3,
        LinkKind::BroaderInstantial => 4,
        LinkKind::BroaderPartitive => 5,
        LinkKind::Close => 6,
        LinkKind::Exact => 7,
        LinkKind::Member => 8,
        LinkKind::Narrow => 9,
        LinkKind::RelMatch => 10,
        LinkKind::Related => 11,
    }
}

// Returns the sort key of a mapping: the rank of its kind's name, and then the number of the other
// end.
fn key_of(mapping: &(LinkKind, ResNo)) -> (u8, ResNo)
    ensures { result ≡ (kind_name_rank mapping.now.0, mapping.now.1) }
{
    (rank_of_kind_name(mapping.0), mapping.1)
}

/// Returns the mapping as seen from its end `n`: its kind there and the other end; None if the link
/// isn't a mapping.
pub fn mapping_from(link: &Link, n: ResNo) -> Option<(LinkKind, ResNo)>
    ensures { result ≡ mapping_seen_from n link.now }
{
    let forward = link.a == n;
    let other = if forward { link.b } else { link.a };
    match link.kind {
        LinkKind::Exact | LinkKind::Close | LinkKind::RelMatch => Some((link.kind, other)),
        LinkKind::Broad if forward => Some((LinkKind::Broad, other)),
        LinkKind::Broad => Some((LinkKind::Narrow, other)),
        LinkKind::Narrow if forward => Some((LinkKind::Narrow, other)),
        LinkKind::Narrow => Some((LinkKind::Broad, other)),
        _ => None,
    }
}

/// Returns the typed hierarchical link as seen from its end `n`: its type there and the other end;
/// None for a link without a type.
pub fn typed_link_from(link: &Link, n: ResNo) -> Option<(TypedKind, ResNo)>
    ensures { result ≡ typed_link_seen_from n link.now }
{
    let forward = link.a == n;
    let other = if forward { link.b } else { link.a };
    match link.kind {
        LinkKind::BroaderGeneric if forward => Some((TypedKind::BroaderGeneric, other)),
        LinkKind::BroaderGeneric => Some((TypedKind::NarrowerGeneric, other)),
        LinkKind::BroaderPartitive if forward => Some((TypedKind::BroaderPartitive, other)),
        LinkKind::BroaderPartitive => Some((TypedKind::NarrowerPartitive, other)),
        LinkKind::BroaderInstantial if forward => Some((TypedKind::BroaderInstantial, other)),
        LinkKind::BroaderInstantial => Some((TypedKind::NarrowerInstantial, other)),
        _ => None,
    }
}

/// Inserts the mapping at its place in a list sorted by names of kinds and then by number, unless
/// it is there.
pub fn list_mapping(
    list: &mut Vec<(LinkKind, ResNo)>,
    mapping: (LinkKind, ResNo),
) -> Result<(), AllocError>
    requires { IsStrictlySortedBy mapping_cmp list.old.items }
    ensures { OnOk result (list.new.items ≡ insert_key mapping_cmp list.old.items mapping) }
{
    match list.binary_search_by_key(&key_of(&mapping), |other| key_of(other)) {
        Ok(_) => {}
        Err(i) => list.insert(i, mapping)?,
    }
    Ok(())
}
