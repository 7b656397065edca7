//! Lines of a resource's links: of a concept's relations and mappings, and of memberships.
ghost use Rattle.std.specs.Prelude.{◌≡◌, Bool, false, OnOk};
ghost use Rattle.thes_base.specs.Links.{is_symmetric};
ghost use Rattle.thes_export.specs.Holdings.{AreHoldings};
ghost use Rattle.thes_export.specs.Topics.{Adds, AddsTopic, IsLineOf, IsMatch, MapsOne};

use crate::line::ExportPart;
use crate::line_source::LineSource;
use crate::push::{push_node, push_nodes};
use crate::resource_lines::is_concept;
use crate::topic::Topic;
use std::alloc::AllocError;
use thes_base::data::{Link, LinkKind};
use thes_base::number::ResNo;
use thes_base::triple::Property;

// Appends the lines of the broader concepts (`skos:broader`).
pub(crate) fn push_broader(
    about: &LineSource,
    lines: &mut Vec<ExportPart>,
) -> Result<(), AllocError>
    ensures { OnOk result (AddsTopic about.now Topic.Broader lines.old.items lines.new.items) }
{
    let broader = about.core.broader_of(about.alloc, about.n)?;
    push_nodes(about, lines, Property::Broader, broader.as_slice())?;
    Ok(())
}

// Appends the lines of the narrower concepts (`skos:narrower`).
pub(crate) fn push_narrower(
    about: &LineSource,
    lines: &mut Vec<ExportPart>,
) -> Result<(), AllocError>
    ensures { OnOk result (AddsTopic about.now Topic.Narrower lines.old.items lines.new.items) }
{
    let narrower = about.core.narrower_of(about.alloc, about.n)?;
    push_nodes(about, lines, Property::Narrower, narrower.as_slice())?;
    Ok(())
}

// Appends the lines of the related concepts (`skos:related`).
pub(crate) fn push_related(
    about: &LineSource,
    lines: &mut Vec<ExportPart>,
) -> Result<(), AllocError>
    ensures { OnOk result (AddsTopic about.now Topic.Related lines.old.items lines.new.items) }
{
    let related = about.core.related_of(about.alloc, about.n)?;
    push_nodes(about, lines, Property::Related, related.as_slice())?;
    Ok(())
}

// Appends the line of a broader or a narrower match, if the link leads from the concept to the
// object; a link in the other direction makes no line about the concept.
fn push_match(
    about: &LineSource,
    lines: &mut Vec<ExportPart>,
    kind: LinkKind,
    object: ResNo,
    property: Property,
) -> Result<(), AllocError>
    requires { (outside : Bool) → is_symmetric outside kind ≡ false }
    ensures { let is_match = IsMatch about.now.core.now kind about.now.n property object in
        OnOk result (Adds (IsLineOf is_match) lines.old.items lines.new.items) }
{
    let link = Link {
        kind,
        a: about.n,
        b: object,
    };
    if !about.core.has(&link) {
        return Ok(());
    }
    push_node(about, lines, property, object)?;
    Ok(())
}

// Appends the line of one mapping, such as `skos:exactMatch`, if the concept is its subject.
fn push_mapping(
    about: &LineSource,
    lines: &mut Vec<ExportPart>,
    kind: LinkKind,
    object: ResNo,
) -> Result<(), AllocError>
    ensures { let maps = MapsOne about.now.core.now about.now.n (kind, object) in
        OnOk result (Adds (IsLineOf maps) lines.old.items lines.new.items) }
{
    match kind {
        LinkKind::Exact => push_node(about, lines, Property::ExactMatch, object),
        LinkKind::Close => push_node(about, lines, Property::CloseMatch, object),
        LinkKind::RelMatch => push_node(about, lines, Property::RelatedMatch, object),
        LinkKind::Broad => {
            push_match(about, lines, LinkKind::Broad, object, Property::BroadMatch)
        }
        LinkKind::Narrow => {
            push_match(
                about,
                lines,
                LinkKind::Narrow,
                object,
                Property::NarrowMatch,
            )
        }
        _ => Ok(()),
    }
}

// Appends the lines of the mappings of which the resource is the subject; none if it isn't a
// concept.
pub(crate) fn push_mappings(
    about: &LineSource,
    lines: &mut Vec<ExportPart>,
) -> Result<(), AllocError>
    ensures { OnOk result (AddsTopic about.now Topic.Mappings lines.old.items lines.new.items) }
{
    if !is_concept(about.resource) {
        return Ok(());
    }
    let mappings = about.core.mappings(about.alloc, about.n)?;
    for (kind, object) in &mappings {
        push_mapping(about, lines, *kind, *object)?;
    }
    Ok(())
}

// Appends the lines of the members of a collection (`skos:member`); other resources have none.
pub(crate) fn push_members(
    about: &LineSource,
    lines: &mut Vec<ExportPart>,
) -> Result<(), AllocError>
    requires { AreHoldings about.now.core.now about.now.holdings.now }
    ensures { OnOk result (AddsTopic about.now Topic.Members lines.old.items lines.new.items) }
{
    let members = about.holdings.members_of(about.n);
    push_nodes(about, lines, Property::Member, members)?;
    Ok(())
}
