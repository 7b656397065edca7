//! Appends lines of triples to a list.
ghost use Rattle.std.specs.Prelude.{◌≡◌, ℕ, List, Contains, OnOk};
ghost use Rattle.thes_export.specs.Topics.{Adds, IsLineOf, IsNode, Nodes};

use crate::line::ExportPart;
use crate::line_source::LineSource;
use std::alloc::AllocError;
use thes_base::number::ResNo;
use thes_base::triple::Property;

/// Appends a line to those of an export.
pub(crate) fn push_line(lines: &mut Vec<ExportPart>, line: ExportPart) -> Result<(), AllocError>
    ensures { OnOk result (Adds (λ (l : List ℕ). l ≡ line) lines.old.items lines.new.items) }
{
    lines.push(line)?;
    Ok(())
}

/// Appends the line of the triple with this property from the resource to an object.
pub(crate) fn push_node(
    about: &LineSource,
    lines: &mut Vec<ExportPart>,
    property: Property,
    object: ResNo,
) -> Result<(), AllocError>
    ensures { let is_node = IsNode about.now.core.now about.now.n property object in
        OnOk result (Adds (IsLineOf is_node) lines.old.items lines.new.items) }
{
    let line = ExportPart::of_node(about.alloc, about.core, about.n, property, object)?;
    push_line(lines, line)?;
    Ok(())
}

/// Appends the line of the triple with this property from the resource to each object, in order.
pub(crate) fn push_nodes(
    about: &LineSource,
    lines: &mut Vec<ExportPart>,
    property: Property,
    objects: &[ResNo],
) -> Result<(), AllocError>
    ensures { let is_node = Nodes about.now.core.now property (Contains objects.now) about.now.n in
        OnOk result (Adds (IsLineOf is_node) lines.old.items lines.new.items) }
{
    for object in objects {
        push_node(about, lines, property, *object)?;
    }
    Ok(())
}
