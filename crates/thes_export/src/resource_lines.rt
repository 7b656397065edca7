//! Lines on a resource's class, scheme, top concepts, deprecation, replacement and labels, and on
//! the scheme of which it is a top concept.
ghost use Rattle.std.specs.Prelude.{◌≡◌, ◌&&◌, not, false, Some, IfOk, OnOk};
ghost use Rattle.thes_base.specs.Resources.{entry_at, is_concept_kind};
ghost use Rattle.thes_export.specs.Holdings.{AreHoldings, IsTopScheme};
ghost use Rattle.thes_export.specs.Topics.{AddsTopic, class_in};

use crate::line::ExportPart;
use crate::line_source::LineSource;
use crate::push::{push_line, push_node, push_nodes};
use crate::topic::Topic;
use std::alloc::{AllocError, Global};
use thes_base::data::{Resource, ResourceKind};
use thes_base::number::ResNo;
use thes_base::triple::{Class, Property};
use thes_core::Core;

// Returns the SKOS class of a resource; an outside concept has none, since other data describe it.
fn class_of(resource: &Resource) -> Option<Class>
    ensures { result ≡ class_in resource.now.kind }
{
    match resource.kind {
        ResourceKind::Scheme => Some(Class::ConceptScheme),
        ResourceKind::Concept => Some(Class::Concept),
        ResourceKind::Collection => Some(Class::Collection),
        ResourceKind::Outside => None,
    }
}

// Returns the scheme of a concept or a collection, if the resource is one.
fn scheme_in(resource: &Resource) -> Option<ResNo>
    ensures { result ≡ resource.now.scheme }
{
    resource.scheme
}

// Returns the replacement of a concept to export (`dct:isReplacedBy`), if it was merged.
fn replacement_in(resource: &Resource) -> Option<ResNo>
    ensures { result ≡ resource.now.replaced }
{
    resource.replaced
}

/// Checks whether the resource is exported as a concept, live or deprecated.
pub(crate) fn is_concept(resource: &Resource) -> bool
    ensures { result ≡ is_concept_kind resource.now.kind }
{
    match resource.kind {
        ResourceKind::Concept => true,
        _ => false,
    }
}

// Checks whether the resource is exported as a concept that isn't deprecated.
fn is_live_concept(resource: &Resource) -> bool
    ensures { result ≡ (is_concept_kind resource.now.kind && resource.now.live) }
{
    is_concept(resource) && resource.live
}

// Checks whether the resource is exported as a deprecated concept (`owl:deprecated`).
fn is_dead_concept(resource: &Resource) -> bool
    ensures { result ≡ (is_concept_kind resource.now.kind && not resource.now.live) }
{
    is_concept(resource) && !resource.live
}

// Appends the line of the resource's SKOS class (`rdf:type`); an outside concept has none.
pub(crate) fn push_kind(about: &LineSource, lines: &mut Vec<ExportPart>) -> Result<(), AllocError>
    ensures { OnOk result (AddsTopic about.now Topic.Kind lines.old.items lines.new.items) }
{
    match class_of(about.resource) {
        None => Ok(()),
        Some(class) => {
            let line = ExportPart::of_class(about.alloc, about.core, about.n, class)?;
            push_line(lines, line)?;
            Ok(())
        }
    }
}

// Appends the line of the scheme to which the resource belongs (`skos:inScheme`), if it belongs to
// one.
pub(crate) fn push_belonging(
    about: &LineSource,
    lines: &mut Vec<ExportPart>,
) -> Result<(), AllocError>
    ensures { OnOk result (AddsTopic about.now Topic.Belonging lines.old.items lines.new.items) }
{
    match scheme_in(about.resource) {
        None => Ok(()),
        Some(scheme) => {
            push_node(about, lines, Property::InScheme, scheme)?;
            Ok(())
        }
    }
}

/// Returns the scheme of which the resource is a top concept; None unless the resource is a live
/// concept without broader concepts.
pub(crate) fn top_scheme_of(
    alloc: Global,
    core: &Core,
    n: ResNo,
    resource: &Resource,
) -> Result<Option<ResNo>, AllocError>
    requires unspent { core.now.spent ≡ false }
    requires found { entry_at core.now.resources n ≡ Some resource.now }
    ensures { IfOk result (IsTopScheme core.now n) }
{
    if !is_live_concept(resource) {
        return Ok(None);
    }
    let broader = core.broader_of(alloc, n)?;
    if !broader.as_slice().is_empty() {
        return Ok(None);
    }
    Ok(scheme_in(resource))
}

// Appends the line of the scheme of which the resource is a top concept (`skos:topConceptOf`), if
// it is one.
pub(crate) fn push_top(about: &LineSource, lines: &mut Vec<ExportPart>) -> Result<(), AllocError>
    ensures { OnOk result (AddsTopic about.now Topic.Top lines.old.items lines.new.items) }
{
    match top_scheme_of(about.alloc, about.core, about.n, about.resource)? {
        None => Ok(()),
        Some(scheme) => {
            push_node(about, lines, Property::TopConceptOf, scheme)?;
            Ok(())
        }
    }
}

// Appends the lines of the top concepts of a scheme (`skos:hasTopConcept`); other resources have
// none.
pub(crate) fn push_top_concepts(
    about: &LineSource,
    lines: &mut Vec<ExportPart>,
) -> Result<(), AllocError>
    requires { AreHoldings about.now.core.now about.now.holdings.now }
    ensures { OnOk result (AddsTopic about.now Topic.TopConcepts lines.old.items lines.new.items) }
{
    let tops = about.holdings.tops_of(about.n);
    push_nodes(about, lines, Property::HasTopConcept, tops)?;
    Ok(())
}

// Appends the line that states that the resource is deprecated (`owl:deprecated`), if it is a dead
// concept.
pub(crate) fn push_death(about: &LineSource, lines: &mut Vec<ExportPart>) -> Result<(), AllocError>
    ensures { OnOk result (AddsTopic about.now Topic.Death lines.old.items lines.new.items) }
{
    if !is_dead_concept(about.resource) {
        return Ok(());
    }
    let line = ExportPart::of_dead(about.alloc, about.core, about.n)?;
    push_line(lines, line)?;
    Ok(())
}

// Appends the line of the concept that replaces the resource (`dct:isReplacedBy`), if there is one.
pub(crate) fn push_replacement(
    about: &LineSource,
    lines: &mut Vec<ExportPart>,
) -> Result<(), AllocError>
    ensures { OnOk result (AddsTopic about.now Topic.Replacement lines.old.items lines.new.items) }
{
    match replacement_in(about.resource) {
        None => Ok(()),
        Some(other) => {
            push_node(about, lines, Property::IsReplacedBy, other)?;
            Ok(())
        }
    }
}

// Appends the lines of the resource's labels and scope notes, such as `skos:prefLabel`.
#[tactic(auto, using(crate::proofs::TopicLemmas::label_lines))]
pub(crate) fn push_labels(about: &LineSource, lines: &mut Vec<ExportPart>) -> Result<(), AllocError>
    ensures { OnOk result (AddsTopic about.now Topic.Labels lines.old.items lines.new.items) }
{
    for label in about.core.labels_of(about.n) {
        let line = ExportPart::of_label(about.alloc, about.core, about.n, label)?;
        push_line(lines, line)?;
    }
    Ok(())
}
