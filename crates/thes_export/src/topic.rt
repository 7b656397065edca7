//! The topics of the lines about a resource.
ghost use Rattle.std.specs.Prelude.{◌≡◌, OnOk};
ghost use Rattle.thes_export.specs.Holdings.{AreHoldings};
ghost use Rattle.thes_export.specs.Topics.{Adds, AddsTopic, IsResourceTriple, IsLineOf, topics};

use crate::line::ExportPart;
use crate::line_source::LineSource;
use crate::link_lines::{push_broader, push_mappings, push_members, push_narrower, push_related};
use crate::resource_lines::{
    push_belonging, push_death, push_kind, push_labels, push_replacement, push_top,
    push_top_concepts,
};
use std::alloc::AllocError;

/// A topic: a group of the triples about a resource.
#[derive(Clone, Copy, Debug, PartialEq, Eq)]
pub enum Topic {
    /// The SKOS class of the resource.
    Kind,
    /// The scheme to which the resource belongs.
    Belonging,
    /// The scheme of which the resource is a top concept.
    Top,
    /// The top concepts of the resource, if it is a scheme.
    TopConcepts,
    /// The fact that the concept is deprecated.
    Death,
    /// The concept that replaces the resource, if the resource was merged into it.
    Replacement,
    /// The labels and scope notes.
    Labels,
    /// The broader concepts.
    Broader,
    /// The narrower concepts.
    Narrower,
    /// The related concepts.
    Related,
    /// The mappings to concepts of other schemes and to outside concepts.
    Mappings,
    /// The members of the resource, if it is a collection.
    Members,
}

impl Topic {
    /// Returns all topics, in the order in which their lines are collected, before they are sorted.
    pub fn all() -> [Topic; 12]
        ensures { result ≡ topics }
    {
        [
            Topic::Kind,
            Topic::Belonging,
            Topic::Top,
            Topic::TopConcepts,
            Topic::Death,
            Topic::Replacement,
            Topic::Labels,
            Topic::Broader,
            Topic::Narrower,
            Topic::Related,
            Topic::Mappings,
            Topic::Members,
        ]
    }
}

// Appends the lines about a resource that belong to one topic.
fn push_topic(
    about: &LineSource,
    lines: &mut Vec<ExportPart>,
    topic: Topic,
) -> Result<(), AllocError>
    requires { AreHoldings about.now.core.now about.now.holdings.now }
    ensures { OnOk result (AddsTopic about.now topic lines.old.items lines.new.items) }
{
    match topic {
        Topic::Kind => push_kind(about, lines),
        Topic::Belonging => push_belonging(about, lines),
        Topic::Top => push_top(about, lines),
        Topic::TopConcepts => push_top_concepts(about, lines),
        Topic::Death => push_death(about, lines),
        Topic::Replacement => push_replacement(about, lines),
        Topic::Labels => push_labels(about, lines),
        Topic::Broader => push_broader(about, lines),
        Topic::Narrower => push_narrower(about, lines),
        Topic::Related => push_related(about, lines),
        Topic::Mappings => push_mappings(about, lines),
        Topic::Members => push_members(about, lines),
    }
}

/// Appends all lines about a resource, topic by topic.
pub fn push_about(about: &LineSource, lines: &mut Vec<ExportPart>) -> Result<(), AllocError>
    requires { AreHoldings about.now.core.now about.now.holdings.now }
    ensures { let is_about = IsResourceTriple about.now.core.now about.now.n in
        OnOk result (Adds (IsLineOf is_about) lines.old.items lines.new.items) }
{
    let topics = Topic::all();
    for topic in &topics {
        push_topic(about, lines, *topic)?;
    }
    Ok(())
}
