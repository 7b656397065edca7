//! Displays of a scheme in a language, made as a text or written to a pipe.
ghost use Rattle.std.specs.Prelude.{◌≡◌, false, IfOk, MatchOption};
ghost use Rattle.thes_base.specs.Pipe.{IsFresh};
ghost use Rattle.thes_base.specs.Resources.{IsScheme};
ghost use Rattle.thes_base.specs.State.{State};
ghost use Rattle.thes_core.specs.CoreView.{IsViewOf};
ghost use Rattle.thes_display.specs.Alphabetical.{IsAlphabetical};
ghost use Rattle.thes_display.specs.Hierarchical.{IsHierarchicalDisplay};
ghost use Rattle.thes_display.specs.DisplayWrites.{DisplayResult, IsDisplay, IsSchemeRefusal};

use crate::entry::alphabetical_text;
use crate::hierarchy::hierarchical_text;
use std::alloc::{AllocError, Global};
use std::io::Write;
use thes_base::data::ResourceKind;
use thes_base::fault::{PipeFault, Refusal};
use thes_base::number::ResNo;
use thes_base::pipe::Pipe;
use thes_base::text::Tag;
use thes_core::Core;
use thes_requests::request::{Display, DisplayRequest};

/// The outcome of writing a display, unless a fault stopped it.
#[derive(Clone, Copy, Debug, PartialEq, Eq)]
pub enum DisplayOutcome {
    /// The whole display was written.
    Written,
    /// The number isn't a scheme's, and nothing was written.
    No(Refusal),
}

/// Checks that the number is a scheme's: returns `None` if it is, or else `UnknownResource` or
/// `WrongKind`.
pub fn check_scheme(core: &Core, scheme: ResNo) -> Option<Refusal>
    requires { core.now.spent ≡ false }
    ensures { let resources = core.now.resources in
        MatchOption result (IsScheme resources scheme) (IsSchemeRefusal resources scheme) }
{
    match core.resource(scheme) {
        None => Some(Refusal::UnknownResource),
        Some(resource) => match resource.kind {
            ResourceKind::Scheme => None,
            _ => Some(Refusal::WrongKind),
        },
    }
}

/// Returns the text of a display, in UTF-8.
pub fn display_text(
    alloc: Global,
    core: &Core,
    wanted: &DisplayRequest<'_>,
) -> Result<Vec<u8>, AllocError>
    requires { core.now.spent ≡ false }
    ensures { let asked = wanted.now in (s : State) → IsViewOf core.now s →
        IfOk result (λ text. IsDisplay asked.kind asked.scheme asked.tag.now s text.items) }
{
    match wanted.kind {
        Display::Alphabetical => alphabetical_text(alloc, core, wanted.scheme, wanted.tag),
        Display::Hierarchical => hierarchical_text(alloc, core, wanted.scheme, wanted.tag),
    }
}

/// Writes a display, or refuses a number that isn't a scheme's. All memory is allocated before the
/// first byte is written.
pub fn write_display<W: Write>(
    alloc: Global,
    core: &Core,
    wanted: &DisplayRequest<'_>,
    writer: &mut Pipe<W>,
) -> Result<DisplayOutcome, PipeFault>
    requires unspent { core.now.spent ≡ false }
    requires writer { IsFresh writer.old }
    ensures { let asked = wanted.now in
        let is_text = IsDisplay asked.kind asked.scheme asked.tag.now in
        DisplayResult W.contents core.now asked.scheme is_text writer.old writer.new result }
{
    if let Some(refusal) = check_scheme(core, wanted.scheme) {
        return Ok(DisplayOutcome::No(refusal));
    }
    let text = display_text(alloc, core, wanted)?;
    writer.write_text(text.as_slice())?;
    Ok(DisplayOutcome::Written)
}

/// Writes a scheme's hierarchical display in a language, or refuses a number that isn't a scheme's.
pub fn hierarchical<W: Write>(
    alloc: Global,
    core: &Core,
    scheme: ResNo,
    tag: &Tag,
    writer: &mut Pipe<W>,
) -> Result<DisplayOutcome, PipeFault>
    requires unspent { core.now.spent ≡ false }
    requires writer { IsFresh writer.old }
    ensures { let is_text = λ (s : State). IsHierarchicalDisplay s scheme tag.now in
        DisplayResult W.contents core.now scheme is_text writer.old writer.new result }
{
    let wanted = DisplayRequest {
        kind: Display::Hierarchical,
        scheme,
        tag,
    };
    write_display(alloc, core, &wanted, writer)
}

/// Writes a scheme's alphabetical display in a language, or refuses a number that isn't a scheme's.
pub fn alphabetical<W: Write>(
    alloc: Global,
    core: &Core,
    scheme: ResNo,
    tag: &Tag,
    writer: &mut Pipe<W>,
) -> Result<DisplayOutcome, PipeFault>
    requires unspent { core.now.spent ≡ false }
    requires writer { IsFresh writer.old }
    ensures { let is_text = λ (s : State). IsAlphabetical s scheme tag.now in
        DisplayResult W.contents core.now scheme is_text writer.old writer.new result }
{
    let wanted = DisplayRequest {
        kind: Display::Alphabetical,
        scheme,
        tag,
    };
    write_display(alloc, core, &wanted, writer)
}
