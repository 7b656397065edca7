//! Collects the lines of an export, resource by resource, and joins them into its text.
ghost use Rattle.std.specs.Prelude.{◌≡◌, ◌+◌, ◌-◌, ◌^◌, ◌++◌, [], Contains, false, IfOk, OnOk, length, min};
ghost use Rattle.std.specs.List.{concat};
ghost use Rattle.std.specs.Ordering.{nat_cmp};
ghost use Rattle.std.specs.Cmp.Lexicographic.{slice_cmp};
ghost use Rattle.thes_base.specs.Listing.{IsListing};
ghost use Rattle.thes_base.specs.State.{State};
ghost use Rattle.thes_core.specs.CoreView.{IsViewOf};
ghost use Rattle.thes_export.specs.Export.{IsExport};
ghost use Rattle.thes_export.specs.Holdings.{CanExportAt};
ghost use Rattle.thes_export.specs.Topics.{Adds, AreParts, IsPartOf, IsResourceTriple, IsLineOf};

use crate::holdings::{Holdings, resource_count};
use crate::line::ExportPart;
use crate::line_source::LineSource;
use crate::topic::push_about;
use std::alloc::{AllocError, Global};
use thes_base::number::ResNo;
use thes_core::Core;

// Appends all lines about the resource with this index, counted from 0.
fn push_at(
    alloc: Global,
    core: &Core,
    holdings: &Holdings,
    lines: &mut Vec<ExportPart>,
    i: usize,
) -> Result<(), AllocError>
    requires { CanExportAt core.now holdings.now i }
    ensures { let is_about = IsResourceTriple core.now (i + 1) in
        OnOk result (Adds (IsLineOf is_about) lines.old.items lines.new.items) }
{
    let resources = core.resources();
    let n = ResNo::new(i as u32 + 1);
    let about = LineSource {
        alloc,
        core,
        n,
        resource: &resources[i],
        holdings,
    };
    push_about(&about, lines)?;
    Ok(())
}

// Sorts parts of an export by their bytes, and removes duplicates.
fn sort_parts(parts: &mut Vec<ExportPart>) -> Result<(), AllocError>
    ensures { OnOk result
        (IsListing (slice_cmp nat_cmp) (Contains parts.old.items) parts.new.items) }
{
    parts.sort()?;
    parts.dedup();
    Ok(())
}

// Appends a part to the text of an export.
fn push_text(text: &mut Vec<u8>, part: &ExportPart) -> Result<(), AllocError>
    ensures { OnOk result (text.new.items ≡ text.old.items ++ part.now) }
{
    text.extend_from_slice(part.as_bytes())?;
    Ok(())
}

// Returns the number of bytes of these parts, or the greatest `usize` if there are more.
fn byte_count(parts: &[ExportPart]) -> usize
    ensures { result ≡ min (length (concat parts.now)) (2 ^ 64 - 1) }
{
    let mut count = 0usize;
    for part in parts {
        count = count.saturating_add(part.as_bytes().len());
    }
    count
}

// Returns the text of these parts of an export, one after another.
fn join_parts(alloc: Global, parts: &[ExportPart]) -> Result<Vec<u8>, AllocError>
    ensures { IfOk result (λ text. text.items ≡ concat parts.now) }
{
    let mut text = Vec::with_capacity(alloc, byte_count(parts))?;
    for part in parts {
        push_text(&mut text, part)?;
    }
    Ok(text)
}

// Returns the lines about the resource with this index, counted from 0, sorted by their bytes, each
// once.
fn part_at(
    alloc: Global,
    core: &Core,
    holdings: &Holdings,
    i: usize,
) -> Result<ExportPart, AllocError>
    requires { CanExportAt core.now holdings.now i }
    ensures { IfOk result (IsPartOf core.now (i + 1)) }
{
    let mut lines = Vec::new(alloc);
    push_at(alloc, core, holdings, &mut lines, i)?;
    sort_parts(&mut lines)?;
    let text = join_parts(alloc, lines.as_slice())?;
    Ok(ExportPart::of_lines(text))
}

// Returns the parts about all resources, in the order of their numbers.
fn all_parts(alloc: Global, core: &Core) -> Result<Vec<ExportPart>, AllocError>
    requires { core.now.spent ≡ false }
    ensures { let count = length core.now.resources in
        IfOk result (λ parts. AreParts core.now count parts.items) }
{
    let holdings = Holdings::collect(alloc, core)?;
    let mut parts = Vec::new(alloc);
    for i in 0..resource_count(core) {
        let part = part_at(alloc, core, &holdings, i)?;
        parts.push(part)?;
    }
    Ok(parts)
}

/// Returns the export of the state that the core holds: the lines of its triples, sorted by their
/// bytes, each once. Lines about one resource begin alike, so they are sorted by themselves, and
/// then the parts of all resources.
pub fn export_text(alloc: Global, core: &Core) -> Result<Vec<u8>, AllocError>
    requires { core.now.spent ≡ false }
    ensures { (s : State) → IsViewOf core.now s →
        IfOk result (λ text. IsExport core.now.setting.base s text.items) }
{
    let mut parts = all_parts(alloc, core)?;
    sort_parts(&mut parts)?;
    let text = join_parts(alloc, parts.as_slice())?;
    Ok(text)
}
