//! Edits of the links held, and the links after an edit, which are checked before the edit is made.
ghost use Rattle.std.specs.Prelude.{◌≡◌, IfOk};
ghost use Rattle.std.specs.List.{filter_map};
ghost use Rattle.thes_links.specs.LinkEdit.{link_after_merge, row_after_edit};

use std::alloc::{AllocError, Global};
use thes_base::data::Link;
use thes_base::number::ResNo;

/// An edit of the links held: no change, one new link, or a merge of the first node into the
/// second.
#[derive(Clone, Copy)]
pub enum LinkEdit {
    /// No edit: the links are checked as they are held.
    NoEdit,
    /// The addition of this link.
    WithLink(Link),
    /// The merge of the first node into the second.
    AfterMerge(ResNo, ResNo),
}

/// Returns the link with the target in place of the source, or None if both its ends are then the
/// target.
#[inline(always)]
pub fn link_after_merge(link: &Link, source: ResNo, target: ResNo) -> Option<Link>
    ensures { result ≡ link_after_merge source target link.now }
{
    let a = if link.a == source { target } else { link.a };
    let b = if link.b == source { target } else { link.b };
    let kind = link.kind;
    if a == b {
        None
    } else {
        Some(Link { kind, a, b })
    }
}

// Returns the links with the target in place of the source, without those whose two ends are then
// the target.
fn merge_all(
    alloc: Global,
    row: &[Link],
    source: ResNo,
    target: ResNo,
) -> Result<Vec<Link>, AllocError>
    ensures { IfOk result
        (λ merged. merged.items ≡ filter_map (link_after_merge source target) row.now) }
{
    let mut merged = Vec::new(alloc);
    for link in row {
        match link_after_merge(link, source, target) {
            Some(m) => merged.push(m)?,
            None => {}
        }
    }
    Ok(merged)
}

/// Returns the links of the list as they are after the edit, with the new link appended if the edit
/// has one.
pub fn links_after_edit(
    alloc: Global,
    edit: &LinkEdit,
    row: Vec<Link>,
) -> Result<Vec<Link>, AllocError>
    ensures { IfOk result (λ seen. seen.items ≡ row_after_edit edit.now row.items) }
{
    match edit {
        LinkEdit::NoEdit => Ok(row),
        LinkEdit::WithLink(new) => {
            let mut row = row;
            row.push(*new)?;
            Ok(row)
        }
        LinkEdit::AfterMerge(source, target) => merge_all(alloc, &row, *source, *target),
    }
}
