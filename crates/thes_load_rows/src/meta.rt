//! The row of table meta, and its parser.
ghost use Rattle.std.specs.Prelude.{IfOk};
ghost use Rattle.thes_load_rows.specs.Version.{SpellsMeta};

use crate::cells::text_in;
use std::alloc::{AllocError, Global};
use thes_base::form::BaseForm;
use thes_base::text::Base;
use thes_tables::cells::Cell;

/// The row of table meta: a row of a newer version, of an older one, or of the current one.
#[derive(Debug, Drop)]
pub enum MetaRow {
    /// The row of a later version, which this program doesn't know.
    Newer,
    /// The row of version 1, which must be migrated before use.
    Older,
    /// The row of the current version, with the base.
    Base(Base),
}

/// Parses a row of table meta; returns None if the cells aren't those of a row of any version.
pub fn meta_in(alloc: Global, cells: &[Cell]) -> Result<Option<MetaRow>, AllocError>
    ensures { IfOk result (SpellsMeta cells.now) }
{
    let [one, version, base] = cells else {
        return Ok(None);
    };
    let (Cell::Int(one), Cell::Int(version)) = (one, version) else {
        return Ok(None);
    };
    if *one != 1 || *version < 1 {
        return Ok(None);
    }
    if *version == 1 {
        return Ok(Some(MetaRow::Older));
    }
    if *version > 2 {
        return Ok(Some(MetaRow::Newer));
    }
    match text_in::<BaseForm>(alloc, base)? {
        Some(base) => Ok(Some(MetaRow::Base(base))),
        None => Ok(None),
    }
}
