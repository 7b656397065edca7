//! Parsers of rows of cells, one for each table but meta. They return None for a row of another
//! form.
ghost use Rattle.std.specs.Prelude.{IfOk};
ghost use Rattle.thes_tables.specs.Cells.{outside_cells, label_cells, link_cells, hier_cells, posting_cells, move_cells};
ghost use Rattle.thes_load_rows.specs.Forms.{HasResourceForm, HasOutsideForm, HasLabelForm, HasLinkForm, HasHierForm, HasPostingForm, HasMoveForm};
ghost use Rattle.thes_load_rows.specs.CellSpelling.{Spells, resource_row_cells};

use crate::cells::{
    flag_in, hier_type_in, label_kind_in, link_kind_in, number_in, optional_in, resource_kind_in,
    text_in, value_in,
};
use std::alloc::{AllocError, Global};
use thes_base::data::{Label, Link, Resource};
use thes_base::form::{IriForm, KeyForm, RecordNameForm, TagForm};
use thes_base::number::{MoveNo, PostNo, ResNo};
use thes_tables::cells::Cell;
use thes_tables::rows::{HierRow, LabelRow, MoveRow, OutsideRow, PostingRow};

/// A row of table resource: a resource, with its number.
#[derive(Clone, Copy, Debug)]
pub struct ResourceRow {
    pub number: ResNo,
    pub resource: Resource,
}

/// Parses the five cells of a row of table resource: number, kind, scheme, live flag and
/// replacement.
pub fn resource_in(cells: &[Cell]) -> Option<ResourceRow>
    ensures { Spells resource_row_cells HasResourceForm cells.now result }
{
    if cells.len() != 5 {
        return None;
    }
    let number = number_in(&cells[0])?;
    let kind = resource_kind_in(&cells[1])?;
    let scheme = optional_in(&cells[2])?;
    let live = flag_in(&cells[3])?;
    let replaced = optional_in(&cells[4])?;
    Some(ResourceRow {
        number: ResNo::new(number),
        resource: Resource {
            kind,
            scheme,
            live,
            replaced,
        },
    })
}

/// Parses the two cells of a row of table outside: number and IRI.
pub fn outside_in(alloc: Global, cells: &[Cell]) -> Result<Option<OutsideRow>, AllocError>
    ensures { IfOk result (Spells outside_cells HasOutsideForm cells.now) }
{
    let [number, iri] = cells else {
        return Ok(None);
    };
    let Some(own) = number_in(number) else {
        return Ok(None);
    };
    match text_in::<IriForm>(alloc, iri)? {
        Some(iri) => Ok(Some(OutsideRow {
            number: ResNo::new(own),
            iri,
        })),
        None => Ok(None),
    }
}

/// Parses the four cells of a row of table label: owner, kind, tag and text.
pub fn label_in(alloc: Global, cells: &[Cell]) -> Result<Option<LabelRow>, AllocError>
    ensures { IfOk result (Spells label_cells HasLabelForm cells.now) }
{
    let [owner, kind, tag, text] = cells else {
        return Ok(None);
    };
    let Some(owner) = number_in(owner) else {
        return Ok(None);
    };
    let Some(kind) = label_kind_in(kind) else {
        return Ok(None);
    };
    match text_in::<TagForm>(alloc, tag)? {
        Some(tag) => match value_in(alloc, kind, text)? {
            Some(value) => Ok(Some(LabelRow {
                owner: ResNo::new(owner),
                label: Label { tag, value },
            })),
            None => Ok(None),
        },
        None => Ok(None),
    }
}

/// Parses the three cells of a row of table link: kind and both ends.
pub fn link_in(cells: &[Cell]) -> Option<Link>
    ensures { Spells link_cells HasLinkForm cells.now result }
{
    if cells.len() != 3 {
        return None;
    }
    let kind = link_kind_in(&cells[0])?;
    let a = number_in(&cells[1])?;
    let b = number_in(&cells[2])?;
    Some(Link {
        kind,
        a: ResNo::new(a),
        b: ResNo::new(b),
    })
}

/// Parses the three cells of a row of table hier: narrower concept, broader concept and type.
pub fn hier_in(cells: &[Cell]) -> Option<HierRow>
    ensures { Spells hier_cells HasHierForm cells.now result }
{
    if cells.len() != 3 {
        return None;
    }
    let a = number_in(&cells[0])?;
    let b = number_in(&cells[1])?;
    let typ = hier_type_in(&cells[2])?;
    Some(HierRow {
        a: ResNo::new(a),
        b: ResNo::new(b),
        typ,
    })
}

/// Parses the six cells of a row of table posting: number, key, record, first concept, place and
/// withdrawn flag.
#[tactic(auto, using(crate::proofs::SixLemmas::six))]
pub fn posting_in(alloc: Global, cells: &[Cell]) -> Result<Option<PostingRow>, AllocError>
    ensures { IfOk result (Spells posting_cells HasPostingForm cells.now) }
{
    let [number, key, rec, first, place, withdrawn] = cells else {
        return Ok(None);
    };
    let Some(number) = number_in(number) else {
        return Ok(None);
    };
    let Some(first) = number_in(first) else {
        return Ok(None);
    };
    let Some(place) = number_in(place) else {
        return Ok(None);
    };
    let Some(withdrawn) = flag_in(withdrawn) else {
        return Ok(None);
    };
    match text_in::<KeyForm>(alloc, key)? {
        Some(key) => match text_in::<RecordNameForm>(alloc, rec)? {
            Some(rec) => Ok(Some(PostingRow {
                number: PostNo::new(number),
                key,
                rec,
                first: ResNo::new(first),
                place: ResNo::new(place),
                withdrawn,
            })),
            None => Ok(None),
        },
        None => Ok(None),
    }
}

/// Parses the four cells of a row of table move: number, posting, source and target.
pub fn move_in(cells: &[Cell]) -> Option<MoveRow>
    ensures { Spells move_cells HasMoveForm cells.now result }
{
    if cells.len() != 4 {
        return None;
    }
    let number = number_in(&cells[0])?;
    let posting = number_in(&cells[1])?;
    let source = number_in(&cells[2])?;
    let target = number_in(&cells[3])?;
    Some(MoveRow {
        number: MoveNo::new(number),
        posting: PostNo::new(posting),
        source: ResNo::new(source),
        target: ResNo::new(target),
    })
}
