//! Parsers of single cells, which return None for a cell of another form.
ghost use Rattle.std.specs.Prelude.{◌≡◌, IfOk, None};
ghost use Rattle.thes_base.specs.Forms.{IsNumber, HasStoredForm};
ghost use Rattle.thes_base.specs.Labels.{label_kind_no};
ghost use Rattle.thes_base.specs.Links.{link_kind_no};
ghost use Rattle.thes_tables.specs.declared.cells.Cell.TheVariants.{Text};
ghost use Rattle.thes_tables.specs.Cells.{number_cell, flag_cell, optional_cell, resource_kind_no, hier_type_no};
ghost use Rattle.thes_tables.specs.Tables.{hier_type};
ghost use Rattle.thes_load_rows.specs.Forms.{IsNumberOrNone};
ghost use Rattle.thes_load_rows.specs.CellSpelling.{Spells, SpellsValue};

use std::alloc::{AllocError, Global};
use thes_base::data::{LabelKind, LabelValue, LinkKind, ResourceKind};
use thes_base::fault::ReadStop;
use thes_base::form::{Form, NoteForm, TextForm};
use thes_base::number::ResNo;
use thes_base::text::Formed;
use thes_tables::cells::Cell;
use thes_tables::rows::HierType;

/// Parses the number of a resource, a posting or a move, from 1 to 2³² - 1.
pub fn number_in(cell: &Cell) -> Option<u32>
    ensures { Spells number_cell IsNumber cell.now result }
{
    match cell {
        Cell::Int(value) if 1 <= *value && *value <= 4_294_967_295 => Some(*value as u32),
        _ => None,
    }
}

/// Parses the number of a resource, or Null, for which it returns `Some(None)`; other cells give
/// None.
pub fn optional_in(cell: &Cell) -> Option<Option<ResNo>>
    ensures { Spells optional_cell IsNumberOrNone cell.now result }
{
    match cell {
        Cell::Null => Some(None),
        _ => Some(Some(ResNo::new(number_in(cell)?))),
    }
}

/// Parses a flag, which is stored as 0 or 1.
pub fn flag_in(cell: &Cell) -> Option<bool>
    ensures { Spells flag_cell (λ _. Unit {0}) cell.now result }
{
    match cell {
        Cell::Int(0) => Some(false),
        Cell::Int(1) => Some(true),
        _ => None,
    }
}

/// Parses the kind of a resource, which is stored as a number from 1 to 4.
pub fn resource_kind_in(cell: &Cell) -> Option<ResourceKind>
    ensures { Spells (λ kind. number_cell (resource_kind_no kind)) (λ _. Unit {0}) cell.now result }
{
    match cell {
        Cell::Int(1) => Some(ResourceKind::Scheme),
        Cell::Int(2) => Some(ResourceKind::Concept),
        Cell::Int(3) => Some(ResourceKind::Collection),
        Cell::Int(4) => Some(ResourceKind::Outside),
        _ => None,
    }
}

/// Parses the kind of a label, which is stored as a number from 1 to 4.
pub fn label_kind_in(cell: &Cell) -> Option<LabelKind>
    ensures { Spells (λ kind. number_cell (label_kind_no kind)) (λ _. Unit {0}) cell.now result }
{
    match cell {
        Cell::Int(1) => Some(LabelKind::Pref),
        Cell::Int(2) => Some(LabelKind::Alt),
        Cell::Int(3) => Some(LabelKind::Hidden),
        Cell::Int(4) => Some(LabelKind::Scope),
        _ => None,
    }
}

/// Parses the kind of a link that isn't hierarchical, which is stored as a number from 2 to 8.
pub fn link_kind_in(cell: &Cell) -> Option<LinkKind>
    ensures { Spells (λ kind. number_cell (link_kind_no kind))
        (λ kind. hier_type kind ≡ None) cell.now result }
{
    match cell {
        Cell::Int(2) => Some(LinkKind::Related),
        Cell::Int(3) => Some(LinkKind::Exact),
        Cell::Int(4) => Some(LinkKind::Close),
        Cell::Int(5) => Some(LinkKind::Broad),
        Cell::Int(6) => Some(LinkKind::Narrow),
        Cell::Int(7) => Some(LinkKind::RelMatch),
        Cell::Int(8) => Some(LinkKind::Member),
        _ => None,
    }
}

/// Parses the type of a hierarchical link, which is stored as a number from 0 to 3.
pub fn hier_type_in(cell: &Cell) -> Option<HierType>
    ensures { Spells (λ typ. number_cell (hier_type_no typ)) (λ _. Unit {0}) cell.now result }
{
    match cell {
        Cell::Int(0) => Some(HierType::Untyped),
        Cell::Int(1) => Some(HierType::Generic),
        Cell::Int(2) => Some(HierType::Partitive),
        Cell::Int(3) => Some(HierType::Instantial),
        _ => None,
    }
}

/// Parses a text that has the form `F`, in its stored spelling: a language tag is stored in lower
/// case, any other text as it was written.
pub fn text_in<F: Form>(alloc: Global, cell: &Cell) -> Result<Option<Formed<F>>, AllocError>
    ensures { IfOk result (Spells Text (HasStoredForm F.is_form F.LOWERED) cell.now) }
{
    match cell {
        Cell::Text(text) => match Formed::<F>::read(alloc, text.as_str()) {
            Ok(value) => {
                if value.as_str() == text.as_str() {
                    Ok(Some(value))
                } else {
                    Ok(None)
                }
            }
            Err(ReadStop::Form(_)) => Ok(None),
            Err(ReadStop::OutOfMemory) => Err(AllocError),
        },
        _ => Ok(None),
    }
}

/// Parses the text of a label of this kind; a scope note may be longer than other labels.
pub fn value_in(
    alloc: Global,
    kind: LabelKind,
    cell: &Cell,
) -> Result<Option<LabelValue>, AllocError>
    ensures { IfOk result (SpellsValue kind cell.now) }
{
    match kind {
        LabelKind::Pref => match text_in::<TextForm>(alloc, cell)? {
            Some(text) => Ok(Some(LabelValue::Pref(text))),
            None => Ok(None),
        },
        LabelKind::Alt => match text_in::<TextForm>(alloc, cell)? {
            Some(text) => Ok(Some(LabelValue::Alt(text))),
            None => Ok(None),
        },
        LabelKind::Hidden => match text_in::<TextForm>(alloc, cell)? {
            Some(text) => Ok(Some(LabelValue::Hidden(text))),
            None => Ok(None),
        },
        LabelKind::Scope => match text_in::<NoteForm>(alloc, cell)? {
            Some(note) => Ok(Some(LabelValue::Scope(note))),
            None => Ok(None),
        },
    }
}
