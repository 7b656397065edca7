//! Rows of the tables as parameters of statements.
ghost use Rattle.std.specs.Prelude.{◌≡◌, ◌<◌, IsUtf8};
ghost use Rattle.thes_tables.specs.Cells.{resource_cells, outside_cells};
ghost use Rattle.thes_tables.specs.Cells.{label_cells, link_cells, hier_cells, posting_cells, move_cells};
ghost use Rattle.thes_sql.specs.StoredRows.{values, IsSpelledLabel, IsSpelledPosting};
ghost use Rattle.sqlite.specs.Values.{bound};

use sqlite::params;
use sqlite::types::ValueRef;
use thes_base::data::{Link, Resource};
use thes_base::number::ResNo;
use thes_base::text::Iri;
use thes_tables::numbers::{flag_number, resource_number, type_number};
use thes_tables::rows::{HierRow, LabelRow, MoveRow, PostingRow};

// Returns the number of a resource as a parameter of a statement: None, which is bound as NULL, if
// there is no resource.
fn number_of(n: Option<ResNo>) -> Option<u32>
    ensures { result ≡ n }
{
    match n {
        Some(n) => Some(n.get()),
        None => None,
    }
}

// Returns a row of table resource as the five parameters of a statement, in the order of the
// table's columns.
pub(crate) fn resource_values(n: ResNo, resource: &Resource) -> [ValueRef<'static>; 5]
    ensures { bound result ≡ values (resource_cells n resource.now) }
{
    *params![
        n.get(),
        resource_number(resource.kind),
        number_of(resource.scheme),
        flag_number(resource.live),
        number_of(resource.replaced)
    ]
}

// Returns a row of table outside as the two parameters of a statement, in the order of the table's
// columns.
pub(crate) fn outside_values(n: ResNo, iri: &Iri) -> [ValueRef<'_>; 2]
    ensures cells { bound result ≡ values (outside_cells (n, iri.now)) }
    ensures spelled { IsUtf8 iri.now }
{
    *params![n.get(), iri.as_str()]
}

// Returns a row of table label as the four parameters of a statement, in the order of the table's
// columns.
pub(crate) fn label_values(row: &LabelRow) -> [ValueRef<'_>; 4]
    ensures cells { bound result ≡ values (label_cells row.now) }
    ensures spelled { IsSpelledLabel row.now }
{
    *params![
        row.owner.get(),
        row.label.kind().number(),
        row.label.tag.as_str(),
        row.label.text()
    ]
}

// Returns a row of table link as the three parameters of a statement, in the order of the table's
// columns.
pub(crate) fn link_values(link: &Link) -> [ValueRef<'static>; 3]
    ensures { bound result ≡ values (link_cells link.now) }
{
    *params![link.kind.number(), link.a.get(), link.b.get()]
}

// Returns a row of table hier as the three parameters of a statement, in the order of the table's
// columns.
pub(crate) fn hier_values(row: &HierRow) -> [ValueRef<'static>; 3]
    ensures { bound result ≡ values (hier_cells row.now) }
{
    *params![row.a.get(), row.b.get(), type_number(row.typ)]
}

// Returns a row of table posting as the six parameters of a statement, in the order of the table's
// columns.
pub(crate) fn posting_values(row: &PostingRow) -> [ValueRef<'_>; 6]
    ensures cells { bound result ≡ values (posting_cells row.now) }
    ensures spelled { IsSpelledPosting row.now }
{
    *params![
        row.number.get(),
        row.key.as_str(),
        row.rec.as_str(),
        row.first.get(),
        row.place.get(),
        flag_number(row.withdrawn)
    ]
}

// Returns a row of table move as the four parameters of a statement, in the order of the table's
// columns.
pub(crate) fn move_values(row: &MoveRow) -> [ValueRef<'static>; 4]
    ensures cells { bound result ≡ values (move_cells row.now) }
    ensures numbered { 0 < row.now.number }
{
    *params![
        row.number.get(),
        row.posting.get(),
        row.source.get(),
        row.target.get()
    ]
}
