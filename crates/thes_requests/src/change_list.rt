//! A list of changes of rows as JSON, which is a report of the requests that make them.
ghost use Rattle.std.specs.Prelude.{◌≡◌, ◌++◌, ◌∷◌, [], length, map, take, IfOk, OnOk};
ghost use Rattle.json.specs.Print.{quoted};
ghost use Rattle.thes_tables.specs.Cells.{hier_cells, label_cells, link_cells, number_cell, optional_cell};
ghost use Rattle.thes_tables.specs.declared.change.Change.TheVariants as change;
ghost use Rattle.thes_requests.specs.ChangeTexts.{column_cell, cell_text, cells_text, change_text, element_text, items_text, list_opening, without_last_comma};

use crate::page::Page;
use itoa::Buffer;
use json::Writer;
use std::alloc::{AllocError, Global};
use std::marker::Model;
use thes_base::data::{Link, Resource};
use thes_base::number::ResNo;
use thes_base::text::Iri;
use thes_plans::report::ChangeReport;
use thes_tables::change::Change;
use thes_tables::numbers::{flag_number, resource_number, type_number};
use thes_tables::rows::{HierRow, LabelRow, MoveRow, PostingRow};

/// The value of a column in a row, which borrows a text.
#[derive(Clone, Copy)]
enum Column<'a> {
    Number(u32),
    Text(&'a str),
    Null,
}

/// The texts of changes of rows, in the order in which they are made, with a comma after each.
#[derive(Drop)]
pub struct ChangeList {
    alloc: Global,
    text: Vec<u8>,
}

impl Model for ChangeList {
    ghost use Rattle.std.specs.Prelude.{List, ℕ};

    ghost Value = { List ℕ };

    ghost view = { λ list. list.text.items };
}

impl ChangeList {
    /// Returns a list that begins with the member `changes` of an object, and has no change yet.
    pub fn new(alloc: Global) -> Result<ChangeList, AllocError>
        ensures { IfOk result (λ list. list ≡ list_opening) }
    {
        Ok(ChangeList {
            alloc,
            text: Vec::from_slice(alloc, b"{\"changes\":[")?,
        })
    }

    /// Returns the length of the text.
    pub fn len(&self) -> usize
        ensures { result ≡ length self.now }
    {
        self.text.len()
    }

    /// Removes the changes after the first `len` bytes.
    pub fn truncate(&mut self, len: usize)
        ensures { self.new ≡ take len self.old }
    {
        self.text.truncate(len);
    }

    /// Returns the list without the comma after the last change; its bracket is still open.
    pub fn into_page(self) -> Page
        ensures { result ≡ without_last_comma self }
    {
        let ChangeList {
            alloc: _,
            text: mut bytes,
        } = self;
        if let Some(b',') = bytes.last() {
            bytes.pop();
        }
        Page::new(bytes)
    }
}

/// Appends the changes, or none if memory runs out.
impl ChangeReport for ChangeList {
    ghost use Rattle.thes_requests.specs.ChangeTexts.{AddsItems};

    ghost adds = { AddsItems };

    fn add(&mut self, changes: &[Change]) -> Result<(), AllocError> {
        let more = items_of(self.alloc, changes)?;
        self.text.extend_from_slice(&more.text)
    }
}

// Returns the texts of changes, with a comma after each.
fn items_of(alloc: Global, changes: &[Change]) -> Result<ChangeList, AllocError>
    ensures { IfOk result (λ list. list ≡ items_text changes.now) }
{
    let mut list = ChangeList {
        alloc,
        text: Vec::new(alloc),
    };
    for change in changes {
        list.push_change(change)?;
        list.text.extend_from_slice(b",")?;
    }
    Ok(list)
}

impl ChangeList {
    // Appends the text of a change.
    fn push_change(&mut self, change: &Change) -> Result<(), AllocError>
        ensures { OnOk result (self.new ≡ self.old ++ change_text change.now) }
    {
        match change {
            Change::AddResource(number, resource) => self.push_resource(*number, resource),
            Change::AddOutside(number, iri) => self.push_outside(*number, iri),
            Change::AddLabel(row) => self.push_label(b"\"insert\",\"label\"", row),
            Change::DropLabel(row) => self.push_label(b"\"delete\",\"label\"", row),
            Change::AddLink(link) => self.push_link(b"\"insert\",\"link\"", link),
            Change::DropLink(link) => self.push_link(b"\"delete\",\"link\"", link),
            Change::AddHier(row) => self.push_hier(b"\"insert\",\"hier\"", row),
            Change::DropHier(row) => self.push_hier(b"\"delete\",\"hier\"", row),
            Change::AddPosting(row) => self.push_posting(row),
            Change::AddMove(row) => self.push_move(row),
            Change::Retire(concept) => self.push_one(b"\"retire\"", concept.get()),
            Change::Replace(concept, by) => {
                self.push_two(b"\"replace\"", concept.get(), by.get())
            }
            Change::Withdraw(posting) => self.push_one(b"\"withdraw\"", posting.get()),
            Change::SetPlace(posting, place) => {
                self.push_two(b"\"place\"", posting.get(), place.get())
            }
            Change::MoveAll(source, target) => {
                self.push_two(b"\"move\"", source.get(), target.get())
            }
        }
    }

    // Appends the insertion of the row of a resource.
    fn push_resource(&mut self, number: ResNo, resource: &Resource) -> Result<(), AllocError>
        ensures { OnOk result (self.new
            ≡ self.old ++ change_text (change.AddResource number resource.now)) }
    {
        self.push_element(
            b"\"insert\",\"resource\"",
            &[
                Column::Number(number.get()),
                Column::Number(resource_number(resource.kind)),
                optional(resource.scheme),
                Column::Number(flag_number(resource.live)),
                optional(resource.replaced),
            ],
        )
    }

    // Appends the insertion of the row of an outside concept.
    fn push_outside(&mut self, number: ResNo, iri: &Iri) -> Result<(), AllocError>
        ensures { OnOk result (self.new
            ≡ self.old ++ change_text (change.AddOutside number iri.now)) }
    {
        self.push_element(
            b"\"insert\",\"outside\"",
            &[Column::Number(number.get()), Column::Text(iri.as_str())],
        )
    }

    // Appends a change of the row of a label.
    fn push_label(&mut self, words: &[u8], row: &LabelRow) -> Result<(), AllocError>
        ensures { OnOk result (self.new
            ≡ self.old ++ element_text words.now (label_cells row.now)) }
    {
        self.push_element(
            words,
            &[
                Column::Number(row.owner.get()),
                Column::Number(row.label.kind().number()),
                Column::Text(row.label.tag.as_str()),
                Column::Text(row.label.text()),
            ],
        )
    }

    // Appends a change of the row of a link that isn't hierarchical.
    fn push_link(&mut self, words: &[u8], link: &Link) -> Result<(), AllocError>
        ensures { OnOk result (self.new
            ≡ self.old ++ element_text words.now (link_cells link.now)) }
    {
        self.push_element(
            words,
            &[
                Column::Number(link.kind.number()),
                Column::Number(link.a.get()),
                Column::Number(link.b.get()),
            ],
        )
    }

    // Appends a change of the row of a hierarchical link.
    fn push_hier(&mut self, words: &[u8], row: &HierRow) -> Result<(), AllocError>
        ensures { OnOk result (self.new
            ≡ self.old ++ element_text words.now (hier_cells row.now)) }
    {
        self.push_element(
            words,
            &[
                Column::Number(row.a.get()),
                Column::Number(row.b.get()),
                Column::Number(type_number(row.typ)),
            ],
        )
    }

    // Appends the insertion of the row of a posting.
    fn push_posting(&mut self, row: &PostingRow) -> Result<(), AllocError>
        ensures { OnOk result (self.new ≡ self.old ++ change_text (change.AddPosting row.now)) }
    {
        self.push_element(
            b"\"insert\",\"posting\"",
            &[
                Column::Number(row.number.get()),
                Column::Text(row.key.as_str()),
                Column::Text(row.rec.as_str()),
                Column::Number(row.first.get()),
                Column::Number(row.place.get()),
                Column::Number(flag_number(row.withdrawn)),
            ],
        )
    }

    // Appends the insertion of the row of a move.
    fn push_move(&mut self, row: &MoveRow) -> Result<(), AllocError>
        ensures { OnOk result (self.new ≡ self.old ++ change_text (change.AddMove row.now)) }
    {
        self.push_element(
            b"\"insert\",\"move\"",
            &[
                Column::Number(row.number.get()),
                Column::Number(row.posting.get()),
                Column::Number(row.source.get()),
                Column::Number(row.target.get()),
            ],
        )
    }

    // Appends a change that has one number.
    fn push_one(&mut self, words: &[u8], number: u32) -> Result<(), AllocError>
        ensures { OnOk result (self.new
            ≡ self.old ++ element_text words.now (number_cell number ∷ [])) }
    {
        self.push_element(words, &[Column::Number(number)])
    }

    // Appends a change that has two numbers.
    fn push_two(&mut self, words: &[u8], first: u32, second: u32) -> Result<(), AllocError>
        ensures { OnOk result (self.new
            ≡ self.old ++ element_text words.now (number_cell first ∷ number_cell second ∷ [])) }
    {
        self.push_element(words, &[Column::Number(first), Column::Number(second)])
    }

    // Appends the text of a change with these words and columns.
    fn push_element(&mut self, words: &[u8], columns: &[Column<'_>]) -> Result<(), AllocError>
        ensures { OnOk result (self.new
            ≡ self.old ++ element_text words.now (map column_cell columns.now)) }
    {
        self.text.extend_from_slice(b"[")?;
        self.text.extend_from_slice(words)?;
        self.push_columns(columns)?;
        self.text.extend_from_slice(b"]")
    }

    // Appends the text of each column, after a comma.
    fn push_columns(&mut self, columns: &[Column<'_>]) -> Result<(), AllocError>
        ensures { OnOk result (self.new ≡ self.old ++ cells_text (map column_cell columns.now)) }
    {
        for column in columns {
            self.text.extend_from_slice(b",")?;
            self.push_column(*column)?;
        }
        Ok(())
    }

    // Appends the text of a column: a number, a string, or null.
    fn push_column(&mut self, column: Column<'_>) -> Result<(), AllocError>
        ensures { OnOk result (self.new ≡ self.old ++ cell_text (column_cell column.entry)) }
    {
        match column {
            Column::Number(number) => {
                self.text
                    .extend_from_slice(Buffer::new().format(number).as_bytes())
            }
            Column::Text(text) => self.push_string(text),
            Column::Null => self.text.extend_from_slice(b"null"),
        }
    }

    // Appends a text as a string of JSON.
    fn push_string(&mut self, text: &str) -> Result<(), AllocError>
        ensures { OnOk result (self.new ≡ self.old ++ quoted text.now) }
    {
        let mut writer = Writer::new(Vec::new(self.alloc));
        writer.string(text)?;
        self.text.extend_from_slice(&writer.into_inner())
    }
}

// Returns the column of a resource's number, or Null if there is none.
fn optional(number: Option<ResNo>) -> Column<'static>
    ensures { column_cell result ≡ optional_cell number }
{
    match number {
        Some(number) => Column::Number(number.get()),
        None => Column::Null,
    }
}
