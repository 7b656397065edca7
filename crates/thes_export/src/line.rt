//! Lines of N-Triples, each of one triple, and the parts of an export that they make up.
ghost use Rattle.std.specs.Prelude.{◌≡◌, ◌++◌, [], ◌∷◌, List, ℕ, Some, false, IfOk, OnOk, flat_map, nat_eq, codes, refl};
ghost use Rattle.std.specs.Cmp;
ghost use Rattle.std.specs.Cmp.Lexicographic.{pointwise, slice_cmp, nat_list_eq_equiv, nat_list_cmp_total, texts_ties, texts_po};
ghost use Rattle.std.specs.Ordering.{nat_cmp};
ghost use Rattle.thes_base.specs.Triples.{Class as OfClass, Literal, Node, True, triple, iri_of};
ghost use Rattle.thes_export.specs.Spelling.{iri_spelling, byte_spelling, line_of, object_text, line_start, property_iri, text_spelling};
ghost use Rattle.thes_export.specs.Topics.{label_property, label_triple, number_iri};

use crate::vocabulary::{class_text, property_text, true_text};
use itoa::Buffer;
use std::alloc::{AllocError, Global};
use std::cmp::Ordering;
use std::marker::Model;
use thes_base::data::{Label, LabelKind};
use thes_base::number::ResNo;
use thes_base::triple::{Class, Property};
use thes_core::Core;

/// A part of an export's text: a line with its line feed, or all lines about a resource. Parts are
/// compared by their bytes.
#[derive(Drop)]
pub struct ExportPart {
    text: Vec<u8>,
}

impl Model for ExportPart {
    ghost Value = { List ℕ };

    ghost view = { λ line. line.text.items };
}

/// Compares the bytes of two parts.
impl PartialEq for ExportPart {
    ghost eq = { pointwise nat_eq };

    ghost laws = { Cmp.partial_equiv_from_equiv nat_list_eq_equiv };

    fn eq(&self, other: &ExportPart) -> bool {
        self.as_bytes() == other.as_bytes()
    }
}

impl Eq for ExportPart {
    ghost laws = { nat_list_eq_equiv };
}

/// Orders any two parts, by their bytes.
impl PartialOrd for ExportPart {
    ghost partial_cmp = { λ x y. Some (slice_cmp nat_cmp x y) };

    ghost laws = { texts_po };

    fn partial_cmp(&self, other: &ExportPart) -> Option<Ordering> {
        Some(self.cmp(other))
    }
}

/// Orders parts by their bytes, and so the lines of an export.
impl Ord for ExportPart {
    ghost cmp = { slice_cmp nat_cmp };

    ghost total = { nat_list_cmp_total };

    ghost matches_partial_cmp = { λ x y. refl };

    ghost matches_eq = { texts_ties };

    fn cmp(&self, other: &ExportPart) -> Ordering {
        self.as_bytes().cmp(other.as_bytes())
    }
}

// Appends the IRI of a resource in angle brackets: its own for an outside concept, and the base
// with its number for any other.
fn push_resource(text: &mut Vec<u8>, core: &Core, n: ResNo) -> Result<(), AllocError>
    requires { core.now.spent ≡ false }
    ensures { OnOk result
        (text.new.items ≡ text.old.items ++ iri_spelling (number_iri core.now n)) }
{
    text.push(b'<')?;
    match core.outside_iri(n) {
        Some(iri) => text.extend_from_slice(iri.as_str().as_bytes())?,
        None => {
            text.extend_from_slice(core.base().as_str().as_bytes())?;
            text.extend_from_slice(Buffer::new().format(n.get()).as_bytes())?;
        }
    }
    text.push(b'>')?;
    Ok(())
}

// Appends the IRI of a property or a class in angle brackets.
fn push_iri(text: &mut Vec<u8>, iri: &str) -> Result<(), AllocError>
    ensures { OnOk result (text.new.items ≡ text.old.items ++ iri_spelling iri.now) }
{
    text.push(b'<')?;
    text.extend_from_slice(iri.as_bytes())?;
    text.push(b'>')?;
    Ok(())
}

// Appends a byte of a literal, after a backslash if it is a quotation mark or a backslash.
fn push_byte(text: &mut Vec<u8>, byte: u8) -> Result<(), AllocError>
    ensures { OnOk result (text.new.items ≡ text.old.items ++ byte_spelling byte) }
{
    if byte == b'"' || byte == b'\\' {
        text.push(b'\\')?;
    }
    text.push(byte)?;
    Ok(())
}

// Appends a text in quotation marks, with quotation marks and backslashes escaped.
fn push_quoted(text: &mut Vec<u8>, value: &str) -> Result<(), AllocError>
    ensures { OnOk result (text.new.items ≡ text.old.items ++ text_spelling value.now) }
{
    text.push(b'"')?;
    for byte in value.as_bytes() {
        push_byte(text, *byte)?;
    }
    text.push(b'"')?;
    Ok(())
}

// Returns the SKOS property for a label kind, such as `skos:prefLabel`.
fn property_of(kind: LabelKind) -> Property
    ensures { result ≡ label_property kind }
{
    match kind {
        LabelKind::Pref => Property::PrefLabel,
        LabelKind::Alt => Property::AltLabel,
        LabelKind::Hidden => Property::HiddenLabel,
        LabelKind::Scope => Property::ScopeNote,
    }
}

// Appends the literal `true` with the type `xsd:boolean`.
fn push_true(text: &mut Vec<u8>) -> Result<(), AllocError>
    ensures { OnOk result (text.new.items ≡ text.old.items ++ object_text True) }
{
    text.extend_from_slice(true_text().as_bytes())?;
    Ok(())
}

// Appends a label's text as a literal with its language tag.
fn push_label_text(text: &mut Vec<u8>, label: &Label) -> Result<(), AllocError>
    ensures { let content = object_text (Literal label.now.tag label.now.text) in
        OnOk result (text.new.items ≡ text.old.items ++ content) }
{
    push_quoted(text, label.text())?;
    text.push(b'@')?;
    text.extend_from_slice(label.tag.as_str().as_bytes())?;
    Ok(())
}

// Returns the beginning of a line: the subject and the property, each followed by a space.
fn begin_line(
    alloc: Global,
    core: &Core,
    n: ResNo,
    property: Property,
) -> Result<Vec<u8>, AllocError>
    requires { core.now.spent ≡ false }
    ensures { IfOk result
        (λ text. text.items ≡ line_start (number_iri core.now n) (property_iri property)) }
{
    let mut text = Vec::with_capacity(alloc, 160)?;
    push_resource(&mut text, core, n)?;
    text.push(b' ')?;
    push_iri(&mut text, property_text(property))?;
    text.push(b' ')?;
    Ok(text)
}

// Returns the beginning of a label's line, up to its literal.
fn begin_label_line(
    alloc: Global,
    core: &Core,
    n: ResNo,
    label: &Label,
) -> Result<Vec<u8>, AllocError>
    requires { core.now.spent ≡ false }
    ensures { let property = property_iri (label_property label.now.kind) in
        IfOk result (λ text. text.items ≡ line_start (number_iri core.now n) property) }
{
    let text = begin_line(alloc, core, n, property_of(label.kind()))?;
    Ok(text)
}

// Completes the line of a triple with a space, a full stop and a line feed.
fn end_line(mut text: Vec<u8>) -> Result<ExportPart, AllocError>
    ensures { IfOk result (λ line. line ≡ text.items ++ codes " .\n") }
{
    text.extend_from_slice(b" .\n")?;
    Ok(ExportPart { text })
}

impl ExportPart {
    /// Creates a part from the bytes of its lines.
    pub fn of_lines(text: Vec<u8>) -> ExportPart
        ensures { result ≡ text.items }
    {
        ExportPart { text }
    }

    /// Returns the bytes of the part in UTF-8, with its line feeds.
    pub fn as_bytes(&self) -> &[u8]
        ensures { result.now ≡ self.now }
    {
        self.text.as_slice()
    }

    /// Returns the line of the triple with this property from resource `n` to resource `object`.
    pub fn of_node(
        alloc: Global,
        core: &Core,
        n: ResNo,
        property: Property,
        object: ResNo,
    ) -> Result<ExportPart, AllocError>
        requires { core.now.spent ≡ false }
        ensures { let iri = number_iri core.now in
            IfOk result (λ line. line ≡ line_of (triple (iri n) property (Node (iri object)))) }
    {
        let mut text = begin_line(alloc, core, n, property)?;
        push_resource(&mut text, core, object)?;
        let line = end_line(text)?;
        Ok(line)
    }

    /// Returns the line of the triple that states the class of a resource.
    pub fn of_class(
        alloc: Global,
        core: &Core,
        n: ResNo,
        class: Class,
    ) -> Result<ExportPart, AllocError>
        requires { core.now.spent ≡ false }
        ensures { let subject = number_iri core.now n in
            IfOk result (λ line. line ≡ line_of (triple subject Property.HasType (OfClass class))) }
    {
        let mut text = begin_line(alloc, core, n, Property::HasType)?;
        push_iri(&mut text, class_text(class))?;
        let line = end_line(text)?;
        Ok(line)
    }

    /// Returns the line of the triple that states that a concept is deprecated (`owl:deprecated`).
    pub fn of_dead(alloc: Global, core: &Core, n: ResNo) -> Result<ExportPart, AllocError>
        requires { core.now.spent ≡ false }
        ensures { let subject = number_iri core.now n in
            IfOk result (λ line. line ≡ line_of (triple subject Property.Deprecated True)) }
    {
        let mut text = begin_line(alloc, core, n, Property::Deprecated)?;
        push_true(&mut text)?;
        let line = end_line(text)?;
        Ok(line)
    }

    /// Returns the line of the triple of a label or scope note.
    pub fn of_label(
        alloc: Global,
        core: &Core,
        n: ResNo,
        label: &Label,
    ) -> Result<ExportPart, AllocError>
        requires { core.now.spent ≡ false }
        ensures { IfOk result (λ line. line ≡ line_of (label_triple core.now n label.now)) }
    {
        let mut text = begin_label_line(alloc, core, n, label)?;
        push_label_text(&mut text, label)?;
        let line = end_line(text)?;
        Ok(line)
    }
}
