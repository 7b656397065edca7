//! The forms of texts, each with its greatest size and the fault for a text that lacks it.
ghost use Rattle.std.specs.Prelude.{◌==◌, ◌↔◌, All, IsTrue, Bool, true, false, List, ℕ};
ghost use Rattle.std.specs.List.{slice_split};
ghost use Rattle.std.specs.Char.{IsAsciiAlphabetic, IsAsciiAlphanumeric};
ghost use Rattle.thes_base.specs.Forms.{IsLine, IsTrimmedLine, IsText, IsKey, IsRecordName, IsNote, IsTag, IsTagPart, IsIri, IsBase, IsIriWithin, IsIriScheme, IsIriRest, HasStoredForm, stored_text};
ghost use Rattle.thes_base.specs.declared.fault.FormFault.{FormFault};
ghost use Rattle.thes_base.specs.declared.fault.FormFault.TheVariants.{BadText, BadKey, BadRecord, BadTag, BadIri};

use crate::fault::FormFault;

/// A rule for texts, with the fault for a text that breaks it, and the choice whether texts are
/// stored in lower case.
pub trait Form {
    ghost is_form: { List ℕ → Type 0 };

    ghost FAULT: { FormFault };

    ghost LOWERED: { Bool };

    /// The fault for a text that lacks the form.
    const FAULT: FormFault;

    /// Whether texts of the form are stored with their ASCII letters in lower case.
    const LOWERED: bool;

    /// Checks whether a text has the form; if so, its stored spelling also has it.
    fn has_form(text: &str) -> bool
        ensures form { IsTrue result ↔ is_form text.now }
        ensures stays { IsTrue result → HasStoredForm is_form LOWERED
            (stored_text LOWERED text.now) };
}

/// The form of a label's text: one line of 1 to 256 bytes, without a space at either end.
#[derive(Drop)]
pub enum TextForm {}

impl Form for TextForm {
    ghost is_form = { IsText };

    ghost FAULT = { BadText };

    ghost LOWERED = { false };

    const FAULT: FormFault = FormFault::BadText;

    const LOWERED: bool = false;

    fn has_form(text: &str) -> bool {
        is_trimmed_line(256, text)
    }
}

/// The form of a scope note: one line of 1 to 2,000 bytes, without a space at either end.
#[derive(Drop)]
pub enum NoteForm {}

impl Form for NoteForm {
    ghost is_form = { IsNote };

    ghost FAULT = { BadText };

    ghost LOWERED = { false };

    const FAULT: FormFault = FormFault::BadText;

    const LOWERED: bool = false;

    fn has_form(text: &str) -> bool {
        is_trimmed_line(2000, text)
    }
}

/// The form of the name of a catalogue record: one line of 1 to 128 bytes.
#[derive(Drop)]
pub enum RecordNameForm {}

impl Form for RecordNameForm {
    ghost is_form = { IsRecordName };

    ghost FAULT = { BadRecord };

    ghost LOWERED = { false };

    const FAULT: FormFault = FormFault::BadRecord;

    const LOWERED: bool = false;

    fn has_form(text: &str) -> bool {
        is_line(128, text)
    }
}

/// The form of a sender's key for a posting: 1 to 64 visible ASCII characters.
#[derive(Drop)]
pub enum KeyForm {}

impl Form for KeyForm {
    ghost is_form = { IsKey };

    ghost FAULT = { BadKey };

    ghost LOWERED = { false };

    const FAULT: FormFault = FormFault::BadKey;

    const LOWERED: bool = false;

    fn has_form(text: &str) -> bool {
        is_key(text)
    }
}

/// The form of a language tag: at most 35 bytes, in parts of 1 to 8 letters or digits, separated by
/// hyphens; the first part has only letters.
#[derive(Drop)]
pub enum TagForm {}

impl Form for TagForm {
    ghost is_form = { IsTag };

    ghost FAULT = { BadTag };

    ghost LOWERED = { true };

    const FAULT: FormFault = FormFault::BadTag;

    const LOWERED: bool = true;

    fn has_form(text: &str) -> bool {
        is_tag(text)
    }
}

/// The form of an outside concept's IRI: a scheme, a colon and at least one character, in at most
/// 512 bytes.
#[derive(Drop)]
pub enum IriForm {}

impl Form for IriForm {
    ghost is_form = { IsIri };

    ghost FAULT = { BadIri };

    ghost LOWERED = { false };

    const FAULT: FormFault = FormFault::BadIri;

    const LOWERED: bool = false;

    fn has_form(text: &str) -> bool {
        is_iri(512, text)
    }
}

/// The form of a store's base, the prefix of the IRIs of its own resources: an IRI of at most 200
/// bytes.
#[derive(Drop)]
pub enum BaseForm {}

impl Form for BaseForm {
    ghost is_form = { IsBase };

    ghost FAULT = { BadIri };

    ghost LOWERED = { false };

    const FAULT: FormFault = FormFault::BadIri;

    const LOWERED: bool = false;

    fn has_form(text: &str) -> bool {
        is_iri(200, text)
    }
}

// Checks for 1 to `most` bytes without an ASCII control character, so without a line end.
fn is_line(most: usize, text: &str) -> bool
    ensures { IsTrue result ↔ IsLine most text.now }
{
    let bytes = text.as_bytes();
    1 <= bytes.len() && bytes.len() <= most && bytes.iter().all(|b| 32 <= *b && *b != 127)
}

// Checks for a line of 1 to `most` bytes that neither begins nor ends with a space.
fn is_trimmed_line(most: usize, text: &str) -> bool
    ensures { IsTrue result ↔ IsTrimmedLine most text.now }
{
    is_line(most, text) && !text.starts_with(' ') && !text.ends_with(' ')
}

// Checks for 1 to 64 bytes, each a printable ASCII character other than the space.
fn is_key(text: &str) -> bool
    ensures { IsTrue result ↔ IsKey text.now }
{
    let bytes = text.as_bytes();
    1 <= bytes.len() && bytes.len() <= 64 && bytes.iter().all(|b| 0x21 <= *b && *b <= 0x7e)
}

// Checks for at most 35 bytes: a part of letters, then any number of parts of letters and digits,
// separated by hyphens.
fn is_tag(text: &str) -> bool
    ensures { IsTrue result ↔ IsTag text.now }
{
    text.len() <= 35
        && match text.split_once('-') {
            None => is_part_of_letters(text),
            Some((first, rest)) => is_part_of_letters(first) && are_parts(rest),
        }
}

// Checks for one or more further parts of a language tag, separated by hyphens.
fn are_parts(text: &str) -> bool
    ensures { IsTrue result ↔
        All (IsTagPart IsAsciiAlphanumeric) (slice_split (λ b. b == 45) text.now) }
{
    text.split('-').all(is_part)
}

// Checks for the first part of a language tag: 1 to 8 ASCII letters.
fn is_part_of_letters(part: &str) -> bool
    ensures { IsTrue result ↔ IsTagPart IsAsciiAlphabetic part.now }
{
    1 <= part.len() && part.len() <= 8 && part.as_bytes().iter().all(|b| b.is_ascii_alphabetic())
}

// Checks for a further part of a language tag: 1 to 8 ASCII letters and digits.
fn is_part(part: &str) -> bool
    ensures { IsTrue result ↔ IsTagPart IsAsciiAlphanumeric part.now }
{
    1 <= part.len() && part.len() <= 8 && part.as_bytes().iter().all(|b| b.is_ascii_alphanumeric())
}

// Checks for an IRI of at most `most` bytes: a scheme, a colon and at least one character.
fn is_iri(most: usize, text: &str) -> bool
    ensures { IsTrue result ↔ IsIriWithin most text.now }
{
    text.len() <= most
        && match text.split_once(':') {
            None => false,
            Some((scheme, rest)) => is_iri_scheme(scheme) && is_iri_rest(rest),
        }
}

// Checks for an ASCII letter, followed by letters, digits, `+`, `-` and `.`.
fn is_iri_scheme(scheme: &str) -> bool
    ensures { IsTrue result ↔ IsIriScheme scheme.now }
{
    let bytes = scheme.as_bytes();
    bytes.first().is_some_and(|b| b.is_ascii_alphabetic())
        && bytes.iter().all(|b| b.is_ascii_alphanumeric() || *b == b'+' || *b == b'-' || *b == b'.')
}

// Checks for at least one byte, each allowed in an IRI.
fn is_iri_rest(rest: &str) -> bool
    ensures { IsTrue result ↔ IsIriRest rest.now }
{
    let bytes = rest.as_bytes();
    1 <= bytes.len()
        && bytes
            .iter()
            .all(|b| 33 <= *b && !b"<>\"{}|^`\\".contains(b))
}
