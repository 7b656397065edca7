//! Reads the members of a request's JSON object one by one, and joins the results. A missing
//! member, or one of the wrong type, is `BadShape`, which takes precedence over the form faults of
//! all other members.
ghost use Rattle.std.specs.Prelude.{◌≡◌, ◌⊎◌, map, codes, true, Some, None, option_map, option_and_then, IfOk, IfErr};
ghost use Rattle.serde_json.specs.View.{number_view};
ghost use Rattle.serde_json.specs.Find.{as_object, as_str};
ghost use Rattle.thes_base.specs.Forms.{IsNumber};
ghost use Rattle.thes_base.specs.ReadResults.{IsReadResult};
ghost use Rattle.thes_base.specs.Texts.{IsLabelText};
ghost use Rattle.thes_base.specs.declared.fault.FormFault.TheVariants.{BadNumber, BadText};
ghost use Rattle.thes_requests.specs.Tree.{view, items_view};
ghost use Rattle.thes_requests.specs.Keywords.{verb_named, noun_named, label_kind_named, link_kind_named};
ghost use Rattle.thes_requests.specs.MemberReadings.{is_value_fault, both, if_exact, ReadsMember, text_member, boolean_member, a_label_value, label_value_of};
ghost use Rattle.thes_requests.specs.Members.{has_count, text_in, all_numbers, numbers_in};
ghost use Rattle.thes_requests.specs.Requests.{whole_number, AreNumbers, number_at, a_link_kind, some_postings};

use crate::keywords::{
    CommandKeyword, QueryKeyword, label_kind_named, link_kind_named, noun_named, verb_named,
};
use crate::tree::Value;
use std::alloc::{AllocError, Global};
use thes_base::data::{LabelKind, LabelValue, LinkKind};
use thes_base::fault::{FormFault, ReadStop};
use thes_base::form::Form;
use thes_base::number::Number;
use thes_base::request::PostNos;
use thes_base::text::{Formed, Note, Text};

/// The form fault of JSON in which a member of the request is missing or of the wrong type, or that
/// has another member.
pub const BAD_SHAPE: ReadStop = ReadStop::Form(FormFault::BadShape);

const BAD_NUMBER: ReadStop = ReadStop::Form(FormFault::BadNumber);

// Returns whether the stop is a form fault other than `BadShape`. A `BadShape` of a later member
// takes precedence over such a fault.
fn is_value_fault(stop: ReadStop) -> bool
    ensures { result ≡ is_value_fault stop }
{
    match stop {
        ReadStop::Form(FormFault::BadShape) | ReadStop::OutOfMemory => false,
        ReadStop::Form(_) => true,
    }
}

/// Returns the values of two members, or the first stop; but if the second stop is `BadShape` or
/// `OutOfMemory`, returns the second, since shape is checked before form (DECISIONS.md, Requests in
/// JSON).
pub fn both<A: Drop, B: Drop>(
    first: Result<A, ReadStop>,
    second: Result<B, ReadStop>,
) -> Result<(A, B), ReadStop>
    ensures { result ≡ both first second }
{
    match (first, second) {
        (Ok(a), Ok(b)) => Ok((a, b)),
        (Ok(_), Err(stop)) | (Err(stop), Ok(_)) => Err(stop),
        (Err(first), Err(second)) if is_value_fault(second) => Err(first),
        (Err(_), Err(second)) => Err(second),
    }
}

/// Returns the members if the object has exactly `count` names, `do` or `get` included, or else
/// `BadShape`.
pub fn exactly<A: Drop>(
    count: usize,
    value: &Value<'_>,
    members: Result<A, ReadStop>,
) -> Result<A, ReadStop>
    ensures { result ≡ if_exact (has_count count (as_object (view value.now))) members }
{
    if value.has_count(count) {
        members
    } else {
        Err(BAD_SHAPE)
    }
}

// Converts a JSON number to the number of a resource or a posting, or returns `BadNumber`.
fn number_form<S>(number: &serde_json::Number) -> Result<Number<S>, ReadStop>
    ensures { let n = whole_number (number_view number.now) in IsReadResult (IsNumber n) BadNumber
        (λ m. m ≡ n) result }
{
    let Some(number) = number.as_u64() else {
        return Err(BAD_NUMBER);
    };
    let Ok(number) = u32::try_from(number) else {
        return Err(BAD_NUMBER);
    };
    Number::from_u32(number).ok_or(BAD_NUMBER)
}

/// Reads the member `name` as the number of a resource or a posting, from 1 to 2³² - 1. Any other
/// JSON number is `BadNumber`.
pub fn number_at<S>(name: &str, value: &Value<'_>) -> Result<Number<S>, ReadStop>
    ensures { ReadsMember (number_at name.now) (view value.now) result }
{
    match value.get(name).and_then(Value::as_number) {
        Some(number) => number_form(number),
        None => Err(BAD_SHAPE),
    }
}

/// Reads the member `name` as a text of the form `F`, such as a tag or an IRI.
pub fn read_text_member<F: Form>(
    alloc: Global,
    name: &str,
    value: &Value<'_>,
) -> Result<Formed<F>, ReadStop>
    requires { is_value_fault (ReadStop.Form F.FAULT) ≡ true }
    ensures { ReadsMember (text_member F.is_form F.FAULT F.LOWERED name.now)
        (view value.now) result }
{
    match value.get(name).and_then(Value::as_str) {
        Some(text) => Formed::read(alloc, text),
        None => Err(BAD_SHAPE),
    }
}

/// Reads the member `name` as a Boolean, or returns `BadShape`.
pub fn truth_at(name: &str, value: &Value<'_>) -> Result<bool, ReadStop>
    ensures { ReadsMember (boolean_member name.now) (view value.now) result }
{
    match value.get(name).and_then(Value::as_bool) {
        Some(truth) => Ok(truth),
        None => Err(BAD_SHAPE),
    }
}

/// Reads the member `kind` as the keyword of a link kind, or returns `BadShape`.
pub fn link_kind_at(value: &Value<'_>) -> Result<LinkKind, ReadStop>
    ensures { ReadsMember a_link_kind (view value.now) result }
{
    match keyword_at(value).and_then(link_kind_named) {
        Some(kind) => Ok(kind),
        None => Err(BAD_SHAPE),
    }
}

// Returns the text in the member `kind`, if it is a string.
fn keyword_at<'a>(value: &'a Value<'_>) -> Option<&'a str>
    ensures { option_map (λ s. s.now) result ≡ text_in (codes "kind") (view value.now) }
{
    value.get("kind").and_then(Value::as_str)
}

/// Reads the members `kind` and `text` as the value of a label. The kind decides which form the
/// text must have.
pub fn label_value_at(alloc: Global, value: &Value<'_>) -> Result<LabelValue, ReadStop>
    ensures { ReadsMember a_label_value (view value.now) result }
{
    let Some(kind) = keyword_at(value).and_then(label_kind_named) else {
        return Err(BAD_SHAPE);
    };
    match value.get("text").and_then(Value::as_str) {
        Some(text) => label_value_form(alloc, kind, text),
        None => Err(BAD_SHAPE),
    }
}

// Reads the text of a label of this kind: a note for `Scope`, and the text of a label for all
// others.
fn label_value_form(alloc: Global, kind: LabelKind, text: &str) -> Result<LabelValue, ReadStop>
    ensures { IsReadResult (IsLabelText kind text.now) BadText
        (λ v. v ≡ label_value_of kind text.now) result }
{
    Ok(match kind {
        LabelKind::Pref => LabelValue::Pref(Text::read(alloc, text)?),
        LabelKind::Alt => LabelValue::Alt(Text::read(alloc, text)?),
        LabelKind::Hidden => LabelValue::Hidden(Text::read(alloc, text)?),
        LabelKind::Scope => LabelValue::Scope(Note::read(alloc, text)?),
    })
}

/// Reads the member `postings` as an array of numbers of postings.
pub fn postings_at(alloc: Global, value: &Value<'_>) -> Result<PostNos, ReadStop>
    ensures { ReadsMember some_postings (view value.now) result }
{
    let numbers = numbers_in(alloc, "postings", value)?;
    post_nos(alloc, &numbers)
}

// Converts JSON numbers to numbers of postings, or returns `BadNumber` if one isn't an integer from
// 1 to 2³² - 1.
#[tactic(auto, using(crate::proofs::MemberLemmas::not_numbers))]
fn post_nos(alloc: Global, numbers: &[&serde_json::Number]) -> Result<PostNos, ReadStop>
    ensures { let ns = map whole_number (map (λ n. number_view n.now) numbers.now) in IsReadResult
        (AreNumbers ns) BadNumber (λ ms. ms ≡ ns) result }
{
    let mut list = PostNos::new(alloc);
    for number in numbers {
        list.push(number_form(number)?)?;
    }
    Ok(list)
}

// Returns the array of numbers in the member `name`, or `BadShape` if there is none.
fn numbers_in<'a>(
    alloc: Global,
    name: &str,
    value: &'a Value<'_>,
) -> Result<Vec<&'a serde_json::Number>, ReadStop>
    ensures ok { IfOk result (λ v. numbers_in name.now (view value.now) ≡ Some
        (map (λ n. number_view n.now) v.items)) }
    ensures err { IfErr result (λ e. (e ≡ ReadStop.OutOfMemory)
        ⊎ ((e ≡ BAD_SHAPE) × (numbers_in name.now (view value.now) ≡ None))) }
{
    let array = value.get(name).and_then(Value::as_array).ok_or(BAD_SHAPE)?;
    all_numbers(alloc, array)
}

// Returns the values as JSON numbers, or `BadShape` if one is of another type.
fn all_numbers<'a>(
    alloc: Global,
    values: &'a [Value<'_>],
) -> Result<Vec<&'a serde_json::Number>, ReadStop>
    ensures ok { IfOk result (λ v. all_numbers (items_view values.now) ≡ Some
        (map (λ n. number_view n.now) v.items)) }
    ensures err { IfErr result (λ e. (e ≡ ReadStop.OutOfMemory)
        ⊎ ((e ≡ BAD_SHAPE) × (all_numbers (items_view values.now) ≡ None))) }
{
    let mut numbers = Vec::new(alloc);
    for value in values {
        let number = value.as_number().ok_or(BAD_SHAPE)?;
        numbers.push(number).map_err(AllocError::from)?;
    }
    Ok(numbers)
}

/// Returns the command whose keyword is this JSON value, if there is one.
pub fn command_keyword_at(word: &Value<'_>) -> Option<CommandKeyword>
    ensures { result ≡ option_and_then verb_named (as_str (view word.now)) }
{
    word.as_str().and_then(verb_named)
}

/// Returns the query whose keyword is this JSON value, if there is one.
pub fn query_keyword_at(word: &Value<'_>) -> Option<QueryKeyword>
    ensures { result ≡ option_and_then noun_named (as_str (view word.now)) }
{
    word.as_str().and_then(noun_named)
}
