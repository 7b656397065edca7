//! References in the requests of a plan: strings such as `"$3"` in place of numbers.
ghost use Rattle.std.specs.Prelude.{◌≡◌, ◌+◌, ◌*◌, ◌-◌, ℕ, List, codes, min, false, is_some, option_and_then, option_map, true, IfOk};
ghost use Rattle.std.specs.Char.{is_ascii_digit};
ghost use Rattle.std.specs.List.{list_all, list_any};
ghost use Rattle.std.specs.Str.Parse.{digits_value};
ghost use Rattle.serde_json.specs.Find.{as_array, get};
ghost use Rattle.thes_requests.specs.References as plan;
ghost use Rattle.thes_requests.specs.Tree.{view, items_view, members_view};

use crate::keywords::CommandKeyword;
use crate::tree::{Value, push_member};
use serde_json::Number;
use std::alloc::{AllocError, Global};

// Returns whether the bytes are one or more decimal digits, the first of which isn't a zero unless
// it is the only one.
fn is_place(digits: &[u8]) -> bool
    ensures { result ≡ plan.is_place digits.now }
{
    all_digits(digits) && begins_place(digits)
}

// Returns whether each byte of a reference after its dollar sign is an ASCII digit.
fn all_digits(digits: &[u8]) -> bool
    ensures { result ≡ list_all is_ascii_digit digits.now }
{
    digits.iter().all(|byte| byte.is_ascii_digit())
}

// Returns whether there is at least one byte, and the first of several isn't a zero.
fn begins_place(digits: &[u8]) -> bool
    ensures { result ≡ plan.begins_place digits.now }
{
    match digits {
        [] => false,
        [_] => true,
        [first, ..] => *first != b'0',
    }
}

// Returns the value with one more decimal digit appended, or `u32::MAX` if that is less.
fn with_digit(value: u32, digit: &u8) -> u32
    ensures { result ≡ min (value * 10 + (digit.now - 48)) plan.greatest_place }
{
    value
        .saturating_mul(10)
        .saturating_add(digit.saturating_sub(b'0') as u32)
}

// Returns the value of decimal digits, or `u32::MAX` if that is less.
fn capped_value(digits: &[u8]) -> u32
    requires { plan.is_place digits.now ≡ true }
    ensures { result ≡ min (digits_value 10 digits.now) plan.greatest_place }
{
    let mut value: u32 = 0;
    for digit in digits {
        value = with_digit(value, digit);
    }
    value
}

// Returns the place in the plan to which a text refers, such as 3 for `$3`, if it is a reference.
fn place_in(text: &str) -> Option<u32>
    ensures { result ≡ plan.place_in text.now }
{
    match text.as_bytes() {
        [b'$', digits @ ..] if is_place(digits) => Some(capped_value(digits)),
        _ => None,
    }
}

// Returns the place to which a JSON value refers, if the value is a reference. Any place beyond
// `u32::MAX` is returned as `u32::MAX`, which is beyond every plan.
fn reference_in(value: &Value<'_>) -> Option<u32>
    ensures { result ≡ plan.reference_in (view value.now) }
{
    place_in(value.as_str()?)
}

/// Returns the name of the member with the command's first number, or `None` if a command with this
/// keyword has no number.
pub fn first_name(verb: CommandKeyword) -> Option<&'static str>
    ensures { option_map (λ s. s.now) result ≡ plan.first_name verb }
{
    match verb {
        CommandKeyword::Concept | CommandKeyword::Collection => Some("scheme"),
        CommandKeyword::AddLabel | CommandKeyword::DropLabel | CommandKeyword::Relabel => {
            Some("owner")
        }
        CommandKeyword::Link | CommandKeyword::Unlink => Some("a"),
        CommandKeyword::Deprecate | CommandKeyword::Post => Some("concept"),
        CommandKeyword::Merge | CommandKeyword::Split => Some("source"),
        CommandKeyword::Withdraw => Some("posting"),
        CommandKeyword::Scheme | CommandKeyword::Outside => None,
    }
}

/// Returns the name of the member with the command's second number, or `None` if a command with
/// this keyword has only one or none.
pub fn second_name(verb: CommandKeyword) -> Option<&'static str>
    ensures { option_map (λ s. s.now) result ≡ plan.second_name verb }
{
    match verb {
        CommandKeyword::Link | CommandKeyword::Unlink => Some("b"),
        CommandKeyword::Merge => Some("target"),
        _ => None,
    }
}

/// Returns the place to which the member with this name refers, or `None` if there is no name or
/// the member isn't a reference.
pub fn reference_at(name: Option<&str>, value: &Value<'_>) -> Option<u32>
    ensures { result ≡ plan.reference_at (option_map (λ s. s.now) name.entry) (view value.now) }
{
    reference_in(value.get(name?)?)
}

/// Returns, for each posting that a split lists, the place to which it refers, or `None` if it
/// isn't a reference. For other commands the list is empty.
pub fn listed_references(
    alloc: Global,
    verb: CommandKeyword,
    value: &Value<'_>,
) -> Result<Vec<Option<u32>>, AllocError>
    ensures { IfOk result (λ v. v.items ≡ plan.listed_references verb (view value.now)) }
{
    match verb {
        CommandKeyword::Split => posting_references(alloc, value),
        _ => Ok(Vec::new(alloc)),
    }
}

// Returns, for each item of the member `postings`, the place to which it refers, if it is a
// reference. The list is empty if the member isn't an array.
fn posting_references(alloc: Global, value: &Value<'_>) -> Result<Vec<Option<u32>>, AllocError>
    ensures { IfOk result (λ v. v.items
        ≡ plan.array_references
        (option_and_then as_array (get (codes "postings") (view value.now)))) }
{
    match value.get("postings").and_then(Value::as_array) {
        Some(items) => references_in(alloc, items),
        None => Ok(Vec::new(alloc)),
    }
}

// Returns, for each item of a JSON array, the place to which it refers, if it is a reference.
#[tactic(auto, using(crate::proofs::ReferenceLemmas::references_next))]
fn references_in(alloc: Global, items: &[Value<'_>]) -> Result<Vec<Option<u32>>, AllocError>
    ensures { IfOk result (λ v. v.items ≡ plan.item_references (items_view items.now)) }
{
    let mut found = Vec::new(alloc);
    for item in items {
        found.push(reference_in(item))?;
    }
    Ok(found)
}

// Returns 1 in place of a reference, and any other value unchanged.
fn without_reference(value: Value<'_>) -> Value<'_>
    ensures { view result ≡ plan.without_reference (view value.entry) }
{
    match reference_in(&value) {
        Some(_) => Value::Number(Number::from(1u64)),
        None => value,
    }
}

// Returns the items with 1 in place of each reference.
#[tactic(auto, using(crate::proofs::ReferenceLemmas::items_without))]
fn items_without_references<'a>(
    alloc: Global,
    items: Vec<Value<'a>>,
) -> Result<Vec<Value<'a>>, AllocError>
    ensures { IfOk result (λ v. items_view v.items
        ≡ plan.items_without_references (items_view items.entry.items)) }
{
    let mut found = Vec::new(alloc);
    for item in items {
        found
            .push(without_reference(item))
            .map_err(AllocError::from)?;
    }
    Ok(found)
}

// Returns an array with 1 in place of each reference among its items, and any other value
// unchanged.
fn list_without_references<'a>(alloc: Global, value: Value<'a>) -> Result<Value<'a>, AllocError>
    ensures { IfOk result (λ v. view v ≡ plan.list_without_references (view value.entry)) }
{
    match value {
        Value::Array(items) => Ok(Value::Array(items_without_references(alloc, items)?)),
        other => Ok(other),
    }
}

// Returns whether a member with this name is a number in some command.
fn is_number_name(name: &str) -> bool
    ensures { result ≡ plan.is_number_name name.now }
{
    matches!(
        name,
        "scheme" | "owner" | "a" | "b" | "concept" | "source" | "target" | "posting"
    )
}

// Returns the value of a member with 1 in place of each reference that is used as a number.
fn member_without_references<'a>(
    alloc: Global,
    name: &str,
    value: Value<'a>,
) -> Result<Value<'a>, AllocError>
    ensures { IfOk result (λ v. view v
        ≡ plan.member_without_references name.now (view value.entry)) }
{
    if is_number_name(name) {
        return Ok(without_reference(value));
    }
    if name == "postings" {
        return list_without_references(alloc, value);
    }
    Ok(value)
}

// Returns the members with 1 in place of each reference that is used as a number.
fn members_without_references<'a>(
    alloc: Global,
    members: Vec<(&'a str, Value<'a>)>,
) -> Result<Vec<(&'a str, Value<'a>)>, AllocError>
    ensures { IfOk result (λ v. members_view v.items
        ≡ plan.members_without_references (members_view members.entry.items)) }
{
    let mut found = Vec::new(alloc);
    for (name, value) in members {
        let value = member_without_references(alloc, name, value)?;
        push_member(alloc, &mut found, name, value)?;
    }
    Ok(found)
}

// Returns whether one of the items is a reference.
fn has_reference_item(items: &[Value<'_>]) -> bool
    ensures { result ≡ list_any (λ v. is_some (plan.reference_in (view v))) items.now }
{
    items.iter().any(|item| reference_in(item).is_some())
}

// Returns whether the value is a reference, or an array with one; if not,
// `member_without_references` leaves it unchanged, whatever the member's name.
#[tactic(auto, using(crate::proofs::UnchangedLemmas::value_unchanged, crate::proofs::UnchangedLemmas::member_unchanged))]
fn has_reference(value: &Value<'_>) -> bool
    ensures { result ≡ false → (name : List ℕ)
        → plan.member_without_references name (view value.now) ≡ view value.now }
{
    match value {
        Value::Array(items) => has_reference_item(items),
        _ => reference_in(value).is_some(),
    }
}

// Returns whether a member has a reference; if not, `members_without_references` would change no
// member.
fn have_references(members: &[(&str, Value<'_>)]) -> bool
    ensures { result ≡ false → plan.members_without_references (members_view members.now)
        ≡ members_view members.now }
{
    for member in members {
        if has_reference(&member.1) {
            return true;
        }
    }
    false
}

/// Returns an object with 1 in place of each reference used as a number, so that it can be read as
/// a request without references; returns any other value unchanged. Copies members only if there
/// are references.
pub fn without_references<'a>(alloc: Global, value: Value<'a>) -> Result<Value<'a>, AllocError>
    ensures { IfOk result (λ v. view v ≡ plan.without_references (view value.entry)) }
{
    match value {
        Value::Object(members) => {
            if !have_references(&members) {
                return Ok(Value::Object(members));
            }
            Ok(Value::Object(members_without_references(alloc, members)?))
        }
        other => Ok(other),
    }
}
