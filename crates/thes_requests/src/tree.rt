//! The JSON of a line as a tree, which borrows each text from the line or, if the text has escapes,
//! from the scratch memory. A `serde_json::Value` would allocate each text (DECISIONS.md, Requests
//! in JSON).
ghost use Rattle.std.specs.Prelude.{◌≡◌, ◌<◌, ◌⊎◌, length, option_map, is_some, bytes_eq, Some, None, IfOk, IfErr, OnOk};
ghost use Rattle.json.specs.Json.{items, members, read_key, value};
ghost use Rattle.serde_json.specs.Data.{no_members, put};
ghost use Rattle.serde_json.specs.Find.{get, as_array, as_bool, as_number, as_object, as_str, get_member};
ghost use Rattle.serde_json.specs.Read.{converted, of_items, of_json, of_members, read as read_text};
ghost use Rattle.serde_json.specs.View.{number_view};
ghost use Rattle.thes_base.specs.declared.fault.FormFault.TheVariants.{NotJson};
ghost use Rattle.thes_requests.specs.Members.{has_count};
ghost use Rattle.thes_requests.specs.Requests.{json_in};
ghost use Rattle.thes_requests.specs.Tree.{view, items_view, members_view};

use crate::numeral::number_of;
use json::{Reader, Scratch, Token};
use serde_json::Number;
use std::alloc::{AllocError, Global};
use thes_base::fault::{FormFault, ReadStop};

/// The form fault of bytes that aren't one JSON value in UTF-8.
pub const NOT_JSON: ReadStop = ReadStop::Form(FormFault::NotJson);

const MAX_DEPTH: usize = 127;

// The first capacity for the members of an object: the greatest number that a request has.
const USUAL_MEMBERS: usize = 5;

/// A JSON value. An object lists its members in the order of the text; if a name repeats, its last
/// member counts.
#[derive(Drop)]
pub enum Value<'a> {
    Null,
    Boolean(bool),
    Number(Number),
    Text(&'a str),
    Array(Vec<Value<'a>>),
    Object(Vec<(&'a str, Value<'a>)>),
}

impl<'a> Value<'a> {
    /// Parses a text that is one JSON value (RFC 8259), perhaps with white space around it. A
    /// number too large for a float is `NotJson`, and so are arrays and objects nested more than
    /// 127 deep.
    pub fn read(
        alloc: Global,
        text: &'a str,
        scratch: &'a mut Scratch,
    ) -> Result<Value<'a>, ReadStop>
        ensures ok { IfOk result (λ v. read_text text.now ≡ Some (view v)) }
        ensures err { IfErr result (λ e. (e ≡ ReadStop.OutOfMemory)
            ⊎ ((e ≡ NOT_JSON) × (read_text text.now ≡ None))) }
    {
        let mut reader = Reader::new(text, scratch)?;
        let value = read(alloc, &mut reader, MAX_DEPTH)?;
        if reader.next().is_some() {
            drop(value);
            return Err(NOT_JSON);
        }
        Ok(value)
    }

    /// Returns the value of the last member `name`, if this is an object that has one.
    pub fn get(&self, name: &str) -> Option<&Value<'a>>
        ensures { option_map (λ v. view v.now) result ≡ get name.now (view self.now) }
    {
        match self {
            Value::Object(members) => member(members, name),
            _ => None,
        }
    }

    /// Returns whether this is an object with exactly `count` different names.
    pub fn has_count(&self, count: usize) -> bool
        ensures { result ≡ has_count count (as_object (view self.now)) }
    {
        match self {
            Value::Object(members) => has_names(members, count),
            _ => false,
        }
    }

    /// Returns the number, if the value is one.
    pub fn as_number(&self) -> Option<&Number>
        ensures { option_map (λ n. number_view n.now) result ≡ as_number (view self.now) }
    {
        match self {
            Value::Number(number) => Some(number),
            _ => None,
        }
    }

    /// Returns the text with its escapes decoded, if the value is a string.
    pub fn as_str(&self) -> Option<&'a str>
        ensures { option_map (λ s. s.now) result ≡ as_str (view self.now) }
    {
        match self {
            Value::Text(text) => Some(*text),
            _ => None,
        }
    }

    /// Returns the Boolean, if the value is one.
    pub fn as_bool(&self) -> Option<bool>
        ensures { result ≡ as_bool (view self.now) }
    {
        match self {
            Value::Boolean(truth) => Some(*truth),
            _ => None,
        }
    }

    /// Returns the items, if the value is an array.
    pub fn as_array(&self) -> Option<&Vec<Value<'a>>>
        ensures { option_map (λ v. items_view v.now.items) result ≡ as_array (view self.now) }
    {
        match self {
            Value::Array(values) => Some(values),
            _ => None,
        }
    }
}

/// Parses the bytes as JSON; bytes that aren't UTF-8 are `NotJson`.
pub fn parse_json<'a>(
    alloc: Global,
    bytes: &'a [u8],
    scratch: &'a mut Scratch,
) -> Result<Value<'a>, ReadStop>
    ensures ok { IfOk result (λ v. json_in bytes.now ≡ Some (view v)) }
    ensures err { IfErr result (λ e. (e ≡ ReadStop.OutOfMemory)
        ⊎ ((e ≡ ReadStop.Form NotJson) × (json_in bytes.now ≡ None))) }
{
    match str::from_utf8(bytes) {
        Ok(text) => Value::read(alloc, text, scratch),
        Err(_) => Err(NOT_JSON),
    }
}

/// Memory for the texts of a request, reused from line to line.
#[derive(Drop)]
pub struct JsonScratch {
    pub alloc: Global,
    pub scratch: Scratch,
}

impl JsonScratch {
    /// Returns an empty scratch memory; allocates nothing.
    pub fn new(alloc: Global) -> JsonScratch
        ensures { result.alloc ≡ alloc }
    {
        JsonScratch {
            alloc,
            scratch: Scratch::new(alloc),
        }
    }
}

// Returns the value of an object's last member with this name.
fn member<'v, 'a>(members: &'v [(&'a str, Value<'a>)], name: &str) -> Option<&'v Value<'a>>
    ensures { option_map (λ v. view v.now) result
        ≡ get_member name.now (members_view members.now) }
{
    let mut left = members.len();
    while left > 0 {
        left -= 1;
        let member = &members[left];
        if name == member.0 {
            return Some(&member.1);
        }
    }
    None
}

// Returns whether two names are equal. It isn't inlined, since for most names their lengths, which
// are compared first, already differ.
#[inline(never)]
fn has_same_bytes(name: &str, other: &str) -> bool
    ensures { result ≡ bytes_eq name.now other.now }
{
    name == other
}

// Returns whether two names are equal. Compares their lengths first, since most names differ in
// length.
#[tactic(auto, using(crate::proofs::TreeLemmas::other_length))]
#[inline(always)]
fn is_same_name(name: &str, other: &str) -> bool
    ensures { result ≡ bytes_eq name.now other.now }
{
    name.len() == other.len() && has_same_bytes(name, other)
}

// Returns whether one of the members has this name.
#[inline(always)]
fn has_name<'a>(members: &[(&'a str, Value<'a>)], name: &str) -> bool
    ensures { result ≡ is_some (get_member name.now (members_view members.now)) }
{
    let mut left = members.len();
    while left > 0 {
        left -= 1;
        if is_same_name(name, members[left].0) {
            return true;
        }
    }
    false
}

// Returns whether the members have exactly `count` different names.
//
// A name is counted at its first member: a search backwards from there finds no equal name. For a
// fixed `count` the time is linear in the number of members: all searches for one name together
// visit each member at most once, and the loop ends at the first name in excess.
fn has_names<'a>(members: &[(&'a str, Value<'a>)], count: usize) -> bool
    ensures { result ≡ has_count count (Some (members_view members.now)) }
{
    let mut names = 0;
    for index in 0..members.len() {
        if !has_name(&members[..index], members[index].0) {
            if names == count {
                return false;
            }
            names += 1;
        }
    }
    names == count
}

/// Appends a member to an object. Before the first one, allocates room for as many members as a
/// request has at most.
#[inline(always)]
pub fn push_member<'a>(
    alloc: Global,
    members: &mut Vec<(&'a str, Value<'a>)>,
    name: &'a str,
    value: Value<'a>,
) -> Result<(), AllocError>
    ensures { OnOk result (members_view members.new.items
        ≡ put name.now (view value.entry) (members_view members.old.items)) }
{
    if members.is_empty() {
        *members = Vec::with_capacity(alloc, USUAL_MEMBERS)?;
    }
    members.push((name, value)).map_err(AllocError::from)
}

// Parses the next JSON value, in which arrays and objects nest at most `depth` deep.
#[cycle(read)]
#[inline(always)]
fn read<'a>(alloc: Global, reader: &mut Reader<'a>, depth: usize) -> Result<Value<'a>, ReadStop>
    ensures ok { IfOk result
        (λ v. converted of_json (value depth reader.old) ≡ Some (view v, reader.new)) }
    ensures shorter { OnOk result (length reader.new < length reader.old) }
    ensures err { result ≡ Err NOT_JSON → converted of_json (value depth reader.old) ≡ None }
    ensures stop { IfErr result (λ e. (e ≡ ReadStop.OutOfMemory) ⊎ (e ≡ NOT_JSON)) }
{
    let token = reader.next().ok_or(NOT_JSON)?;
    match token {
        Token::String(text) => Ok(Value::Text(text)),
        Token::Number(text) => match number_of(text) {
            Some(number) => Ok(Value::Number(number)),
            None => Err(NOT_JSON),
        },
        Token::Bool(truth) => Ok(Value::Boolean(truth)),
        Token::Null => Ok(Value::Null),
        Token::EndObject | Token::EndArray | Token::Key(_) | Token::Bad => Err(NOT_JSON),
        Token::BeginArray => {
            if depth == 0 {
                return Err(NOT_JSON);
            }
            Ok(Value::Array(read_items(alloc, reader, depth - 1)?))
        }
        Token::BeginObject => {
            if depth == 0 {
                return Err(NOT_JSON);
            }
            Ok(Value::Object(read_members(alloc, reader, depth - 1)?))
        }
    }
}

// Parses the values of an array, after its opening bracket.
#[cycle(read)]
#[inline(never)]
fn read_items<'a>(
    alloc: Global,
    reader: &mut Reader<'a>,
    depth: usize,
) -> Result<Vec<Value<'a>>, ReadStop>
    ensures ok { IfOk result
        (λ v. converted of_items (items (value depth) (length reader.old) reader.old)
        ≡ Some (items_view v.items, reader.new)) }
    ensures shorter { OnOk result (length reader.new < length reader.old) }
    ensures err { result ≡ Err NOT_JSON
        → converted of_items (items (value depth) (length reader.old) reader.old) ≡ None }
    ensures stop { IfErr result (λ e. (e ≡ ReadStop.OutOfMemory) ⊎ (e ≡ NOT_JSON)) }
{
    let mut found = Vec::new(alloc);
    'items: while !reader.take_end_array() {
        let item = read(alloc, reader, depth)?;
        found.push(item).map_err(AllocError::from)?;
    }
    Ok(found)
}

// Parses the members of an object, after its opening brace.
#[cycle(read)]
#[inline(never)]
fn read_members<'a>(
    alloc: Global,
    reader: &mut Reader<'a>,
    depth: usize,
) -> Result<Vec<(&'a str, Value<'a>)>, ReadStop>
    ensures ok { IfOk result
        (λ m. converted (λ ms. of_members ms no_members)
        (members (value depth) (length reader.old) reader.old)
        ≡ Some (members_view m.items, reader.new)) }
    ensures shorter { OnOk result (length reader.new < length reader.old) }
    ensures err { result ≡ Err NOT_JSON → converted (λ ms. of_members ms no_members)
        (members (value depth) (length reader.old) reader.old) ≡ None }
    ensures stop { IfErr result (λ e. (e ≡ ReadStop.OutOfMemory) ⊎ (e ≡ NOT_JSON)) }
{
    let mut found = Vec::new(alloc);
    'members: while let Some(name) = next_name(reader)? {
        let member = read(alloc, reader, depth)?;
        push_member(alloc, &mut found, name, member)?;
    }
    Ok(found)
}

// Consumes the name of the next member and the colon after it, and returns the name, or `None` at
// the end of the object.
fn next_name<'a>(reader: &mut Reader<'a>) -> Result<Option<&'a str>, ReadStop>
    ensures ok { IfOk result
        (λ name. read_key reader.old ≡ Some (option_map (λ s. s.now) name, reader.new)) }
    ensures err { IfErr result (λ e. (e ≡ NOT_JSON) × (read_key reader.old ≡ None)) }
{
    reader.next_key().or(Err(NOT_JSON))
}
