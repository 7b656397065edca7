//! Views as lines of JSON, with the members of each object in byte order of their names.
ghost use Rattle.std.specs.Prelude.{◌≡◌, ◌++◌, ◌∷◌, [], IfOk, OnOk, map, false};
ghost use Rattle.serde_json.specs.Data.{Data, put, string};
ghost use Rattle.serde_json.specs.View.{view, members_view};
ghost use Rattle.serde_json.specs.Written.{has_float};
ghost use Rattle.thes_base.specs.Postings.{place};
ghost use Rattle.thes_core.specs.LabelLists.{tagged_text};
ghost use Rattle.thes_exchange.specs.PostingMembers.{members_with_posting};
ghost use Rattle.thes_exchange.specs.ConceptMembers.{members_with_labels, members_with_links, members_with_facts};
ghost use Rattle.thes_exchange.specs.ViewTexts.{number_data, array_data, number_or_null, tagged_data, mapping_data, typed_data, keyword_data, move_data, entry_data, row_data, totals_data, concept_data, postings_data, posting_data, line_text, view_text};

use serde_json::{Map, Value, json, put};
use std::alloc::{AllocError, Global};
use std::marker::Model;
use thes_base::data::{History, Label, LinkKind, Move, Totals, TypedKind};
use thes_base::fault::Refusal;
use thes_base::number::{PostNo, ResNo};
use thes_base::text::{Key, RecordName};
use thes_requests::answer::refusal_line;

/// The view of a concept: its labels, links and other facts, and the number of postings assigned to
/// it.
#[derive(Drop)]
pub struct ConceptView<'a> {
    pub alt: Vec<&'a Label>,
    pub broader: Vec<ResNo>,
    pub collections: Vec<ResNo>,
    pub hidden: Vec<&'a Label>,
    pub live: bool,
    pub mappings: Vec<(LinkKind, ResNo)>,
    pub narrower: Vec<ResNo>,
    pub number: ResNo,
    pub postings: u64,
    pub pref: Vec<&'a Label>,
    pub related: Vec<ResNo>,
    pub replaced: Option<ResNo>,
    pub scheme: Option<ResNo>,
    pub scope: Vec<&'a Label>,
    pub top: bool,
    pub typed: Vec<(TypedKind, ResNo)>,
}

impl<'a> Model for ConceptView<'a> {
    ghost use Rattle.std.specs.Prelude.{map};
    ghost use Rattle.thes_base.specs.Views.{ConceptDetails};
    ghost use Rattle.thes_core.specs.LabelLists.{tagged_text};

    ghost Value = { ConceptDetails };

    ghost view = { λ c. record {
      alt = map (λ l. tagged_text l.now) c.alt.items;
      broader = c.broader.items;
      collections = c.collections.items;
      hidden = map (λ l. tagged_text l.now) c.hidden.items;
      live = c.live;
      mappings = c.mappings.items;
      narrower = c.narrower.items;
      number = c.number;
      postings = c.postings;
      pref = map (λ l. tagged_text l.now) c.pref.items;
      related = c.related.items;
      replaced = c.replaced;
      scheme = c.scheme;
      scope = map (λ l. tagged_text l.now) c.scope.items;
      top = c.top;
      typed = c.typed.items;
    } };
}

/// The view of a concept's postings: their histories, in the order of their numbers.
#[derive(Drop)]
pub struct PostingRows<'a> {
    pub rows: Vec<&'a History>,
}

impl<'a> Model for PostingRows<'a> {
    ghost use Rattle.std.specs.Prelude.{List, map};
    ghost use Rattle.thes_base.specs.declared.data.History.{History};

    ghost Value = { List History };

    ghost view = { λ p. map (λ h. h.now) p.rows.items };
}

/// A view that answers a query, or the refusal of its number.
#[derive(Drop)]
pub enum View<'a> {
    Totals(Totals),
    Concept(ConceptView<'a>),
    Postings(PostingRows<'a>),
    Posting(&'a History),
    No(Refusal),
}

// Returns the totals as a JSON object of three numbers.
fn totals_value(alloc: Global, totals: &Totals) -> Result<Value, AllocError>
    ensures { IfOk result (λ v. view v ≡ totals_data totals.now) }
{
    json!(in alloc; {
        "accepted": totals.accepted,
        "standing": totals.standing,
        "withdrawn": totals.withdrawn
    })
}

// Returns the number of a resource as JSON, or null if there is none.
fn number_or_null(number: Option<ResNo>) -> Value
    ensures { view result ≡ number_or_null number }
{
    match number {
        Some(number) => Value::from(number.get()),
        None => Value::Null,
    }
}

// An element of a JSON array that a view shows.
trait Element {
    // The element as JSON.
    ghost data: { Self → Data };

    // Returns the element as JSON.
    fn to_json(&self, alloc: Global) -> Result<Value, AllocError>
        ensures { IfOk result (λ v. view v ≡ Self.data self.now) };
}

// The number of a resource, as a JSON number.
impl Element for ResNo {
    ghost use Rattle.thes_exchange.specs.ViewTexts.{number_data};

    ghost data = { number_data };

    fn to_json(&self, _: Global) -> Result<Value, AllocError> {
        Ok(Value::from(self.get()))
    }
}

// A label as a JSON array of its language tag and its text.
impl Element for &Label {
    ghost use Rattle.thes_core.specs.LabelLists.{tagged_text};
    ghost use Rattle.thes_exchange.specs.ViewTexts.{tagged_data};

    ghost data = { λ label. tagged_data (tagged_text label.now) };

    fn to_json(&self, alloc: Global) -> Result<Value, AllocError> {
        json!(in alloc; [self.tag.as_str(), self.text()])
    }
}

// Returns a JSON array of a keyword and a number.
fn keyword_value(alloc: Global, name: &str, number: ResNo) -> Result<Value, AllocError>
    ensures { IfOk result (λ v. view v ≡ keyword_data name.now number) }
{
    json!(in alloc; [name, number.get()])
}

// A mapping as a JSON array of the keyword of its kind and its other end.
impl Element for (LinkKind, ResNo) {
    ghost use Rattle.thes_exchange.specs.ViewTexts.{mapping_data};

    ghost data = { mapping_data };

    fn to_json(&self, alloc: Global) -> Result<Value, AllocError> {
        let (kind, other) = *self;
        keyword_value(alloc, kind.name(), other)
    }
}

// A typed link as a JSON array of the keyword of its type and its other end.
impl Element for (TypedKind, ResNo) {
    ghost use Rattle.thes_exchange.specs.ViewTexts.{typed_data};

    ghost data = { typed_data };

    fn to_json(&self, alloc: Global) -> Result<Value, AllocError> {
        let (kind, other) = *self;
        keyword_value(alloc, kind.name(), other)
    }
}

// A move as a JSON array of its number, source and target.
impl Element for Move {
    ghost use Rattle.thes_exchange.specs.ViewTexts.{move_data};

    ghost data = { move_data };

    fn to_json(&self, alloc: Global) -> Result<Value, AllocError> {
        json!(in alloc; [self.number.get(), self.source.get(), self.target.get()])
    }
}

// Returns the entry of a posting in a list: a JSON array of its number, key and record name.
pub(crate) fn entry_value(
    alloc: Global,
    number: PostNo,
    key: &Key,
    rec: &RecordName,
) -> Result<Value, AllocError>
    ensures { IfOk result (λ v. view v ≡ entry_data number key.now rec.now) }
{
    json!(in alloc; [number.get(), key.as_str(), rec.as_str()])
}

// A posting as an entry of a list: a JSON array of its number, key and record name.
impl Element for &History {
    ghost use Rattle.thes_exchange.specs.ViewTexts.{row_data};

    ghost data = { λ history. row_data history.now };

    fn to_json(&self, alloc: Global) -> Result<Value, AllocError> {
        entry_value(alloc, self.number, &self.key, &self.rec)
    }
}

// Appends a value to a JSON array; fails if memory runs out, or already ran out for the value.
fn push_value(list: &mut Vec<Value>, value: Result<Value, AllocError>) -> Result<(), AllocError>
    ensures { (d : Data) → IfOk value (λ v. view v ≡ d) → OnOk result
        (map view list.new.items ≡ map view list.old.items ++ d ∷ []) }
{
    list.push(value?)?;
    Ok(())
}

// Returns a JSON array of the elements, in the order given.
fn array_value<T: Element>(alloc: Global, elements: &[T]) -> Result<Value, AllocError>
    ensures { IfOk result (λ v. view v ≡ array_data T.data elements.now) }
{
    let mut list = Vec::new(alloc);
    for element in elements {
        push_value(&mut list, element.to_json(alloc))?;
    }
    Ok(Value::Array(list))
}

// Returns a JSON array of labels, in the order given.
fn labels_value(alloc: Global, labels: &[&Label]) -> Result<Value, AllocError>
    ensures { IfOk result
        (λ v. view v ≡ array_data tagged_data (map (λ l. tagged_text l.now) labels.now)) }
{
    array_value(alloc, labels)
}

// Returns a JSON array of postings, in the order given.
fn rows_value(alloc: Global, rows: &[&History]) -> Result<Value, AllocError>
    ensures { IfOk result (λ v. view v ≡ array_data row_data (map (λ h. h.now) rows.now)) }
{
    array_value(alloc, rows)
}

// Puts a member into a JSON object; fails if memory runs out, or already ran out for the value.
fn put_value(
    members: &mut Map<String, Value>,
    alloc: Global,
    name: &str,
    value: Result<Value, AllocError>,
) -> Result<(), AllocError>
    ensures { (d : Data) → IfOk value (λ v. view v ≡ d) → OnOk result
        (members_view members.new.entries ≡ put name.now d (members_view members.old.entries)) }
{
    put(members, alloc, name, value?)
}

// Puts the labels of a concept into the members of its view, as `alt`, `hidden`, `pref` and
// `scope`.
#[tactic(auto, unfolding(crate::specs::ConceptMembers::members_with_labels))]
fn put_labels(
    members: &mut Map<String, Value>,
    alloc: Global,
    concept: &ConceptView,
) -> Result<(), AllocError>
    ensures { OnOk result (members_view members.new.entries ≡ members_with_labels concept.now
        (members_view members.old.entries)) }
{
    put_value(members, alloc, "alt", labels_value(alloc, &concept.alt))?;
    put_value(
        members,
        alloc,
        "hidden",
        labels_value(alloc, &concept.hidden),
    )?;
    put_value(members, alloc, "pref", labels_value(alloc, &concept.pref))?;
    put_value(members, alloc, "scope", labels_value(alloc, &concept.scope))
}

// Puts the links of a concept into the members of its view, as `broader`, `collections`,
// `mappings`, `narrower`, `related` and `typed`.
fn put_links(
    members: &mut Map<String, Value>,
    alloc: Global,
    concept: &ConceptView,
) -> Result<(), AllocError>
    ensures { OnOk result (members_view members.new.entries ≡ members_with_links concept.now
        (members_view members.old.entries)) }
{
    put_value(
        members,
        alloc,
        "broader",
        array_value(alloc, &concept.broader),
    )?;
    put_value(
        members,
        alloc,
        "collections",
        array_value(alloc, &concept.collections),
    )?;
    put_value(
        members,
        alloc,
        "mappings",
        array_value(alloc, &concept.mappings),
    )?;
    put_value(
        members,
        alloc,
        "narrower",
        array_value(alloc, &concept.narrower),
    )?;
    put_value(
        members,
        alloc,
        "related",
        array_value(alloc, &concept.related),
    )?;
    put_value(members, alloc, "typed", array_value(alloc, &concept.typed))
}

// Puts the other facts about a concept into the members of its view: `live`, `number`, `postings`,
// `replaced`, `scheme` and `top`.
#[tactic(auto, unfolding(crate::specs::ConceptMembers::members_with_facts))]
fn put_facts(
    members: &mut Map<String, Value>,
    alloc: Global,
    concept: &ConceptView,
) -> Result<(), AllocError>
    ensures { OnOk result (members_view members.new.entries ≡ members_with_facts concept.now
        (members_view members.old.entries)) }
{
    put(members, alloc, "live", Value::from(concept.live))?;
    put(members, alloc, "number", Value::from(concept.number.get()))?;
    put(members, alloc, "postings", Value::from(concept.postings))?;
    put(members, alloc, "replaced", number_or_null(concept.replaced))?;
    put(members, alloc, "scheme", number_or_null(concept.scheme))?;
    put(members, alloc, "top", Value::from(concept.top))
}

// Returns the view of a concept as a JSON object.
fn concept_value(alloc: Global, concept: &ConceptView) -> Result<Value, AllocError>
    ensures { IfOk result (λ v. view v ≡ concept_data concept.now) }
{
    let mut members = Map::new(alloc);
    put_labels(&mut members, alloc, concept)?;
    put_links(&mut members, alloc, concept)?;
    put_facts(&mut members, alloc, concept)?;
    Ok(Value::Object(members))
}

// Returns the postings of a concept as a JSON object with the one member `postings`.
fn postings_value(alloc: Global, postings: &PostingRows) -> Result<Value, AllocError>
    ensures { IfOk result (λ v. view v ≡ postings_data postings.now) }
{
    let rows = rows_value(alloc, &postings.rows)?;
    json!(in alloc; {"postings": rows})
}

// Returns the place of a posting, withdrawn or not: the target of its last move, or else its first
// concept.
fn place_of(history: &History) -> ResNo
    ensures { result ≡ place history.now }
{
    match history.moves.as_slice().last() {
        Some(step) => step.target,
        None => history.first,
    }
}

// Returns a text as a JSON string.
fn text_value(alloc: Global, text: &str) -> Result<Value, AllocError>
    ensures { IfOk result (λ v. view v ≡ string text.now) }
{
    json!(in alloc; text)
}

// Puts the facts about a posting into the members of its view: `first`, `key`, `moves`, `number`,
// `place`, `record` and `withdrawn`.
#[tactic(auto, unfolding(crate::specs::PostingMembers::members_with_posting))]
fn put_posting(
    members: &mut Map<String, Value>,
    alloc: Global,
    history: &History,
) -> Result<(), AllocError>
    ensures { OnOk result (members_view members.new.entries ≡ members_with_posting history.now
        (members_view members.old.entries)) }
{
    put(members, alloc, "first", Value::from(history.first.get()))?;
    put_value(
        members,
        alloc,
        "key",
        text_value(alloc, history.key.as_str()),
    )?;
    put_value(
        members,
        alloc,
        "moves",
        array_value(alloc, history.moves.as_slice()),
    )?;
    put(members, alloc, "number", Value::from(history.number.get()))?;
    put(
        members,
        alloc,
        "place",
        Value::from(place_of(history).get()),
    )?;
    put_value(
        members,
        alloc,
        "record",
        text_value(alloc, history.rec.as_str()),
    )?;
    put(members, alloc, "withdrawn", Value::from(history.withdrawn))
}

// Returns a posting with its history as a JSON object.
fn posting_value(alloc: Global, history: &History) -> Result<Value, AllocError>
    ensures { IfOk result (λ v. view v ≡ posting_data history.now) }
{
    let mut members = Map::new(alloc);
    put_posting(&mut members, alloc, history)?;
    Ok(Value::Object(members))
}

// Returns a JSON value as one compact line with a line feed. The text is specified only for a value
// without floating-point numbers, and no view has any.
#[tactic(auto, unfolding(crate::specs::ViewTexts::line_text))]
pub(crate) fn value_line(alloc: Global, value: &Value) -> Result<Vec<u8>, AllocError>
    ensures { IfOk result (λ text. has_float (view value.now) ≡ false →
        text.items ≡ line_text (view value.now)) }
{
    let mut text = value.to_vec(alloc)?;
    text.push(b'\n')?;
    Ok(text)
}

// Returns the line of JSON for a view or a refusal.
#[tactic(auto, using(crate::proofs::ViewLemmas::concept_has_no_float, crate::proofs::ViewLemmas::postings_have_no_float, crate::proofs::ViewLemmas::posting_has_no_float))]
pub(crate) fn view_line(alloc: Global, view: &View) -> Result<Vec<u8>, AllocError>
    ensures { IfOk result (λ text. text.items ≡ view_text view.now) }
{
    match view {
        View::Totals(totals) => value_line(alloc, &totals_value(alloc, totals)?),
        View::Concept(concept) => value_line(alloc, &concept_value(alloc, concept)?),
        View::Postings(postings) => value_line(alloc, &postings_value(alloc, postings)?),
        View::Posting(history) => value_line(alloc, &posting_value(alloc, history)?),
        View::No(refusal) => Vec::from_slice(alloc, refusal_line(*refusal).as_bytes()),
    }
}
