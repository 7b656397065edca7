//! Worked examples on resources and labels, each a table of steps: a call with its answer, or a
//! fact. The tables are statics, because a proof that sees a table computes with it.
mod fixture;

use crate::vocab::fixture::{Answer, Change, Fixture, no};
use Answer::{Done, Gained, No, Number};
use Call::{
    Collection, Concept, Deprecate, LabelChange, Outside, Relabel, Replace, Scheme, TakeLabels,
};
use Change::{Add, Remove};
use Fact::{
    Counts, Dead, Holder, IriOf, IsLive, Labels, LiveOf, NoResource, NumberOf, Preferred,
    TakenCount,
};
use LabelKind::{Alt, Hidden, Pref, Scope};
use Step::{Do, See};
use std::alloc::Global;
use std::process::Abort;
use std::test::Fail;
use thes_base::data::{Label, LabelKind, Resource, ResourceKind};
use thes_base::fault::{ReadStop, Refusal};
use thes_base::number::ResNo;

// A call that changes the vocabulary.
#[derive(Clone, Copy)]
enum Call {
    Scheme(&'static str),
    Concept(u32, &'static str),
    Collection(u32, &'static str),
    Outside(&'static str),
    LabelChange(Change, u32, LabelKind, &'static str, &'static str),
    // The owner, the language and text of the new preferred label, and whether the old one stays as
    // an alternative label.
    Relabel(u32, &'static str, &'static str, bool),
    TakeLabels(u32, u32),
    Deprecate(u32),
    Replace(u32, u32),
}

// A fact about the vocabulary: the expected result of a look-up.
#[derive(Clone, Copy)]
enum Fact {
    Counts(u64, u64),
    NoResource(u32),
    // A concept that was replaced: its number, its scheme and its replacement.
    Dead(u32, u32, u32),
    IsLive(u32, bool),
    LiveOf(u32, &'static [u32]),
    Labels(u32, &'static [(LabelKind, &'static str, &'static str)]),
    TakenCount(u32, u32, u64),
    Preferred(u32, &'static str, Option<&'static str>),
    Holder(u32, &'static str, &'static str, Option<u32>),
    NumberOf(&'static str, Option<u32>),
    IriOf(u32, Option<&'static str>),
}

// A call with its expected answer, or an expected fact.
#[derive(Clone, Copy)]
enum Step {
    Do(Call, Answer),
    See(Fact),
}

fn answer(fixture: &mut Fixture, call: Call) -> Result<Answer, ReadStop> {
    match call {
        Scheme(text) => fixture.scheme(text),
        Concept(scheme, text) => fixture.concept(scheme, text),
        Collection(scheme, text) => fixture.collection(scheme, text),
        Outside(iri) => fixture.outside(iri),
        LabelChange(change, owner, kind, tag, text) => {
            fixture.change_label(change, owner, (kind, tag, text))
        }
        Relabel(owner, tag, text, keep) => fixture.relabel(owner, tag, text, keep),
        TakeLabels(source, target) => Ok(fixture.take_labels(source, target)?),
        Deprecate(n) => Ok(fixture.deprecate(n)),
        Replace(source, target) => Ok(fixture.replace(source, target)),
    }
}

// Checks whether the labels equal the wanted ones, in order.
fn are_labels(labels: &[Label], wanted: &[(LabelKind, &str, &str)]) -> bool {
    labels.len() == wanted.len()
        && labels.iter().zip(wanted.iter()).all(|(l, (kind, tag, text))| {
            l.kind() == *kind && l.tag.as_str() == *tag && l.text() == *text
        })
}

// Checks whether the numbers equal the wanted ones, in order.
fn are_numbers(found: &[ResNo], wanted: &[u32]) -> bool {
    found.len() == wanted.len() && found.iter().zip(wanted.iter()).all(|(n, m)| n.get() == *m)
}

fn is_number(found: Option<ResNo>, wanted: Option<u32>) -> bool {
    match (found, wanted) {
        (Some(n), Some(m)) => n == no(m),
        (None, None) => true,
        _ => false,
    }
}

fn dead_concept(scheme: u32, target: u32) -> Resource {
    Resource {
        kind: ResourceKind::Concept,
        scheme: Some(no(scheme)),
        live: false,
        replaced: Some(no(target)),
    }
}

fn holds(fixture: &Fixture, fact: Fact) -> Result<bool, ReadStop> {
    Ok(match fact {
        Counts(resources, labels) => fixture.counts() == (resources, labels),
        NoResource(n) => fixture.resource(n).is_none(),
        Dead(n, scheme, target) => fixture.resource(n) == Some(dead_concept(scheme, target)),
        IsLive(n, live) => fixture.is_live(n) == live,
        LiveOf(scheme, numbers) => are_numbers(fixture.live_of(scheme), numbers),
        Labels(owner, labels) => are_labels(fixture.labels_of(owner), labels),
        TakenCount(source, target, count) => fixture.taken_count(source, target) == count,
        Preferred(owner, tag, text) => fixture.preferred(owner, tag)? == text,
        Holder(scheme, tag, text, n) => is_number(fixture.holder(scheme, tag, text)?, n),
        NumberOf(iri, n) => is_number(fixture.number_of(iri)?, n),
        IriOf(n, iri) => fixture.iri_of(n) == iri,
    })
}

// Performs the steps of a table in order, and compares answers and facts with the expected ones.
fn take(rt: &impl Abort, fixture: &mut Fixture, steps: &[Step]) -> Result<(), Fail> {
    for (i, step) in steps.iter().enumerate() {
        match *step {
            Do(call, wanted) => assert_eq!(rt; answer(fixture, call)?, wanted, "at step {i}"),
            See(fact) => assert!(rt; holds(fixture, fact)?, "at step {i}"),
        }
    }
    Ok(())
}

// Scheme 1 (Animals) with the concepts 2 (Cats), 3 (Mammals) and 4 (Pets).
static START: [Step; 4] = [
    Do(Scheme("Animals"), Number(1)),
    Do(Concept(1, "Cats"), Number(2)),
    Do(Concept(1, "Mammals"), Number(3)),
    Do(Concept(1, "Pets"), Number(4)),
];

// Performs the steps of `START`, and then those of a table, in a new vocabulary.
fn expect(rt: &impl Abort, alloc: Global, steps: &[Step]) -> Result<(), Fail> {
    let mut fixture = Fixture::new(alloc)?;
    for table in [&START, steps] {
        take(rt, &mut fixture, table)?;
    }
    Ok(())
}

static NOTHING: [Step; 2] = [See(Counts(0, 0)), See(NoResource(1))];

#[test]
fn nothing_at_first(rt: HostRuntime) -> Result<(), Fail> {
    take(&rt, &mut Fixture::new(rt.alloc())?, &NOTHING)
}

static NUMBERED: [Step; 3] = [
    Do(Collection(1, "House animals"), Number(5)),
    Do(Outside("http://example.org/x"), Number(6)),
    See(Counts(6, 5)),
];

#[test]
fn resources_are_numbered(rt: HostRuntime) -> Result<(), Fail> {
    expect(&rt, rt.alloc(), &NUMBERED)
}

static REFUSED: [Step; 4] = [
    Do(Concept(1, "Pets"), No(Refusal::PreferredTaken)),
    Do(Concept(9, "Dogs"), No(Refusal::UnknownResource)),
    Do(Concept(2, "Dogs"), No(Refusal::WrongKind)),
    Do(Collection(2, "Dogs"), No(Refusal::WrongKind)),
];

#[test]
fn resources_are_refused(rt: HostRuntime) -> Result<(), Fail> {
    expect(&rt, rt.alloc(), &REFUSED)
}

static OUTSIDE: [Step; 5] = [
    Do(Outside("http://example.org/x"), Number(5)),
    Do(
        Outside("http://example.org/x"),
        No(Refusal::OutsideKnown(5)),
    ),
    Do(
        Outside("https://thesaurus.example/id/9"),
        No(Refusal::WrongKind),
    ),
    See(NumberOf("http://example.org/x", Some(5))),
    See(IriOf(5, Some("http://example.org/x"))),
];

#[test]
fn outside_concepts(rt: HostRuntime) -> Result<(), Fail> {
    expect(&rt, rt.alloc(), &OUTSIDE)
}

static LABELS_REFUSED: [Step; 10] = [
    Do(LabelChange(Add, 2, Alt, "en", "Cats"), No(Refusal::S13)),
    Do(LabelChange(Add, 2, Pref, "en", "Felines"), No(Refusal::S14)),
    Do(
        LabelChange(Add, 2, Pref, "en", "Cats"),
        No(Refusal::LabelThere),
    ),
    Do(LabelChange(Add, 2, Pref, "EN-GB", "Moggies"), Done),
    Do(
        LabelChange(Add, 2, Pref, "en-gb", "Mousers"),
        No(Refusal::S14),
    ),
    Do(
        LabelChange(Add, 3, Pref, "EN-gb", "Moggies"),
        No(Refusal::PreferredTaken),
    ),
    Do(LabelChange(Add, 3, Pref, "de", "Moggies"), Done),
    Do(LabelChange(Add, 2, Scope, "en", "Cats"), Done),
    See(Preferred(2, "en-gb", Some("Moggies"))),
    See(Preferred(2, "de", None)),
];

#[test]
fn labels_are_refused(rt: HostRuntime) -> Result<(), Fail> {
    expect(&rt, rt.alloc(), &LABELS_REFUSED)
}

static LABELS_DROPPED: [Step; 6] = [
    Do(LabelChange(Add, 3, Pref, "de", "Katzen"), Done),
    Do(
        LabelChange(Remove, 2, Pref, "en", "Cats"),
        No(Refusal::LastPreferred),
    ),
    Do(
        LabelChange(Remove, 2, Alt, "en", "Cats"),
        No(Refusal::NoSuchLabel),
    ),
    Do(LabelChange(Remove, 3, Pref, "en", "Mammals"), Done),
    Do(
        LabelChange(Remove, 3, Pref, "de", "Katzen"),
        No(Refusal::LastPreferred),
    ),
    See(Labels(3, &[(Pref, "de", "Katzen")])),
];

#[test]
fn labels_are_dropped(rt: HostRuntime) -> Result<(), Fail> {
    expect(&rt, rt.alloc(), &LABELS_DROPPED)
}

static RELABELLED: [Step; 6] = [
    Do(Relabel(2, "en", "Cats", true), No(Refusal::S13)),
    Do(Relabel(2, "en", "Cats", false), Done),
    Do(Relabel(2, "en", "Pets", false), No(Refusal::PreferredTaken)),
    Do(Relabel(2, "de", "Katzen", false), No(Refusal::NoSuchLabel)),
    Do(Relabel(2, "en", "Felines", true), Done),
    See(Labels(2, &[(Pref, "en", "Felines"), (Alt, "en", "Cats")])),
];

#[test]
fn preferred_labels_are_replaced(rt: HostRuntime) -> Result<(), Fail> {
    expect(&rt, rt.alloc(), &RELABELLED)
}

static HELD: [Step; 3] = [
    Do(Relabel(2, "en", "Felines", true), Done),
    See(Holder(1, "en", "Felines", Some(2))),
    See(Holder(1, "en", "Cats", None)),
];

#[test]
fn holders_of_replaced_labels(rt: HostRuntime) -> Result<(), Fail> {
    expect(&rt, rt.alloc(), &HELD)
}

// A merge, with facts about labels and resources before and after it.
static MERGED: [Step; 5] = [
    See(TakenCount(2, 3, 1)),
    Do(TakeLabels(2, 3), Gained(1)),
    Do(Replace(2, 3), Done),
    See(Counts(4, 5)),
    See(Labels(3, &[(Pref, "en", "Mammals"), (Alt, "en", "Cats")])),
];

#[test]
fn merged_labels(rt: HostRuntime) -> Result<(), Fail> {
    expect(&rt, rt.alloc(), &MERGED)
}

static MERGED_NAMES: [Step; 5] = [
    Do(LabelChange(Add, 2, Hidden, "en", "Kitty"), Done),
    Do(LabelChange(Add, 3, Alt, "en", "Kitty"), Done),
    Do(TakeLabels(2, 3), Gained(1)),
    See(Labels(
        3,
        &[
            (Pref, "en", "Mammals"),
            (Alt, "en", "Cats"),
            (Alt, "en", "Kitty"),
        ],
    )),
    See(Labels(2, &[(Pref, "en", "Cats"), (Hidden, "en", "Kitty")])),
];

#[test]
fn merged_names_are_unique(rt: HostRuntime) -> Result<(), Fail> {
    expect(&rt, rt.alloc(), &MERGED_NAMES)
}

static DEAD: [Step; 4] = [
    Do(Replace(2, 3), Done),
    See(IsLive(2, false)),
    See(Dead(2, 1, 3)),
    Do(Relabel(2, "en", "Felines", false), No(Refusal::NotLive)),
];

#[test]
fn dead_concepts(rt: HostRuntime) -> Result<(), Fail> {
    expect(&rt, rt.alloc(), &DEAD)
}

static FREED: [Step; 4] = [
    Do(Deprecate(3), Done),
    See(Holder(1, "en", "Mammals", None)),
    Do(Concept(1, "Mammals"), Number(5)),
    See(Holder(1, "en", "Mammals", Some(5))),
];

#[test]
fn a_death_frees_the_name(rt: HostRuntime) -> Result<(), Fail> {
    expect(&rt, rt.alloc(), &FREED)
}

static LIVE: [Step; 6] = [
    See(LiveOf(1, &[2, 3, 4])),
    See(LiveOf(2, &[])),
    Do(Collection(1, "House animals"), Number(5)),
    Do(Concept(1, "Dogs"), Number(6)),
    Do(Deprecate(3), Done),
    See(LiveOf(1, &[2, 4, 6])),
];

#[test]
fn live_concepts_of_a_scheme(rt: HostRuntime) -> Result<(), Fail> {
    expect(&rt, rt.alloc(), &LIVE)
}
