//! Tests of the names, numbers and printed texts of refusals and faults, and of the names of link
//! kinds.
use std::alloc::{AllocError, Global};
use std::fmt::Display;
use std::process::Abort;
use std::test::Fail;
use thes_base::data::{LinkKind, TypedKind};
use thes_base::fault::{Fault, FormFault, PipeFault, ReadStop, Refusal, Table};

fn expect_forms(rt: &impl Abort, rows: &[(FormFault, u32, &str)]) {
    for (fault, number, name) in rows {
        assert_eq!(rt; (fault.number(), fault.name()), (*number, *name));
    }
}

fn expect_refusals(rt: &impl Abort, rows: &[(Refusal, u32, &str)]) {
    for (refusal, number, name) in rows {
        assert_eq!(rt; (refusal.number(), refusal.name()), (*number, *name));
    }
}

fn expect_faults(rt: &impl Abort, rows: &[(PipeFault, u32, &str)]) {
    for (fault, number, name) in rows {
        assert_eq!(rt; (fault.number(), fault.name()), (*number, *name));
    }
}

static FORMS: [(FormFault, u32, &str); 2] = [
    (FormFault::BadTag, 1, "BadTag"),
    (FormFault::BadShape, 8, "BadShape"),
];

static REFUSALS: [(Refusal, u32, &str); 5] = [
    (Refusal::UnknownResource, 10, "UnknownResource"),
    (Refusal::PreferredTaken, 20, "PreferredTaken"),
    (Refusal::ListedTwice, 30, "ListedTwice"),
    (Refusal::OutsideKnown(5), 32, "OutsideKnown"),
    (Refusal::TooMany, 33, "TooMany"),
];

static FAULTS: [(PipeFault, u32, &str); 4] = [
    (PipeFault::Fault(Fault::OutOfMemory), 40, "OutOfMemory"),
    (
        PipeFault::Fault(Fault::BadStore(Table::Link)),
        42,
        "BadStore",
    ),
    (PipeFault::Fault(Fault::NewerStore), 43, "NewerStore"),
    (PipeFault::TooLong, 52, "TooLong"),
];

#[test]
fn refusals_and_faults_have_names_and_numbers(rt: HostRuntime) {
    expect_forms(&rt, &FORMS);
    expect_refusals(&rt, &REFUSALS);
    expect_faults(&rt, &FAULTS);
}

// Checks whether a refusal or a fault is printed as this text.
fn is_printed(alloc: Global, fault: impl Display + Drop, wanted: &str) -> Result<bool, AllocError> {
    let text = format!(in alloc; "{}", fault)?;
    Ok(text.as_str() == wanted)
}

#[test]
fn refusals_and_faults_are_printed_by_their_names(rt: HostRuntime) -> Result<(), Fail> {
    let alloc = rt.alloc();
    let table = PipeFault::Fault(Fault::BadStore(Table::Move));
    assert!(rt; is_printed(alloc, ReadStop::Form(FormFault::BadIri), "BadIri")?);
    assert!(rt; is_printed(alloc, ReadStop::OutOfMemory, "OutOfMemory")?);
    assert!(rt; is_printed(alloc, Refusal::S13, "S13")?);
    assert!(rt; is_printed(alloc, Fault::Store, "Store")?);
    assert!(rt; is_printed(alloc, table, "BadStore move")?);
    assert!(rt; is_printed(alloc, PipeFault::Read, "Read")?);
    Ok(())
}

#[test]
fn kinds_of_links_have_words(rt: HostRuntime) {
    assert_eq!(rt; LinkKind::BroaderPartitive.name(), "broaderPartitive");
    assert_eq!(rt; TypedKind::NarrowerPartitive.name(), "narrowerPartitive");
}
