//! Rows: the changes that a request makes, and a core that is loaded from a storage.
ghost use Rattle.std.specs.Prelude.{◌≡◌, false};

use crate::failure::{Failure, on_success};
use crate::office_example::copy_rows;
use std::alloc::{AllocError, Global};
use std::fmt::Write;
use thesaurus::{
    Change, Command, ConceptView, Core, Delta, Facts, Fault, HierRow, HierType, Iri, Keeper,
    LabelRow, Limits, LinkKind, Loader, MoveRow, OutsideRow, PostingRow, ResNo, Sizes, Totals,
    TypedKind, Verdict, View, concept_view,
};

// Returns the changes of rows that a command would make, or None if it isn't accepted.
fn changes_of(core: &Core, command: &Command, facts: &Facts) -> Result<Option<Delta>, Fault>
    requires { core.now.spent ≡ false }
{
    match core.decide(command, facts)? {
        Verdict::Settled(_) => Ok(None),
        Verdict::Accepted(_, delta) => Ok(Some(delta)),
    }
}

// Returns in words what kind of row a change adds.
fn new_row_name(change: &Change) -> &'static str {
    match change {
        Change::AddLabel(LabelRow { .. }) => "a label",
        Change::AddHier(
            HierRow {
                typ: HierType::Generic,
                ..
            },
        ) => "a kind of something",
        Change::AddPosting(PostingRow { .. }) => "a posting",
        Change::AddMove(MoveRow { .. }) => "a move",
        _ => "no such row",
    }
}

// Returns the row of an outside concept, if the change adds one.
fn outside_row(change: Change) -> Option<OutsideRow> {
    match change {
        Change::AddOutside(number, iri) => Some(OutsideRow { number, iri }),
        _ => None,
    }
}

// Loads a core from a storage.
fn load_core<K: Keeper>(alloc: Global, keeper: &mut K) -> Result<Core, Fault> {
    let mut loader = Loader::new(alloc, Limits::default());
    let result = copy_rows(keeper, &mut loader);
    on_success(loader, result)?.finish()
}

// Returns the number of links of a core, and the number of its postings that aren't withdrawn.
fn counts_of(core: &Core) -> (u64, u64)
    requires { core.now.spent ≡ false }
{
    let sizes: Sizes = core.sizes();
    let totals: Totals = core.totals();
    (sizes.links, totals.standing)
}

// Checks whether concept `a` is a kind of concept `b`, by a generic link up to it.
fn is_kind_of(alloc: Global, core: &Core, a: ResNo, b: ResNo) -> Result<bool, AllocError>
    requires { core.now.spent ≡ false }
{
    let typed = core.typed_of(alloc, a)?;
    Ok(typed.contains(&(TypedKind::BroaderGeneric, b)))
}

// Returns the number of preferred labels of a concept, of which each language has at most one.
fn name_count(alloc: Global, core: &Core, concept: ResNo) -> Result<usize, AllocError>
    requires { core.now.spent ≡ false }
{
    match concept_view(core, alloc, concept)? {
        View::Concept(ConceptView { pref, .. }) => Ok(pref.len()),
        _ => Ok(0),
    }
}

// Appends in words the kinds of rows that a command would add.
fn write_changes(
    core: &Core,
    command: &Command,
    facts: &Facts,
    report: &mut String,
) -> Result<(), Failure>
    requires { core.now.spent ≡ false }
{
    let Some(delta) = changes_of(core, command, facts)? else {
        return Ok(());
    };
    let result = write_rows(&delta, report);
    drop(delta);
    Ok(result?)
}

// Appends in words the kind of row that each change adds, one a line.
fn write_rows(delta: &Delta, report: &mut String) -> Result<(), AllocError> {
    for change in delta.as_slice() {
        writeln!(report, "{}", new_row_name(change))?;
    }
    Ok(())
}

// Appends the kinds of rows that a link would add, whether a core has that link, and counts of the
// core.
fn write_core(alloc: Global, core: &Core, report: &mut String) -> Result<(), Failure>
    requires { core.now.spent ≡ false }
{
    let (siamese, cats) = (ResNo::new(4), ResNo::new(2));
    let facts = Facts::new(alloc);
    let link = Command::Link(LinkKind::BroaderGeneric, siamese, cats);
    let result = write_changes(core, &link, &facts, report);
    drop(link);
    drop(facts);
    result?;
    let (is_kind, names) = (
        is_kind_of(alloc, core, siamese, cats)?,
        name_count(alloc, core, cats)?,
    );
    Ok(writeln!(report, "{is_kind} {names} {:?}", counts_of(core))?)
}

// Appends the report of `write_core`, or returns an error if the core is spent.
fn write_usable_core(alloc: Global, core: &Core, report: &mut String) -> Result<(), Failure> {
    if core.is_spent() {
        return Err(Failure::Fault(Fault::OutOfMemory));
    }
    write_core(alloc, core, report)
}

// Appends the number in the row that the addition of an outside concept makes.
fn write_outside_row(alloc: Global, report: &mut String) -> Result<(), Failure> {
    let iri = Iri::read(alloc, "https://elsewhere.example/cats")?;
    match outside_row(Change::AddOutside(ResNo::new(3), iri)) {
        Some(row) => Ok(writeln!(report, "{:?}", row.number)?),
        None => Ok(()),
    }
}

/// Loads a core from a storage, and appends what the examples return for the core.
pub fn run<K: Keeper>(alloc: Global, keeper: &mut K, report: &mut String) -> Result<(), Failure> {
    let core = load_core(alloc, keeper)?;
    let result = write_usable_core(alloc, &core, report);
    drop(core);
    result?;
    write_outside_row(alloc, report)
}
