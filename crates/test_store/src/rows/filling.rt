//! Changes of every kind, to fill a store.

use crate::database::commit;
use crate::failure::Failure;
use sqlite::{Alter, Connection};
use std::alloc::Global;
use thes_base::data::{Label, LabelValue, Link, LinkKind, Resource, ResourceKind};
use thes_base::number::{MoveNo, PostNo, ResNo};
use thes_base::text::{Iri, Key, RecordName, Tag, Text};
use thes_tables::change::Change;
use thes_tables::delta::Delta;
use thes_tables::rows::{HierRow, HierType, LabelRow, MoveRow, PostingRow};

// Returns the row of a preferred label in English.
fn label(alloc: Global, owner: ResNo, text: &str) -> Result<LabelRow, Failure> {
    Ok(LabelRow {
        owner,
        label: Label {
            tag: Tag::read(alloc, "en")?,
            value: LabelValue::Pref(Text::read(alloc, text)?),
        },
    })
}

// Returns the row of a posting of a record to a concept.
fn posting(
    alloc: Global,
    number: PostNo,
    key: &str,
    record: &str,
    place: ResNo,
) -> Result<PostingRow, Failure> {
    Ok(PostingRow {
        number,
        key: Key::read(alloc, key)?,
        rec: RecordName::read(alloc, record)?,
        first: place,
        place,
        withdrawn: false,
    })
}

// Adds the insertions of a resource and of its label.
fn add_named_resource(
    alloc: Global,
    delta: &mut Delta,
    n: ResNo,
    made: Resource,
    text: &str,
) -> Result<(), Failure> {
    delta.push(Change::AddResource(n, made))?;
    delta.push(Change::AddLabel(label(alloc, n, text)?))?;
    Ok(())
}

// Adds the insertions of a scheme with three concepts, and of an outside concept.
fn make_resources(alloc: Global, delta: &mut Delta) -> Result<(), Failure> {
    let scheme = ResNo::new(1);
    let concept = Resource::new(ResourceKind::Concept, Some(scheme));
    add_named_resource(
        alloc,
        delta,
        scheme,
        Resource::new(ResourceKind::Scheme, None),
        "Animals",
    )?;
    add_named_resource(alloc, delta, ResNo::new(2), concept, "Cats")?;
    add_named_resource(alloc, delta, ResNo::new(3), concept, "Mammals")?;
    add_named_resource(alloc, delta, ResNo::new(4), concept, "Pets")?;
    let outside = ResNo::new(5);
    delta.push(Change::AddResource(outside, Resource::new(ResourceKind::Outside, None)))?;
    let iri = Iri::read(alloc, "http://example.org/x")?;
    delta.push(Change::AddOutside(outside, iri))?;
    Ok(())
}

// Returns the related link between the concepts 2 and 4.
fn related_link() -> Link {
    Link {
        kind: LinkKind::Related,
        a: ResNo::new(2),
        b: ResNo::new(4),
    }
}

// Returns the hierarchical link of this type from concept 2 up to concept 3.
fn broader_row(typ: HierType) -> HierRow {
    HierRow {
        a: ResNo::new(2),
        b: ResNo::new(3),
        typ,
    }
}

// Adds the insertions of two links into each table of links, and the removal of one from each.
fn make_links(delta: &mut Delta) -> Result<(), Failure> {
    delta.push(Change::AddLink(related_link()))?;
    delta.push(Change::AddLink(Link {
        kind: LinkKind::Exact,
        a: ResNo::new(3),
        b: ResNo::new(5),
    }))?;
    delta.push(Change::AddHier(broader_row(HierType::Untyped)))?;
    delta.push(Change::AddHier(broader_row(HierType::Partitive)))?;
    delta.push(Change::DropLink(related_link()))?;
    delta.push(Change::DropHier(broader_row(HierType::Untyped)))?;
    Ok(())
}

// Adds the insertions of three postings, the withdrawal of one, and a move of another.
fn make_postings(alloc: Global, delta: &mut Delta) -> Result<(), Failure> {
    let (two, four) = (ResNo::new(2), ResNo::new(4));
    let (first, second, third) = (PostNo::new(1), PostNo::new(2), PostNo::new(3));
    delta.push(Change::AddPosting(posting(alloc, first, "k1", "r1", two)?))?;
    delta.push(Change::AddPosting(posting(alloc, second, "k2", "r2", two)?))?;
    delta.push(Change::AddPosting(posting(alloc, third, "k3", "r3", four)?))?;
    delta.push(Change::Withdraw(second))?;
    delta.push(Change::SetPlace(third, two))?;
    delta.push(Change::AddMove(MoveRow {
        number: MoveNo::new(1),
        posting: third,
        source: four,
        target: two,
    }))?;
    Ok(())
}

// Adds the changes of a merge of concept 2 into 3, and of the deprecation of concept 4.
fn merge(alloc: Global, delta: &mut Delta) -> Result<(), Failure> {
    let (two, three, four) = (ResNo::new(2), ResNo::new(3), ResNo::new(4));
    delta.push(Change::Replace(two, three))?;
    delta.push(Change::MoveAll(two, three))?;
    delta.push(Change::AddMove(MoveRow {
        number: MoveNo::new(2),
        posting: PostNo::new(1),
        source: two,
        target: three,
    }))?;
    delta.push(Change::AddMove(MoveRow {
        number: MoveNo::new(3),
        posting: PostNo::new(3),
        source: two,
        target: three,
    }))?;
    delta.push(Change::Retire(four))?;
    delta.push(Change::DropLabel(label(alloc, four, "Pets")?))?;
    Ok(())
}

/// Commits changes of each kind, in three transactions.
pub fn fill<S: Alter>(alloc: Global, conn: &mut Connection<S>) -> Result<(), Failure> {
    let mut made = Delta::new(alloc);
    make_resources(alloc, &mut made)?;
    make_links(&mut made)?;
    commit(conn, &made)?;
    let mut posted = Delta::new(alloc);
    make_postings(alloc, &mut posted)?;
    commit(conn, &posted)?;
    let mut merged = Delta::new(alloc);
    merge(alloc, &mut merged)?;
    commit(conn, &merged)
}
