//! Worked examples on links, and random graphs, whose answers are compared with those of a naive
//! program that follows the definitions.
use Fact::{BroaderOf, CollectionsOf, Has, Mappings, NarrowerOf, RelatedTo, Size};
use std::alloc::{AllocError, Global};
use std::collections::BTreeSet;
use std::process::Abort;
use std::test::Fail;
use test_devices::numbers::Numbers;
use thes_base::data::{Link, LinkKind};
use thes_base::fault::Refusal;
use thes_base::number::ResNo;
use thes_graph::graph::Graph;
use thes_links::links::Links;
use thes_walks::judge::{check_at, judge_add, judge_contract};

fn no(n: u32) -> ResNo {
    ResNo::new(n.max(1))
}

fn link(kind: LinkKind, a: u32, b: u32) -> Link {
    Link {
        kind,
        a: no(a),
        b: no(b),
    }
}

// Removes the links of the resource, and marks it as an outside concept.
fn mark(graph: &mut Graph, n: u32) -> Result<(), AllocError> {
    let n = no(n);
    graph.drop_all(n);
    graph.mark_outside(n)
}

// Checks that the graph keeps the rules, and then that the link may be added; returns the first
// refusal.
fn check_link(alloc: Global, graph: &Graph, link: &Link) -> Result<Option<Refusal>, AllocError> {
    if link.a == link.b {
        return Ok(Some(Refusal::SameResource));
    }
    match graph.check_whole(alloc)? {
        None => {
            let mut walk = graph.walk();
            judge_add(alloc, &mut walk, link)
        }
        Some(refusal) => Ok(Some(refusal)),
    }
}

// Adds the link unless it is refused, and returns the refusal.
fn try_add(alloc: Global, graph: &mut Graph, link: &Link) -> Result<Option<Refusal>, AllocError> {
    let answer = check_link(alloc, graph, link)?;
    if answer.is_none() && link.a != link.b {
        graph.add(link)?;
    }
    Ok(answer)
}

// Checks that the graph keeps the rules, and then that the merge is allowed; returns the first
// refusal.
fn check_merge(
    alloc: Global,
    graph: &Graph,
    source: u32,
    target: u32,
) -> Result<Option<Refusal>, AllocError> {
    let (source, target) = (no(source), no(target));
    if source == target {
        return Ok(Some(Refusal::SameResource));
    }
    match graph.check_whole(alloc)? {
        None => {
            let mut walk = graph.walk();
            judge_contract(alloc, &mut walk, source, target)
        }
        Some(refusal) => Ok(Some(refusal)),
    }
}

type Step = (LinkKind, u32, u32, Option<Refusal>);

// Tries to add each of the links in order, and compares the answers with the expected ones.
fn run(rt: &impl Abort, alloc: Global, graph: &mut Graph, steps: &[Step]) -> Result<(), Fail> {
    for (i, (kind, a, b, wanted)) in steps.iter().enumerate() {
        let answer = try_add(alloc, graph, &link(*kind, *a, *b))?;
        assert_eq!(rt; answer, *wanted, "at step {i}");
    }
    Ok(())
}

use LinkKind::{
    Broad, Broader, BroaderGeneric, BroaderInstantial, BroaderPartitive, Close, Exact, Member,
    Narrow, RelMatch, Related,
};

#[test]
fn worked_links(rt: HostRuntime) -> Result<(), Fail> {
    let alloc = rt.alloc();
    let tables: [&[Step]; 8] = [
        &[
            (Broader, 2, 3, None),
            (Broader, 3, 4, None),
            (Broader, 4, 2, Some(Refusal::Cycle)),
            (Broader, 2, 3, Some(Refusal::LinkThere)),
        ],
        &[
            (Broader, 2, 3, None),
            (Broader, 3, 4, None),
            (Related, 4, 2, Some(Refusal::S27)),
        ],
        &[
            (Related, 4, 2, None),
            (Broader, 2, 3, None),
            (Broader, 3, 4, Some(Refusal::S27)),
        ],
        &[
            (Broad, 2, 9, None),
            (Narrow, 4, 9, None),
            (Related, 2, 4, Some(Refusal::S27)),
            (Narrow, 2, 9, Some(Refusal::Cycle)),
        ],
        &[
            (Exact, 2, 9, None),
            (Exact, 7, 9, None),
            (Broad, 2, 7, Some(Refusal::S46)),
        ],
        &[
            (Related, 2, 4, None),
            (Broad, 2, 9, None),
            (Narrow, 4, 9, Some(Refusal::S27)),
            (Exact, 6, 2, None),
            (Exact, 2, 6, Some(Refusal::LinkThere)),
            (Broad, 2, 7, None),
            (Broad, 7, 2, Some(Refusal::Cycle)),
            (RelMatch, 7, 2, Some(Refusal::S27)),
        ],
        &[
            (BroaderGeneric, 2, 3, None),
            (BroaderPartitive, 2, 3, None),
            (BroaderGeneric, 2, 3, Some(Refusal::LinkThere)),
            (Related, 2, 3, Some(Refusal::S27)),
            (Broader, 3, 2, Some(Refusal::Cycle)),
            (BroaderInstantial, 3, 9, None),
            (Narrow, 4, 9, None),
            (RelMatch, 2, 4, Some(Refusal::S27)),
        ],
        &[
            (Exact, 2, 9, None),
            (RelMatch, 9, 4, None),
            (Exact, 3, 4, None),
            (Exact, 2, 3, Some(Refusal::S46)),
            (RelMatch, 9, 2, Some(Refusal::S46)),
            (Narrow, 9, 2, Some(Refusal::S46)),
        ],
    ];
    for steps in tables {
        let mut graph = Graph::new(alloc);
        mark(&mut graph, 9)?;
        run(&rt, alloc, &mut graph, steps)?;
    }
    Ok(())
}

// A row of a table: links to add, the source and the target of a merge after that, and the expected
// answer to the merge.
type Merge<'a> = (&'a [Step], u32, u32, Option<Refusal>);

#[test]
fn worked_merges(rt: HostRuntime) -> Result<(), Fail> {
    let alloc = rt.alloc();
    let tables: [Merge; 3] = [
        (&[(Broader, 2, 3, None)], 2, 3, None),
        (
            &[
                (Broader, 2, 3, None),
                (Broader, 2, 4, None),
                (Broader, 4, 3, None),
            ],
            2,
            3,
            Some(Refusal::Cycle),
        ),
        (
            &[(Broader, 3, 4, None), (Related, 2, 4, None)],
            2,
            3,
            Some(Refusal::S27),
        ),
    ];
    for (steps, source, target, wanted) in tables {
        let mut graph = Graph::new(alloc);
        run(&rt, alloc, &mut graph, steps)?;
        assert_eq!(rt; check_merge(alloc, &graph, source, target)?, wanted);
    }
    Ok(())
}

// A fact about the graph: the expected result of a look-up.
#[derive(Clone, Copy)]
enum Fact {
    Size(u64),
    Has(LinkKind, u32, u32, bool),
    BroaderOf(u32, &'static [u32]),
    NarrowerOf(u32, &'static [u32]),
    RelatedTo(u32, &'static [u32]),
    CollectionsOf(u32, &'static [u32]),
    Mappings(u32, &'static [(LinkKind, u32)]),
}

// Checks whether the list has exactly these numbers, in this order.
fn are_numbers(found: Result<Vec<ResNo>, AllocError>, wanted: &[u32]) -> Result<bool, AllocError> {
    let found = found?;
    Ok(found.len() == wanted.len() && found.iter().zip(wanted.iter()).all(|(n, m)| n.get() == *m))
}

// Checks whether the list has exactly these mappings, in this order.
fn are_mappings(
    found: Result<Vec<(LinkKind, ResNo)>, AllocError>,
    wanted: &[(LinkKind, u32)],
) -> Result<bool, AllocError> {
    let found = found?;
    Ok(
        found.len() == wanted.len()
            && found
                .iter()
                .zip(wanted.iter())
                .all(|((kind, n), (other, m))| *kind == *other && n.get() == *m),
    )
}

fn holds(alloc: Global, graph: &Graph, fact: Fact) -> Result<bool, AllocError> {
    match fact {
        Size(size) => Ok(graph.size() == size),
        Has(kind, a, b, wanted) => Ok(graph.has(&link(kind, a, b)) == wanted),
        BroaderOf(n, wanted) => are_numbers(graph.broader_of(alloc, no(n)), wanted),
        NarrowerOf(n, wanted) => are_numbers(graph.narrower_of(alloc, no(n)), wanted),
        RelatedTo(n, wanted) => are_numbers(graph.related_of(alloc, no(n)), wanted),
        CollectionsOf(n, wanted) => are_numbers(graph.collections_of(alloc, no(n)), wanted),
        Mappings(n, wanted) => are_mappings(graph.mappings(alloc, no(n)), wanted),
    }
}

// Checks that each of these facts holds of the graph.
fn expect(rt: &impl Abort, alloc: Global, graph: &Graph, facts: &[Fact]) -> Result<(), Fail> {
    for (i, fact) in facts.iter().enumerate() {
        assert!(rt; holds(alloc, graph, *fact)?, "fact {i}");
    }
    Ok(())
}

static BEFORE_THE_MERGE: [Step; 5] = [
    (Broader, 2, 3, None),
    (Related, 2, 4, None),
    (Related, 3, 4, None),
    (Exact, 2, 5, None),
    (Member, 8, 2, None),
];

static FACTS_AFTER_MERGE: [Fact; 7] = [
    Size(3),
    Has(Exact, 3, 5, true),
    Has(Exact, 2, 5, false),
    BroaderOf(3, &[]),
    NarrowerOf(3, &[]),
    RelatedTo(3, &[4]),
    CollectionsOf(3, &[8]),
];

fn merge(graph: &mut Graph, source: u32, target: u32) -> Result<(), AllocError> {
    let (source, target) = (no(source), no(target));
    if source != target {
        graph.contract(source, target)?;
    }
    Ok(())
}

// Checks that a merge moves the source's links to the target, except those that would join the
// target to itself, and keeps only one of links that become equal.
fn expect_merge(rt: &impl Abort, alloc: Global, graph: &mut Graph) -> Result<(), Fail> {
    mark(graph, 5)?;
    run(rt, alloc, graph, &BEFORE_THE_MERGE)?;
    merge(graph, 2, 3)?;
    expect(rt, alloc, graph, &FACTS_AFTER_MERGE)?;
    graph.remove(&link(Related, 4, 3));
    graph.drop_all(no(5));
    assert_eq!(rt; graph.size(), 1);
    Ok(())
}

#[test]
fn merged_links(rt: HostRuntime) -> Result<(), Fail> {
    expect_merge(&rt, rt.alloc(), &mut Graph::new(rt.alloc()))
}

static NEIGHBOUR_LINKS: [Step; 11] = [
    (Broader, 4, 2, None),
    (Broader, 3, 2, None),
    (Related, 8, 4, None),
    (Related, 1, 4, None),
    (RelMatch, 4, 9, None),
    (Narrow, 7, 4, None),
    (Broad, 4, 6, None),
    (Close, 4, 5, None),
    (Close, 10, 4, None),
    (Narrow, 4, 12, None),
    (Exact, 4, 11, None),
];

static NEIGHBOUR_FACTS: [Fact; 4] = [
    BroaderOf(4, &[2]),
    NarrowerOf(2, &[3, 4]),
    RelatedTo(4, &[1, 8]),
    Mappings(
        4,
        &[
            (Broad, 6),
            (Broad, 7),
            (Close, 5),
            (Close, 10),
            (Exact, 11),
            (Narrow, 12),
            (RelMatch, 9),
        ],
    ),
];

fn expect_in_order(rt: &impl Abort, alloc: Global, graph: &mut Graph) -> Result<(), Fail> {
    mark(graph, 9)?;
    run(rt, alloc, graph, &NEIGHBOUR_LINKS)?;
    expect(rt, alloc, graph, &NEIGHBOUR_FACTS)
}

#[test]
fn readers_in_order(rt: HostRuntime) -> Result<(), Fail> {
    expect_in_order(&rt, rt.alloc(), &mut Graph::new(rt.alloc()))
}

// Returns the number of visits that a check of the link takes, or None if the link is refused.
fn visits(alloc: Global, graph: &Graph, link: &Link) -> Result<Option<u64>, AllocError> {
    if link.a == link.b {
        return Ok(None);
    }
    match graph.check_whole(alloc)? {
        None => {
            let mut walk = graph.walk();
            let answer = judge_add(alloc, &mut walk, link)?;
            Ok(answer.is_none().then_some(walk.visits()))
        }
        Some(_) => Ok(None),
    }
}

// A check visits no links that are far from the edit.
#[test]
fn visits_near_the_edit(rt: HostRuntime) -> Result<(), Fail> {
    let alloc = rt.alloc();
    let mut graph = Graph::new(alloc);
    run(&rt, alloc, &mut graph, &[(Broader, 2, 3, None)])?;
    for n in 5..505u32 {
        run(&rt, alloc, &mut graph, &[(Broader, n, n + 1, None)])?;
    }
    // One visit for the look-up of the link: node 4 has no links to read.
    assert_eq!(rt; visits(alloc, &graph, &link(Related, 2, 4))?, Some(1));
    Ok(())
}

// An upward search that reaches a concept with many narrower ones reads no link to these.
#[test]
fn visits_on_one_side(rt: HostRuntime) -> Result<(), Fail> {
    let alloc = rt.alloc();
    let mut graph = Graph::new(alloc);
    run(&rt, alloc, &mut graph, &[(Broader, 601, 600, None)])?;
    for n in 2..503u32 {
        run(&rt, alloc, &mut graph, &[(Broader, n, 1, None)])?;
    }
    // One visit for a look-up, and one for the link up from 2.
    assert_eq!(rt; visits(alloc, &graph, &link(Broader, 600, 2))?, Some(2));
    Ok(())
}

// Returns the number of visits that a check of the merge takes, or None if the merge is refused.
fn visits_of_merge(
    alloc: Global,
    graph: &Graph,
    source: u32,
    target: u32,
) -> Result<Option<u64>, AllocError> {
    let (source, target) = (no(source), no(target));
    if source == target {
        return Ok(None);
    }
    match graph.check_whole(alloc)? {
        None => {
            let mut walk = graph.walk();
            let answer = judge_contract(alloc, &mut walk, source, target)?;
            Ok(answer.is_none().then_some(walk.visits()))
        }
        Some(_) => Ok(None),
    }
}

// If the upward search is short, no links down from a concept with many narrower ones are read,
// even if the edit is at that concept.
#[test]
fn visits_above_a_broad_concept(rt: HostRuntime) -> Result<(), Fail> {
    let alloc = rt.alloc();
    let mut graph = Graph::new(alloc);
    run(&rt, alloc, &mut graph, &[(Broader, 600, 601, None)])?;
    for n in 2..503u32 {
        run(&rt, alloc, &mut graph, &[(Broader, n, 1, None)])?;
    }
    // One visit for a look-up, and one for the link up from 600.
    assert_eq!(rt; visits(alloc, &graph, &link(Broader, 1, 600))?, Some(2));
    run(&rt, alloc, &mut graph, &[(Broader, 1, 600, None)])?;
    // One visit for the link up from the target, and one for the link up from 600.
    assert_eq!(rt; visits_of_merge(alloc, &graph, 700, 1)?, Some(2));
    Ok(())
}

// Returns the node to which the link leads from `x`, for the naive program: a broader one or, if
// `exact` is true, an exact match.
fn linked_node(link: &Link, exact: bool, x: ResNo) -> Option<ResNo> {
    match link.kind {
        Exact if exact && link.a == x => Some(link.b),
        Exact if exact && link.b == x => Some(link.a),
        Broader | BroaderGeneric | BroaderPartitive | BroaderInstantial | Broad
            if !exact && link.a == x => { Some(link.b) }
        Narrow if !exact && link.b == x => Some(link.a),
        _ => None,
    }
}

// Returns all nodes that chains of links reach from a node, for the naive program: chains upward
// or, if `exact` is true, chains of exact matches.
fn nodes_reached(
    alloc: Global,
    links: &[Link],
    exact: bool,
    start: ResNo,
) -> Result<BTreeSet<ResNo>, AllocError> {
    let mut met = BTreeSet::new(alloc);
    let mut list = vec![in alloc; start]?;
    for i in 0..usize::MAX {
        if i >= list.len() {
            break;
        }
        let x = list[i];
        for link in links {
            if let Some(y) = linked_node(link, exact, x)
                && met.insert(y)?
            {
                list.push(y)?;
            }
        }
    }
    Ok(met)
}

fn plain_refusal(alloc: Global, links: &[Link]) -> Result<Option<Refusal>, AllocError> {
    for link in links {
        if nodes_reached(alloc, links, false, link.a)?.contains(&link.a)
            || nodes_reached(alloc, links, false, link.b)?.contains(&link.b)
        {
            return Ok(Some(Refusal::Cycle));
        }
    }
    for link in links {
        if matches!(link.kind, Related | RelMatch)
            && (nodes_reached(alloc, links, false, link.a)?.contains(&link.b)
                || nodes_reached(alloc, links, false, link.b)?.contains(&link.a))
        {
            return Ok(Some(Refusal::S27));
        }
    }
    for link in links {
        if matches!(link.kind, Broad | Narrow | RelMatch)
            && nodes_reached(alloc, links, true, link.a)?.contains(&link.b)
        {
            return Ok(Some(Refusal::S46));
        }
    }
    Ok(None)
}

// Returns the links after a merge, for the naive program. The list may have duplicates.
fn plain_merge(
    alloc: Global,
    links: &[Link],
    source: ResNo,
    target: ResNo,
) -> Result<Vec<Link>, AllocError> {
    let mut merged = Vec::new(alloc);
    for link in links {
        let a = if link.a == source { target } else { link.a };
        let b = if link.b == source { target } else { link.b };
        if a != b {
            merged.push(Link {
                kind: link.kind,
                a,
                b,
            })?;
        }
    }
    Ok(merged)
}

// Returns a random link of any kind among the first `nodes` nodes; its ends may be the same node.
fn any_link(numbers: &mut Numbers, nodes: u32) -> Link {
    let kind = match numbers.below(13) {
        0 | 1 => Broader,
        2 => BroaderGeneric,
        3 => BroaderPartitive,
        4 => BroaderInstantial,
        5 | 6 => Related,
        7 => Exact,
        8 => Close,
        9 => Broad,
        10 => Narrow,
        11 => RelMatch,
        _ => Member,
    };
    let a = numbers.below(nodes);
    let b = numbers.below(nodes);
    link(kind, a.saturating_add(1), b.saturating_add(1))
}

// Adds the link to a graph that keeps the rules, and returns the refusal that a check at the link's
// first end finds.
fn check_added(
    alloc: Global,
    graph: &mut Graph,
    link: &Link,
) -> Result<Option<Refusal>, AllocError> {
    if link.a == link.b {
        return Ok(Some(Refusal::SameResource));
    }
    match graph.check_whole(alloc)? {
        None => {
            graph.add(link)?;
            let mut walk = graph.walk();
            check_at(alloc, &mut walk, link.a)
        }
        Some(refusal) => Ok(Some(refusal)),
    }
}

// Tries to add a link to a graph that keeps the rules, and compares each answer with that of the
// naive program.
fn compare(
    rt: &impl Abort,
    alloc: Global,
    graph: &mut Graph,
    list: &mut Vec<Link>,
    new: &Link,
) -> Result<(), Fail> {
    let there = graph.has(new);
    let answer = try_add(alloc, graph, new)?;
    if there {
        assert_eq!(rt; answer, Some(Refusal::LinkThere));
        return Ok(());
    }
    list.push(*new)?;
    assert_eq!(rt; answer, plain_refusal(alloc, list.as_slice())?);
    if answer.is_some() {
        assert_eq!(rt; check_added(alloc, graph, new)?, answer);
        assert_eq!(rt; graph.check_whole(alloc)?, answer);
        graph.remove(new);
        list.pop();
    }
    Ok(())
}

// Counts the different links, for the naive program. Links of a symmetric kind are equal in either
// direction. Exact, close and related matches are symmetric unless an end is an outside concept.
fn count_different(alloc: Global, graph: &Graph, links: &[Link]) -> Result<usize, AllocError> {
    let mut met = BTreeSet::new(alloc);
    for link in links {
        let turns = match link.kind {
            Related => true,
            Exact | Close | RelMatch => !graph.is_outside(link.a) && !graph.is_outside(link.b),
            _ => false,
        };
        let (a, b) = if turns && link.b < link.a {
            (link.b, link.a)
        } else {
            (link.a, link.b)
        };
        met.insert(Link {
            kind: link.kind,
            a,
            b,
        })?;
    }
    Ok(met.len())
}

// Tries a merge in a graph that keeps the rules, and compares the answer and the links after it
// with those of the naive program.
fn compare_merge(
    rt: &impl Abort,
    alloc: Global,
    graph: &mut Graph,
    list: &mut Vec<Link>,
    (source, target): (u32, u32),
) -> Result<(), Fail> {
    let (from, to) = (no(source), no(target));
    if from == to {
        return Ok(());
    }
    let merged = plain_merge(alloc, list.as_slice(), from, to)?;
    let answer = check_merge(alloc, graph, source, target)?;
    assert_eq!(rt;
        answer,
        plain_refusal(alloc, merged.as_slice())?,
        "{source} into {target}"
    );
    if answer.is_none() {
        graph.contract(from, to)?;
        assert_eq!(rt;
            graph.size(),
            count_different(alloc, graph, merged.as_slice())? as u64
        );
        for link in merged.as_slice() {
            assert!(rt; graph.has(link));
        }
        *list = merged;
    }
    Ok(())
}

#[test]
fn as_the_plain_program(rt: HostRuntime) -> Result<(), Fail> {
    let alloc = rt.alloc();
    let mut numbers = Numbers(1);
    for round in 0..200u32 {
        let nodes = 3 + round % 28;
        let mut graph = Graph::new(alloc);
        let mut list = Vec::new(alloc);
        mark(&mut graph, 1)?;
        mark(&mut graph, 2)?;
        for _ in 0..nodes {
            let new = any_link(&mut numbers, nodes);
            if new.a != new.b {
                compare(&rt, alloc, &mut graph, &mut list, &new)?;
            }
        }
        for source in 3..nodes {
            let target = numbers.below(nodes.saturating_sub(2)).saturating_add(3);
            compare_merge(&rt, alloc, &mut graph, &mut list, (source, target))?;
        }
    }
    Ok(())
}
