//! The rows of table resource, and their checks.
ghost use Rattle.std.specs.Prelude.{◌≡◌, ◌<◌, ◌^◌, ◌↔◌, List, IsTrue, IfOk, [], length};
ghost use Rattle.thes_base.specs.declared.data.Resource.{Resource};
ghost use Rattle.thes_base.specs.Resources.{IsScheme, scheme_of, replacement_of};
ghost use Rattle.thes_load_rules.specs.Rules.{ResourceRule};
ghost use Rattle.thes_tables.specs.Cells.{resource_rows};
ghost use Rattle.thes_load_rows.specs.ReadResults.{ReadResult};
ghost use Rattle.thes_load_rows.specs.ResourceChecks.{AppendResourceResult, SchemeFits, ReplacementFits, ResourceFits, EachResourceFits, NoneReplacesItself, HasReplacementCycle, is_cycle};

use crate::ends::is_concept;
use crate::rows::{ResourceRow, resource_in};
use std::alloc::{AllocError, Global};
use thes_base::data::{Link, LinkKind, Resource, ResourceKind};
use thes_base::fault::Refusal;
use thes_base::number::ResNo;
use thes_graph::graph::Graph;
use thes_tables::cells::Cell;
use thes_vocab::resource_at;

/// The resources of the rows of table resource read so far.
#[derive(Drop)]
pub struct ResourceLoad {
    pub resources: Vec<Resource>,
    ghost few: { length resources.items < 2 ^ 32 },
}

impl ResourceLoad {
    /// Creates a load without rows.
    pub fn new(alloc: Global) -> ResourceLoad
        ensures { result.resources.items ≡ [] }
    {
        ResourceLoad {
            resources: Vec::new(alloc),
        }
    }

    /// Appends the resource of a row; returns false if the row's number isn't the next one.
    pub fn take(&mut self, row: &ResourceRow) -> Result<bool, AllocError>
        ensures { IfOk result
            (AppendResourceResult self.old.resources.items self.new.resources.items row.now) }
    {
        if row.number.get() as usize == self.resources.len() + 1 {
            self.resources.push(row.resource)?;
            Ok(true)
        } else {
            Ok(false)
        }
    }

    /// Parses the next row of table resource and appends its resource; returns false if the row has
    /// another form or a number that isn't the next one.
    pub fn read(&mut self, cells: &[Cell]) -> Result<bool, AllocError>
        ensures { IfOk result
            (ReadResult (resource_rows 1) (λ rows. rows ≡ self.new.resources.items) ResourceRule
            self.old.resources.items cells.now) }
    {
        match resource_in(cells) {
            Some(row) => {
                let good = self.take(&row)?;
                Ok(good)
            }
            None => Ok(false),
        }
    }

    /// Checks whether the resources meet the rule of table resource.
    pub fn close(&self, alloc: Global) -> Result<bool, AllocError>
        ensures { IfOk result (λ good. IsTrue good ↔ ResourceRule self.now.resources.items) }
    {
        are_legal(alloc, self.resources.as_slice())
    }
}

// Checks whether each loaded resource is legal, and replacements form no cycle.
fn are_legal(alloc: Global, resources: &[Resource]) -> Result<bool, AllocError>
    requires { length resources.now < 2 ^ 32 }
    ensures { IfOk result (λ good. IsTrue good ↔ ResourceRule resources.now) }
{
    if each_fits(resources) {
        if has_replacement_cycle(alloc, resources)? {
            Ok(false)
        } else {
            Ok(true)
        }
    } else {
        Ok(false)
    }
}

// Checks whether each resource may have its scheme, its live flag and its replacement.
fn each_fits(resources: &[Resource]) -> bool
    requires { length resources.now < 2 ^ 32 }
    ensures { IsTrue result ↔ EachResourceFits resources.now }
{
    for i in 0..resources.len() {
        let n = ResNo::new(i as u32 + 1);
        if let Some(resource) = resource_at(resources, n).copied() {
            if fits(resources, n, &resource) {} else {
                return false;
            }
        }
    }
    true
}

// Checks whether resource n may have its scheme, its live flag and its replacement.
fn fits(resources: &[Resource], n: ResNo, r: &Resource) -> bool
    ensures { IsTrue result ↔ ResourceFits resources.now n r.now }
{
    scheme_fits(resources, r.kind, r.scheme)
        && (r.live || r.kind == ResourceKind::Concept)
        && replacement_fits(resources, n, r)
}

// Checks whether there is a resource with the number `n`, and it is a scheme.
fn is_scheme(resources: &[Resource], n: ResNo) -> bool
    ensures { IsTrue result ↔ IsScheme resources.now n }
{
    match resource_at(resources, n).copied() {
        Some(resource) => resource.kind == ResourceKind::Scheme,
        None => false,
    }
}

// Returns the scheme that the row of resource `n` states; None if it states none, or there is no
// such row.
fn scheme_of(resources: &[Resource], n: ResNo) -> Option<ResNo>
    ensures { result ≡ scheme_of resources.now n }
{
    match resource_at(resources, n).copied() {
        Some(resource) => resource.scheme,
        None => None,
    }
}

// Checks whether a resource of the kind may have this scheme: the number of a scheme for a concept
// or a collection, and none for another resource.
fn scheme_fits(resources: &[Resource], kind: ResourceKind, scheme: Option<ResNo>) -> bool
    ensures { IsTrue result ↔ SchemeFits resources.now kind scheme }
{
    match kind {
        ResourceKind::Concept | ResourceKind::Collection => match scheme {
            Some(m) => is_scheme(resources, m),
            None => false,
        },
        ResourceKind::Scheme | ResourceKind::Outside => scheme.is_none(),
    }
}

// Checks whether the resource has no replacement, or is dead and is replaced by another concept of
// its scheme.
fn replacement_fits(resources: &[Resource], n: ResNo, r: &Resource) -> bool
    ensures { IsTrue result ↔ ReplacementFits resources.now n r.now r.now.replaced }
{
    match r.replaced {
        Some(m) => {
            !r.live && m != n && is_concept(resources, m) && scheme_of(resources, m) == r.scheme
        }
        None => true,
    }
}

// Checks whether replacements form a cycle: builds a graph in which each replacement is a broader
// link, and checks it for the rule Cycle.
fn has_replacement_cycle(alloc: Global, resources: &[Resource]) -> Result<bool, AllocError>
    requires few { length resources.now < 2 ^ 32 }
    requires apart { NoneReplacesItself resources.now }
    ensures { IfOk result (HasReplacementCycle resources.now) }
{
    let mut graph = Graph::new(alloc);
    for i in 0..resources.len() {
        let n = ResNo::new(i as u32 + 1);
        if let Some(by) = replacement_of(resources, n) {
            graph.add(&Link {
                kind: LinkKind::Broader,
                a: n,
                b: by,
            })?;
        }
    }
    let first = graph.check_whole(alloc)?;
    if is_cycle(first) { Ok(true) } else { Ok(false) }
}

// Checks whether the first rule that a graph of links breaks is Cycle.
fn is_cycle(first: Option<Refusal>) -> bool
    ensures { result ≡ is_cycle first }
{
    match first {
        Some(Refusal::Cycle) => true,
        _ => false,
    }
}

// Returns the replacement that the row of resource `n` states; None if it states none, or there is
// no such row.
fn replacement_of(resources: &[Resource], n: ResNo) -> Option<ResNo>
    ensures { result ≡ replacement_of resources.now n }
{
    match resource_at(resources, n).copied() {
        Some(resource) => resource.replaced,
        None => None,
    }
}
