//! Checks of resources by number, and of the ends of a link.
ghost use Rattle.std.specs.Prelude.{◌≡◌, ◌↔◌, IsTrue};
ghost use Rattle.thes_base.specs.Resources.{IsConcept, is_live_concept};
ghost use Rattle.thes_load_rows.specs.LinksSoFar.{IsFitLink};

use thes_base::data::{Link, Resource, ResourceKind};
use thes_base::number::ResNo;
use thes_vocab::resource_at;

/// Checks whether the number in a row is that of a concept, live or dead.
pub fn is_concept(resources: &[Resource], n: ResNo) -> bool
    ensures { IsTrue result ↔ IsConcept resources.now n }
{
    match resource_at(resources, n).copied() {
        Some(resource) => resource.kind == ResourceKind::Concept,
        None => false,
    }
}

/// Checks whether the number in a row is that of a live concept.
pub fn is_live(resources: &[Resource], n: ResNo) -> bool
    ensures { result ≡ is_live_concept resources.now n }
{
    match resource_at(resources, n).copied() {
        Some(resource) => resource.kind == ResourceKind::Concept && resource.live,
        None => false,
    }
}

/// Checks whether the ends of a link are two different live resources of the right kinds and
/// schemes.
pub fn is_fit(resources: &[Resource], link: &Link) -> bool
    ensures { IsTrue result ↔ IsFitLink resources.now link.now }
{
    let Some(a) = resource_at(resources, link.a).copied() else {
        return false;
    };
    let Some(b) = resource_at(resources, link.b).copied() else {
        return false;
    };
    let form = link.kind.form();
    form.are_ends(&a, &b) && a.live && b.live && link.a != link.b && form.have_schemes(&a, &b)
}
