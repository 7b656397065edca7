//! The view of a concept, collected from a core.
ghost use Rattle.std.specs.Prelude.{◌≡◌, Some, None, false, IfOk, MatchResult};
ghost use Rattle.thes_base.specs.Resources.{entry_at};
ghost use Rattle.thes_base.specs.RuleParts.{unless_concept};
ghost use Rattle.thes_base.specs.State.{State};
ghost use Rattle.thes_base.specs.Views.{AreDetailsOf};
ghost use Rattle.thes_core.specs.CoreView.{IsViewOf};
ghost use Rattle.thes_requests.specs.declared.request.Query.{Query};
ghost use Rattle.thes_exchange.specs.ViewOf.{IsView};

use crate::view::{ConceptView, View};
use std::alloc::{AllocError, Global};
use thes_base::data::{LabelKind, Resource, ResourceKind};
use thes_base::fault::Refusal;
use thes_base::number::ResNo;
use thes_core::Core;

// Returns the concept with this number, live or not, or the refusal `UnknownResource` or
// `WrongKind`.
fn concept_at<'a>(core: &'a Core, number: ResNo) -> Result<&'a Resource, Refusal>
    requires { core.now.spent ≡ false }
    ensures judges { (s : State) → IsViewOf core.now s → MatchResult result
        (λ resource. unless_concept s number None)
        (λ refusal. unless_concept s number (Some refusal)) }
    ensures found { IfOk result
        (λ resource. entry_at core.now.resources number ≡ Some resource.now) }
{
    let Some(resource) = core.resource(number) else {
        return Err(Refusal::UnknownResource);
    };
    match resource.kind {
        ResourceKind::Concept => Ok(resource),
        ResourceKind::Scheme | ResourceKind::Collection | ResourceKind::Outside => {
            Err(Refusal::WrongKind)
        }
    }
}

// Collects the labels, links and facts of a concept from the core.
fn collect_concept<'a>(
    core: &'a Core,
    alloc: Global,
    number: ResNo,
    resource: &Resource,
) -> Result<ConceptView<'a>, AllocError>
    requires unspent { core.now.spent ≡ false }
    requires found { entry_at core.now.resources number ≡ Some resource.now }
    ensures { (s : State) → IsViewOf core.now s → IfOk result (AreDetailsOf s number) }
{
    let broader = core.broader_of(alloc, number)?;
    let top = resource.live && broader.is_empty();
    Ok(ConceptView {
        alt: core.labels_of_kind(alloc, number, LabelKind::Alt)?,
        broader,
        collections: core.collections_of(alloc, number)?,
        hidden: core.labels_of_kind(alloc, number, LabelKind::Hidden)?,
        live: resource.live,
        mappings: core.mappings(alloc, number)?,
        narrower: core.narrower_of(alloc, number)?,
        number,
        postings: core.count(number),
        pref: core.labels_of_kind(alloc, number, LabelKind::Pref)?,
        related: core.related_of(alloc, number)?,
        replaced: resource.replaced,
        scheme: resource.scheme,
        scope: core.labels_of_kind(alloc, number, LabelKind::Scope)?,
        top,
        typed: core.typed_of(alloc, number)?,
    })
}

/// Returns the view of a concept, live or not, or the refusal of its number.
pub fn concept_view<'a>(
    core: &'a Core,
    alloc: Global,
    number: ResNo,
) -> Result<View<'a>, AllocError>
    requires { core.now.spent ≡ false }
    ensures { (s : State) → IsViewOf core.now s → IfOk result (IsView s (Query.Concept number)) }
{
    match concept_at(core, number) {
        Ok(resource) => Ok(View::Concept(collect_concept(core, alloc, number, resource)?)),
        Err(refusal) => Ok(View::No(refusal)),
    }
}
