//! Checks of a request's arguments: whether resources exist, have the right kinds, are live and
//! different, and belong to the right schemes. Each check returns the refusal for the first
//! condition that fails, or None.
ghost use Rattle.std.specs.Prelude.{◌≡◌};
ghost use Rattle.thes_base.specs.RefusalRules.{accepted};
ghost use Rattle.thes_base.specs.Resources.{replacements};
ghost use Rattle.thes_base.specs.Postings.{path_end};
ghost use Rattle.thes_base.specs.RuleParts.{unless_owner, unless_live_concept, unless_forwardable, unless_ends, unless_pair};

use thes_base::data::{Link, ResourceKind};
use thes_base::fault::Refusal;
use thes_base::number::ResNo;
use thes_vocab::Vocab;

/// Checks whether the number is that of a live scheme, concept or collection, whose labels may
/// change.
pub fn check_owner(vocab: &Vocab, owner: ResNo) -> Option<Refusal>
    ensures { unless_owner vocab.now.resources owner accepted result }
{
    let Some(resource) = vocab.resource(owner).copied() else {
        return Some(Refusal::UnknownResource);
    };
    if resource.kind == ResourceKind::Outside {
        return Some(Refusal::WrongKind);
    }
    if !resource.live {
        return Some(Refusal::NotLive);
    }
    None
}

/// Checks whether the number in a request is that of a live concept.
pub fn check_live_concept(vocab: &Vocab, concept: ResNo) -> Option<Refusal>
    ensures { unless_live_concept vocab.now.resources concept accepted result }
{
    let Some(resource) = vocab.resource(concept).copied() else {
        return Some(Refusal::UnknownResource);
    };
    if resource.kind != ResourceKind::Concept {
        return Some(Refusal::WrongKind);
    }
    if !resource.live {
        return Some(Refusal::NotLive);
    }
    None
}

/// Checks whether the number is that of a concept whose chain of replacements ends at a live one.
/// `place` is that end.
pub fn check_forwarding(vocab: &Vocab, concept: ResNo, place: ResNo) -> Option<Refusal>
    requires { place ≡ path_end concept (replacements vocab.now.resources concept) }
    ensures { unless_forwardable vocab.now.resources concept accepted result }
{
    let Some(named) = vocab.resource(concept).copied() else {
        return Some(Refusal::UnknownResource);
    };
    if named.kind != ResourceKind::Concept {
        return Some(Refusal::WrongKind);
    }
    if !vocab.is_live(place) {
        return Some(Refusal::NotLive);
    }
    None
}

/// Checks whether the numbers are those of two different live concepts of one scheme, as a merge
/// requires.
pub fn check_pair(vocab: &Vocab, source: ResNo, target: ResNo) -> Option<Refusal>
    ensures { unless_pair vocab.now.resources source target accepted result }
{
    let Some(from) = vocab.resource(source).copied() else {
        return Some(Refusal::UnknownResource);
    };
    let Some(to) = vocab.resource(target).copied() else {
        return Some(Refusal::UnknownResource);
    };
    if from.kind != ResourceKind::Concept || to.kind != ResourceKind::Concept {
        return Some(Refusal::WrongKind);
    }
    if !from.live || !to.live {
        return Some(Refusal::NotLive);
    }
    if source == target {
        return Some(Refusal::SameResource);
    }
    if from.scheme != to.scheme {
        return Some(Refusal::OtherScheme);
    }
    None
}

/// Checks whether the link's ends are two different live resources, of the kinds and schemes that
/// its kind requires.
pub fn check_ends(vocab: &Vocab, link: &Link) -> Option<Refusal>
    ensures { unless_ends vocab.now.resources link.now accepted result }
{
    let Some(a) = vocab.resource(link.a).copied() else {
        return Some(Refusal::UnknownResource);
    };
    let Some(b) = vocab.resource(link.b).copied() else {
        return Some(Refusal::UnknownResource);
    };
    let form = link.kind.form();
    if !form.are_ends(&a, &b) {
        return Some(Refusal::WrongKind);
    }
    if !a.live || !b.live {
        return Some(Refusal::NotLive);
    }
    if link.a == link.b {
        return Some(Refusal::SameResource);
    }
    if !form.have_schemes(&a, &b) {
        return Some(Refusal::OtherScheme);
    }
    None
}
