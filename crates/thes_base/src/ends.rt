//! Checks on the ends of links: their kinds, and whether they are in one scheme.
ghost use Rattle.std.specs.Prelude.{◌≡◌, ◌↔◌, ℕ, List, Some, IsTrue};
ghost use Rattle.thes_base.specs.declared.data.Resource.{Resource};
ghost use Rattle.thes_base.specs.Resources.{entry_at};
ghost use Rattle.thes_base.specs.Links.{form_of};
ghost use Rattle.thes_base.specs.Refusals.{AreEnds, HaveSchemes};

use crate::data::{LinkForm, LinkKind, Resource, ResourceKind};

impl LinkKind {
    /// Returns the form of the kind: a relation within a scheme, a mapping or a membership.
    pub fn form(self) -> LinkForm
        ensures { result ≡ form_of self }
    {
        match self {
            LinkKind::Broader
            | LinkKind::BroaderGeneric
            | LinkKind::BroaderPartitive
            | LinkKind::BroaderInstantial
            | LinkKind::Related => LinkForm::Within,
            LinkKind::Member => LinkForm::Membership,
            LinkKind::Exact
            | LinkKind::Close
            | LinkKind::Broad
            | LinkKind::Narrow
            | LinkKind::RelMatch => LinkForm::Mapping,
        }
    }
}

impl LinkForm {
    /// Checks whether both ends are of the kinds that the form requires.
    pub fn are_ends(self, a: &Resource, b: &Resource) -> bool
        ensures { (resources : List Resource) (m n : ℕ)
            → entry_at resources m ≡ Some a.now → entry_at resources n ≡ Some b.now
            → IsTrue result ↔ AreEnds resources self m n }
    {
        match self {
            LinkForm::Within => a.kind == ResourceKind::Concept && b.kind == ResourceKind::Concept,
            LinkForm::Mapping => {
                a.kind == ResourceKind::Concept
                    && (b.kind == ResourceKind::Concept || b.kind == ResourceKind::Outside)
            }
            LinkForm::Membership => {
                a.kind == ResourceKind::Collection && b.kind == ResourceKind::Concept
            }
        }
    }

    /// Checks whether both ends are in one scheme; for a mapping, whether `b` isn't a concept of
    /// the scheme of `a`.
    pub fn have_schemes(self, a: &Resource, b: &Resource) -> bool
        ensures { (resources : List Resource) (m n : ℕ)
            → entry_at resources m ≡ Some a.now → entry_at resources n ≡ Some b.now
            → IsTrue result ↔ HaveSchemes resources self m n }
    {
        match self {
            LinkForm::Within | LinkForm::Membership => a.scheme == b.scheme,
            LinkForm::Mapping => b.kind != ResourceKind::Concept || a.scheme != b.scheme,
        }
    }
}
