//! The changes of rows that an accepted request makes.
ghost use Rattle.std.specs.Prelude.{◌≡◌, ◌<◌, ◌+◌, ◌^◌, ◌∷◌, [], IfOk, List, length};
ghost use Rattle.thes_base.specs.declared.data.History.{History};
ghost use Rattle.thes_base.specs.declared.data.LabelKind.TheVariants.{Pref, Alt};
ghost use Rattle.thes_base.specs.declared.request.Command.TheVariants as request;
ghost use Rattle.thes_base.specs.Changes.{label};
ghost use Rattle.thes_base.specs.Links.{normal_form};
ghost use Rattle.thes_base.specs.Machine.{next_state, link};
ghost use Rattle.thes_base.specs.Resources.{is_outside};
ghost use Rattle.thes_core.specs.Requests.{AreMatching, MayChange};
ghost use Rattle.thes_core.specs.PartsView.{AreLegal, parts_state};
ghost use Rattle.thes_tables.specs.Changes.{add_link, drop_link, changes_of_new_resource, changes_of, changes_of_relabel};
ghost use Rattle.thes_tables.specs.ChangeLaw.{AreChangesBetween};
ghost use Rattle.thes_tables.specs.Tables.{hier_type};

mod answers;
mod links;
mod moves;

use crate::facts::Facts;
use crate::thesaurus::Thesaurus;
use std::alloc::{AllocError, Global};
use thes_base::data::{Label, LabelValue, Link, LinkKind, Resource, ResourceKind};
use thes_base::number::ResNo;
use thes_base::request::Command;
use thes_base::text::{Iri, Tag, Text};
use thes_tables::change::Change;
use thes_tables::delta::Delta;
use thes_tables::rows::{HierRow, HierType, LabelRow};

// Returns a `Delta` that has this change alone.
fn one(alloc: Global, change: Change) -> Result<Delta, AllocError>
    ensures { IfOk result (λ delta. delta ≡ change ∷ []) }
{
    let mut delta = Delta::new(alloc);
    delta.push(change)?;
    Ok(delta)
}

// Returns the row of a preferred label, with copies of its tag and text.
fn preferred_row(
    alloc: Global,
    owner: ResNo,
    tag: &Tag,
    text: &Text,
) -> Result<LabelRow, AllocError>
    ensures { IfOk result (λ row. row ≡ label owner Pref tag.now text.now) }
{
    let label = Label {
        tag: tag.try_clone(alloc)?,
        value: LabelValue::Pref(text.try_clone(alloc)?),
    };
    Ok(LabelRow { owner, label })
}

// Returns the row of an alternative label, with copies of its tag and text.
fn alternative_row(
    alloc: Global,
    owner: ResNo,
    tag: &Tag,
    text: &Text,
) -> Result<LabelRow, AllocError>
    ensures { IfOk result (λ row. row ≡ label owner Alt tag.now text.now) }
{
    let label = Label {
        tag: tag.try_clone(alloc)?,
        value: LabelValue::Alt(text.try_clone(alloc)?),
    };
    Ok(LabelRow { owner, label })
}

// Returns the type that a row of table hier has for a hierarchical kind of link; None for other
// kinds.
fn hier_type(kind: LinkKind) -> Option<HierType>
    ensures { result ≡ hier_type kind }
{
    match kind {
        LinkKind::Broader => Some(HierType::Untyped),
        LinkKind::BroaderGeneric => Some(HierType::Generic),
        LinkKind::BroaderPartitive => Some(HierType::Partitive),
        LinkKind::BroaderInstantial => Some(HierType::Instantial),
        LinkKind::Related
        | LinkKind::Exact
        | LinkKind::Close
        | LinkKind::Broad
        | LinkKind::Narrow
        | LinkKind::RelMatch
        | LinkKind::Member => None,
    }
}

// Returns the insertion of a link into the table for its kind.
fn link_insertion(link: &Link) -> Change
    ensures { result ≡ add_link link.now }
{
    match hier_type(link.kind) {
        Some(typ) => Change::AddHier(HierRow {
            a: link.a,
            b: link.b,
            typ,
        }),
        None => Change::AddLink(*link),
    }
}

// Returns the deletion of a link from the table for its kind.
fn link_removal(link: &Link) -> Change
    ensures { result ≡ drop_link link.now }
{
    match hier_type(link.kind) {
        Some(typ) => Change::DropHier(HierRow {
            a: link.a,
            b: link.b,
            typ,
        }),
        None => Change::DropLink(*link),
    }
}

impl Thesaurus {
    // Returns the changes of rows that an accepted request makes.
    fn changes(&self, command: &Command, facts: &Facts) -> Result<Delta, AllocError>
        requires { MayChange self.now command.now }
        ensures { IfOk result (λ delta. (histories : List History)
            → AreMatching self.now command.now facts.now histories
            → AreChangesBetween self.now.vocab.base delta (parts_state self.now histories)
            (next_state command.now (parts_state self.now histories))) }
    {
        match command {
            Command::Scheme(tag, text) => {
                self.changes_of_new_resource(Resource::new(ResourceKind::Scheme, None), tag, text)
            }
            Command::Concept(scheme, tag, text) => {
                self.changes_of_new_resource(
                    Resource::new(ResourceKind::Concept, Some(*scheme)),
                    tag,
                    text,
                )
            }
            Command::Collection(scheme, tag, text) => {
                self.changes_of_new_resource(
                    Resource::new(ResourceKind::Collection, Some(*scheme)),
                    tag,
                    text,
                )
            }
            Command::Outside(iri) => self.changes_of_outside(iri),
            Command::AddLabel(owner, label) => one(
                self.alloc,
                Change::AddLabel(LabelRow {
                    owner: *owner,
                    label: label.try_clone(self.alloc)?,
                }),
            ),
            Command::DropLabel(owner, label) => one(
                self.alloc,
                Change::DropLabel(LabelRow {
                    owner: *owner,
                    label: label.try_clone(self.alloc)?,
                }),
            ),
            Command::Relabel(owner, tag, text, keep) => {
                self.changes_of_relabel(*owner, tag, text, *keep)
            }
            Command::Link(kind, a, b) => one(
                self.alloc,
                link_insertion(&self.normal(*kind, *a, *b)),
            ),
            Command::Unlink(kind, a, b) => one(
                self.alloc,
                link_removal(&self.normal(*kind, *a, *b)),
            ),
            Command::Deprecate(concept) => self.changes_of_deprecate(*concept),
            Command::Merge(source, target) => self.changes_of_merge(*source, *target, facts),
            Command::Split(source, tag, text, postings) => {
                self.changes_of_split(*source, tag, text, postings.as_slice())
            }
            Command::Post(key, rec, concept) => self.changes_of_post(key, rec, *concept),
            Command::Withdraw(posting) => one(self.alloc, Change::Withdraw(*posting)),
        }
    }

    // Returns the number that the next new resource gets.
    fn next_resource_number(&self) -> ResNo
        requires { length self.now.vocab.resources + 1 < 2 ^ 32 }
        ensures { result ≡ length self.now.vocab.resources + 1 }
    {
        ResNo::new(self.vocab.resource_count() as u32 + 1)
    }

    // Returns the insertions of a new resource and its preferred label.
    fn changes_of_new_resource(
        &self,
        resource: Resource,
        tag: &Tag,
        text: &Text,
    ) -> Result<Delta, AllocError>
        requires { length self.now.vocab.resources + 1 < 2 ^ 32 }
        ensures { IfOk result (λ delta. (histories : List History)
            → delta ≡ changes_of_new_resource resource tag.now text.now
            (parts_state self.now histories)) }
    {
        let number = self.next_resource_number();
        let mut delta = one(self.alloc, Change::AddResource(number, resource))?;
        let row = preferred_row(self.alloc, number, tag, text)?;
        delta.push(Change::AddLabel(row))?;
        Ok(delta)
    }

    // Returns the insertions of a new outside concept and its IRI.
    fn changes_of_outside(&self, iri: &Iri) -> Result<Delta, AllocError>
        requires { length self.now.vocab.resources + 1 < 2 ^ 32 }
        ensures { IfOk result (λ delta. (histories : List History)
            → delta ≡ changes_of (request.Outside iri.now) (parts_state self.now histories)) }
    {
        let number = self.next_resource_number();
        let resource = Resource::new(ResourceKind::Outside, None);
        let mut delta = one(self.alloc, Change::AddResource(number, resource))?;
        delta.push(Change::AddOutside(number, iri.try_clone(self.alloc)?))?;
        Ok(delta)
    }

    // Returns the changes that replace a preferred label, and keep the old one as an alternative
    // label if `keep` is true; no changes if the owner has no preferred label in the language.
    fn changes_of_relabel(
        &self,
        owner: ResNo,
        tag: &Tag,
        text: &Text,
        keep: bool,
    ) -> Result<Delta, AllocError>
        ensures { let changes =
            changes_of_relabel owner tag.now text.now keep self.now.vocab.labels in
            IfOk result (λ delta. delta ≡ changes) }
    {
        let Some(old) = self.vocab.preferred(owner, tag) else {
            return Ok(Delta::new(self.alloc));
        };
        let row = preferred_row(self.alloc, owner, tag, old)?;
        let mut delta = one(self.alloc, Change::DropLabel(row))?;
        let row = preferred_row(self.alloc, owner, tag, text)?;
        delta.push(Change::AddLabel(row))?;
        if keep {
            let row = alternative_row(self.alloc, owner, tag, old)?;
            delta.push(Change::AddLabel(row))?;
        }
        Ok(delta)
    }

    // Returns a link's normal form, the form in which the tables have it.
    fn normal(&self, kind: LinkKind, a: ResNo, b: ResNo) -> Link
        requires { AreLegal self.now [] }
        ensures { result ≡ normal_form (is_outside self.now.vocab.resources) (link kind a b) }
    {
        self.graph.normal(&Link { kind, a, b })
    }
}
