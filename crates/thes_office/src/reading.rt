//! Queries of an office about postings: totals, a history, and the postings assigned to a concept.
ghost use Rattle.std.specs.Prelude.{◌≡◌, false, IfOk};
ghost use Rattle.thes_base.specs.Resources.{IsConcept};
ghost use Rattle.thes_base.specs.RuleParts.{unless_resource};
ghost use Rattle.thes_base.specs.RefusalRules.{accepted};
ghost use Rattle.thes_base.specs.Views.{totals_of};
ghost use Rattle.thes_store.specs.Storage.{QueryFrame};
ghost use Rattle.thes_office.specs.QueryFrames.{InStateOfTables, HistoryInTables};
ghost use Rattle.thes_office.specs.AssignedPostings.{AssignedPostingsResult};
ghost use Rattle.thes_office.specs.Office.{IsCopy, OfficeQueryFrame};

use crate::office::Office;
use thes_base::data::{History, ResourceKind, Totals};
use thes_base::fault::{Fault, Refusal};
use thes_base::number::{PostNo, ResNo};
use thes_core::Core;
use thes_store::keeper::{Keeper, Posting};
use thes_store::sink::PostingSink;

// Returns the history of the posting with this number, from its row and its moves in the tables;
// None if no posting has the number.
fn history_at<K: Keeper>(keeper: &mut K, number: PostNo) -> Result<Option<History>, Fault>
    ensures in_tables { IfOk result (λ told. (K.view keeper.new).is_up
        → HistoryInTables (K.view keeper.old).rows number told) }
    ensures asks { QueryFrame (K.view keeper.old) (K.view keeper.new) result }
{
    match keeper.posting(number) {
        Ok(Some(told)) => {
            let Posting { row, moves } = told;
            Ok(Some(History {
                number: row.number,
                key: row.key,
                rec: row.rec,
                first: row.first,
                moves,
                withdrawn: row.withdrawn,
            }))
        }
        Ok(None) => Ok(None),
        Err(fault) => Err(fault),
    }
}

// Checks that the number is a concept's, live or not: the refusal is UnknownResource or WrongKind.
fn check_concept(core: &Core, concept: ResNo) -> Option<Refusal>
    requires { core.now.spent ≡ false }
    ensures { let resources = core.now.resources in
        unless_resource (IsConcept resources) resources concept accepted result }
{
    match core.resource(concept).copied() {
        None => Some(Refusal::UnknownResource),
        Some(resource) if resource.kind != ResourceKind::Concept => Some(Refusal::WrongKind),
        Some(_) => None,
    }
}

// Yields the rows of the postings assigned to a concept, in the order of their numbers, to a sink.
// Returns the refusal of a number that isn't a concept's.
fn list<K: Keeper, S: PostingSink>(
    keeper: &mut K,
    core: &Core,
    concept: ResNo,
    sink: &mut S,
) -> Result<Option<Refusal>, Fault>
    requires unspent { core.now.spent ≡ false }
    requires copies { (K.view keeper.old).is_up
        → IsCopy (K.view keeper.old).rows core.now.setting.limits core.now }
    ensures lists { (K.view keeper.new).is_up
        → AssignedPostingsResult S.gives (K.view keeper.old).rows concept sink.old result sink.new }
    ensures asks { QueryFrame (K.view keeper.old) (K.view keeper.new) result }
{
    if let Some(refusal) = check_concept(core, concept) {
        return Ok(Some(refusal));
    }
    match keeper.standing(concept, sink) {
        Ok(()) => Ok(None),
        Err(fault) => Err(fault),
    }
}

impl<K: Keeper> Office<K> {
    /// Returns the numbers of postings accepted, withdrawn, and not withdrawn, from the copy's
    /// counts.
    pub fn totals(&mut self) -> Result<Totals, Fault>
        ensures frame { OfficeQueryFrame K.view self.old self.new result }
        ensures in_tables { IfOk result (λ totals. (K.view self.new.keeper).is_up
            → InStateOfTables (K.view self.new.keeper).rows (λ s. totals ≡ totals_of s.histories)) }
    {
        if let Err(fault) = self.refresh() {
            return Err(fault);
        }
        Ok(self.core.totals())
    }

    /// Looks up the history of a posting in the tables: key, record, first concept, moves and
    /// withdrawal; None if no posting has the number.
    pub fn posting(&mut self, number: PostNo) -> Result<Option<History>, Fault>
        ensures frame { OfficeQueryFrame K.view self.old self.new result }
        ensures in_tables { IfOk result (λ told. (K.view self.new.keeper).is_up
            → HistoryInTables (K.view self.new.keeper).rows number told) }
    {
        self.refresh()?;
        match history_at(&mut self.keeper, number) {
            Ok(told) => Ok(told),
            Err(fault) => {
                self.stale = fault == Fault::Store;
                Err(fault)
            }
        }
    }

    /// Yields to a sink the postings assigned to a concept, in the order of their numbers, or
    /// returns the refusal of a number that isn't a concept's. On a fault the sink has received a
    /// prefix of these postings, if the storage is still up.
    pub fn postings<S: PostingSink>(
        &mut self,
        concept: ResNo,
        sink: &mut S,
    ) -> Result<Option<Refusal>, Fault>
        ensures frame { OfficeQueryFrame K.view self.old self.new result }
        ensures lists { (K.view self.new.keeper).is_up
            → AssignedPostingsResult S.gives (K.view self.new.keeper).rows concept sink.old result
            sink.new }
    {
        if let Err(fault) = self.refresh() {
            return Err(fault);
        }
        match list(&mut self.keeper, &self.core, concept, sink) {
            Ok(refusal) => Ok(refusal),
            Err(fault) => {
                self.stale = fault == Fault::Store;
                Err(fault)
            }
        }
    }
}
