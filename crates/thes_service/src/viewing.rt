//! Answers queries over an office: asks its core or its storage, and writes the view.
ghost use Rattle.std.specs.Prelude.{◌≡◌, false, Ok, IfOk};
ghost use Rattle.thes_base.specs.State.{State};
ghost use Rattle.thes_core.specs.CoreView.{IsViewOf};
ghost use Rattle.thes_exchange.specs.QueryAnswers.{IsQueryAnswer};
ghost use Rattle.thes_service.specs.OfficeRequests.{OfficeShows};

use crate::posting_lister::PostingLister;
use std::alloc::{AllocError, Global};
use thes_base::fault::{Fault, Refusal};
use thes_base::number::{PostNo, ResNo};
use thes_core::Core;
use thes_exchange::concept::concept_view;
use thes_exchange::query_answers::query_answer;
use thes_exchange::view::View;
use thes_office::Office;
use thes_requests::handler::QueryAnswer;
use thes_requests::page::Page;
use thes_requests::request::Query;
use thes_store::keeper::Keeper;

/// Answers the query for the totals by a line of JSON.
pub(crate) fn view_totals<K: Keeper>(
    office: &mut Office<K>,
    alloc: Global,
) -> Result<QueryAnswer, Fault>
    ensures { OfficeShows K.view office.old Query.Totals result office.new }
{
    match office.totals() {
        Ok(totals) => Ok(query_answer(alloc, &View::Totals(totals))?),
        Err(fault) => Err(fault),
    }
}

// Returns the line for a concept in the state that the core holds, or the refusal of its number.
fn view_core_concept(core: &Core, alloc: Global, number: ResNo) -> Result<QueryAnswer, AllocError>
    requires { core.now.spent ≡ false }
    ensures { (s : State) → IsViewOf core.now s →
        IfOk result (λ view_query. IsQueryAnswer s (Query.Concept number) (Ok view_query)) }
{
    let view = concept_view(core, alloc, number)?;
    query_answer(alloc, &view)
}

/// Answers the query for a concept by a line of JSON or the refusal of its number.
pub(crate) fn view_concept<K: Keeper>(
    office: &mut Office<K>,
    alloc: Global,
    number: ResNo,
) -> Result<QueryAnswer, Fault>
    ensures { OfficeShows K.view office.old
        (Query.Concept number) result office.new }
{
    let core = office.ready()?;
    Ok(view_core_concept(core, alloc, number)?)
}

/// Answers the query for the postings of a concept by a line of JSON or the refusal of its number.
pub(crate) fn view_postings<K: Keeper>(
    office: &mut Office<K>,
    alloc: Global,
    concept: ResNo,
) -> Result<QueryAnswer, Fault>
    ensures { OfficeShows K.view office.old
        (Query.Postings concept) result office.new }
{
    let mut rows = PostingLister::new(alloc);
    match office.postings(concept, &mut rows) {
        Ok(None) => Ok(QueryAnswer::Page(Page::new(rows.into_line()?))),
        Ok(Some(refusal)) => Ok(QueryAnswer::No(refusal)),
        Err(fault) => Err(fault),
    }
}

/// Answers the query for a posting by a line of JSON or the refusal of its number.
pub(crate) fn view_posting<K: Keeper>(
    office: &mut Office<K>,
    alloc: Global,
    number: PostNo,
) -> Result<QueryAnswer, Fault>
    ensures { OfficeShows K.view office.old
        (Query.Posting number) result office.new }
{
    match office.posting(number) {
        Ok(Some(history)) => Ok(query_answer(alloc, &View::Posting(&history))?),
        Ok(None) => Ok(QueryAnswer::No(Refusal::UnknownPosting)),
        Err(fault) => Err(fault),
    }
}
