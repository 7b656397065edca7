//! The handler over an office: performs requests, answers queries, runs scripts, and serves HTTP
//! connections.
ghost use Rattle.std.specs.Prelude.{◌≡◌, refl, IfOk};
ghost use Rattle.thes_base.specs.Pipe.{KeepsSharedCallLimit};
ghost use Rattle.thes_http.specs.ConnectionCounts.{AreAtMost};
ghost use Rattle.thes_http.specs.Server.{LeadsBy};
ghost use Rattle.thes_requests.specs.Script.{session, EndsScript, IsFreshSession};
ghost use Rattle.thes_service.specs.OfficeRequests.{OfficeServes, is_always_open, IsReachedByRun};
ghost use Rattle.thes_service.specs.Service.{office_behaviour};

use crate::displaying::display_of_core;
use crate::plan_mode::PlanMode;
use crate::viewing::{view_concept, view_posting, view_postings, view_totals};
use std::alloc::Global;
use std::io;
use std::io::{Read, Write};
use std::marker::Model;
use std::net::Net;
use std::rt::Clock;
use thes_base::fault::{Fault, PipeFault};
use thes_base::pipe::Pipe;
use thes_base::request::{Answer, Command};
use thes_export::gather::export_text;
use thes_http::server::{ServerEnd, serve};
use thes_http::service::Service;
use thes_import::postings::import_postings;
use thes_import::report::Report;
use thes_office::Office;
use thes_plans::plan::{PlanOutcome, PlanRequest, PlanRun};
use thes_plans::report::ChangeReport;
use thes_requests::handler::{QueryAnswer, RequestHandler};
use thes_requests::page::Page;
use thes_requests::request::{DisplayRequest, Query};
use thes_requests::script::{ScriptEnd, script};
use thes_store::keeper::Keeper;

/// An office that performs the requests of scripts and connections, and plans if its mode says so.
/// In contracts its value is that of the office.
#[derive(Drop)]
pub struct OfficeHandler<K: Keeper, M: PlanMode> {
    // The office is wrapped, since the crates of `RequestHandler` and `Office` don't know each
    // other (DECISIONS.md, The office).
    pub office: Office<K>,
    pub mode: M,
}

impl<K: Keeper, M: PlanMode> Model for OfficeHandler<K, M> {
    ghost use Rattle.std.specs.Coded.{codes};
    ghost use Rattle.thes_office.specs.Office.{OfficeView};

    ghost Value = { OfficeView K };

    ghost coded = { Prim.hlevel (codes, K.code) };

    ghost view = { λ a. a.office };
}

impl<K: Keeper, M: PlanMode + Copy> OfficeHandler<K, M> {
    /// Wraps an office, fresh or stale.
    pub fn new(office: Office<K>, mode: M) -> OfficeHandler<K, M>
        ensures { result ≡ office }
    {
        OfficeHandler { office, mode }
    }

    /// Returns the office.
    pub fn into_office(self) -> Office<K>
        ensures { result ≡ self }
    {
        let OfficeHandler { office, mode: _ } = self;
        office
    }
}

/// While the storage is up, each command is performed by a step of the machine over its tables,
/// each plan by a run of the machine or not at all, each view is of the state that the tables
/// encode, and a fault leaves the tables unchanged. A stale copy is reloaded first.
impl<K: Keeper, M: PlanMode> RequestHandler for OfficeHandler<K, M> {
    ghost use Rattle.thes_service.specs.OfficeRequests.{office_requests, is_always_open};

    ghost requests = { office_requests K.view M.takes };

    ghost is_open = { is_always_open };

    fn perform(&mut self, command: &Command) -> Result<Answer, Fault> {
        self.office.perform(command)
    }

    fn report<R: ChangeReport>(
        &mut self,
        command: &Command,
        report: &mut R,
    ) -> Result<Answer, Fault> {
        self.office.report(command, report)
    }

    fn show(&mut self, alloc: Global, query: &Query) -> Result<QueryAnswer, Fault> {
        match *query {
            Query::Totals => view_totals(&mut self.office, alloc),
            Query::Concept(number) => view_concept(&mut self.office, alloc, number),
            Query::Postings(concept) => view_postings(&mut self.office, alloc, concept),
            Query::Posting(number) => view_posting(&mut self.office, alloc, number),
        }
    }

    fn perform_plan(&mut self, plan: Vec<PlanRequest>) -> Result<PlanOutcome, Fault> {
        self.office.run_plan(plan)
    }

    fn report_plan<R: ChangeReport>(
        &mut self,
        run: PlanRun,
        plan: Vec<PlanRequest>,
        report: &mut R,
    ) -> Result<PlanOutcome, Fault> {
        self.office.report_plan(run, plan, report)
    }

    fn takes_plans(&self) -> bool {
        self.mode.takes_plans()
    }

    fn is_open(&self) -> bool {
        true
    }
}

// Returns the text of an import's report as a page, without the counts.
fn page_of(report: Report) -> Page
    ensures { result ≡ report.text.items }
{
    let Report { text, counts: _ } = report;
    Page::new(text)
}

/// While the storage is up, an import is a run of the machine over its tables; a fault ends the
/// run, and the rows before stay performed. Exports and displays are of the state that the tables
/// encode, and leave the tables unchanged. A stale copy is reloaded first.
impl<K: Keeper, M: PlanMode> Service for OfficeHandler<K, M> {
    ghost use Rattle.std.specs.Prelude.{refl};
    ghost use Rattle.thes_service.specs.Service.{office_behaviour};

    ghost behaviour = { office_behaviour K.view M.takes };

    ghost does_requests = { record {
      performs = λ old command result new does. does;
      reports = λ old command result changes new does. does;
      shows = λ old query result new does. does;
      takes_plans = λ s. refl;
      performs_plan = λ old plan result new does. does;
      reports_plan = λ old run plan result changes new does. does;
    } };

    fn import(&mut self, alloc: Global, file: &[u8]) -> Result<Option<Page>, Fault> {
        match import_postings(alloc, file, &mut self.office) {
            Ok(Some(report)) => Ok(Some(page_of(report))),
            Ok(None) => Ok(None),
            // The outcomes of the rows before the fault aren't returned, since a response has only
            // one status (DECISIONS.md, HTTP).
            Err((fault, _)) => Err(fault),
        }
    }

    fn export(&mut self, alloc: Global) -> Result<Page, Fault> {
        let core = self.office.ready()?;
        let triples = export_text(alloc, core)?;
        Ok(Page::new(triples))
    }

    fn display(
        &mut self,
        alloc: Global,
        wanted: &DisplayRequest<'_>,
    ) -> Result<QueryAnswer, Fault> {
        let core = self.office.ready()?;
        Ok(display_of_core(core, alloc, wanted)?)
    }
}

/// Answers each line of the input by a step of the machine, by a view of the state that the tables
/// encode, or, if plans are taken, by the run of a plan.
///
/// If the storage is up at the end of the call, a run of the machine leads from the state that the
/// tables encoded to their new one, whatever the lines are. The new state is consistent: each
/// posting that isn't withdrawn is assigned to exactly one live concept, the counts add up, and the
/// triples meet the conditions of SKOS. A line for which the storage fails or memory runs out is
/// answered with the fault, and changes no table if the storage stays up. The limits on lines are
/// those of `script`; `OutOfMemory` is returned only before the first line.
pub fn office_script<K: Keeper, M: PlanMode, R: Read, W: Write>(
    alloc: Global,
    reader: &mut Pipe<R>,
    writer: &mut Pipe<W>,
    handler: &mut OfficeHandler<K, M>,
) -> Result<ScriptEnd, PipeFault>
    requires { IsFreshSession (session reader.old writer.old handler.old) }
    ensures ends { EndsScript R.remaining W.contents (OfficeServes K.view M.takes) is_always_open
        (session reader.old writer.old handler.old) (session reader.new writer.new handler.new)
        result }
    ensures reached { IsReachedByRun K.view handler.old handler.new }
    ensures calls { KeepsSharedCallLimit reader.old reader.new writer.old writer.new }
{
    // No effect; for the proof, states that the tables encode a state.
    let _ = handler.office.is_stale();
    script(alloc, reader, writer, handler)
}

/// Serves `count` connections of a listener, one after another, and returns their number.
///
/// If the storage is up at the end of the call, a run of the machine leads from the state that the
/// tables encoded to their new one, whatever the clients send. The new state is consistent: each
/// posting that isn't withdrawn is assigned to exactly one live concept, the counts add up, and the
/// triples meet the conditions of SKOS. Ends with the error of accepting a connection, or with
/// `OutOfMemory` if memory for the routes ran out.
pub fn office_serve<N: Net + Clock, K: Keeper, M: PlanMode>(
    alloc: Global,
    clock: &N,
    listener: &N::Listener,
    count: u32,
    handler: &mut OfficeHandler<K, M>,
) -> ServerEnd
    ensures all { IfOk result.ended (λ _. result.connections.finished ≡ count) }
    ensures few { AreAtMost count result.connections }
    ensures served { LeadsBy (office_behaviour K.view M.takes) result.connections.exchanges
        handler.old handler.new }
    ensures reached { IsReachedByRun K.view handler.old handler.new }
{
    // No effect; for the proof, states that the tables encode a state.
    let _ = handler.office.is_stale();
    serve::<N, OfficeHandler<K, M>>(alloc, clock, listener, count, handler)
}
