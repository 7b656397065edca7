//! A store in memory, with its office.
use crate::office_calls::serve_in;
use std::alloc::Global;
use std::io;
use std::io::{Read, Write};
use thes_base::data::Limits;
use thes_base::fault::{Fault, PipeFault};
use thes_base::number::{PostNo, ResNo};
use thes_base::request::{Answer, Command};
use thes_base::text::Base;
use thes_office::Office;
use thes_requests::handler::{QueryAnswer, RequestHandler};
use thes_requests::request::Query;
use thes_requests::script::ScriptEnd;
use thes_service::OfficeHandler;
use thes_service::plan_mode::WithPlans;
use thes_store::mem::MemKeeper;

// The base IRI of each store.
const BASE: &str = "https://thesaurus.example/id/";

// The number of the last resource and of the last posting that `shown` includes.
const LAST: u32 = 6;

/// A store in memory: its office, as a request handler.
#[derive(Drop)]
pub struct Store {
    pub handler: OfficeHandler<MemKeeper, WithPlans>,
}

// Opens an office over the tables of a storage.
fn open(alloc: Global, keeper: MemKeeper, limits: Limits) -> io::Result<Store> {
    match Office::start(alloc, keeper, limits) {
        Ok(office) => Ok(Store {
            handler: OfficeHandler::new(office, WithPlans),
        }),
        Err(_) => Err(invalid()),
    }
}

impl Store {
    /// Creates an empty store with the base IRI `https://thesaurus.example/id/`.
    pub fn new(alloc: Global, limits: Limits) -> io::Result<Store> {
        let base = Base::read(alloc, BASE).map_err(|_| invalid())?;
        open(alloc, MemKeeper::new(alloc, base), limits)
    }

    // Closes the store, and opens its tables again.
    fn reopen(self, alloc: Global, limits: Limits) -> io::Result<Store> {
        let Store { handler } = self;
        open(alloc, handler.into_office().into_keeper(), limits)
    }

    /// Returns the office of the store, for calls that a handler lacks.
    pub fn office(&mut self) -> &mut Office<MemKeeper> {
        let handler = &mut self.handler;
        &mut handler.office
    }

    /// Serves a script, and returns the writer and how the script ended.
    pub fn serve<R: Read + Drop, W: Write>(
        &mut self,
        alloc: Global,
        input: R,
        output: W,
    ) -> (W, Result<ScriptEnd, PipeFault>) {
        serve_in(alloc, &mut self.handler, input, output)
    }

    /// Performs requests in order, and appends their answers.
    pub fn perform(
        &mut self,
        commands: &[Command],
        answers: &mut Vec<Answer>,
    ) -> Result<(), Fault> {
        self.office().run(commands, answers)
    }

    /// Closes the store, opens its tables again, and returns the views of its totals and of its
    /// first six resources and postings.
    pub fn shown(self, alloc: Global) -> io::Result<Vec<u8>> {
        let mut store = self.reopen(alloc, Limits::default())?;
        let shown = views(alloc, &mut store);
        drop(store);
        shown
    }
}

fn view(alloc: Global, store: &mut Store, query: &Query) -> Result<QueryAnswer, Fault> {
    store.handler.show(alloc, query)
}

// Appends the answer to a query, or the name of its refusal.
fn push_view(
    alloc: Global,
    store: &mut Store,
    query: &Query,
    shown: &mut Vec<u8>,
) -> io::Result<()> {
    match view(alloc, store, query) {
        Ok(QueryAnswer::Page(page)) => shown.extend_from_slice(page.as_bytes())?,
        Ok(QueryAnswer::No(refusal)) => shown.extend_from_slice(refusal.name().as_bytes())?,
        Err(_) => return Err(invalid()),
    }
    Ok(())
}

fn views(alloc: Global, store: &mut Store) -> io::Result<Vec<u8>> {
    let mut shown = Vec::new(alloc);
    push_view(alloc, store, &Query::Totals, &mut shown)?;
    for number in 1..=LAST {
        push_view(
            alloc,
            store,
            &Query::Concept(ResNo::new(number)),
            &mut shown,
        )?;
        push_view(
            alloc,
            store,
            &Query::Postings(ResNo::new(number)),
            &mut shown,
        )?;
        push_view(
            alloc,
            store,
            &Query::Posting(PostNo::new(number)),
            &mut shown,
        )?;
    }
    Ok(shown)
}

// Checks whether a script ended without a refusal, a form fault or a fault.
fn is_performed(ended: &Result<ScriptEnd, PipeFault>) -> bool {
    match ended {
        Ok(ended) => !ended.refused && ended.fault.is_none(),
        Err(_) => false,
    }
}

// Serves requests, one a line, as a script; returns an error if any of them isn't performed.
fn serve_all(alloc: Global, store: &mut Store, requests: &str) -> io::Result<()> {
    if requests.is_empty() {
        return Ok(());
    }
    let (_, ended) = store.serve(alloc, requests.as_bytes(), Vec::new(alloc));
    if is_performed(&ended) {
        Ok(())
    } else {
        Err(invalid())
    }
}

/// Returns a new store after these requests, one a line, or an error if any of them is refused.
pub fn store_after(alloc: Global, requests: &str) -> io::Result<Store> {
    let mut store = Store::new(alloc, Limits::default())?;
    match serve_all(alloc, &mut store, requests) {
        Ok(()) => Ok(store),
        Err(error) => {
            drop(store);
            Err(error)
        }
    }
}

/// Returns the error that stands for a refused request or for any fault.
pub fn invalid() -> io::Error {
    io::Error::from(io::ErrorKind::InvalidData)
}
