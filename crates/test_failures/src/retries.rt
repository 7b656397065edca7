//! Requests over a failing storage, each repeated until it succeeds.
use crate::example::{StoredExample, has_fault, push_line};
use crate::faltering::Faltering;
use crate::outcome::StoreOutcome;
use crate::performing::{RunReport, answer, close, import, new_keeper, open, show};
use crate::stop::TrialStop;
use std::alloc::{AllocError, Global};
use test_keeper::fail_once::Next;
use thes_service::OfficeHandler;
use thes_service::plan_mode::WithPlans;
use thes_store::keeper::Keeper;

// The report of a run in which each request, each import and the opening of the office are
// repeated until they succeed.
#[derive(Drop)]
struct Tries {
    run_report: RunReport,
    // The greatest number of times that one of these is tried.
    most: u32,
    // The number of tries that returned a fault.
    faults: u64,
    // The last answer, as a line.
    line: String,
    // The greatest number of lines that an import returned before a fault halted it.
    before: usize,
    // The lines expected of the last import.
    wanted: String,
}

impl Tries {
    // Creates the report of a run in which `times` calls fail.
    fn new(alloc: Global, times: u32) -> Tries {
        Tries {
            run_report: RunReport::new(alloc),
            most: times.saturating_add(1),
            faults: 0,
            line: String::new(alloc),
            before: 0,
            wanted: String::new(alloc),
        }
    }

    // Counts a fault.
    fn count(&mut self) {
        self.faults = self.faults.saturating_add(1);
    }

    // Counts a fault that halted an import, records how many lines the import returned if no halted
    // import has returned more, and drops these lines.
    fn count_import(&mut self) {
        self.count();
        self.before = self
            .before
            .max(self.run_report.rows.as_str().lines().count());
        self.run_report.rows.clear();
    }

    // Checks whether the last answer is a fault.
    fn is_fault(&self) -> bool {
        has_fault(self.line.as_str())
    }

    // Performs a request until it succeeds, and appends its last answer.
    fn answer<K: Keeper>(
        &mut self,
        alloc: Global,
        handler: &mut OfficeHandler<K, WithPlans>,
        request: &str,
    ) -> Result<(), TrialStop> {
        for _ in 0..self.most {
            self.line.clear();
            answer(alloc, handler, request, &mut self.line)?;
            if !self.is_fault() {
                break;
            }
            self.count();
        }
        self.run_report.answers.push_str(self.line.as_str())?;
        Ok(())
    }

    // Performs requests, one by one, each until it succeeds.
    fn answer_all<K: Keeper>(
        &mut self,
        alloc: Global,
        handler: &mut OfficeHandler<K, WithPlans>,
        requests: &str,
    ) -> Result<(), TrialStop> {
        for request in requests.split_inclusive('\n') {
            self.answer(alloc, handler, request)?;
        }
        Ok(())
    }

    // Imports a posting file until no fault halts the import.
    fn import<K: Keeper>(
        &mut self,
        alloc: Global,
        handler: &mut OfficeHandler<K, WithPlans>,
        postings: &str,
    ) -> Result<(), TrialStop> {
        for _ in 0..self.most {
            if !import(alloc, handler, postings, &mut self.run_report.rows)? {
                break;
            }
            self.count_import();
        }
        Ok(())
    }

    // Performs an example, each request and the import until it succeeds.
    fn run<K: Keeper>(
        &mut self,
        alloc: Global,
        handler: &mut OfficeHandler<K, WithPlans>,
        stored: &StoredExample,
    ) -> Result<(), TrialStop> {
        let example = stored.example();
        self.answer_all(alloc, handler, example.requests)?;
        if !example.postings.is_empty() {
            self.import(alloc, handler, example.postings)?;
        }
        Ok(())
    }

    // Performs an example over a storage, and repeats the opening of the `Office` until it
    // succeeds.
    fn perform<K: Keeper>(
        &mut self,
        alloc: Global,
        keeper: K,
        stored: &StoredExample,
    ) -> (K, Result<(), TrialStop>) {
        let mut keeper = keeper;
        for _ in 0..self.most {
            match open(alloc, keeper) {
                Ok(mut handler) => {
                    let ran = self.run(alloc, &mut handler, stored);
                    return (close(handler), ran);
                }
                Err((_, back)) => keeper = back,
            }
            self.count();
        }
        (keeper, Err(TrialStop))
    }

    // Computes the lines expected of the last import, which reports as `again` each posting that an
    // earlier try added.
    fn want(&mut self, outcomes: &str) -> Result<(), AllocError> {
        for (place, line) in outcomes.lines().enumerate() {
            match line.split_once(",new,") {
                Some((row, number)) if place < self.before => {
                    push_again(&mut self.wanted, row, number)?;
                }
                _ => push_line(&mut self.wanted, line)?,
            }
        }
        Ok(())
    }

    // Checks whether all answers are as stored, as many faults were returned as calls failed, and
    // the store has the expected rows.
    fn is_kept(&self, stored: &StoredExample, failures: u64, listing: &str) -> bool {
        self.run_report.answers == stored.answers
            && self.run_report.rows == self.wanted
            && self.faults == failures
            && self.run_report.listing.text.as_str() == listing
    }

    // Performs an example over a failing storage, and returns its outcome and the kind of the first
    // call that failed.
    fn falter(
        &mut self,
        alloc: Global,
        stored: &StoredExample,
        keeper: Faltering,
        listing: &str,
    ) -> Result<(StoreOutcome, Next), TrialStop> {
        let (keeper, ran) = self.perform(alloc, keeper, stored);
        let (failures, first) = (keeper.failures, keeper.first);
        let (keeper, show_result) = show(alloc, keeper.keeper, &mut self.run_report.listing);
        drop(keeper);
        ran.and(show_result)?;
        self.want(stored.outcomes)?;
        let is_kept = self.is_kept(stored, failures, listing);
        Ok((StoreOutcome::of(is_kept, failures == 0), first))
    }
}

// Appends the line that reports a posting as `again`.
fn push_again(text: &mut String, row: &str, number: &str) -> Result<(), AllocError> {
    text.push_str(row)?;
    text.push_str(",again,")?;
    push_line(text, number)
}

/// Performs an example in memory, where `times` calls fail after the first `before`, and repeats
/// each request that returns a fault. Returns the outcome, which is wrong unless all answers are as
/// stored and the rows are those of `listing`, and the kind of the first call that failed.
pub fn outcome_of_calls(
    alloc: Global,
    stored: &StoredExample,
    before: u32,
    times: u32,
    listing: &str,
) -> Result<(StoreOutcome, Next), TrialStop> {
    let keeper = Faltering::new(new_keeper(alloc)?, before, times);
    let mut tries = Tries::new(alloc, times);
    tries.falter(alloc, stored, keeper, listing)
}
