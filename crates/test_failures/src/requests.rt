//! Trials of requests over a store, one file of which stops working.
use crate::disk::{FailPoint, new_files};
use crate::example::{Example, ExamplePrefix, are_answers};
use crate::outcome::{StoreOutcome, Trial};
use crate::performing::{RunReport, base, report_wanted};
use crate::stop::TrialStop;
use crate::stores::{After, Job, perform_new, work};
use sqlite::{Alter, Connection};
use std::alloc::Global;
use thes_base::text::Base;

// The listing of a store without tables.
const NOTHING: &str = "\
meta
resource
outside
label
link
hier
posting
move
BadStore
";

/// An example to run in new stores, with the listing of an empty store.
#[derive(Drop)]
pub struct Requests<'a> {
    example: Example<'a>,
    empty: RunReport,
}

impl<'a> Requests<'a> {
    /// Returns the trial of an example, after reading the listing of an empty store.
    pub fn new(alloc: Global, example: Example<'a>) -> Result<Requests<'a>, TrialStop> {
        let mut requests = Requests {
            example,
            empty: RunReport::new(alloc),
        };
        requests.report_empty(alloc)?;
        Ok(requests)
    }

    // Reads the listing of an empty store.
    fn report_empty(&mut self, alloc: Global) -> Result<(), TrialStop> {
        let nothing = Example {
            requests: "",
            postings: "",
        };
        report_wanted(alloc, nothing, &mut self.empty)
    }

    // Runs the example, and returns the outcome.
    fn outcome_in(
        &self,
        alloc: Global,
        point: FailPoint,
        job: &mut RequestsJob,
    ) -> Result<StoreOutcome, TrialStop> {
        self.run(alloc, point, job)?;
        let is_right = self.is_right(alloc, job)?;
        Ok(StoreOutcome::of(is_right, job.is_closed && !job.run_report.failed))
    }

    // Creates a store in new files, performs the example in it, and opens the files again.
    fn run(&self, alloc: Global, point: FailPoint, job: &mut RequestsJob) -> Result<(), TrialStop> {
        let files = new_files(alloc, point)?;
        let (files, is_closed) = work(alloc, files, job);
        job.is_closed = is_closed;
        job.after.show(alloc, files)?;
        job.ran
    }

    // Checks whether the store has the rows that it should when it is opened again.
    fn is_right(&self, alloc: Global, job: &RequestsJob) -> Result<bool, TrialStop> {
        if job.is_made {
            self.is_kept(alloc, job)
        } else {
            let empty = self.empty.listing.text.as_str();
            Ok(job.after.is_either(NOTHING, empty))
        }
    }

    // Checks whether a store with tables gave the right answers and has the right rows.
    fn is_kept(&self, alloc: Global, job: &RequestsJob) -> Result<bool, TrialStop> {
        let mut wanted = Wanted::new(alloc);
        self.report_prefixes(alloc, &job.run_report, &mut wanted)?;
        Ok(wanted.is_kept(job))
    }

    // Performs the confirmed requests without failures, and then does so again with the next
    // request or group of rows, which may have been performed if the run failed.
    fn report_prefixes(
        &self,
        alloc: Global,
        run_report: &RunReport,
        wanted: &mut Wanted,
    ) -> Result<(), TrialStop> {
        self.report_prefix(alloc, run_report, false, &mut wanted.after_answers)?;
        self.report_prefix(alloc, run_report, run_report.failed, &mut wanted.more)
    }

    // Performs the prefix of the example that this report confirms and, if `with_next`, the request
    // or the group of rows after it.
    fn report_prefix(
        &self,
        alloc: Global,
        run_report: &RunReport,
        with_next: bool,
        wanted: &mut RunReport,
    ) -> Result<(), TrialStop> {
        let mut prefix = ExamplePrefix::new(alloc);
        self.fill(run_report, with_next, &mut prefix)?;
        report_wanted(alloc, prefix.example(), wanted)
    }

    // Collects the prefix of the example that a report confirms and, if `with_next`, the request or
    // the group of rows after it.
    fn fill(
        &self,
        run_report: &RunReport,
        with_next: bool,
        prefix: &mut ExamplePrefix,
    ) -> Result<(), TrialStop> {
        prefix.add_requests(
            self.example.requests,
            run_report.answers.as_str(),
            with_next,
        )?;
        prefix.add_postings(self.example.postings, run_report.rows.as_str(), with_next)?;
        Ok(())
    }
}

impl<'a> Trial for Requests<'a> {
    fn outcome(&self, alloc: Global, point: FailPoint) -> Result<StoreOutcome, TrialStop> {
        let mut job = RequestsJob::new(alloc, self.example)?;
        self.outcome_in(alloc, point, &mut job)
    }
}

// A job that performs an example in a new store, with its results: the report, whether the tables
// were created, whether the files were closed and each call succeeded, and the rows when the store
// is opened again.
#[derive(Drop)]
struct RequestsJob<'a> {
    example: Example<'a>,
    base: Base,
    run_report: RunReport,
    ran: Result<(), TrialStop>,
    is_made: bool,
    is_closed: bool,
    after: After,
}

impl<'a> RequestsJob<'a> {
    fn new(alloc: Global, example: Example<'a>) -> Result<RequestsJob<'a>, TrialStop> {
        Ok(RequestsJob {
            example,
            base: base(alloc)?,
            run_report: RunReport::new(alloc),
            ran: Ok(()),
            is_made: false,
            is_closed: false,
            after: After::new(alloc),
        })
    }
}

impl<'a> Job for RequestsJob<'a> {
    fn run<S: Alter>(&mut self, alloc: Global, conn: Connection<S>) -> (Connection<S>, bool) {
        let run_report = &mut self.run_report;
        let (conn, is_made, ran) = perform_new(alloc, conn, &self.base, self.example, run_report);
        self.is_made = is_made;
        self.ran = ran;
        (conn, is_made)
    }
}

// The expected reports: after the confirmed requests, and after one more request or group of rows,
// which may have been performed without being confirmed.
#[derive(Drop)]
struct Wanted {
    after_answers: RunReport,
    more: RunReport,
}

impl Wanted {
    fn new(alloc: Global) -> Wanted {
        Wanted {
            after_answers: RunReport::new(alloc),
            more: RunReport::new(alloc),
        }
    }

    // Checks whether the store gave the expected answers.
    fn has_wanted_answers(&self, run_report: &RunReport) -> bool {
        are_answers(
            run_report.answers.as_str(),
            self.after_answers.answers.as_str(),
        ) && run_report.rows == self.after_answers.rows
    }

    // Checks whether the store gave the expected answers and has the expected rows.
    fn is_kept(&self, job: &RequestsJob) -> bool {
        let after_answers = self.after_answers.listing.text.as_str();
        let more = self.more.listing.text.as_str();
        self.has_wanted_answers(&job.run_report) && job.after.is_either(after_answers, more)
    }
}
