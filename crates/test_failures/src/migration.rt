//! Trials of a migration of a store, one file of which stops working.
use crate::disk::{Disks, FailPoint, Image, new_files};
use crate::example::{Example, push_line};
use crate::outcome::{StoreOutcome, Trial};
use crate::performing::{RunReport, base, report_wanted};
use crate::stop::TrialStop;
use crate::stores::{After, Job, StoreListing, execute, migrate_in, perform_new, work};
use sqlite::{Alter, Connection};
use std::alloc::{AllocError, Global};
use thes_base::fault::Fault;
use thes_base::text::Base;

// Statements that turn a store of version 2 with only untyped links into one of version 1.
const OLDER: &str = "\
INSERT INTO link (kind, a, b) SELECT 1, a, b FROM hier ORDER BY rowid;\
DROP TABLE hier;\
DROP INDEX posting_at;\
DROP INDEX move_posting;\
UPDATE meta SET version = 1;";

/// A store of version 1, its rows, and its rows after the migration.
#[derive(Drop)]
pub struct Migration {
    image: Image,
    older: String,
    newer: RunReport,
}

impl Migration {
    /// Returns the trial of a migration of the store of version 1 that an example makes.
    pub fn new(alloc: Global, example: Example) -> Result<Migration, TrialStop> {
        let mut migration = Migration {
            image: older_image(alloc, example)?,
            older: String::new(alloc),
            newer: RunReport::new(alloc),
        };
        migration.run_reference(alloc, example)?;
        Ok(migration)
    }

    // Performs the example without failures in a store of version 2, and records its rows and those
    // that a store of version 1 has in their place.
    fn run_reference(&mut self, alloc: Global, example: Example) -> Result<(), TrialStop> {
        report_wanted(alloc, example, &mut self.newer)?;
        self.add_older()?;
        Ok(())
    }

    // Computes the rows of a store of version 1 from those of version 2 with the same state.
    fn add_older(&mut self) -> Result<(), AllocError> {
        let mut lacks_hier = true;
        for line in self.newer.listing.text.as_str().lines() {
            if lacks_hier && is_behind_links(line) {
                push_line(&mut self.older, "hier")?;
                lacks_hier = false;
            }
            push_older(&mut self.older, line)?;
        }
        Ok(())
    }

    /// Checks whether the store has the rows that were computed for version 1.
    pub fn is_older(&self, alloc: Global) -> Result<bool, TrialStop> {
        let mut showing = StoreListing::new(alloc);
        self.show(alloc, &mut showing)?;
        Ok(showing.listing.text == self.older)
    }

    // Reads the rows of the store before the migration.
    fn show(&self, alloc: Global, showing: &mut StoreListing) -> Result<(), TrialStop> {
        showing.show(alloc, self.image.sound_files(alloc)?)
    }

    // Runs the migration in these files, opens them again, and returns the outcome.
    fn outcome_in(
        &self,
        alloc: Global,
        files: Disks,
        job: &mut MigrationJob,
    ) -> Result<StoreOutcome, TrialStop> {
        job.migrate(alloc, files)?;
        Ok(StoreOutcome::of(self.is_kept(job), job.is_answered && job.is_closed))
    }

    // Checks whether the store has the rows that it should: of version 2, or, unless the migration
    // succeeded, of version 1.
    fn is_kept(&self, job: &MigrationJob) -> bool {
        let newer = self.newer.listing.text.as_str();
        let older = self.older.as_str();
        job.after
            .is_either(newer, if job.is_answered { newer } else { older })
    }
}

impl Trial for Migration {
    fn outcome(&self, alloc: Global, point: FailPoint) -> Result<StoreOutcome, TrialStop> {
        let files = self.image.files(alloc, point)?;
        let mut job = MigrationJob::new(alloc);
        self.outcome_in(alloc, files, &mut job)
    }
}

// Checks whether a line of a listing comes after those of the tables of links.
fn is_behind_links(line: &str) -> bool {
    line.starts_with("posting ") || line.starts_with("move ") || line == "loads"
}

// Appends the line that the listing of the same store in version 1 has for a line in version 2.
fn push_older(older: &mut String, line: &str) -> Result<(), AllocError> {
    if let Some(rest) = line.strip_prefix("meta 1 2 ") {
        push_pair(older, "meta 1 1 ", rest)
    } else if let Some(rest) = line.strip_prefix("hier ") {
        push_pair(older, "link 1 ", rest.strip_suffix(" 0").unwrap_or(rest))
    } else {
        push_line(older, if line == "loads" { "OlderStore" } else { line })
    }
}

fn push_pair(text: &mut String, first: &str, rest: &str) -> Result<(), AllocError> {
    text.push_str(first)?;
    push_line(text, rest)
}

// A job that creates a store of version 1 from an example.
#[derive(Drop)]
struct OlderStoreJob<'a> {
    example: Example<'a>,
    base: Base,
    run_report: RunReport,
    is_made: bool,
}

impl<'a> OlderStoreJob<'a> {
    fn new(alloc: Global, example: Example<'a>) -> Result<OlderStoreJob<'a>, TrialStop> {
        Ok(OlderStoreJob {
            example,
            base: base(alloc)?,
            run_report: RunReport::new(alloc),
            is_made: false,
        })
    }
}

impl<'a> Job for OlderStoreJob<'a> {
    fn run<S: Alter>(&mut self, alloc: Global, conn: Connection<S>) -> (Connection<S>, bool) {
        let run_report = &mut self.run_report;
        let (mut conn, is_made, ran) = perform_new(
            alloc,
            conn,
            &self.base,
            self.example,
            run_report,
        );
        let is_older = execute(&mut conn, OLDER);
        self.is_made = is_made && is_older && ran.is_ok();
        (conn, true)
    }
}

// Returns the files of a store of version 1 that an example makes.
fn older_image(alloc: Global, example: Example) -> Result<Image, TrialStop> {
    let mut job = OlderStoreJob::new(alloc, example)?;
    make_image(alloc, &mut job)
}

fn make_image(alloc: Global, job: &mut OlderStoreJob) -> Result<Image, TrialStop> {
    let (files, is_closed) = work(alloc, new_files(alloc, FailPoint::NEVER)?, job);
    image_of(
        alloc,
        files,
        is_closed && job.is_made && !job.run_report.failed,
    )
}

fn image_of(alloc: Global, files: Disks, is_made: bool) -> Result<Image, TrialStop> {
    let image = Image::of(alloc, &files);
    drop(files);
    match image {
        Ok(image) if is_made => Ok(image),
        _ => Err(TrialStop),
    }
}

// A job that migrates a store, with its results: whether the migration succeeded, whether the files
// were closed and each call succeeded, and the rows when the store is opened again.
#[derive(Drop)]
struct MigrationJob {
    is_answered: bool,
    migrated: Result<(), TrialStop>,
    is_closed: bool,
    after: After,
}

impl MigrationJob {
    fn new(alloc: Global) -> MigrationJob {
        MigrationJob {
            is_answered: false,
            migrated: Ok(()),
            is_closed: false,
            after: After::new(alloc),
        }
    }

    // Migrates the store in the files, and opens them again.
    fn migrate(&mut self, alloc: Global, files: Disks) -> Result<(), TrialStop> {
        let (files, is_closed) = work(alloc, files, self);
        self.is_closed = is_closed;
        self.after.show(alloc, files)?;
        self.migrated
    }

    // Records the result of a migration, whose only fault may be `Store`.
    fn note(&mut self, answer: Option<Result<u32, Fault>>) {
        match answer {
            Some(Ok(2)) => self.is_answered = true,
            Some(Err(Fault::Store)) => {}
            _ => self.migrated = Err(TrialStop),
        }
    }
}

impl Job for MigrationJob {
    fn run<S: Alter>(&mut self, alloc: Global, conn: Connection<S>) -> (Connection<S>, bool) {
        let (conn, answer) = migrate_in(alloc, conn);
        self.note(answer);
        (conn, true)
    }
}
