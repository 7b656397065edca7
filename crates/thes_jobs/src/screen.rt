//! Progress of loads and imports, printed on a terminal.
ghost use Rattle.std.specs.Prelude.{◌≡◌, ◌↔◌, ◌≤◌, ◌-◌, IfSome, IsTrue};
ghost use Rattle.std.specs.Time.{instant_nanos};

use std::rt::Clock;
use std::time::Instant;
use thes_sqlite::progress::Progress;

// The least time between two lines, in seconds.
const PAUSE: u64 = 1;

// The number of rows loaded between two readings of the clock.
const STRIDE: u64 = 1_024;

/// A listener that prints new stores to standard error, and at most once a second the number of
/// rows read or imported.
#[derive_where(Clone, Copy)]
pub struct Screen<'a, R> {
    rt: &'a R,
    // The time of the last line, or of the start.
    last: Instant,
    is_import: bool,
}

// Returns whether a line is due: a second has passed since the last one.
fn is_due(last: Instant, now: Instant) -> bool
    ensures { IsTrue result ↔ (1_000_000_000 ≤ instant_nanos now - instant_nanos last) }
{
    now.duration_since(last).as_secs() >= PAUSE
}

impl<'a, R: Clock + Eprint> Screen<'a, R> {
    /// Returns a listener for work that begins now, which prints the rows done if `is_import`, or
    /// `None` if the clock fails.
    pub fn new(rt: &'a R, is_import: bool) -> Option<Screen<'a, R>>
        ensures { IfSome result (λ screen. screen.is_import ≡ is_import) }
    {
        match Instant::now(rt) {
            Ok(last) => Some(Screen {
                rt,
                last,
                is_import,
            }),
            Err(_) => None,
        }
    }

    /// Reports that a new store was made in this file.
    pub fn report_new_store(&self, file: &str) {
        // A line that can't be printed is dropped.
        let _ = eprintln!(self.rt; "thesaurus: new store {file}");
    }

    // Returns whether a second has passed since the last line, and if so, records the present time
    // as that of a new line; false if the clock fails.
    fn takes_turn(&mut self) -> bool {
        match Instant::now(self.rt) {
            Ok(now) if is_due(self.last, now) => {
                self.last = now;
                true
            }
            _ => false,
        }
    }
}

/// Prints the number of rows read, and for an import also the number of rows done.
impl<R: Clock + Eprint> Progress for Screen<'_, R> {
    fn report_rows(&mut self, rows: u64) {
        if rows % STRIDE == 0 && self.takes_turn() {
            let _ = eprintln!(self.rt; "thesaurus: {rows} rows read");
        }
    }

    fn report_lookups(&mut self, postings: u64) {
        if self.is_import && self.takes_turn() {
            let _ = eprintln!(self.rt; "thesaurus: {postings} rows done");
        }
    }
}
