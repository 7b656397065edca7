//! The command `import`: imports a posting file into a store.
ghost use Rattle.std.specs.Prelude.{◌≡◌, Ok};
ghost use Rattle.thes_base.specs.Pipe.{IsFresh};
ghost use Rattle.thes_cli.specs.Importing.{counts_line, EndsImport, ImportsStore, PrintsCounts};
ghost use Rattle.thes_cli.specs.Streams.{AreFresh};

use crate::streams::{Devices, Given};
use arrayvec::ArrayString;
use itoa::Buffer;
use std::io::Write;
use thes_base::fault::FormFault;
use thes_base::pipe::Pipe;
use thes_command_line::printing::{print_error, report_fault, report_form_fault};
use thes_import::import::{ImportEnd, ImportStop, import};
use thes_import::report::Counts;
use thes_office::Office;
use thes_store::keeper::Keeper;

// Returns the line of an import's counts, with its line feed: the numbers of new, repeated and
// refused rows.
fn counts_line(counts: Counts) -> ArrayString<96>
    ensures { result.bytes ≡ counts_line counts }
{
    let mut line = ArrayString::new();
    line.push_str("thesaurus: ");
    line.push_str(Buffer::new().format(counts.posted));
    line.push_str(" new, ");
    line.push_str(Buffer::new().format(counts.again));
    line.push_str(" again, ");
    line.push_str(Buffer::new().format(counts.refused));
    line.push_str(" refused\n");
    line
}

// Prints the line of counts to standard error, if `prints_it`.
fn print_counts<E: Write>(errors: &mut Pipe<E>, prints_it: bool, counts: Counts)
    requires { IsFresh errors.old }
    ensures { PrintsCounts E.contents prints_it errors.old errors.new counts }
{
    if prints_it {
        let line = counts_line(counts);
        print_error(errors, line.as_str().as_bytes());
    }
}

// Prints the counts, if `prints_it`, or the form fault of a malformed file. Returns the exit
// status: 1 if a row was refused or the file is malformed, and else 0.
fn report_end<E: Write>(errors: &mut Pipe<E>, prints_it: bool, ended: ImportEnd) -> u8
    requires { IsFresh errors.old }
    ensures { EndsImport E.contents prints_it errors.old errors.new (Ok ended) result }
{
    match ended {
        ImportEnd::Rows(counts) => {
            print_counts(errors, prints_it, counts);
            u8::from(counts.refused > 0)
        }
        ImportEnd::Malformed => {
            report_form_fault(errors, FormFault::BadShape);
            1
        }
    }
}

// Reports on standard error how an import ended: by the counts of its rows, if `prints_it`, or by a
// fault. Returns the exit status.
fn report_import<E: Write>(
    errors: &mut Pipe<E>,
    prints_it: bool,
    ended: Result<ImportEnd, ImportStop>,
) -> u8
    requires { IsFresh errors.old }
    ensures { EndsImport E.contents prints_it errors.old errors.new ended result }
{
    match ended {
        Ok(ended) => report_end(errors, prints_it, ended),
        Err(stopped) => report_fault(errors, stopped.fault),
    }
}

/// Imports a posting file, writes the outcomes of its rows, prints their counts if `prints_it`, and
/// returns the exit status: 1 if a row was refused or the file is malformed, 3 after a fault, which
/// is printed, and else 0.
pub fn import_file<T: Devices, K: Keeper>(
    given: &mut Given<'_, T>,
    file: T::PostingFile,
    prints_it: bool,
    office: &mut Office<K>,
) -> u8
    requires { AreFresh given.old.streams }
    ensures input { given.new.streams.input ≡ given.old.streams.input }
    ensures imports { ImportsStore K.view T.PostingFile.remaining T.Output.contents
        T.Errors.contents prints_it file office.old given.old.streams.output
        given.new.streams.output given.old.streams.errors given.new.streams.errors result
        office.new }
{
    let mut reader = Pipe::new(file);
    let ended = import(given.alloc, &mut reader, &mut given.streams.output, office);
    report_import(&mut given.streams.errors, prints_it, ended)
}
