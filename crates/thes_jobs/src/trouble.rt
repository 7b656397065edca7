//! The reasons for faults of a store in a database, and the report of a store that can't be opened.
ghost use Rattle.std.specs.Prelude.{◌≡◌, option_map, string_bytes};
ghost use Rattle.thes_base.specs.Pipe.{IsFresh};
ghost use Rattle.thes_command_line.specs.Printing.{Prints, fault_lines};
ghost use Rattle.thes_command_line.specs.declared.trouble.StoreTrouble.TheVariants.{Unreadable};
ghost use Rattle.thes_jobs.specs.Trouble as trouble;

use std::io::Write;
use thes_base::fault::{Fault, PipeFault};
use thes_base::pipe::Pipe;
use thes_command_line::printing::{report_fault, report_in_file};
use thes_command_line::trouble::StoreTrouble;
use thes_sqlite::cause::Cause;

/// Returns the reason that a cause gives, or `other` if it gives none. Doesn't look at the file,
/// which may have changed meanwhile (DECISIONS.md, The command line).
pub fn trouble_of(cause: Cause, other: StoreTrouble) -> StoreTrouble
    ensures { result ≡ trouble.trouble_of cause other }
{
    match cause {
        Cause::Locked => StoreTrouble::InUse,
        Cause::Missing => StoreTrouble::NoFile,
        Cause::NotAFile | Cause::NotADatabase => StoreTrouble::NotDatabase,
        Cause::Linked => StoreTrouble::Linked,
        Cause::Unreadable => StoreTrouble::Unreadable,
        Cause::Unwritable => StoreTrouble::Unwritable,
        Cause::Journal => StoreTrouble::Journal,
        Cause::UnknownSchema => StoreTrouble::UnknownSchema,
        Cause::Damaged => StoreTrouble::Damaged,
        Cause::Full => StoreTrouble::NoRoom,
        Cause::NoMemory | Cause::Other => other,
    }
}

/// Prints the fault of a store that can't be opened, after the name of its file if it has one, and
/// returns the exit status 3. The reason for the fault `Store` is that of its cause.
pub fn report_unopened_store<E: Write>(
    errors: &mut Pipe<E>,
    file: &Option<String>,
    cause: Cause,
    fault: Fault,
) -> u8
    requires { IsFresh errors.old }
    ensures line { Prints E.contents errors.old errors.new (fault_lines
        (option_map string_bytes file.now) (trouble.trouble_of cause Unreadable) fault) }
    ensures status { result ≡ 3 }
{
    match file {
        Some(file) => report_in_file(
            errors,
            file.as_str(),
            trouble_of(cause, StoreTrouble::Unreadable),
            fault,
        ),
        None => report_fault(errors, PipeFault::Fault(fault)),
    }
}
