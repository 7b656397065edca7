//! The command `migrate`: migrates a store, and prints its version.
ghost use Rattle.std.specs.Prelude.{◌≡◌, false};
ghost use Rattle.thes_jobs.specs.Migrating.{MigratesDatabase, version_line};
ghost use Rattle.thes_command_line.specs.Printing.{AreFreshOutputs, PrintsText};

use crate::trouble::trouble_of;
use sqlite::{Alter, Connection};
use std::alloc::Global;
use std::io::Write;
use thes_base::pipe::Pipe;
use thes_command_line::printing::{print_out, report_in_file};
use thes_command_line::trouble::StoreTrouble;
use thes_sqlite::cause::FaultCause;
use thes_sqlite::keeper::SqlKeeper;

/// Prints the version of a store after `migrate`, as the line `version 2`, and returns the exit
/// status: 0, or 3 if the line can't be written.
pub fn print_version<W: Write, E: Write>(output: &mut Pipe<W>, errors: &mut Pipe<E>) -> u8
    requires { AreFreshOutputs output.old errors.old }
    ensures { PrintsText W.contents E.contents output.old output.new errors.old errors.new
        version_line result }
{
    print_out(output, errors, "version 2\n".as_bytes())
}

/// Migrates the store in a database to version 2, prints the version or the fault, and returns the
/// exit status with the connection.
pub fn migrate_in_database<S: Alter, W: Write, E: Write>(
    alloc: Global,
    file: &str,
    conn: Connection<S>,
    output: &mut Pipe<W>,
    errors: &mut Pipe<E>,
) -> (u8, Connection<S>)
    requires idle { conn.in_transaction ≡ false }
    requires outputs { AreFreshOutputs output.old errors.old }
    ensures { MigratesDatabase W.contents E.contents output.old output.new errors.old errors.new
        S.Store file.now conn result.0 result.1 }
{
    let mut keeper = SqlKeeper::adopt(alloc, conn);
    let ended = keeper.migrate();
    let cause = keeper.cause();
    let conn = keeper.into_connection();
    match ended {
        Ok(_) => (print_version(output, errors), conn),
        Err(fault) => {
            let trouble = trouble_of(cause, StoreTrouble::Unwritable);
            (report_in_file(errors, file, trouble, fault), conn)
        }
    }
}
