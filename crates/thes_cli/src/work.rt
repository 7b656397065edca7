//! The tasks of the program, performed over the store of a job.
ghost use Rattle.std.specs.Prelude.{◌≡◌, option_map, string_bytes};
ghost use Rattle.thes_cli.specs.Streams.{AreFresh};
ghost use Rattle.thes_cli.specs.Work.{DoesOutputWork, WorksOverKeeper};

use crate::checking::check_store;
use crate::displaying::display_store;
use crate::exporting::export_store;
use crate::importing::import_file;
use crate::scripting::answer_script;
use crate::serving::serve_store;
use crate::streams::{Devices, Given};
use std::net::Net;
use thes_base::data::Limits;
use thes_command_line::arguments::DisplayOptions;
use thes_jobs::trouble::report_unopened_store;
use thes_jobs::work::{OutputWork, Work};
use thes_office::Office;
use thes_requests::request::DisplayRequest;
use thes_service::plan_mode::{NoPlans, WithPlans};
use thes_sqlite::cause::FaultCause;
use thes_store::keeper::Keeper;

// Does, over an office, work that doesn't read standard input, and returns the exit status with the
// office.
fn do_output_work<T: Devices, K: Keeper>(
    given: &mut Given<'_, T>,
    work: OutputWork<T::PostingFile, <T::System as Net>::Listener>,
    mut office: Office<K>,
) -> (u8, Office<K>)
    requires { AreFresh given.old.streams }
    ensures input { given.new.streams.input ≡ given.old.streams.input }
    ensures does { DoesOutputWork K.view T.PostingFile.remaining T.Output.contents
        T.Errors.contents given.new.streams.connections work office given.old.streams.output
        given.new.streams.output given.old.streams.errors given.new.streams.errors result.0
        result.1 }
{
    let alloc = given.alloc;
    let (output, errors) = (&mut given.streams.output, &mut given.streams.errors);
    match work {
        OutputWork::Serve(listening) => {
            if listening.plans {
                serve_store(given, &listening, office, WithPlans)
            } else {
                serve_store(given, &listening, office, NoPlans)
            }
        }
        OutputWork::Check => (check_store(alloc, &mut office, output, errors), office),
        OutputWork::Export => (export_store(alloc, &mut office, output, errors), office),
        OutputWork::Display(display, DisplayOptions { scheme, lang }) => {
            let wanted = DisplayRequest {
                kind: display,
                scheme,
                tag: &lang,
            };
            let status = display_store(alloc, &mut office, &wanted, output, errors);
            (status, office)
        }
        OutputWork::Import(file, prints_it) => {
            let status = import_file(given, file, prints_it, &mut office);
            (status, office)
        }
    }
}

/// Opens an office over a storage, works over it, and returns the exit status with the storage. The
/// fault of a store that can't be opened is printed, after the name of its file if it has one.
pub fn work_over_keeper<T: Devices, K: Keeper + FaultCause>(
    given: &mut Given<'_, T>,
    work: Work<T::PostingFile, <T::System as Net>::Listener>,
    keeper: K,
    limits: Limits,
    file: Option<String>,
) -> (u8, K)
    requires { AreFresh given.old.streams }
    ensures { WorksOverKeeper K.view K.is_open K.finds T.PostingFile.remaining T.Input.remaining
        T.Output.contents T.Errors.contents work (option_map string_bytes file) limits keeper
        given.old.streams result.0 result.1 given.new.streams }
{
    let office = match Office::start(given.alloc, keeper, limits) {
        Ok(office) => office,
        Err((fault, keeper)) => {
            drop(work);
            let errors = &mut given.streams.errors;
            return (
                report_unopened_store(errors, &file, keeper.cause(), fault),
                keeper,
            );
        }
    };
    match work {
        Work::Script(options) => {
            let (status, office) = if options.plans {
                answer_script(given, office, WithPlans)
            } else {
                answer_script(given, office, NoPlans)
            };
            (status, office.into_keeper())
        }
        Work::Output(work) => {
            let (status, office) = do_output_work(given, work, office);
            (status, office.into_keeper())
        }
    }
}
