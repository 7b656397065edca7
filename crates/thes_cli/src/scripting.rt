//! The command `script`: answers the requests on standard input.
ghost use Rattle.std.specs.Prelude.{◌≡◌, MatchOption};
ghost use Rattle.thes_base.specs.Pipe.{IsFresh};
ghost use Rattle.thes_cli.specs.Scripting.{last_fault, status_of, AnswersScript};
ghost use Rattle.thes_cli.specs.Streams.{AreFresh};
ghost use Rattle.thes_command_line.specs.Printing.{Prints, fault_line};

use crate::streams::{Devices, Given};
use std::io::Write;
use thes_base::fault::PipeFault;
use thes_base::pipe::Pipe;
use thes_command_line::printing::report_fault;
use thes_office::Office;
use thes_requests::script::ScriptEnd;
use thes_service::plan_mode::PlanMode;
use thes_service::{OfficeHandler, office_script};
use thes_store::keeper::Keeper;

// Returns the fault that stopped the script, or else the last fault among its answers.
fn last_fault(ended: &Result<ScriptEnd, PipeFault>) -> Option<PipeFault>
    ensures { result ≡ last_fault ended.now }
{
    match ended {
        Ok(ended) => ended.fault.map(PipeFault::Fault),
        Err(fault) => Some(*fault),
    }
}

// Returns the exit status of a script: 3 after a fault, 1 after a refusal or a form fault, and else
// 0.
fn status_of(ended: &Result<ScriptEnd, PipeFault>) -> u8
    ensures { result ≡ status_of ended.now }
{
    match ended {
        Ok(ended) if ended.fault.is_none() => u8::from(ended.refused),
        _ => 3,
    }
}

// Prints the fault of a script, if there was one, and returns the exit status: 3 after a fault, 1
// after a refusal or a form fault, and else 0.
fn report_script_end<E: Write>(errors: &mut Pipe<E>, ended: &Result<ScriptEnd, PipeFault>) -> u8
    requires { IsFresh errors.old }
    ensures fault { MatchOption (last_fault ended.now) (errors.new ≡ errors.old)
        (λ fault. Prints E.contents errors.old errors.new (fault_line fault)) }
    ensures status { result ≡ status_of ended.now }
{
    match last_fault(ended) {
        Some(fault) => report_fault(errors, fault),
        None => status_of(ended),
    }
}

/// Answers the script on standard input by an office in this mode, and returns the exit status with
/// the office.
pub fn answer_script<T: Devices, K: Keeper, M: PlanMode + Copy>(
    given: &mut Given<'_, T>,
    office: Office<K>,
    mode: M,
) -> (u8, Office<K>)
    requires { AreFresh given.old.streams }
    ensures { AnswersScript K.view T.Input.remaining T.Output.contents T.Errors.contents M.takes
        office given.old.streams result.0 result.1 given.new.streams }
{
    let mut handler = OfficeHandler::new(office, mode);
    let streams = &mut given.streams;
    let ended = office_script(
        given.alloc,
        &mut streams.input,
        &mut streams.output,
        &mut handler,
    );
    let status = report_script_end(&mut streams.errors, &ended);
    (status, handler.into_office())
}
