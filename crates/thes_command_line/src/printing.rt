//! Prints texts and the lines of faults and refusals, and returns the exit statuses that follow.
ghost use Rattle.std.specs.Prelude.{◌≡◌, ◌++◌};
ghost use Rattle.thes_base.specs.Pipe.{IsFresh};
ghost use Rattle.thes_command_line.specs.Printing as lines;
ghost use Rattle.thes_command_line.specs.Printing.{AreFreshOutputs, HasPrinted, Prints, PrintsText};

use crate::start_failure::OpenFailure;
use crate::trouble::StoreTrouble;
use arrayvec::ArrayString;
use std::io::Write;
use thes_base::fault::{Fault, FormFault, PipeFault, Refusal};
use thes_base::pipe::{Budget, Pipe};

// Returns the line of a fault: `thesaurus: fault NAME`, with the table for `BadStore`.
fn fault_line(fault: PipeFault) -> ArrayString<64>
    ensures { result.bytes ≡ lines.fault_line fault }
{
    let mut line = ArrayString::new();
    line.push_str("thesaurus: fault ");
    line.push_str(fault.name());
    if let PipeFault::Fault(Fault::BadStore(table)) = fault {
        line.push_str(" ");
        line.push_str(table.name());
    }
    line.push_str("\n");
    line
}

// Returns the line of a refusal: `thesaurus: NAME`.
fn refusal_line(refusal: Refusal) -> ArrayString<64>
    ensures { result.bytes ≡ lines.refusal_line refusal }
{
    let mut line = ArrayString::new();
    line.push_str("thesaurus: ");
    line.push_str(refusal.name());
    line.push_str("\n");
    line
}

// Returns the line of a form fault: `thesaurus: NAME`.
fn form_line(fault: FormFault) -> ArrayString<64>
    ensures { result.bytes ≡ lines.form_line fault }
{
    let mut line = ArrayString::new();
    line.push_str("thesaurus: ");
    line.push_str(fault.name());
    line.push_str("\n");
    line
}

/// Prints a text of the program, such as its help or a fault, and returns whether all of it was
/// written.
pub fn print<W: Write>(writer: &mut Pipe<W>, text: &[u8]) -> bool
    requires { IsFresh writer.old }
    ensures { HasPrinted W.contents writer.old writer.new text.now result }
{
    writer.write_all(&mut Budget::new(), text).is_ok()
}

// Prints two texts, the second only if the first was written, and returns whether both were.
fn print_both<W: Write>(writer: &mut Pipe<W>, first: &[u8], second: &[u8]) -> bool
    requires { IsFresh writer.old }
    ensures { HasPrinted W.contents writer.old writer.new (first.now ++ second.now) result }
{
    print(writer, first) && print(writer, second)
}

/// Prints a text to standard output, and returns the exit status 0; if that fails, prints the fault
/// to standard error and returns 3.
pub fn print_out<W: Write, E: Write>(output: &mut Pipe<W>, errors: &mut Pipe<E>, text: &[u8]) -> u8
    requires { AreFreshOutputs output.old errors.old }
    ensures { PrintsText W.contents E.contents output.old output.new errors.old errors.new text.now
        result }
{
    if print(output, text) {
        0
    } else {
        report_fault(errors, PipeFault::Write)
    }
}

/// Prints a text to standard error, or a prefix of it if the writer fails.
pub fn print_error<E: Write>(errors: &mut Pipe<E>, text: &[u8])
    requires { IsFresh errors.old }
    ensures { Prints E.contents errors.old errors.new text.now }
{
    print(errors, text);
}

/// Prints the line of a refusal, or a prefix of it if the writer fails.
pub fn report_refusal<E: Write>(errors: &mut Pipe<E>, refusal: Refusal)
    requires { IsFresh errors.old }
    ensures { Prints E.contents errors.old errors.new (lines.refusal_line refusal) }
{
    print_error(errors, refusal_line(refusal).as_str().as_bytes());
}

/// Prints the line of a form fault, or a prefix of it if the writer fails.
pub fn report_form_fault<E: Write>(errors: &mut Pipe<E>, fault: FormFault)
    requires { IsFresh errors.old }
    ensures { Prints E.contents errors.old errors.new (lines.form_line fault) }
{
    print_error(errors, form_line(fault).as_str().as_bytes());
}

/// Prints the line of a fault, and returns the exit status 3, even if the writer fails.
pub fn report_fault<E: Write>(errors: &mut Pipe<E>, fault: PipeFault) -> u8
    requires { IsFresh errors.old }
    ensures line { Prints E.contents errors.old errors.new (lines.fault_line fault) }
    ensures status { result ≡ 3 }
{
    print_error(errors, fault_line(fault).as_str().as_bytes());
    3
}

/// Prints that a socket can't be opened or a connection can't be accepted, and returns the exit
/// status 3.
pub fn report_net_fault<E: Write>(errors: &mut Pipe<E>) -> u8
    requires { IsFresh errors.old }
    ensures line { Prints E.contents errors.old errors.new lines.net_line }
    ensures status { result ≡ 3 }
{
    print_error(errors, "thesaurus: fault Net\n".as_bytes());
    3
}

// Prints that the system lets the program open too few files to serve connections, and returns the
// exit status 3.
fn report_few_files<E: Write>(errors: &mut Pipe<E>) -> u8
    requires { IsFresh errors.old }
    ensures line { Prints E.contents errors.old errors.new lines.few_files_lines }
    ensures status { result ≡ 3 }
{
    print_error(
        errors,
        "thesaurus: too few files may be open (ulimit -n)\nthesaurus: fault Net\n".as_bytes(),
    );
    3
}

/// Prints the fault of a file or socket that couldn't be opened, and returns the exit status 3.
pub fn report_open_failure<E: Write>(errors: &mut Pipe<E>, unopened: OpenFailure) -> u8
    requires { IsFresh errors.old }
    ensures line { Prints E.contents errors.old errors.new (lines.open_failure_line unopened) }
    ensures status { result ≡ 3 }
{
    match unopened {
        OpenFailure::File => report_fault(errors, PipeFault::Read),
        OpenFailure::Socket => report_net_fault(errors),
        OpenFailure::Connection => report_few_files(errors),
    }
}

// Returns the end of the line that names the file of a store: the reason for its fault, if there is
// one, and a line feed.
fn file_end(trouble: Option<StoreTrouble>) -> ArrayString<64>
    ensures { result.bytes ≡ lines.file_end trouble }
{
    let mut end = ArrayString::new();
    if let Some(trouble) = trouble {
        end.push_str(": ");
        end.push_str(trouble.words());
    }
    end.push_str("\n");
    end
}

// Prints the line that names the file of a store, and returns whether all of it was written.
fn print_file<E: Write>(errors: &mut Pipe<E>, file: &str, trouble: Option<StoreTrouble>) -> bool
    requires { IsFresh errors.old }
    ensures { HasPrinted E.contents errors.old errors.new
        (lines.file_line file.now trouble) result }
{
    let end = file_end(trouble);
    print_both(errors, "thesaurus: store ".as_bytes(), file.as_bytes())
        && print(errors, end.as_str().as_bytes())
}

// Returns the reason to print with a fault of a store: `trouble` for Store, and None for any other
// fault.
fn trouble_of_fault(fault: Fault, trouble: StoreTrouble) -> Option<StoreTrouble>
    ensures { result ≡ lines.trouble_of_fault fault trouble }
{
    match fault {
        Fault::Store => Some(trouble),
        _ => None,
    }
}

/// Prints the fault of the store in a file, after a line with the file's name and, for Store, the
/// reason; returns the exit status 3.
pub fn report_in_file<E: Write>(
    errors: &mut Pipe<E>,
    file: &str,
    trouble: StoreTrouble,
    fault: Fault,
) -> u8
    requires { IsFresh errors.old }
    ensures reports { Prints E.contents errors.old errors.new
        (lines.file_fault_lines file.now trouble fault) }
    ensures status { result ≡ 3 }
{
    let line = fault_line(PipeFault::Fault(fault));
    let trouble = trouble_of_fault(fault, trouble);
    let _ = print_file(errors, file, trouble) && print(errors, line.as_str().as_bytes());
    3
}
