//! Replies to requests as lines of JSON, built without allocation.
ghost use Rattle.std.specs.Prelude.{◌≡◌, ◌+◌, ◌≤◌, ◌++◌, length, codes, decimal, IfErr, OnOk};
ghost use Rattle.std.specs.Io.KnownBytes.{Appends};
ghost use Rattle.thes_base.specs.FaultNames.{form_code, refusal_code, fault_code, table_name};
ghost use Rattle.thes_base.specs.Pipe.{written_bytes, IsFresh, IsPartialWrite, KeepsCallLimit};
ghost use Rattle.thes_requests.specs.AnswerTexts.{answer_text, fault_reply_text, form_fault_text, refusal_text, reply_text};

use crate::short_line::ShortLine;
use std::io::Write;
use thes_base::fault::{Fault, FormFault, PipeFault, Refusal};
use thes_base::pipe::Pipe;
use thes_base::request::Answer;

/// The reply to a request: an answer, a form fault or a fault.
#[derive(Clone, Copy)]
pub enum Reply {
    Answer(Answer),
    Bad(FormFault),
    Fault(Fault),
}

/// Returns the line of JSON for a reply, with its line feed.
pub fn reply_line(reply: Reply) -> ShortLine
    ensures { result ≡ reply_text reply }
{
    match reply {
        Reply::Answer(answer) => answer_line(answer),
        Reply::Bad(fault) => form_fault_line(fault),
        Reply::Fault(fault) => fault_line(fault),
    }
}

/// Writes the line of JSON for a reply to a pipe, and allocates nothing. After a fault, a prefix of
/// the line may have been written.
pub fn write_answer<W: Write>(reply: Reply, writer: &mut Pipe<W>) -> Result<(), PipeFault>
    requires { IsFresh writer.old }
    ensures ok { OnOk result (Appends (written_bytes W.contents writer.old)
        (written_bytes W.contents writer.new) (reply_text reply)) }
    ensures stopped { IfErr result
        (IsPartialWrite W.contents (reply_text reply) writer.old writer.new) }
    ensures calls { KeepsCallLimit writer.old writer.new }
{
    writer.write_text(reply_line(reply).as_bytes())
}

// Returns the line of JSON for an answer, such as `{"ok":7}` for a new number.
fn answer_line(answer: Answer) -> ShortLine
    ensures { result ≡ answer_text answer }
{
    match answer {
        Answer::Number(n) => number_line("{\"ok\":", n),
        Answer::Again(n) => number_line("{\"again\":", n),
        Answer::Done => ShortLine::from_text("{\"done\":true}\n"),
        Answer::Moved(count) => number_line("{\"moved\":", count),
        Answer::Parted(n, count) => split_answer_line(n, count),
        Answer::No(refusal) => refusal_line(refusal),
    }
}

// Returns a line of JSON that ends with a number: `before`, the number in decimal, a closing brace
// and a line feed.
fn number_line(before: &str, number: u32) -> ShortLine
    requires { length before.now ≤ 32 }
    ensures { result ≡ before.now ++ decimal number ++ codes "}\n" }
{
    let mut line = ShortLine::from_text(before);
    line.push_number(number);
    line.push("}\n");
    line
}

// Returns the line for a split: the number of the new concept, and how many postings moved to it.
fn split_answer_line(number: u32, count: u32) -> ShortLine
    ensures { result ≡ answer_text (Answer.Parted number count) }
{
    let mut line = ShortLine::from_text("{\"moved\":");
    line.push_number(count);
    line.push(",\"ok\":");
    line.push_number(number);
    line.push("}\n");
    line
}

// Returns a line of JSON that ends with a name: `before`, the name, a closing quote and brace, and
// a line feed.
fn name_line(before: &str, name: &str) -> ShortLine
    requires { length before.now + length name.now ≤ 61 }
    ensures { result ≡ before.now ++ name.now ++ codes "\"}\n" }
{
    let mut line = ShortLine::from_text(before);
    line.push(name);
    line.push("\"}\n");
    line
}

/// Returns the line of JSON for a refusal, with its name and, for `OutsideKnown`, the number of the
/// known outside concept.
pub fn refusal_line(refusal: Refusal) -> ShortLine
    ensures { result ≡ refusal_text refusal }
{
    match refusal {
        Refusal::OutsideKnown(n) => number_line("{\"no\":\"OutsideKnown\",\"number\":", n),
        _ => name_line("{\"no\":\"", refusal.name()),
    }
}

// Returns the line of JSON for a form fault, with its name.
fn form_fault_line(fault: FormFault) -> ShortLine
    ensures { result ≡ form_fault_text fault }
{
    name_line("{\"bad\":\"", fault.name())
}

// Returns the line of JSON for a fault, with its name and, for `BadStore`, the name of the faulty
// table.
fn fault_line(fault: Fault) -> ShortLine
    ensures { result ≡ fault_reply_text fault }
{
    match fault {
        Fault::BadStore(table) => name_line("{\"fault\":\"BadStore\",\"table\":\"", table.name()),
        _ => name_line("{\"fault\":\"", fault.name()),
    }
}
