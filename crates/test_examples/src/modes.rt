//! The modes in which an example runs.
use crate::example::{Example, Mode, push_line};
use crate::fixed_answers::FixedAnswers;
use crate::halting::halting_answers;
use crate::list::list_answers;
use crate::lookups::look_up;
use crate::texts::text_after;
use std::alloc::{AllocError, Global};
use std::io;
use test_office::Store;
use thes_base::fault::PipeFault;
use thes_requests::script::ScriptEnd;

/// Runs an example, and returns its answers and those of its look-ups, or its text. A further line
/// says how a script ended, unless it ended as usual.
pub fn run(alloc: Global, example: &Example) -> io::Result<String> {
    match example.mode {
        Mode::Script => script_answers(alloc, example),
        Mode::List => list_answers(alloc, example),
        Mode::Halting => halting_answers(alloc, example),
        Mode::Fixed => fixed_answers(alloc, example),
        Mode::Text => text_after(alloc, example.requests.as_str(), example.text),
    }
}

fn script_answers(alloc: Global, example: &Example) -> io::Result<String> {
    let mut store = Store::new(alloc, example.limits)?;
    let answers = answers_of(alloc, &mut store, example);
    drop(store);
    answers
}

fn answers_of(alloc: Global, store: &mut Store, example: &Example) -> io::Result<String> {
    let requests = example.requests.as_str().as_bytes();
    let (written, ended) = store.serve(alloc, requests, Vec::new(alloc));
    let mut answers = with_end(text_of(written)?, ended)?;
    for words in example.lookups.as_str().lines() {
        let found = look_up(alloc, store, words);
        push_found(&mut answers, &found)?;
    }
    Ok(answers)
}

fn push_found(answers: &mut String, found: &Option<String>) -> Result<(), AllocError> {
    match found {
        Some(found) => push_line(answers, found.as_str()),
        None => push_line(answers, "nothing"),
    }
}

fn fixed_answers(alloc: Global, example: &Example) -> io::Result<String> {
    let requests = example.requests.as_str().as_bytes();
    let (written, ended) = FixedAnswers::new().serve(alloc, requests, Vec::new(alloc));
    with_end(text_of(written)?, ended)
}

/// Appends a line that says how a script ended, unless it ended as usual: without a fault, and as
/// refused exactly when an answer is a refusal or a form fault.
pub fn with_end(mut answers: String, ended: Result<ScriptEnd, PipeFault>) -> io::Result<String> {
    let refused = answers.as_str().lines().any(is_refusal);
    let usual = ScriptEnd {
        refused,
        fault: None,
    };
    match ended {
        Ok(ended) if ended == usual => {}
        Ok(ScriptEnd { refused, fault }) => {
            write!(
                answers,
                "ended as Ok(Ended {{ refused: {refused}, fault: {fault:?} }})\n"
            )?;
        }
        Err(fault) => write!(answers, "ended as Err({fault:?})\n")?,
    }
    Ok(answers)
}

fn is_refusal(answer: &str) -> bool {
    answer.starts_with(r#"{"no""#)
        || answer.starts_with(r#"{"bad""#)
        || answer.starts_with(r#"{"at""#)
}

/// Converts bytes to a text; bytes that aren't UTF-8 are an error.
pub fn text_of(bytes: Vec<u8>) -> io::Result<String> {
    String::from_utf8(bytes).map_err(|_| io::Error::from(io::ErrorKind::InvalidData))
}
