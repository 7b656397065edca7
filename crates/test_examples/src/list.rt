//! Requests that are performed as one list.
use crate::example::Example;
use crate::modes::text_of;
use std::alloc::{AllocError, Global};
use std::io;
use std::io::ErrorKind;
use test_office::Store;
use thes_base::request::{Answer, Command};
use thes_requests::JsonScratch;
use thes_requests::answer::{Reply, reply_line};
use thes_requests::request::{Request, read_request};

/// Performs the requests of an example over a new store, by one call, and returns the answers; each
/// request must be a command.
pub fn list_answers(alloc: Global, example: &Example) -> io::Result<String> {
    let mut store = Store::new(alloc, example.limits)?;
    let mut answers: Vec<Answer> = Vec::new(alloc);
    let performed = perform(alloc, &mut store, example, &mut answers);
    drop(store);
    performed?;
    text_of(answer_lines(alloc, answers.as_slice())?)
}

fn perform(
    alloc: Global,
    store: &mut Store,
    example: &Example,
    answers: &mut Vec<Answer>,
) -> io::Result<()> {
    let mut commands: Vec<Command> = Vec::new(alloc);
    let read = push_commands(alloc, example.requests.as_str(), &mut commands);
    let performed = store.perform(commands.as_slice(), answers);
    drop(commands);
    read?;
    performed.map_err(|_| io::Error::from(ErrorKind::OutOfMemory))
}

fn push_commands(alloc: Global, requests: &str, commands: &mut Vec<Command>) -> io::Result<()> {
    for line in requests.lines() {
        commands.push(command_in(alloc, line)?)?;
    }
    Ok(())
}

/// Parses the command of a line; anything else, such as a query, is an error.
pub fn command_in(alloc: Global, line: &str) -> io::Result<Command> {
    match read_request(&mut JsonScratch::new(alloc), line.as_bytes()) {
        Ok(Request::Do(command)) => Ok(command),
        _ => Err(io::Error::from(ErrorKind::InvalidInput)),
    }
}

fn answer_lines(alloc: Global, answers: &[Answer]) -> Result<Vec<u8>, AllocError> {
    let mut lines = Vec::new(alloc);
    for answer in answers {
        lines.extend_from_slice(reply_line(Reply::Answer(*answer)).as_bytes())?;
    }
    Ok(lines)
}
