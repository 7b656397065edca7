//! Stored examples, and the form of their files.
use std::alloc::{AllocError, Global};
use thes_base::data::Limits;
use thes_base::number::ResNo;

/// The mode in which an example runs.
#[derive(Clone, Copy, Debug, PartialEq, Eq)]
pub enum Mode {
    /// As a script over a new store.
    Script,
    /// As one list of requests over a new store.
    List,
    /// As a script whose reader or writer fails after 0, 1, 2, .. calls.
    Halting,
    /// As a script over a handler with fixed answers, which no store gives.
    Fixed,
    /// As requests that fill a new store, whose export or one display is then written.
    Text,
}

/// An example: requests, and the answers or the text stored for them.
#[derive(Drop)]
pub struct Example<'a> {
    pub name: &'a str,
    pub mode: Mode,
    pub limits: Limits,
    pub requests: String,
    /// The look-ups after the requests, one on each line.
    pub lookups: String,
    /// The text to write: `export`, or a display with its scheme and language; empty if there is
    /// none.
    pub text: &'a str,
    pub answers: String,
}

fn mode_for(text: &str) -> Mode {
    if text.is_empty() {
        Mode::Script
    } else {
        Mode::Text
    }
}

impl<'a> Example<'a> {
    /// Parses an example from the lines common to all examples of its file, and from its own lines,
    /// of which the first is its name.
    pub fn read(alloc: Global, start: &str, part: &'a str) -> Result<Example<'a>, AllocError> {
        let (own, written) = part.split_once("\n@ ").unwrap_or((part, ""));
        let (name, own) = own.split_once('\n').unwrap_or((own, ""));
        let (text, expected) = written.split_once('\n').unwrap_or((written, ""));
        let mut example = Example {
            name,
            mode: mode_for(text),
            limits: Limits::default(),
            requests: String::new(alloc),
            lookups: String::new(alloc),
            text,
            answers: String::new(alloc),
        };
        for lines in [start, own] {
            for line in lines.split('\n') {
                example.push(line)?;
            }
        }
        example.answers.push_str(expected)?;
        Ok(example)
    }

    // Parses one line: a request, a look-up, a setting, a comment, a blank line, or else an answer.
    fn push(&mut self, line: &str) -> Result<(), AllocError> {
        if let Some(request) = line.strip_prefix("> ") {
            push_line(&mut self.requests, request)
        } else if let Some(lookup) = line.strip_prefix('?') {
            push_line(&mut self.lookups, lookup.trim_start())
        } else if line.is_empty() || line.starts_with('#') || self.set(line) {
            Ok(())
        } else {
            push_line(&mut self.answers, line)
        }
    }

    // Parses a line that sets the mode or a limit, and returns whether it is one.
    fn set(&mut self, line: &str) -> bool {
        let Some(setting) = line.strip_prefix("! ") else {
            return false;
        };
        match setting {
            "list" => self.mode = Mode::List,
            "halting" => self.mode = Mode::Halting,
            "fixed" => self.mode = Mode::Fixed,
            _ => return self.set_limit(setting),
        }
        true
    }

    // Parses the name of a limit and its number, and returns whether there is such a limit.
    fn set_limit(&mut self, setting: &str) -> bool {
        let (name, number) = setting.split_once(' ').unwrap_or((setting, ""));
        let number = number_in(number);
        match name {
            "resources" => self.limits.resources = number,
            "labels" => self.limits.labels = number,
            "links" => self.limits.links = number,
            "postings" => self.limits.postings = number,
            "moves" => self.limits.moves = number,
            _ => return false,
        }
        true
    }
}

fn number_in(text: &str) -> u32 {
    ResNo::read(text).map_or(0, ResNo::get)
}

/// Appends a line and a line feed to a text.
pub fn push_line(text: &mut String, line: &str) -> Result<(), AllocError> {
    text.push_str(line)?;
    text.push('\n')
}
