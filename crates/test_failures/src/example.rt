//! Examples that run over stores, with their expected answers.
use std::alloc::{AllocError, Global};

/// A stored example: requests, one on each line, with an answer for each; and a posting file, with
/// the lines that its import should return.
#[derive(Drop)]
pub struct StoredExample<'a> {
    requests: String,
    pub answers: String,
    postings: &'a str,
    pub outcomes: &'a str,
}

/// The input of an example: requests, one on each line, and a posting file.
#[derive(Clone, Copy)]
pub struct Example<'a> {
    pub requests: &'a str,
    pub postings: &'a str,
}

impl<'a> StoredExample<'a> {
    /// Parses an example: lines `> REQUEST`, each followed by its answer; a line `% import`, and
    /// the posting file; a line `% outcomes`, and the lines that the import should return.
    pub fn read(alloc: Global, text: &'a str) -> Result<StoredExample<'a>, AllocError> {
        let (script, rest) = text.split_once("% import\n").unwrap_or((text, ""));
        let (postings, outcomes) = rest.split_once("% outcomes\n").unwrap_or((rest, ""));
        let mut stored = StoredExample {
            requests: String::new(alloc),
            answers: String::new(alloc),
            postings,
            outcomes,
        };
        stored.add_lines(script)?;
        Ok(stored)
    }

    // Collects the requests of a script and their answers.
    fn add_lines(&mut self, script: &str) -> Result<(), AllocError> {
        for line in script.lines() {
            match line.strip_prefix("> ") {
                Some(request) => push_line(&mut self.requests, request)?,
                None => push_line(&mut self.answers, line)?,
            }
        }
        Ok(())
    }

    /// Returns the requests and the posting file.
    pub fn example(&self) -> Example<'_> {
        Example {
            requests: self.requests.as_str(),
            postings: self.postings,
        }
    }
}

/// Appends a line and a line feed to a text.
pub fn push_line(text: &mut String, line: &str) -> Result<(), AllocError> {
    text.push_str(line)?;
    text.push('\n')
}

// The answer to a request that failed with the fault Store.
const FAULT: &str = r#"{"fault":"Store"}"#;

/// Checks whether a line is an answer other than the fault Store.
pub fn is_answer(line: &str) -> bool {
    line != FAULT
}

/// Checks whether one of the answers is the fault Store.
pub fn has_fault(answers: &str) -> bool {
    !answers.lines().all(is_answer)
}

/// Checks whether the lines, apart from the fault Store, are the expected answers.
pub fn are_answers(answers: &str, wanted: &str) -> bool {
    let mut wanted = wanted.lines();
    for answer in answers.lines() {
        if is_answer(answer) && wanted.next() != Some(answer) {
            return false;
        }
    }
    wanted.next().is_none()
}

// Returns the number of lines up to the last answer that isn't a fault.
fn lines_answered(answers: &str) -> usize {
    let mut count = 0;
    for (place, line) in answers.lines().enumerate() {
        if is_answer(line) {
            count = place.saturating_add(1);
        }
    }
    count
}

// The greatest number of rows that an import commits in one transaction.
const GROUP_LIMIT: usize = 128;

// Returns the text before the first comma: the key, if the line is a row without quotation marks.
fn key_of(line: &str) -> &str {
    match line.split_once(',') {
        Some((key, _)) => key,
        None => line,
    }
}

// Returns the number of lines of a posting file, after the first `answered`, that are committed
// together: up to a line whose key an earlier one of them has. The import leaves out a row that
// isn't a posting; such a row must have a key that no other has, or else the count would be wrong.
fn lines_of_group(postings: &str, answered: usize) -> usize {
    let mut count = 0;
    for line in postings.lines().skip(answered).take(GROUP_LIMIT) {
        let mut earlier = postings.lines().skip(answered).take(count);
        if earlier.any(|other| key_of(other) == key_of(line)) {
            break;
        }
        count = count.saturating_add(1);
    }
    count
}

/// A prefix of an example.
#[derive(Drop)]
pub struct ExamplePrefix {
    requests: String,
    postings: String,
}

impl ExamplePrefix {
    /// Returns the empty prefix.
    pub fn new(alloc: Global) -> ExamplePrefix {
        ExamplePrefix {
            requests: String::new(alloc),
            postings: String::new(alloc),
        }
    }

    /// Appends the requests whose answers aren't faults and, if `with_next`, the request after the
    /// last of these.
    pub fn add_requests(
        &mut self,
        requests: &str,
        answers: &str,
        with_next: bool,
    ) -> Result<(), AllocError> {
        let end = lines_answered(answers);
        let last = end.saturating_add(usize::from(with_next));
        let mut answers = answers.lines();
        for (place, request) in requests.lines().enumerate() {
            let is_answered = answers.next().is_some_and(is_answer);
            if is_answered || (end <= place && place < last) {
                push_line(&mut self.requests, request)?;
            }
        }
        Ok(())
    }

    /// Appends the lines of a posting file that the import answered and, if `with_next`, the group
    /// after them. If the import answered none, appends none, since the import of the first line,
    /// the heading, calls no storage.
    pub fn add_postings(
        &mut self,
        postings: &str,
        rows: &str,
        with_next: bool,
    ) -> Result<(), AllocError> {
        let answered = rows.lines().count();
        let lines = if with_next && answered > 0 {
            answered.saturating_add(lines_of_group(postings, answered))
        } else {
            answered
        };
        for line in postings.split_inclusive('\n').take(lines) {
            self.postings.push_str(line)?;
        }
        Ok(())
    }

    /// Returns the requests and the posting file of the prefix.
    pub fn example(&self) -> Example<'_> {
        Example {
            requests: self.requests.as_str(),
            postings: self.postings.as_str(),
        }
    }
}
