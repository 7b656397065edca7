//! Tests of pipes: what a pipe records of its device.
use std::alloc::Global;
use std::io;
use std::io::{ErrorKind, Read, Write};
use std::process::Abort;
use test_devices::{Filling, Halting};
use thes_base::pipe::{Budget, Pipe, Stop};

// The events that a pipe has recorded: none, one of three, or several.
#[derive(Clone, Copy, Debug, PartialEq, Eq)]
enum Noted {
    Nothing,
    Failed,
    Ended,
    Denied,
    Several,
}

fn notes_of<T>(pipe: &Pipe<T>) -> Noted {
    match (pipe.failed(), pipe.ended(), pipe.denied()) {
        (false, false, false) => Noted::Nothing,
        (true, false, false) => Noted::Failed,
        (false, true, false) => Noted::Ended,
        (false, false, true) => Noted::Denied,
        _ => Noted::Several,
    }
}

// Reads once into four bytes, and returns the result, the bytes, and the event recorded.
fn read_from<R: Read + Drop>(
    budget: &mut Budget,
    device: R,
) -> (Result<usize, Stop>, [u8; 4], Noted) {
    let mut pipe = Pipe::new(device);
    let mut buffer = [0; 4];
    let result = pipe.read(budget, &mut buffer);
    (result, buffer, notes_of(&pipe))
}

// A row of a table: the bytes of a reader, the number of calls before the reader fails, and the
// outcome of one read.
type Reading = (&'static [u8], u32, Result<usize, Stop>, [u8; 4], Noted);

static READINGS: [Reading; 3] = [
    (b"abcd", 20, Ok(3), *b"abc\0", Noted::Nothing),
    (b"", 20, Ok(0), [0; 4], Noted::Ended),
    (b"abc", 0, Err(Stop::Failed), [0; 4], Noted::Failed),
];

fn expect_readings(rt: &impl Abort, rows: &[Reading]) {
    for (bytes, calls, result, buffer, noted) in rows {
        let device = Halting {
            bytes,
            calls: *calls,
        };
        let read = read_from(&mut Budget::new(), device);
        assert_eq!(rt; read, (*result, *buffer, *noted), "{bytes:?} {calls}");
    }
}

#[test]
fn what_a_reader_does_is_noted(rt: HostRuntime) {
    expect_readings(&rt, &READINGS);
}

// Writes texts in order until a write fails, and returns the last result and the event recorded.
fn write_to<W: Write>(
    budget: &mut Budget,
    pipe: &mut Pipe<W>,
    texts: &[&[u8]],
) -> (Result<(), Stop>, Noted) {
    let mut result = Ok(());
    for text in texts {
        if result.is_ok() && !pipe.failed() {
            result = pipe.write_all(budget, text);
        }
    }
    (result, notes_of(pipe))
}

fn filling(alloc: Global, calls: u32) -> Pipe<Filling> {
    Pipe::new(Filling {
        bytes: Vec::new(alloc),
        calls,
        is_full: true,
    })
}

// A row of a table: the texts, the number of calls before the writer is full, the bytes written,
// and the outcome.
type Writing = (
    &'static [&'static [u8]],
    u32,
    &'static [u8],
    Result<(), Stop>,
    Noted,
);

static WRITINGS: [Writing; 2] = [
    (&[b"abc", b"", b"de"], 20, b"abcde", Ok(()), Noted::Nothing),
    (&[b"abc"], 4, b"ab", Err(Stop::Failed), Noted::Failed),
];

fn expect_writings(rt: &impl Abort, alloc: Global, rows: &[Writing]) {
    for (texts, calls, written, result, noted) in rows {
        let mut pipe = filling(alloc, *calls);
        let wrote = write_to(&mut Budget::new(), &mut pipe, texts);
        assert_eq!(rt; wrote, (*result, *noted), "{texts:?}");
        assert_eq!(rt; pipe.into_device().bytes.as_slice(), *written);
    }
}

#[test]
fn what_a_writer_does_is_noted(rt: HostRuntime) {
    expect_writings(&rt, rt.alloc(), &WRITINGS);
}

// A reader that returns `Interrupted` from each call.
#[derive(Drop)]
struct Interrupted;

impl Read for Interrupted {
    fn read(&mut self, _buf: &mut [u8]) -> io::Result<usize> {
        Err(io::Error::from(ErrorKind::Interrupted))
    }
}

// An interrupted reader uses up the budget, so that a writer with the same budget is denied.
#[test]
fn a_budget_used_up_is_noted(rt: HostRuntime) {
    let mut budget = Budget::new();
    let read = read_from(&mut budget, Interrupted);
    assert_eq!(rt; read, (Err(Stop::TooLong), [0; 4], Noted::Denied));
    let mut pipe = filling(rt.alloc(), 20);
    let written = write_to(&mut budget, &mut pipe, &[b"a"]);
    assert_eq!(rt; written, (Err(Stop::TooLong), Noted::Denied));
    assert!(rt; pipe.into_device().bytes.is_empty());
}
