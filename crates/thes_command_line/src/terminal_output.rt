//! A writer that escapes the characters of texts that a terminal may obey.
ghost use Rattle.std.specs.Io.KnownBytes.{Appends};
ghost use Rattle.std.specs.Prelude.{◌≡◌, ◌≤◌, length, IfOk, IfSome, None, OnOk, if◌then◌else◌};

use arrayvec::ArrayString;
use std::io;
use std::io::Write;

/// A writer that, if `escapes`, writes each character that a terminal may obey (U+0080 to U+009F,
/// U+2028 and U+2029; texts of a store have no ASCII control characters) as its number in the form
/// `\u{85}`. Without escapes its contents are those of the inner writer; with them, contracts leave
/// its contents unknown.
#[derive(Drop)]
pub struct TerminalOutput<W> {
    writer: W,
    escapes: bool,
}

impl<W> TerminalOutput<W> {
    /// Wraps a writer; `escapes` says whether to escape the characters that a terminal may obey.
    pub fn new(writer: W, escapes: bool) -> TerminalOutput<W>
        ensures writer { result.writer ≡ writer }
        ensures escapes { result.escapes ≡ escapes }
    {
        TerminalOutput { writer, escapes }
    }
}

impl<W: Write> TerminalOutput<W> {
    // Writes an escape in place of a character of `count` bytes, and returns `count`.
    fn write_escape(&mut self, escape: &str, count: usize) -> io::Result<usize>
        ensures bytes { OnOk result (Appends (W.contents self.old.writer)
            (W.contents self.new.writer) escape.now) }
        ensures count { IfOk result (λ n. n ≡ count) }
        ensures escapes { self.new.escapes ≡ self.old.escapes }
    {
        self.writer.write_all(escape.as_bytes())?;
        Ok(count)
    }
}

// Returns the lower-case hexadecimal digit of a number up to 15, for the escape of a character that
// a terminal may obey.
fn hex_digit(number: u8) -> &'static str
    ensures { length result.now ≡ 1 }
{
    match number {
        0 => "0",
        1 => "1",
        2 => "2",
        3 => "3",
        4 => "4",
        5 => "5",
        6 => "6",
        7 => "7",
        8 => "8",
        9 => "9",
        10 => "a",
        11 => "b",
        12 => "c",
        13 => "d",
        14 => "e",
        _ => "f",
    }
}

// Returns the escape of the first character of a text, and that character's length in bytes; None
// if the character isn't to be escaped.
fn escape_of(text: &[u8]) -> Option<(ArrayString<8>, usize)>
    ensures { IfSome result (λ x. x.1 ≤ length text.now) }
{
    let mut escape = ArrayString::new();
    match text {
        [0xC2, last @ 0x80..=0x9F, ..] => {
            escape.push_str("\\u{");
            escape.push_str(hex_digit(*last >> 4));
            escape.push_str(hex_digit(*last & 15));
            escape.push_str("}");
            Some((escape, 2))
        }
        [0xE2, 0x80, 0xA8, ..] => {
            escape.push_str("\\u{2028}");
            Some((escape, 3))
        }
        [0xE2, 0x80, 0xA9, ..] => {
            escape.push_str("\\u{2029}");
            Some((escape, 3))
        }
        _ => None,
    }
}

// Returns the number of bytes to write unescaped: the first byte, and all bytes after it before the
// next character that a terminal may obey.
fn plain_length(text: &[u8]) -> usize
    ensures { result ≤ length text.now }
{
    let mut at = 0;
    while at < text.len() {
        at += 1;
        if escape_of(&text[at..]).is_some() {
            return at;
        }
    }
    at
}

/// Writes in each call one escape, or the text up to the next character to escape; without escapes,
/// passes the text to the inner writer.
impl<W: Write> Write for TerminalOutput<W> {
    ghost contents = { λ o. if o.escapes then None else W.contents o.writer };

    fn write(&mut self, buf: &[u8]) -> io::Result<usize> {
        if !self.escapes {
            return self.writer.write(buf);
        }
        match escape_of(buf) {
            Some((escape, count)) => self.write_escape(escape.as_str(), count),
            None => self.writer.write(&buf[..plain_length(buf)]),
        }
    }

    fn flush(&mut self) -> io::Result<()> {
        self.writer.flush()
    }
}
