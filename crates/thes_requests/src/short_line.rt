//! Lines of at most 72 bytes, which need no allocation.
ghost use Rattle.std.specs.Prelude.{◌≡◌, ◌+◌, ◌≤◌, ◌++◌, length, decimal};

use arrayvec::ArrayString;
use itoa::Buffer;
use std::marker::Model;

/// A line of at most 72 bytes on the stack, so that an answer can be written without allocation.
#[derive(Drop)]
pub struct ShortLine {
    text: ArrayString<72>,
}

impl Model for ShortLine {
    ghost use Rattle.std.specs.Prelude.{List, ℕ};

    ghost Value = { List ℕ };

    ghost view = { λ line. line.text.bytes };
}

impl ShortLine {
    /// Returns a line that holds this text, of at most 72 bytes.
    pub fn from_text(text: &str) -> ShortLine
        requires { length text.now ≤ 72 }
        ensures { result ≡ text.now }
    {
        let mut line = ShortLine {
            text: ArrayString::new(),
        };
        line.push(text);
        line
    }

    /// Appends a text, with which the line must have at most 72 bytes.
    pub fn push(&mut self, text: &str)
        requires { length self.old + length text.now ≤ 72 }
        ensures text { self.new ≡ self.old ++ text.now }
        ensures len { length self.new ≡ length self.old + length text.now }
    {
        self.text.push_str(text);
    }

    /// Appends a number in decimal, at most ten digits, to a line of at most 62 bytes.
    pub fn push_number(&mut self, number: u32)
        requires { length self.old ≤ 62 }
        ensures text { self.new ≡ self.old ++ decimal number }
        ensures len { length self.new ≤ length self.old + 10 }
    {
        self.push(Buffer::new().format(number));
    }

    /// Appends the place of a request in decimal, at most twenty digits, to a line of at most 52
    /// bytes.
    pub fn push_place(&mut self, place: usize)
        requires { length self.old ≤ 52 }
        ensures text { self.new ≡ self.old ++ decimal place }
        ensures len { length self.new ≤ length self.old + 20 }
    {
        self.push(Buffer::new().format(place));
    }

    /// Returns the bytes of the line written so far.
    pub fn as_bytes(&self) -> &[u8]
        ensures text { result.now ≡ self.now }
        ensures short { length result.now ≤ 72 }
    {
        self.text.as_str().as_bytes()
    }
}
