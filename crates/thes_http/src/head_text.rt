//! The head of a response, built without allocation.
ghost use Rattle.std.specs.Prelude.{◌≡◌, ◌+◌, ◌≤◌, ◌++◌, [], length, decimal};

use arrayvec::ArrayString;
use itoa::Buffer;
use std::marker::Model;

/// The head of a response, of at most 256 bytes on the stack, so that a response can be written
/// without allocation.
#[derive(Drop)]
pub struct HeadText {
    text: ArrayString<256>,
}

impl Model for HeadText {
    ghost use Rattle.std.specs.Prelude.{List, ℕ};

    ghost Value = { List ℕ };

    ghost view = { λ head. head.text.bytes };
}

impl HeadText {
    /// Returns an empty head.
    pub fn new() -> HeadText
        ensures { result ≡ [] }
    {
        HeadText {
            text: ArrayString::new(),
        }
    }

    /// Appends a text; the head must not exceed 256 bytes after it.
    pub fn push(&mut self, text: &str)
        requires { length self.old + length text.now ≤ 256 }
        ensures text { self.new ≡ self.old ++ text.now }
        ensures len { length self.new ≡ length self.old + length text.now }
    {
        self.text.push_str(text);
    }

    /// Appends a number in decimal, at most twenty digits, to a head of at most 200 bytes.
    pub fn push_number(&mut self, number: u64)
        requires { length self.old ≤ 200 }
        ensures text { self.new ≡ self.old ++ decimal number }
        ensures len { length self.new ≤ length self.old + 20 }
    {
        self.push(Buffer::new().format(number));
    }

    /// Returns the bytes of the head.
    pub fn as_bytes(&self) -> &[u8]
        ensures { result.now ≡ self.now }
    {
        self.text.as_str().as_bytes()
    }
}
