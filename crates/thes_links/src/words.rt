//! Bits in a list of 64-bit words, which is extended where it is written. A word past the end is 0.
ghost use Rattle.std.specs.Prelude.{◌≡◌, ◌<◌, ◌≤◌, ℕ, OnOk, OnErr, MatchBool, length};
ghost use Rattle.thes_links.specs.Words.{word_at, HasBit, HasBitsSet};

use std::alloc::AllocError;

/// Returns the word of 64 bits at the index `place`; 0 past the end.
#[inline(always)]
pub fn word_of(words: &[u64], place: u32) -> u64
    ensures { result ≡ word_at words.now place }
{
    match words.get(place as usize) {
        Some(word) => *word,
        None => 0,
    }
}

/// Checks whether bit `j` is set in the word at the index `place`.
#[inline(always)]
pub fn has_bit(words: &[u64], place: u32, j: usize) -> bool
    requires { j < 64 }
    ensures { MatchBool result (HasBit words.now place j) (HasBit words.now place j → ⊥) }
{
    (word_of(words, place) >> j) & 1 == 1
}

// The number of words that an extended list has from the word to be written on, several of them so
// that writes in ascending order seldom extend the list.
const SPARE: usize = 16;

// Appends zeros to a list that doesn't reach the index `place`, up to that index and beyond.
#[cold]
#[inline(never)]
fn extend_past(words: &mut Vec<u64>, place: u32) -> Result<(), AllocError>
    requires { length words.old.items ≤ place }
    ensures ok { OnOk result ((m : ℕ) → word_at words.new.items m ≡ word_at words.old.items m) }
    ensures length { OnOk result (place < length words.new.items) }
    ensures err { OnErr result (words.new.items ≡ words.old.items) }
{
    words.resize(place as usize + SPARE, 0)?;
    Ok(())
}

/// Sets these bits in the word at the index `place`, and extends the list if it ends before that
/// word.
#[inline(always)]
pub fn set_bits(words: &mut Vec<u64>, place: u32, bits: u64) -> Result<(), AllocError>
    ensures ok { OnOk result (HasBitsSet words.old.items words.new.items place bits) }
    ensures err { OnErr result (words.new.items ≡ words.old.items) }
{
    if words.len() <= place as usize {
        extend_past(words, place)?;
    }
    words[place as usize] |= bits;
    Ok(())
}
