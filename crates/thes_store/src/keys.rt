//! An index from keys to the positions of postings.
ghost use Rattle.std.specs.Prelude.{◌≡◌, nat_eq, Some, true, IfOk, OnOk};
ghost use Rattle.std.specs.BTreeMap as tree;
ghost use Rattle.std.specs.HashMap as hash;
ghost use Rattle.std.specs.Cmp.Lexicographic.{slice_cmp};
ghost use Rattle.std.specs.Ordering.{nat_cmp};
ghost use Rattle.thes_store.specs.Keys.{digest_of, KeyHasPosition, KeepsDigests, KeepsOtherKeys};

use std::alloc::{AllocError, Global};
use std::collections::hash_map::Entry;
use std::collections::{BTreeMap, HashMap};
use std::hash::{FoldHasher, Hasher};
use thes_base::text::Key;

/// For each key, a position at which its posting may be. A look-up checks the row at a position, so
/// superfluous positions do no harm. A key is entered under its digest, since comparing texts costs
/// cache misses, or under its text if that digest is taken.
#[derive(Drop)]
pub struct Keys {
    numbers: HashMap<u64, usize>,
    rest: BTreeMap<Key, usize>,
}

impl Keys {
    /// Creates an empty index without allocating.
    pub fn new(alloc: Global) -> Keys {
        Keys {
            numbers: HashMap::new(alloc),
            rest: BTreeMap::new(alloc),
        }
    }

    /// Inserts a position under the digest of a key, if that is free, or else under the key's text.
    pub fn insert(&mut self, alloc: Global, key: &Key, position: usize) -> Result<(), AllocError>
        ensures keeps { KeepsOtherKeys key.now self.old self.new }
        ensures ok { OnOk result (KeyHasPosition self.new key.now position) }
    {
        if !insert_digest(&mut self.numbers, digest_of(key), position)? {
            self.rest.insert(key.try_clone(alloc)?, position)?;
        }
        Ok(())
    }

    /// Returns the position under the key's digest, which may be that of another key.
    pub fn position_by_digest(&self, key: &Key) -> Option<usize>
        ensures { result ≡ hash.get nat_eq self.now.numbers (digest_of key.now) }
    {
        self.numbers.get(&digest_of(key)).copied()
    }

    /// Returns the position under the key's text; there is one only if the digest was taken.
    pub fn position_by_text(&self, key: &Key) -> Option<usize>
        ensures { result ≡ tree.get (slice_cmp nat_cmp) self.now.rest key.now }
    {
        self.rest.get(key).copied()
    }
}

// Inserts the position of a posting under the digest `number` of its key, if there is none yet, and
// returns whether there was none.
fn insert_digest(
    numbers: &mut HashMap<u64, usize>,
    number: u64,
    position: usize,
) -> Result<bool, AllocError>
    ensures keeps { KeepsDigests numbers.old numbers.new }
    ensures ok { IfOk result (λ leads. leads ≡ true
        → hash.get nat_eq numbers.new number ≡ Some position) }
{
    match numbers.entry(number)? {
        Entry::Occupied(_) => Ok(false),
        Entry::Vacant(entry) => {
            entry.insert(position);
            Ok(true)
        }
    }
}

/// Returns a 64-bit digest of a key. Different keys may have the same digest.
#[tactic(auto, unfolding(crate::specs::Keys::digest_of))]
pub fn digest_of(key: &Key) -> u64
    ensures { result ≡ digest_of key.now }
{
    let mut hasher = FoldHasher::default();
    hasher.write(key.as_str().as_bytes());
    hasher.finish()
}
