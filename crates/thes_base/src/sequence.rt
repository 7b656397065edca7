//! A growable array of values, which contracts see as a list.
ghost use Rattle.std.specs.Prelude.{◌≡◌, ◌-◌, List, length, take, [], ◌++◌, ◌∷◌, IfOk, OnOk, OnErr};
ghost use Rattle.std.specs.Cmp.Lexicographic.{pointwise, lists_per, lists_equiv};

use std::alloc::{AllocError, Global};
use std::marker::Model;

/// A growable array of values, whose model is the `List` of them.
#[derive(Debug, Drop)]
pub struct Sequence<T> {
    values: Vec<T>,
}

impl<T> Model for Sequence<T> {
    ghost Value = { List T };

    ghost view = { λ a. a.values.items };
}

/// Compares the values in order.
impl<T: PartialEq> PartialEq for Sequence<T> {
    ghost eq = { pointwise T.eq };

    ghost laws = { lists_per T.laws };

    fn eq(&self, other: &Sequence<T>) -> bool {
        self.as_slice() == other.as_slice()
    }
}

impl<T: Eq> Eq for Sequence<T> {
    ghost laws = { lists_equiv T.Eq.laws };
}

/// Takes over a vector, for example of the postings that a request lists, without copying its
/// values.
impl<T> From<Vec<T>> for Sequence<T> {
    ghost from_gives = { λ values sequence. sequence ≡ values.items };

    fn from(values: Vec<T>) -> Sequence<T> {
        Sequence { values }
    }
}

impl<T> Sequence<T> {
    /// Creates an empty sequence without allocating.
    pub fn new(alloc: Global) -> Sequence<T>
        ensures { result ≡ [] }
    {
        Sequence {
            values: Vec::new(alloc),
        }
    }

    /// Returns the values in order, without copying them.
    pub fn as_slice(&self) -> &[T]
        ensures { result.now ≡ self.now }
    {
        self.values.as_slice()
    }
}

impl<T: Copy> Sequence<T> {
    /// Appends a value; after an error the sequence is as before.
    pub fn push(&mut self, value: T) -> Result<(), AllocError>
        ensures ok { OnOk result (self.new ≡ self.old ++ value ∷ []) }
        ensures err { OnErr result (self.new ≡ self.old) }
    {
        self.values.push(value)?;
        Ok(())
    }

    /// Removes the last value, if there is one.
    pub fn pop(&mut self)
        ensures { self.new ≡ take (length self.old - 1) self.old }
    {
        self.values.pop();
    }

    /// Allocates a copy; fails only if memory runs out.
    pub fn try_clone(&self, alloc: Global) -> Result<Sequence<T>, AllocError>
        ensures { IfOk result (λ values. values ≡ self.now) }
    {
        Ok(Sequence {
            values: Vec::from_slice(alloc, self.as_slice())?,
        })
    }
}
