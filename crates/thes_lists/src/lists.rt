//! Sorted lists of values, one for each number of a resource.
ghost use Rattle.std.specs.Prelude.{◌≡◌, ◌≢◌, ◌<◌, ◌≤◌, ℕ, [], true, IfOk, OnOk};
ghost use Rattle.std.specs.List.Sorted.{IsStrictlySortedBy};
ghost use Rattle.std.specs.BTreeMap.{is_at};
ghost use Rattle.std.specs.BTreeSet.{insert_key};
ghost use Rattle.std.specs.Set.{remove_key};
ghost use Rattle.std.specs.Vec.{vec_len, vec_capacity};
ghost use Rattle.thes_lists.specs.Lists.{listed_at, HasList, HasSpare, HaveSameValues, KeepsSpare, ChangesOnlyAt};

use std::alloc::{AllocError, Global};
use thes_base::number::ResNo;

/// A sorted list of values for each number of a resource. Room for a value is reserved before its
/// insertion, which then can't fail. Lists are indexed by number, so memory grows with the greatest
/// number that has a list; numbers have no gaps (DECISIONS.md, Indexes).
#[derive(Drop)]
pub struct Lists<T> {
    alloc: Global,
    lists: Vec<Vec<T>>,
}

impl<T: Ord + Drop> Lists<T> {
    /// Creates an index in which no number has a list, without allocating.
    pub fn new(alloc: Global) -> Lists<T>
        ensures { (n : ℕ) → listed_at result n ≡ [] }
    {
        Lists {
            alloc,
            lists: Vec::new(alloc),
        }
    }

    /// Returns the values listed under a number in ascending order, or an empty slice if it has no
    /// list.
    pub fn at(&self, n: ResNo) -> &[T]
        ensures { result.now ≡ listed_at self.now n }
    {
        match self.lists.get(n.get() as usize) {
            Some(list) => list.as_slice(),
            None => &[],
        }
    }

    /// Returns the number of lists: none, or one more than the greatest number that has one, since
    /// the list at index 0 stays empty. Numbers from this count on have no list.
    #[tactic(auto, using(std::proofs::lemmas::Option::slice_get_past))]
    pub fn list_count(&self) -> usize
        ensures { (n : ℕ) → result ≤ n → listed_at self.now n ≡ [] }
    {
        self.lists.len()
    }

    /// Returns the values listed under the number `index`, as `at` does, for loops over all lists;
    /// an empty slice from `list_count` on.
    pub fn list(&self, index: usize) -> &[T]
        ensures { result.now ≡ listed_at self.now index }
    {
        match self.lists.get(index) {
            Some(list) => list.as_slice(),
            None => &[],
        }
    }

    // Creates empty lists for the numbers up to `n` that have none; if memory runs out, perhaps
    // only for some of them.
    fn create_list(&mut self, n: ResNo) -> Result<(), AllocError>
        ensures same { HaveSameValues self.old self.new }
        ensures rooms { KeepsSpare self.old self.new }
        ensures list { OnOk result (HasList self.new n) }
    {
        'opening: while self.lists.len() <= n.get() as usize {
            self.lists.push(Vec::new(self.alloc))?;
        }
        Ok(())
    }

    /// Reserves room for one more value under the number, so that the next `insert` there can't
    /// fail.
    pub fn make_room(&mut self, n: ResNo) -> Result<(), AllocError>
        ensures same { HaveSameValues self.old self.new }
        ensures rooms { KeepsSpare self.old self.new }
        ensures room { OnOk result (HasSpare self.new n) }
    {
        if self.reserve_in(n)? {
            return Ok(());
        }
        self.create_list(n)?;
        self.reserve_in(n)?;
        Ok(())
    }

    // Reserves room for one more value under the number if it has a list, and returns whether it
    // has one.
    fn reserve_in(&mut self, n: ResNo) -> Result<bool, AllocError>
        ensures same { HaveSameValues self.old self.new }
        ensures rooms { KeepsSpare self.old self.new }
        ensures room { IfOk result (λ has. has ≡ true → HasSpare self.new n) }
        ensures spare_if_listed { OnOk result (HasList self.old n → HasSpare self.new n) }
    {
        match self.lists.get_mut(n.get() as usize) {
            Some(list) => {
                list.reserve(1)?;
                Ok(true)
            }
            None => Ok(false),
        }
    }

    /// Inserts a value into the number's list, in order, unless the list has an equal one.
    /// `make_room` must have reserved room for it.
    pub fn insert(&mut self, n: ResNo, x: T)
        requires room { HasSpare self.old n }
        requires rises { IsStrictlySortedBy T.cmp (listed_at self.old n) }
        ensures list { ChangesOnlyAt self.old self.new n
            (insert_key T.cmp (listed_at self.old n) x) }
        ensures rooms { (m : ℕ) → m ≢ n → HasSpare self.old m → HasSpare self.new m }
    {
        match self.lists.get_mut(n.get() as usize) {
            Some(list) => insert_in(list, x),
            None => {}
        }
    }

    /// Removes the value equal to `x` from the number's list, if there is one.
    pub fn remove(&mut self, n: ResNo, x: &T)
        requires { IsStrictlySortedBy T.cmp (listed_at self.old n) }
        ensures { ChangesOnlyAt self.old self.new n
            (remove_key (is_at (T.cmp x.now)) (listed_at self.old n)) }
    {
        match self.lists.get_mut(n.get() as usize) {
            Some(list) => remove_from(list, x),
            None => {}
        }
    }
}

// Inserts a value in order, without allocating, unless the list has an equal one.
fn insert_in<T: Ord + Drop>(list: &mut Vec<T>, x: T)
    requires room { vec_len list.old < vec_capacity list.old }
    requires rises { IsStrictlySortedBy T.cmp list.old.items }
    ensures { list.new.items ≡ insert_key T.cmp list.old.items x }
{
    match list.binary_search(&x) {
        Ok(_) => {}
        Err(place) => {
            let _ = list.insert(place, x);
        }
    }
}

// Removes the value equal to `x`, if there is one.
fn remove_from<T: Ord + Drop>(list: &mut Vec<T>, x: &T)
    requires { IsStrictlySortedBy T.cmp list.old.items }
    ensures { list.new.items ≡ remove_key (is_at (T.cmp x.now)) list.old.items }
{
    match list.binary_search(x) {
        Ok(place) => {
            list.remove(place);
        }
        Err(_) => {}
    }
}
