//! Lists of the numbers of postings: sorting, and a check for duplicates.
ghost use Rattle.std.specs.Prelude.{◌↔◌, IsTrue, IfOk};
ghost use Rattle.std.specs.List.Sorted.{IsPermutation, IsNonDecreasing};
ghost use Rattle.thes_base.specs.Refusals.{EachOnce};
ghost use Rattle.thes_post.specs.Rising.{RisesFrom};

use std::alloc::{AllocError, Global};
use thes_base::number::PostNo;

/// Returns a copy of the numbers in ascending order, including duplicates.
pub fn sorted_numbers(alloc: Global, numbers: &[PostNo]) -> Result<Vec<PostNo>, AllocError>
    ensures permutation { IfOk result (λ v. IsPermutation numbers.now v.items) }
    ensures in_order { IfOk result (λ v. IsNonDecreasing v.items) }
{
    let mut list = Vec::new(alloc);
    list.extend_from_slice(numbers)?;
    list.sort_unstable();
    Ok(list)
}

// Checks whether each number is greater than the number before it.
fn is_rising(numbers: &[PostNo]) -> bool
    ensures { IsTrue result ↔ RisesFrom 0 numbers.now }
{
    let mut least = 0;
    for number in numbers {
        let number = u64::from(number.get());
        if number < least {
            return false;
        }
        least = number + 1;
    }
    true
}

/// Checks whether all numbers are different; fails only if memory for a sorted copy runs out.
pub fn is_each_once(alloc: Global, numbers: &[PostNo]) -> Result<bool, AllocError>
    ensures { IfOk result (λ once. IsTrue once ↔ EachOnce numbers.now) }
{
    Ok(is_rising(sorted_numbers(alloc, numbers)?.as_slice()))
}
