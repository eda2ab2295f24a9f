// Rising lists of block numbers, walked along side by side.
ghost use Rattle.std.specs.Prelude.{◌≡◌, ◌≤◌, ◌&&◌, ◌||◌, ◌↔◌, ℕ, IfOk, IsTrue, MatchOption, [], true};
ghost use Rattle.mdc_values.specs.Rising.{IsLower, IsRising};
ghost use Rattle.block_lists.specs.Places.{has_number};
ghost use Rattle.block_lists.specs.Walks.{BeginsWith, BeginsFrom, IsLeft, IsLowerHead};

use mdc_values::{Blocks, Memory};
use std::alloc::Global;

/// The numbers that stand in one of two rising lists.
pub(crate) fn joined_blocks(alloc: Global, a: &[u32], b: &[u32]) -> Result<Blocks, Memory>
    requires a_rises { IsRising IsLower a.now }
    requires b_rises { IsRising IsLower b.now }
    ensures { IfOk result (λ joined. (n : ℕ) → has_number joined n ≡ (has_number a.now n || has_number b.now n)) }
{
    let mut joined = Blocks::new(alloc);
    let mut a = a;
    let mut b = b;
    while let Some(number) = lower_head(a, b) {
        joined.push(number)?;
        a = left_of(a, number);
        b = left_of(b, number);
    }
    Ok(joined)
}

/// The numbers that stand in both of two rising lists.
pub(crate) fn common_blocks(alloc: Global, a: &[u32], b: &[u32]) -> Result<Blocks, Memory>
    requires a_rises { IsRising IsLower a.now }
    requires b_rises { IsRising IsLower b.now }
    ensures { IfOk result (λ common. (n : ℕ) → has_number common n ≡ (has_number a.now n && has_number b.now n)) }
{
    let mut common = Blocks::new(alloc);
    let mut b = b;
    for number in a {
        b = from_number(b, *number);
        if begins_with(b, *number) {
            common.push(*number)?;
        }
    }
    Ok(common)
}

/// The lower of the numbers with which two lists begin.
fn lower_head(a: &[u32], b: &[u32]) -> Option<u32>
    ensures { MatchOption result ((a.now ≡ []) × (b.now ≡ [])) (IsLowerHead IsLower a.now b.now) }
{
    match (a.first(), b.first()) {
        (Some(x), Some(y)) => Some((*x).min(*y)),
        (Some(x), None) => Some(*x),
        (None, Some(y)) => Some(*y),
        (None, None) => None,
    }
}

/// A list without its first number, if it is this one.
fn left_of(list: &[u32], number: u32) -> &[u32]
    ensures { IsLeft number list.now result.now }
{
    match list.split_first() {
        Some((first, rest)) => { if *first == number { rest } else { list } }
        None => list,
    }
}

/// A rising list from the first number on that isn't below this one.
pub(crate) fn from_number(list: &[u32], number: u32) -> &[u32]
    requires { IsRising IsLower list.now }
    ensures rises { IsRising IsLower result.now }
    ensures begins { BeginsFrom IsLower number result.now }
    ensures same { (n : ℕ) → number ≤ n → has_number result.now n ≡ has_number list.now n }
{
    let mut left = list;
    while let Some((first, rest)) = left.split_first() {
        if *first >= number {
            return left;
        }
        left = rest;
    }
    left
}

/// Whether a list begins with a number.
pub(crate) fn begins_with(list: &[u32], number: u32) -> bool
    ensures { IsTrue result ↔ BeginsWith number list.now }
{
    match list.first() {
        Some(first) => *first == number,
        None => false,
    }
}
