// Rising lists of places of rows, walked along side by side.
ghost use Rattle.std.specs.Prelude.{◌≡◌, ◌&&◌, ◌||◌, ◌↔◌, not, IfOk, IsTrue, MatchOption, [], true};
ghost use Rattle.mdc_values.specs.declared.rid.Rid.{Rid};
ghost use Rattle.mdc_values.specs.Rising.{IsEarlier, IsLower, IsRising};
ghost use Rattle.block_lists.specs.Places.{has_number, has_rid, holds_in};
ghost use Rattle.block_lists.specs.Walks.{BeginsWith, BeginsFrom, IsLeft, IsLowerHead};

use crate::numbers::{begins_with, from_number};
use mdc_values::{Memory, Rid, Rids};
use std::alloc::Global;

/// The places that stand in one of two rising lists.
pub(crate) fn joined_rids(alloc: Global, a: &[Rid], b: &[Rid]) -> Result<Rids, Memory>
    requires a_rises { IsRising IsEarlier a.now }
    requires b_rises { IsRising IsEarlier b.now }
    ensures { IfOk result (λ joined. (rid : Rid) → has_rid joined rid ≡ (has_rid a.now rid || has_rid b.now rid)) }
{
    let mut joined = Rids::new(alloc);
    let mut a = a;
    let mut b = b;
    while let Some(rid) = lower_head(a, b) {
        joined.push(rid)?;
        a = left_of(a, rid);
        b = left_of(b, rid);
    }
    Ok(joined)
}

/// The places of a rising list that lie in one of the blocks, or stand in the other list.
pub(crate) fn held_rids(
    alloc: Global,
    rids: &[Rid],
    blocks: &[u32],
    others: &[Rid],
) -> Result<Rids, Memory>
    requires rises { IsRising IsEarlier rids.now }
    requires blocks_rise { IsRising IsLower blocks.now }
    requires others_rise { IsRising IsEarlier others.now }
    ensures { IfOk result (λ held. (rid : Rid) → has_rid held rid ≡ (has_rid rids.now rid && holds_in blocks.now others.now rid)) }
{
    let mut held = Rids::new(alloc);
    let mut blocks = blocks;
    let mut others = others;
    for rid in rids {
        blocks = from_number(blocks, rid.block);
        others = from_rid(others, *rid);
        if begins_with(blocks, rid.block) || begins_with_rid(others, *rid) {
            held.push(*rid)?;
        }
    }
    Ok(held)
}

/// The places of a rising list that lie in none of the blocks.
pub(crate) fn outside(alloc: Global, rids: &[Rid], blocks: &[u32]) -> Result<Rids, Memory>
    requires rises { IsRising IsEarlier rids.now }
    requires blocks_rise { IsRising IsLower blocks.now }
    ensures { IfOk result (λ held. (rid : Rid) → has_rid held rid ≡ (has_rid rids.now rid && not (has_number blocks.now rid.block))) }
{
    let mut held = Rids::new(alloc);
    let mut blocks = blocks;
    for rid in rids {
        blocks = from_number(blocks, rid.block);
        if !begins_with(blocks, rid.block) {
            held.push(*rid)?;
        }
    }
    Ok(held)
}

/// Whether a place stands before another.
fn is_earlier(a: Rid, b: Rid) -> bool
    ensures { IsTrue result ↔ IsEarlier a b }
{
    a.block < b.block || (a.block == b.block && a.slot < b.slot)
}

/// The first of the places with which two lists begin.
fn lower_head(a: &[Rid], b: &[Rid]) -> Option<Rid>
    ensures { MatchOption result ((a.now ≡ []) × (b.now ≡ [])) (IsLowerHead IsEarlier a.now b.now) }
{
    match (a.first(), b.first()) {
        (Some(x), Some(y)) => {
            if is_earlier(*y, *x) {
                Some(*y)
            } else {
                Some(*x)
            }
        }
        (Some(x), None) => Some(*x),
        (None, Some(y)) => Some(*y),
        (None, None) => None,
    }
}

/// A list without its first place, if it is this one.
fn left_of(list: &[Rid], rid: Rid) -> &[Rid]
    ensures { IsLeft rid list.now result.now }
{
    match list.split_first() {
        Some((first, rest)) => { if *first == rid { rest } else { list } }
        None => list,
    }
}

/// A rising list from the first place on that isn't before this one.
fn from_rid(list: &[Rid], rid: Rid) -> &[Rid]
    requires { IsRising IsEarlier list.now }
    ensures rises { IsRising IsEarlier result.now }
    ensures begins { BeginsFrom IsEarlier rid result.now }
    ensures same { (other : Rid) → (IsEarlier other rid → ⊥) → has_rid result.now other ≡ has_rid list.now other }
{
    let mut left = list;
    while let Some((first, rest)) = left.split_first() {
        if !is_earlier(*first, rid) {
            return left;
        }
        left = rest;
    }
    left
}

/// Whether a list begins with a place.
fn begins_with_rid(list: &[Rid], rid: Rid) -> bool
    ensures { IsTrue result ↔ BeginsWith rid list.now }
{
    match list.first() {
        Some(first) => *first == rid,
        None => false,
    }
}
