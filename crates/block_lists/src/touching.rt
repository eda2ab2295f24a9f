// The blocks that lists touch.
ghost use Rattle.std.specs.Prelude.{◌≡◌, ◌≤◌, ◌||◌, ◌↔◌, ℕ, IfOk, IsTrue};
ghost use Rattle.std.specs.List.{filter};
ghost use Rattle.mdc_values.specs.Rising.{IsEarlier, IsLower, IsRising};
ghost use Rattle.block_lists.specs.Places.{has_number, in_block};
ghost use Rattle.block_lists.specs.Lists.{touches};
ghost use Rattle.block_lists.specs.Walks.{BeginsFromBlock, BeginsInBlock};

use crate::lists::Lists;
use crate::numbers::{begins_with, from_number};
use mdc_values::{Blocks, Memory, Rid};
use std::alloc::Global;

/// The blocks of a list that are listed too, or in which a listed row lies, in their order, each once.
pub fn touched_blocks(alloc: Global, lists: &Lists, of: &Blocks) -> Result<Blocks, Memory>
    ensures { IfOk result (λ touched. touched ≡ filter (touches lists.now) of.now) }
{
    touched(
        alloc,
        of.as_slice(),
        lists.blocks.as_slice(),
        lists.rids.as_slice(),
    )
}

fn touched(alloc: Global, of: &[u32], blocks: &[u32], rids: &[Rid]) -> Result<Blocks, Memory>
    requires of_rises { IsRising IsLower of.now }
    requires blocks_rise { IsRising IsLower blocks.now }
    requires rids_rise { IsRising IsEarlier rids.now }
    ensures { IfOk result (λ touched. touched ≡ filter (λ block. has_number blocks.now block || in_block rids.now block) of.now) }
{
    let mut touched = Blocks::new(alloc);
    let mut blocks = blocks;
    let mut rids = rids;
    for block in of {
        blocks = from_number(blocks, *block);
        rids = from_block(rids, *block);
        if begins_with(blocks, *block) || begins_in_block(rids, *block) {
            touched.push(*block)?;
        }
    }
    Ok(touched)
}

/// A rising list from the first place on that doesn't lie in a lower block.
fn from_block(list: &[Rid], block: u32) -> &[Rid]
    requires { IsRising IsEarlier list.now }
    ensures rises { IsRising IsEarlier result.now }
    ensures begins { BeginsFromBlock block result.now }
    ensures same { (n : ℕ) → block ≤ n → in_block result.now n ≡ in_block list.now n }
{
    let mut left = list;
    while let Some((first, rest)) = left.split_first() {
        if first.block >= block {
            return left;
        }
        left = rest;
    }
    left
}

/// Whether a list begins in a block.
fn begins_in_block(list: &[Rid], block: u32) -> bool
    ensures { IsTrue result ↔ BeginsInBlock block list.now }
{
    match list.first() {
        Some(first) => first.block == block,
        None => false,
    }
}
