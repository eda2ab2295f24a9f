// The intersection and the union of two lists.
ghost use Rattle.std.specs.Prelude.{IfOk};
ghost use Rattle.block_lists.specs.Lists.{IsBoth, IsEither};

use crate::lists::Lists;
use crate::numbers::{common_blocks, joined_blocks};
use crate::places::{held_rids, joined_rids, outside};
use mdc_values::Memory;
use std::alloc::Global;

/// The rows that both stand for: blocks that both list, and places of the one that the other holds. Each list is gone
/// over a few times from its front, and nothing is searched. Both stay as they are, also after `Memory`.
pub fn and_lists(alloc: Global, a: &Lists, b: &Lists) -> Result<Lists, Memory>
    ensures { IfOk result (IsBoth a.now b.now) }
{
    let blocks = common_blocks(alloc, a.blocks.as_slice(), b.blocks.as_slice())?;
    let of_a = held_rids(
        alloc,
        a.rids.as_slice(),
        b.blocks.as_slice(),
        b.rids.as_slice(),
    )?;
    let of_b = held_rids(alloc, b.rids.as_slice(), a.blocks.as_slice(), &[])?;
    let rids = joined_rids(alloc, of_a.as_slice(), of_b.as_slice())?;
    Ok(Lists { blocks, rids })
}

/// The rows that one of them stands for: blocks that one lists, and places of both outside of these. Each list is gone
/// over once from its front, and what both have stands once. Both stay as they are, also after `Memory`.
pub fn or_lists(alloc: Global, a: &Lists, b: &Lists) -> Result<Lists, Memory>
    ensures { IfOk result (IsEither a.now b.now) }
{
    let blocks = joined_blocks(alloc, a.blocks.as_slice(), b.blocks.as_slice())?;
    let all = joined_rids(alloc, a.rids.as_slice(), b.rids.as_slice())?;
    let rids = outside(alloc, all.as_slice(), blocks.as_slice())?;
    Ok(Lists { blocks, rids })
}
