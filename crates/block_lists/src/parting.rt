// The first part of blocks and of places of rows.
ghost use Rattle.std.specs.Prelude.{◌≡◌, [], IfOk, MatchOption};
ghost use Rattle.mdc_values.specs.Rising.{IsEarlier, IsRising};
ghost use Rattle.block_lists.specs.Lists.{AreLists};
ghost use Rattle.block_lists.specs.Parts.{IsFirstPart, IsSlotsPart};

use crate::part::Part;
use crate::slots::Slots;
use mdc_values::{Memory, Rid};
use std::alloc::Global;

/// The part of the lowest block. There is none exactly where nothing is listed.
pub(crate) fn first_part(
    alloc: Global,
    blocks: &[u32],
    rids: &[Rid],
) -> Result<Option<Part>, Memory>
    requires { AreLists blocks.now rids.now }
    ensures { IfOk result (λ part. MatchOption part ((blocks.now ≡ []) × (rids.now ≡ [])) (IsFirstPart blocks.now rids.now)) }
{
    match (blocks.first(), rids.first()) {
        (Some(block), Some(rid)) => {
            if *block < rid.block {
                Ok(Some(whole(*block)))
            } else {
                Ok(Some(slots_of(alloc, rids, rid.block)?))
            }
        }
        (Some(block), None) => Ok(Some(whole(*block))),
        (None, Some(rid)) => Ok(Some(slots_of(alloc, rids, rid.block)?)),
        (None, None) => Ok(None),
    }
}

fn whole(block: u32) -> Part
    ensures block { result.block ≡ block }
    ensures slots { result.slots ≡ None }
{
    Part { block, slots: None }
}

/// The slots of a block in which a list begins.
fn slots_of(alloc: Global, rids: &[Rid], block: u32) -> Result<Part, Memory>
    requires { IsRising IsEarlier rids.now }
    ensures { IfOk result (IsSlotsPart block rids.now) }
{
    let mut slots = Slots::new(alloc);
    let mut left = rids;
    while let Some((rid, rest)) = left.split_first() {
        if rid.block != block {
            break;
        }
        slots.push(rid.slot)?;
        left = rest;
    }
    Ok(Part {
        block,
        slots: Some(slots),
    })
}
