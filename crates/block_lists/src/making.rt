// Lists made of blocks alone, or of places of rows alone.
ghost use Rattle.std.specs.Prelude.{◌≡◌, []};

use crate::lists::Lists;
use mdc_values::{Blocks, Rids};
use std::alloc::Global;

/// No row. It takes no memory.
pub fn empty(alloc: Global) -> Lists
    ensures blocks { result.blocks ≡ [] }
    ensures rids { result.rids ≡ [] }
{
    Lists {
        blocks: Blocks::new(alloc),
        rids: Rids::new(alloc),
    }
}

/// All rows of these blocks. It takes no memory.
pub fn from_blocks(alloc: Global, blocks: Blocks) -> Lists
    ensures blocks { result.blocks ≡ blocks }
    ensures rids { result.rids ≡ [] }
{
    Lists {
        blocks,
        rids: Rids::new(alloc),
    }
}

/// The rows in these places. It takes no memory.
pub fn from_rids(alloc: Global, rids: Rids) -> Lists
    ensures blocks { result.blocks ≡ [] }
    ensures rids { result.rids ≡ rids }
{
    Lists {
        blocks: Blocks::new(alloc),
        rids,
    }
}
