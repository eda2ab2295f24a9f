// What the block map says of one block.
ghost use Rattle.std.specs.Prelude.{◌≡◌, false, IfOk};
ghost use Rattle.store_api.specs.Causes.{fault_of};
ghost use Rattle.store_api.specs.Frame.{NoPage};
ghost use Rattle.store_api.specs.RunsOverPages.{RunsOverPages};
ghost use Rattle.entry_tree.specs.Forest.{Forest};
ghost use Rattle.entry_tree.specs.HeldTrees.{HoldsTree, IsTreePage};
ghost use Rattle.block_map.specs.BlockMaps.{AnyMap, BreaksMapTree};
ghost use Rattle.live_rows.specs.LiveRids.{HasMapForm, is_used_block};

use block_map::{BlockMap, BlockState};
use store_api::{Pages, StoreFault};

/// A block, and whether it is a Used one.
#[derive(Clone, Copy)]
pub(crate) struct SeenBlock {
    pub(crate) block: u32,
    pub(crate) is_used: bool,
}

/// Looks a block up, unless it is the one that was seen last.
pub(crate) fn see_next<P: Pages>(
    map: &BlockMap,
    pages: &mut P,
    last: SeenBlock,
    block: u32,
) -> Result<SeenBlock, StoreFault>
    requires going { (P.state pages.old).ended ≡ false }
    ensures block { IfOk result (λ seen. seen.block ≡ block) }
    ensures used { IfOk result (λ seen. (t : Forest) → HoldsTree P.Pages pages.old map.now.tree t → HasMapForm t → last.is_used ≡ is_used_block t last.block → seen.is_used ≡ is_used_block t seen.block) }
    ensures same { (P.state pages.new).work ≡ (P.state pages.old).work }
    ensures runs { RunsOverPages P.Pages NoPage (IsTreePage P.Pages pages.old map.now.tree) (BreaksMapTree P.Pages pages.old map.now.tree AnyMap) pages.old pages.new (fault_of result) }
{
    if last.block == block {
        return Ok(last);
    }
    see_block(map, pages, block)
}

/// Looks a block up in the block map.
pub(crate) fn see_block<P: Pages>(
    map: &BlockMap,
    pages: &mut P,
    block: u32,
) -> Result<SeenBlock, StoreFault>
    requires going { (P.state pages.old).ended ≡ false }
    ensures block { IfOk result (λ seen. seen.block ≡ block) }
    ensures used { IfOk result (λ seen. (t : Forest) → HoldsTree P.Pages pages.old map.now.tree t → HasMapForm t → seen.is_used ≡ is_used_block t seen.block) }
    ensures same { (P.state pages.new).work ≡ (P.state pages.old).work }
    ensures runs { RunsOverPages P.Pages NoPage (IsTreePage P.Pages pages.old map.now.tree) (BreaksMapTree P.Pages pages.old map.now.tree AnyMap) pages.old pages.new (fault_of result) }
{
    let is_used = match map.get(pages, block)? {
        Some(row) => row.state == BlockState::Used,
        None => false,
    };
    Ok(SeenBlock { block, is_used })
}
