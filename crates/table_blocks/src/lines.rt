// What the block map says of a block.
ghost use Rattle.std.specs.Prelude.{◌≡◌, false, IfOk};
ghost use Rattle.store_api.specs.Causes.{fault_of};
ghost use Rattle.store_api.specs.Frame.{NoPage};
ghost use Rattle.store_api.specs.RunsOverPages.{RunsOverPages};
ghost use Rattle.entry_tree.specs.Forest.{Forest};
ghost use Rattle.entry_tree.specs.HeldTrees.{HoldsTree, IsTreePage};
ghost use Rattle.block_map.specs.BlockMaps.{BreaksMapTree, HasRow};
ghost use Rattle.table_blocks.specs.BlockNow.{MapsUsed};

use crate::faults::unmapped;
use block_map::{BlockMap, BlockRow, BlockState};
use mdc_ast::TableDef;
use store_api::{Pages, StoreFault};

/// The line of a Used block in the block map. Damaged where the map doesn't say that the block is Used.
pub(crate) fn line_of_used<P: Pages>(
    def: &TableDef,
    map: &BlockMap,
    pages: &mut P,
    block: u32,
) -> Result<BlockRow, StoreFault>
    requires root { map.now.tree.root ≡ def.now.roots.map }
    requires going { (P.state pages.old).ended ≡ false }
    ensures there { IfOk result (λ line. (t : Forest) → HoldsTree P.Pages pages.old map.now.tree t → HasRow line t) }
    ensures named { IfOk result (λ line. line.block ≡ block) }
    ensures used { IfOk result (λ line. line.state ≡ BlockState.Used) }
    ensures same { (P.state pages.new).work ≡ (P.state pages.old).work }
    ensures runs { RunsOverPages P.Pages NoPage (IsTreePage P.Pages pages.old map.now.tree) (BreaksMapTree P.Pages pages.old map.now.tree (MapsUsed block)) pages.old pages.new (fault_of result) }
{
    let Some(line) = map.get(pages, block)? else {
        return Err(unmapped(def));
    };
    if line.state != BlockState::Used {
        return Err(unmapped(def));
    }
    Ok(line)
}
