// Places of rows in Used blocks.
ghost use Rattle.std.specs.Prelude.{◌≡◌, false, IfOk};
ghost use Rattle.store_api.specs.Causes.{fault_of};
ghost use Rattle.store_api.specs.Frame.{NoPage};
ghost use Rattle.store_api.specs.RunsOverPages.{RunsOverPages};
ghost use Rattle.entry_tree.specs.Forest.{Forest};
ghost use Rattle.entry_tree.specs.HeldTrees.{HoldsTree, IsTreePage};
ghost use Rattle.block_map.specs.BlockMaps.{AnyMap, BreaksMapTree};
ghost use Rattle.table_trees.specs.TableTrees.{map_place};
ghost use Rattle.table_trees.specs.TreesBeside.{HoldsTreeAt, IsTreePageAt};
ghost use Rattle.live_rows.specs.LiveRids.{BreaksMapAt, HasMapForm, live_rids};

use crate::blocks::{see_block, see_next};
use block_map::BlockMap;
use mdc_ast::TableDef;
use mdc_values::Rids;
use std::alloc::Global;
use store_api::{Pages, StoreFault};

/// Those of these places whose block is a Used one of the table, in their order. It asks the block map once for each block, and
/// brings nothing else to hand.
pub fn live<P: Pages>(
    alloc: Global,
    def: &TableDef,
    pages: &mut P,
    rids: &Rids,
) -> Result<Rids, StoreFault>
    requires going { (P.state pages.old).ended ≡ false }
    ensures kept { IfOk result (λ kept. (t : Forest) → HoldsTreeAt P.Pages pages.old (map_place def.now) t → HasMapForm t → kept ≡ live_rids t rids.now) }
    ensures same { (P.state pages.new).work ≡ (P.state pages.old).work }
    ensures runs { RunsOverPages P.Pages NoPage (IsTreePageAt P.Pages pages.old (map_place def.now)) (BreaksMapAt P.Pages pages.old (map_place def.now)) pages.old pages.new (fault_of result) }
{
    let map = BlockMap::at(alloc, def.roots.map);
    live_in(alloc, &map, pages, rids)
}

/// Those of some places whose block is a Used one of a block map.
fn live_in<P: Pages>(
    alloc: Global,
    map: &BlockMap,
    pages: &mut P,
    rids: &Rids,
) -> Result<Rids, StoreFault>
    requires going { (P.state pages.old).ended ≡ false }
    ensures kept { IfOk result (λ kept. (t : Forest) → HoldsTree P.Pages pages.old map.now.tree t → HasMapForm t → kept ≡ live_rids t rids.now) }
    ensures same { (P.state pages.new).work ≡ (P.state pages.old).work }
    ensures runs { RunsOverPages P.Pages NoPage (IsTreePage P.Pages pages.old map.now.tree) (BreaksMapTree P.Pages pages.old map.now.tree AnyMap) pages.old pages.new (fault_of result) }
{
    let mut kept = Rids::new(alloc);
    let Some(first) = rids.as_slice().first() else {
        return Ok(kept);
    };
    let mut seen = see_block(map, pages, first.block)?;
    for rid in rids.as_slice() {
        seen = see_next(map, pages, seen, rid.block)?;
        if !seen.is_used {
            continue;
        }
        kept.push(*rid)?;
    }
    Ok(kept)
}
