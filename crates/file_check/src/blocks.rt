// The blocks of a table.
ghost use Rattle.std.specs.Prelude.{◌≡◌, ◌<◌, ℕ, false, get_or, length, IsTrue, IfOk};
ghost use Rattle.store_api.specs.Causes.{fault_of};
ghost use Rattle.store_api.specs.Frame.{NoPage};
ghost use Rattle.store_api.specs.RunsOverPages.{RunsOverPages};
ghost use Rattle.store_api.specs.declared.shape.Shape.{Shape};
ghost use Rattle.entry_tree.specs.Forest.{Forest};
ghost use Rattle.block_map.specs.BlockMaps.{FindsBlock};
ghost use Rattle.block_map.specs.MapLines.{blocks_of_state};
ghost use Rattle.block_map.specs.MapRows.{state_number};
ghost use Rattle.table_trees.specs.TableTrees.{map_place};
ghost use Rattle.table_trees.specs.ToldPages.{HasTree};
ghost use Rattle.file_check.specs.Known.{HasBlockMap};
ghost use Rattle.file_check.specs.Looking.{AnyPage, Unless};

use block_map::{BlockMap, BlockRow, BlockState};
use mdc_ast::TableDef;
use mdc_sound::told_stores_hold_their_pages;
use mdc_values::Blocks;
use std::alloc::Global;
use store_api::rules::BLOCK_MAPS_RULE;
use store_api::{Damage, Pages, Shape, StoreFault};

/// The blocks to which the block map of a table gives a state. Each is an extent.
pub(crate) fn blocks_in_state<P: Pages>(
    alloc: Global,
    shape: Shape,
    pages: &mut P,
    def: &TableDef,
    state: BlockState,
) -> Result<Blocks, StoreFault>
    requires going { (P.state pages.old).ended ≡ false }
    ensures listed { IfOk result (λ blocks. IsTrue (P.state pages.old).is_told → (map_tree : Forest) → HasTree (P.state pages.old).work (map_place def.now) map_tree
        → blocks ≡ blocks_of_state (state_number state) map_tree) }
    ensures within { IfOk result (λ blocks. (i : ℕ) → i < length blocks → get_or blocks i 0 < shape.extents) }
    ensures same { (P.state pages.new).work ≡ (P.state pages.old).work }
    ensures runs { RunsOverPages P.Pages NoPage AnyPage
        (Unless P.Pages pages.old (λ told. (map_tree : Forest) × HasBlockMap shape told def.now map_tree)) pages.old pages.new (fault_of result) }
{
    told_stores_hold_their_pages(pages);
    let blocks = BlockMap::at(alloc, def.roots.map).list(pages, state)?;
    for block in blocks.as_slice() {
        if *block >= shape.extents {
            return Err(no_extent(def));
        }
    }
    Ok(blocks)
}

/// What the block map of a table says of a block. None where it doesn't name it.
pub(crate) fn row_in_map<P: Pages>(
    alloc: Global,
    pages: &mut P,
    def: &TableDef,
    block: u32,
) -> Result<Option<BlockRow>, StoreFault>
    requires going { (P.state pages.old).ended ≡ false }
    ensures found { IfOk result (λ row. IsTrue (P.state pages.old).is_told → (map_tree : Forest) → HasTree (P.state pages.old).work (map_place def.now) map_tree → FindsBlock map_tree block row) }
    ensures same { (P.state pages.new).work ≡ (P.state pages.old).work }
    ensures runs { RunsOverPages P.Pages NoPage AnyPage
        (Unless P.Pages pages.old (λ told. (shape : Shape) × (map_tree : Forest) × HasBlockMap shape told def.now map_tree)) pages.old pages.new (fault_of result) }
{
    told_stores_hold_their_pages(pages);
    BlockMap::at(alloc, def.roots.map).get(pages, block)
}

/// The fault of a block map that names no extent.
pub(crate) fn no_extent(def: &TableDef) -> StoreFault
    ensures { result ≡ StoreFault.Damaged (record { page = def.now.roots.map; rule = 6 }) }
{
    StoreFault::Damaged(Damage {
        page: def.roots.map,
        rule: BLOCK_MAPS_RULE,
    })
}
