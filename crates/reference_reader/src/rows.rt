// The rows of a table, as they lie in its Used blocks.
ghost use Rattle.std.specs.Prelude.{◌≡◌, ℕ, Contains, false, IsTrue, IfOk, OnOk};
ghost use Rattle.store_api.specs.Causes.{fault_of};
ghost use Rattle.store_api.specs.Frame.{NoPage};
ghost use Rattle.store_api.specs.RunsOverPages.{RunsOverPages};
ghost use Rattle.entry_tree.specs.Forest.{Forest};
ghost use Rattle.row_page.specs.Row.{AreRowColumns};
ghost use Rattle.block_map.specs.MapLines.{used_blocks};
ghost use Rattle.table_trees.specs.TableTrees.{map_place};
ghost use Rattle.table_trees.specs.ToldPages.{HasTree};
ghost use Rattle.reference_reader.specs.ReadPages.{BreaksTableRows, HasRowPages, IsRowsPage};
ghost use Rattle.reference_reader.specs.ReadTables.{rows_as_they_lie};

use crate::block::rows_of_block;
use block_map::{BlockMap, BlockState};
use mdc_ast::{Row, TableDef};
use mdc_sound::told_stores_hold_their_pages;
use std::alloc::Global;
use store_api::rules::BLOCK_MAPS_RULE;
use store_api::{Damage, Pages, Shape, StoreFault};

/// Copies of the rows in the Used blocks of a table, by rising block and slot.
pub fn rows_of_table<P: Pages>(
    alloc: Global,
    shape: Shape,
    pages: &mut P,
    def: &TableDef,
) -> Result<Vec<Row>, StoreFault>
    requires columns { AreRowColumns def.now.columns }
    requires going { (P.state pages.old).ended ≡ false }
    ensures rows { IfOk result (λ rows. IsTrue (P.state pages.old).is_told → (map_tree : Forest) → HasTree (P.state pages.old).work (map_place def.now) map_tree
        → rows.items ≡ rows_as_they_lie shape (P.state pages.old).work def.now map_tree) }
    ensures judged { OnOk result (IsTrue (P.state pages.old).is_told → (map_tree : Forest) (block : ℕ) → HasTree (P.state pages.old).work (map_place def.now) map_tree
        → Contains (used_blocks map_tree) block → HasRowPages shape (P.state pages.old).work def.now block) }
    ensures same { (P.state pages.new).work ≡ (P.state pages.old).work }
    ensures runs { RunsOverPages P.Pages NoPage (IsRowsPage shape (P.state pages.old) def.now) (BreaksTableRows shape (P.state pages.old) def.now) pages.old pages.new (fault_of result) }
{
    told_stores_hold_their_pages(pages);
    let blocks = BlockMap::at(alloc, def.roots.map).list(pages, BlockState::Used)?;
    let mut rows = Vec::new(alloc);
    for block in blocks.as_slice() {
        if *block >= shape.extents {
            return Err(no_extent(def));
        }
        rows_of_block(alloc, shape, pages, def, *block, &mut rows)?;
    }
    Ok(rows)
}

/// The fault of a block map that names no extent.
fn no_extent(def: &TableDef) -> StoreFault
    ensures { result ≡ StoreFault.Damaged (record { page = def.now.roots.map; rule = 6 }) }
{
    StoreFault::Damaged(Damage {
        page: def.roots.map,
        rule: BLOCK_MAPS_RULE,
    })
}
