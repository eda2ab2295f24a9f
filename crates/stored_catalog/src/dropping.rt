// A table less.
ghost use Rattle.std.specs.Prelude.{◌≡◌, ◌+◌, ◌<◌, ◌∷◌, [], List, length, false, None, IsTrue, IsSome, OnErr, OnOk};
ghost use Rattle.mdc_ast.specs.Database.{Database, with_place};
ghost use Rattle.mdc_ast.specs.Definitions.{def_at, without_def};
ghost use Rattle.store_api.specs.Causes.{fault_of};
ghost use Rattle.store_api.specs.RunsOverPages.{RunsOverPages};
ghost use Rattle.store_api.specs.StoreState.{zero_page};
ghost use Rattle.extent_map.specs.Map.{IsMapPage};
ghost use Rattle.extent_map.specs.declared.kind.Kind.{Kind};
ghost use Rattle.entry_tree.specs.Forest.{Forest};
ghost use Rattle.mdc_ast.specs.TableLimits.{IsTableDef};
ghost use Rattle.block_map.specs.MapLines.{blocks_of_state};
ghost use Rattle.block_map.specs.MapRows.{state_number};
ghost use Rattle.table_trees.specs.TableTrees.{tree_places};
ghost use Rattle.table_trees.specs.TreesBeside.{IsTreesOrMapPage, StandTrees};
ghost use Rattle.mdc_sound.specs.SoundDatabase.{KeepAllRules};
ghost use Rattle.mdc_sound.specs.SpaceRules.{DatabaseView};
ghost use Rattle.mdc_sound.specs.StandingTable.{BreaksTable};
ghost use Rattle.mdc_sound.specs.StandsForDatabase.{PagesStandFor};
ghost use Rattle.mdc_sound.specs.TablePages.{DefinesTable, table_page_at};
ghost use Rattle.stored_catalog.specs.StoredDefinitions.{AreStored, AreWithinLimits};
ghost use Rattle.stored_catalog.specs.TableSteps.{DropsTable};
ghost use Rattle.stored_catalog.specs.TreeRuns.{BreaksDropping, BreaksGiving, BreaksTrees, FreesTrees, GivesBlocks, IsDroppedPage, IsDroppingPage, blocks_in_map};

use crate::saving::clear_def;
use block_map::{BlockMap, BlockState};
use catalog::Catalog;
use extent_map::SpaceNotes;
use mdc_ast::TableDef;
use std::alloc::Global;
use store_api::rules::BLOCK_MAPS_RULE;
use store_api::{Damage, Pages, Shape, StoreFault};
use table_trees::{block_index_tree, block_map_tree, record_tree};

/// Drops the table in a place: its blocks and the pages of its trees are given back, no space is taken, and its table page is
/// zeros. Rows aren't looked at. Damaged names a part of the table. After a fault the catalog is as it was, `undo` goes back to
/// a mark, and the notes of the extents are to be forgotten.
pub fn drop_table<P: Pages>(
    alloc: Global,
    catalog: &mut Catalog,
    shape: Shape,
    notes: &mut SpaceNotes,
    pages: &mut P,
    table: u8,
) -> Result<(), StoreFault>
    requires place { table < 16 }
    requires there { IsSome (def_at catalog.old table) }
    requires catalog { AreWithinLimits catalog.old }
    requires going { (P.state pages.old).ended ≡ false }
    ensures left { OnOk result (catalog.new ≡ without_def catalog.old table) }
    ensures kept { OnErr result (catalog.new ≡ catalog.old) }
    ensures limits { OnOk result (AreWithinLimits catalog.new) }
    ensures stored { OnOk result (IsTrue (P.state pages.old).is_told → AreStored (P.state pages.old).work catalog.old → AreStored (P.state pages.new).work catalog.new) }
    ensures drops { OnOk result (IsTrue (P.state pages.old).is_told → AreStored (P.state pages.old).work catalog.old → (view : DatabaseView) → KeepAllRules shape (P.state pages.old).work view
        → DropsTable shape notes.old notes.new (P.state pages.old).work (P.state pages.new).work table view) }
    ensures stands_for { OnOk result (IsTrue (P.state pages.old).is_told → AreStored (P.state pages.old).work catalog.old → (view : DatabaseView) → KeepAllRules shape (P.state pages.old).work view
        → (db : Database) → PagesStandFor shape (P.state pages.old).work db → PagesStandFor shape (P.state pages.new).work (with_place db table None)) }
    ensures count { length (P.state pages.new).work ≡ length (P.state pages.old).work }
    ensures runs { RunsOverPages P.Pages (IsDroppingPage shape table) (IsDroppedPage P.Pages shape pages.old catalog.old table)
        (BreaksDropping P.Pages shape pages.old catalog.old table) pages.old pages.new (fault_of result) }
{
    let Some(def) = catalog.def(table) else {
        unreachable!()
    };
    unmake_table(alloc, shape, notes, pages, table, def)?;
    catalog.leave(table);
    Ok(())
}

/// Gives the blocks and the trees of a table back, and clears its table page.
fn unmake_table<P: Pages>(
    alloc: Global,
    shape: Shape,
    notes: &mut SpaceNotes,
    pages: &mut P,
    table: u8,
    def: &TableDef,
) -> Result<(), StoreFault>
    requires place { table < 16 }
    requires defined { IsTableDef table def.now }
    requires going { (P.state pages.old).ended ≡ false }
    ensures clears { OnOk result (IsTrue (P.state pages.old).is_told → DefinesTable (P.state pages.old).work table def.now → table_page_at (P.state pages.new).work table ≡ zero_page) }
    ensures drops { OnOk result (IsTrue (P.state pages.old).is_told → DefinesTable (P.state pages.old).work table def.now → (view : DatabaseView) → KeepAllRules shape (P.state pages.old).work view
        → DropsTable shape notes.old notes.new (P.state pages.old).work (P.state pages.new).work table view) }
    ensures stands_for { OnOk result (IsTrue (P.state pages.old).is_told → DefinesTable (P.state pages.old).work table def.now → (view : DatabaseView) → KeepAllRules shape (P.state pages.old).work view
        → (db : Database) → PagesStandFor shape (P.state pages.old).work db → PagesStandFor shape (P.state pages.new).work (with_place db table None)) }
    ensures count { length (P.state pages.new).work ≡ length (P.state pages.old).work }
    ensures runs { RunsOverPages P.Pages (IsDroppingPage shape table) (IsTreesOrMapPage P.Pages shape pages.old (tree_places def.now))
        (BreaksTable P.Pages shape pages.old def.now) pages.old pages.new (fault_of result) }
{
    give_blocks(alloc, shape, notes, pages, def)?;
    free_trees(alloc, shape, notes, pages, def)?;
    clear_def(pages, table)
}

/// Gives all blocks of a table back.
fn give_blocks<P: Pages>(
    alloc: Global,
    shape: Shape,
    notes: &mut SpaceNotes,
    pages: &mut P,
    def: &TableDef,
) -> Result<(), StoreFault>
    requires going { (P.state pages.old).ended ≡ false }
    ensures gives { OnOk result ((owners : List Kind) (map_tree : Forest) (rest : List Forest) → StandTrees P.Pages shape pages.old owners (tree_places def.now) (map_tree ∷ rest)
        → GivesBlocks P.Pages shape notes.old notes.new pages.new owners (blocks_in_map map_tree)) }
    ensures count { length (P.state pages.new).work ≡ length (P.state pages.old).work }
    ensures runs { RunsOverPages P.Pages (IsMapPage shape) (IsTreesOrMapPage P.Pages shape pages.old (tree_places def.now))
        (BreaksTable P.Pages shape pages.old def.now) pages.old pages.new (fault_of result) }
{
    give_blocks_in(alloc, shape, notes, pages, def, BlockState::Free)?;
    give_blocks_in(alloc, shape, notes, pages, def, BlockState::Used)?;
    give_blocks_in(alloc, shape, notes, pages, def, BlockState::Pending)
}

/// Gives the blocks back that the block map of a table names in a state.
fn give_blocks_in<P: Pages>(
    alloc: Global,
    shape: Shape,
    notes: &mut SpaceNotes,
    pages: &mut P,
    def: &TableDef,
    state: BlockState,
) -> Result<(), StoreFault>
    requires going { (P.state pages.old).ended ≡ false }
    ensures gives { OnOk result ((owners : List Kind) (map_tree : Forest) (rest : List Forest) → StandTrees P.Pages shape pages.old owners (tree_places def.now) (map_tree ∷ rest)
        → GivesBlocks P.Pages shape notes.old notes.new pages.new owners (blocks_of_state (state_number state) map_tree)) }
    ensures count { length (P.state pages.new).work ≡ length (P.state pages.old).work }
    ensures runs { RunsOverPages P.Pages (IsMapPage shape) (IsTreesOrMapPage P.Pages shape pages.old (tree_places def.now))
        (BreaksGiving P.Pages shape pages.old def.now (state_number state)) pages.old pages.new (fault_of result) }
{
    let blocks = BlockMap::at(alloc, def.roots.map).list(pages, state)?;
    for block in blocks.as_slice() {
        if *block >= shape.extents {
            return Err(no_extent(def));
        }
        notes.give_back(shape, pages, *block)?;
    }
    Ok(())
}

/// Gives all pages of the trees of a table back, those of its record indexes too.
fn free_trees<P: Pages>(
    alloc: Global,
    shape: Shape,
    notes: &mut SpaceNotes,
    pages: &mut P,
    def: &TableDef,
) -> Result<(), StoreFault>
    requires defined { IsTableDef def.now.number def.now }
    requires going { (P.state pages.old).ended ≡ false }
    ensures frees { OnOk result ((owners : List Kind) (trees : List Forest) → StandTrees P.Pages shape pages.old owners (tree_places def.now) trees
        → FreesTrees P.Pages shape notes.old notes.new pages.new owners trees) }
    ensures count { length (P.state pages.new).work ≡ length (P.state pages.old).work }
    ensures runs { RunsOverPages P.Pages (IsMapPage shape) (IsTreesOrMapPage P.Pages shape pages.old (tree_places def.now))
        (BreaksTrees P.Pages shape pages.old def.now) pages.old pages.new (fault_of result) }
{
    block_map_tree(alloc, def).free_all(shape, notes, pages)?;
    for index in 0..def.dims.len() + 1 {
        block_index_tree(alloc, def, index).free_all(shape, notes, pages)?;
    }
    for number in 0..def.indexes.len() {
        record_tree(alloc, def, number).free_all(shape, notes, pages)?;
    }
    Ok(())
}

/// The fault of a block map that names no extent.
fn no_extent(def: &TableDef) -> StoreFault
    ensures { result ≡ StoreFault.Damaged (record { page = def.now.roots.map; rule = 6 }) }
{
    StoreFault::Damaged(Damage {
        page: def.roots.map,
        rule: BLOCK_MAPS_RULE,
    })
}
