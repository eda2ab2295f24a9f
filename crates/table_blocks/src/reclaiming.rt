// A Free block is given back.
ghost use Rattle.std.specs.Prelude.{◌≡◌, ◌<◌, List, Contains, false, length, OnOk};
ghost use Rattle.store_api.specs.Causes.{fault_of};
ghost use Rattle.store_api.specs.RunsOverPages.{RunsOverPages};
ghost use Rattle.extent_map.specs.declared.kind.Kind.{Kind};
ghost use Rattle.mdc_ast.specs.TableLimits.{IsTableDef};
ghost use Rattle.block_map.specs.MapLines.{free_blocks};
ghost use Rattle.table_trees.specs.SpaceChanges.{MakesChanges};
ghost use Rattle.mdc_sound.specs.StandingTable.{BreaksExpected, StandsTable, TableForests, pages_of};
ghost use Rattle.table_blocks.specs.BlockChanges.{IsTreeOrMapPageOfTable};
ghost use Rattle.table_blocks.specs.BlockSteps.{HasFreeBlock, ReclaimsBlock, reclaimed_changes};

use block_map::BlockMap;
use extent_map::SpaceNotes;
use mdc_ast::TableDef;
use std::alloc::Global;
use store_api::{Pages, Shape, StoreFault};

/// Gives a Free block of the table back: it leaves the block map, and its extent is free. Its row pages aren't looked at, and stay. It
/// claims no page. Damaged where the block map doesn't name the block, or its extent is no block. After a fault `undo` goes back to a
/// mark, and the notes of free space are to be forgotten.
pub fn reclaim_block<P: Pages>(
    alloc: Global,
    def: &TableDef,
    shape: Shape,
    notes: &mut SpaceNotes,
    pages: &mut P,
    block: u32,
) -> Result<(), StoreFault>
    requires defined { IsTableDef def.now.number def.now }
    requires within { block < shape.extents }
    requires going { (P.state pages.old).ended ≡ false }
    ensures reclaims { OnOk result ((owners : List Kind) (forests : TableForests) → StandsTable P.Pages shape pages.old def.now owners forests → Contains (free_blocks forests.map) block
        → ReclaimsBlock P.Pages shape notes.old notes.new pages.old pages.new def.now block owners forests) }
    ensures makes { OnOk result ((owners : List Kind) (forests : TableForests) → StandsTable P.Pages shape pages.old def.now owners forests → Contains (free_blocks forests.map) block
        → MakesChanges shape (pages_of P.Pages pages.old) (reclaimed_changes def.now block) (pages_of P.Pages pages.new)) }
    ensures count { length (P.state pages.new).work ≡ length (P.state pages.old).work }
    ensures runs { RunsOverPages P.Pages (IsTreeOrMapPageOfTable P.Pages shape pages.old def.now) (IsTreeOrMapPageOfTable P.Pages shape pages.old def.now)
        (BreaksExpected P.Pages shape pages.old def.now (HasFreeBlock block)) pages.old pages.new (fault_of result) }
{
    let map = BlockMap::at(alloc, def.roots.map);
    map.leave(shape, notes, pages, block)?;
    notes.give_back(shape, pages, block)
}
