// A block goes out of use.
ghost use Rattle.std.specs.Prelude.{◌≡◌, ◌≢◌, ◌<◌, List, false, length, OnOk};
ghost use Rattle.mdc_values.specs.declared.value.Value.{Value};
ghost use Rattle.store_api.specs.Causes.{fault_of};
ghost use Rattle.store_api.specs.RunsOverPages.{RunsOverPages};
ghost use Rattle.extent_map.specs.declared.kind.Kind.{Kind};
ghost use Rattle.mdc_ast.specs.TableLimits.{IsTableDef};
ghost use Rattle.block_index.specs.Cells.{FitsCell};
ghost use Rattle.table_trees.specs.SpaceChanges.{MakesChanges};
ghost use Rattle.mdc_sound.specs.StandingTable.{BreaksExpected, StandsTable, TableForests, pages_of};
ghost use Rattle.table_blocks.specs.AroundBlock.{StandsAround};
ghost use Rattle.table_blocks.specs.BlockChanges.{BreaksAround, IsPlaceAround, IsTreeOrMapPageOfTable};
ghost use Rattle.table_blocks.specs.BlockNow.{IsKeyedCell, IsOwnBlock};
ghost use Rattle.table_blocks.specs.BlockSteps.{ExpectsReleasing, ReleasesBlock, TurnsReleased, released_changes};

use block_index::unlist_block;
use block_map::{BlockMap, BlockRow, BlockState};
use extent_map::SpaceNotes;
use mdc_ast::{Cell, TableDef};
use std::alloc::Global;
use store_api::{Pages, Shape, StoreFault};

/// Makes the block of this line Free or Pending, whichever state is given, and takes it out of the block indexes, in which it is
/// listed under this cell. Its row pages aren't looked at, and stay. It claims no page. Damaged where the block map hasn't that line,
/// or an index hasn't the block. After a fault `undo` goes back to a mark.
pub fn release_block<P: Pages>(
    alloc: Global,
    def: &TableDef,
    shape: Shape,
    notes: &mut SpaceNotes,
    pages: &mut P,
    line: BlockRow,
    state: BlockState,
    cell: &Cell,
) -> Result<(), StoreFault>
    requires defined { IsTableDef def.now.number def.now }
    requires idle { state ≢ BlockState.Used }
    requires cell { FitsCell def.now cell.now.values }
    requires going { (P.state pages.old).ended ≡ false }
    ensures turns { OnOk result ((owners : List Kind) (forests : TableForests) → StandsTable P.Pages shape pages.old def.now owners forests → ExpectsReleasing def.now line cell.now owners forests
        → TurnsReleased P.Pages shape notes.old notes.new pages.old pages.new def.now line.block state owners forests) }
    ensures releases { OnOk result ((owners : List Kind) (forests : TableForests) (values : List Value) → StandsAround P.Pages shape pages.old def.now owners forests line.block
        → IsOwnBlock shape owners def.now line.block → IsKeyedCell def.now cell.now values
        → ReleasesBlock P.Pages shape notes.old notes.new pages.old pages.new def.now line.block state values owners forests) }
    ensures makes { OnOk result ((owners : List Kind) (forests : TableForests) → StandsAround P.Pages shape pages.old def.now owners forests line.block → IsOwnBlock shape owners def.now line.block
        → MakesChanges shape (pages_of P.Pages pages.old) (released_changes def.now cell.now state line) (pages_of P.Pages pages.new)) }
    ensures count { length (P.state pages.new).work ≡ length (P.state pages.old).work }
    ensures runs_of_table { RunsOverPages P.Pages (IsTreeOrMapPageOfTable P.Pages shape pages.old def.now) (IsTreeOrMapPageOfTable P.Pages shape pages.old def.now)
        (BreaksExpected P.Pages shape pages.old def.now (ExpectsReleasing def.now line cell.now)) pages.old pages.new (fault_of result) }
    ensures runs { RunsOverPages P.Pages (IsPlaceAround P.Pages shape pages.old def.now line.block) (IsPlaceAround P.Pages shape pages.old def.now line.block)
        (BreaksAround P.Pages shape pages.old def.now line.block (ExpectsReleasing def.now line cell.now)) pages.old pages.new (fault_of result) }
{
    let map = BlockMap::at(alloc, def.roots.map);
    let released = BlockRow {
        block: line.block,
        state,
        rows: 0,
    };
    map.replace(pages, line, released)?;
    unlist_block(alloc, def, shape, notes, pages, cell, line.block)
}
