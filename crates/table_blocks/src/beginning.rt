// A block comes into use with its first row.
ghost use Rattle.std.specs.Prelude.{◌≡◌, ◌<◌, List, Contains, false, IfErr, IfOk, OnOk, slice_index_or};
ghost use Rattle.store_api.specs.Causes.{store_fault_in};
ghost use Rattle.store_api.specs.RunsOverPages.{RunsOverPages};
ghost use Rattle.extent_map.specs.Damages.{IfFull, store_part_of};
ghost use Rattle.extent_map.specs.Owners.{AreRightNotes, IsLowestFree};
ghost use Rattle.extent_map.specs.declared.kind.Kind.{Kind};
ghost use Rattle.mdc_ast.specs.TableLimits.{IsTableDef};
ghost use Rattle.block_map.specs.MapLines.{free_blocks};
ghost use Rattle.table_trees.specs.SpaceChanges.{MakesChanges, RunsFull, added_entries};
ghost use Rattle.mdc_ast.specs.FittingRows.{RowFits};
ghost use Rattle.mdc_sound.specs.Placing.Spot.{FreeBlock, FreeExtent, OtherBlock};
ghost use Rattle.mdc_sound.specs.RunningFull.{block_changes, block_listings};
ghost use Rattle.mdc_sound.specs.StandingTable.{BreaksExpected, BreaksTable, IsSpaceOfBlock, IsTreeSpaceOfTable, MeetsNoFree, StandsTable, TableForests, pages_of, spots_of};
ghost use Rattle.table_blocks.specs.AroundBlock.{StandsAround};
ghost use Rattle.table_blocks.specs.BlockChanges.{BreaksAround, IsSpaceAround};
ghost use Rattle.table_blocks.specs.BlockNow.{IsOwnBlock, IsUnlisted};
ghost use Rattle.table_blocks.specs.BlockSteps.{BeginsBlock, FillsBegun, HasFreeBlock, NewBlockRunsFull};

use crate::cells::cell_of;
use block_index::list_block;
use block_map::{BlockMap, BlockRow, BlockState};
use block_rows::{put_slot, wipe_block};
use extent_map::{SpaceFault, SpaceNotes};
use mdc_ast::{Row, TableDef};
use mdc_values::Rid;
use std::alloc::Global;
use store_api::{Pages, Shape};

/// Takes a Free block of the table into use, with a row in its lowest slot, and lists it under the row's cell. Damaged where
/// the block isn't Free. `Full` says that an entry asks for more pages than there are; then `undo` goes back, and the notes of
/// free space are to be forgotten.
pub fn begin_free_block<P: Pages>(
    alloc: Global,
    def: &TableDef,
    shape: Shape,
    notes: &mut SpaceNotes,
    pages: &mut P,
    block: u32,
    row: &Row,
) -> Result<(), SpaceFault>
    requires defined { IsTableDef def.now.number def.now }
    requires fits { RowFits def.now row.now }
    requires within { block < shape.extents }
    requires going { (P.state pages.old).ended ≡ false }
    ensures begins { OnOk result ((owners : List Kind) (forests : TableForests) → StandsTable P.Pages shape pages.old def.now owners forests → Contains (free_blocks forests.map) block
        → BeginsBlock P.Pages shape notes.old notes.new pages.old pages.new def.now block row.now owners forests) }
    ensures full { IfErr result (λ fault. IfFull fault (λ cap. (cap ≡ shape.extents) × ((owners : List Kind) (forests : TableForests) → StandsTable P.Pages shape pages.old def.now owners forests
        → AreRightNotes shape notes.old owners → MeetsNoFree P.Pages shape pages.new))) }
    ensures makes { OnOk result ((owners : List Kind) (forests : TableForests) → StandsTable P.Pages shape pages.old def.now owners forests → Contains (free_blocks forests.map) block
        → AreRightNotes shape notes.old owners → MakesChanges shape (pages_of P.Pages pages.old) (block_changes def.now row.now block FreeBlock) (pages_of P.Pages pages.new)) }
    ensures runs_full { IfErr result (λ fault. IfFull fault (λ cap. (owners : List Kind) (forests : TableForests) → StandsTable P.Pages shape pages.old def.now owners forests → Contains (free_blocks forests.map) block
        → AreRightNotes shape notes.old owners → RunsFull shape (pages_of P.Pages pages.old) (block_changes def.now row.now block FreeBlock))) }
    ensures runs { RunsOverPages P.Pages (IsSpaceOfBlock P.Pages shape pages.old def.now block) (IsSpaceOfBlock P.Pages shape pages.old def.now block)
        (BreaksExpected P.Pages shape pages.old def.now (HasFreeBlock block)) pages.old pages.new (store_fault_in store_part_of result) }
{
    let map = BlockMap::at(alloc, def.roots.map);
    let free = BlockRow {
        block,
        state: BlockState::Free,
        rows: 0,
    };
    map.replace(pages, free, first_line(block))?;
    fill_begun(alloc, def, shape, notes, pages, block, row)
}

/// Claims the lowest free extent as a block of the table, and takes it into use with a row in its lowest slot. It answers the
/// block's number. `Full` says that there is no free extent, or that an entry asks for more pages than there are; then `undo` goes back, and the notes of
/// free space are to be forgotten.
pub fn begin_new_block<P: Pages>(
    alloc: Global,
    def: &TableDef,
    shape: Shape,
    notes: &mut SpaceNotes,
    pages: &mut P,
    row: &Row,
) -> Result<u32, SpaceFault>
    requires defined { IsTableDef def.now.number def.now }
    requires fits { RowFits def.now row.now }
    requires going { (P.state pages.old).ended ≡ false }
    ensures begins { IfOk result (λ block. (owners : List Kind) (forests : TableForests) → StandsTable P.Pages shape pages.old def.now owners forests
        → BeginsBlock P.Pages shape notes.old notes.new pages.old pages.new def.now block row.now owners forests) }
    ensures free { IfOk result (λ block. (owners : List Kind) (forests : TableForests) → StandsTable P.Pages shape pages.old def.now owners forests
        → slice_index_or (spots_of P.Pages shape pages.old def.now owners forests) block OtherBlock ≡ FreeExtent) }
    ensures lowest { IfOk result (λ block. (owners : List Kind) (forests : TableForests) → StandsTable P.Pages shape pages.old def.now owners forests → AreRightNotes shape notes.old owners → IsLowestFree owners block) }
    ensures full { IfErr result (λ fault. IfFull fault (λ cap. (cap ≡ shape.extents) × ((owners : List Kind) (forests : TableForests) → StandsTable P.Pages shape pages.old def.now owners forests
        → AreRightNotes shape notes.old owners → MeetsNoFree P.Pages shape pages.new))) }
    ensures makes { IfOk result (λ block. (owners : List Kind) (forests : TableForests) → StandsTable P.Pages shape pages.old def.now owners forests → AreRightNotes shape notes.old owners
        → MakesChanges shape (pages_of P.Pages pages.old) (block_changes def.now row.now block FreeExtent) (pages_of P.Pages pages.new)) }
    ensures runs_full { IfErr result (λ fault. IfFull fault (λ cap. (owners : List Kind) (forests : TableForests) → StandsTable P.Pages shape pages.old def.now owners forests → AreRightNotes shape notes.old owners
        → NewBlockRunsFull shape (pages_of P.Pages pages.old) def.now row.now owners)) }
    ensures runs { RunsOverPages P.Pages (IsTreeSpaceOfTable P.Pages shape pages.old def.now) (IsTreeSpaceOfTable P.Pages shape pages.old def.now)
        (BreaksTable P.Pages shape pages.old def.now) pages.old pages.new (store_fault_in store_part_of result) }
{
    let block = notes.claim_block(shape, pages, def.number)?;
    let map = BlockMap::at(alloc, def.roots.map);
    map.enter(shape, notes, pages, first_line(block))?;
    fill_begun(alloc, def, shape, notes, pages, block, row)?;
    Ok(block)
}

/// The line of a block with one row.
fn first_line(block: u32) -> BlockRow
    ensures { result ≡ record { block = block; state = BlockState.Used; rows = 1 } }
{
    BlockRow {
        block,
        state: BlockState::Used,
        rows: 1,
    }
}

/// Empties a block of the table, puts a row into its lowest slot, and lists it under the row's cell. Its line in the block map
/// stays.
fn fill_begun<P: Pages>(
    alloc: Global,
    def: &TableDef,
    shape: Shape,
    notes: &mut SpaceNotes,
    pages: &mut P,
    block: u32,
    row: &Row,
) -> Result<(), SpaceFault>
    requires defined { IsTableDef def.now.number def.now }
    requires fits { RowFits def.now row.now }
    requires within { block < shape.extents }
    requires going { (P.state pages.old).ended ≡ false }
    ensures fills { OnOk result ((owners : List Kind) (forests : TableForests) → StandsAround P.Pages shape pages.old def.now owners forests block → IsOwnBlock shape owners def.now block
        → FillsBegun P.Pages shape notes.old notes.new pages.old pages.new def.now block row.now owners forests) }
    ensures full { IfErr result (λ fault. IfFull fault (λ cap. (cap ≡ shape.extents) × ((owners : List Kind) (forests : TableForests) → StandsAround P.Pages shape pages.old def.now owners forests block
        → IsOwnBlock shape owners def.now block → AreRightNotes shape notes.old owners → MeetsNoFree P.Pages shape pages.new))) }
    ensures makes { OnOk result ((owners : List Kind) (forests : TableForests) → StandsAround P.Pages shape pages.old def.now owners forests block → IsOwnBlock shape owners def.now block
        → AreRightNotes shape notes.old owners → MakesChanges shape (pages_of P.Pages pages.old) (added_entries (block_listings def.now row.now block)) (pages_of P.Pages pages.new)) }
    ensures runs_full { IfErr result (λ fault. IfFull fault (λ cap. (owners : List Kind) (forests : TableForests) → StandsAround P.Pages shape pages.old def.now owners forests block → IsOwnBlock shape owners def.now block
        → AreRightNotes shape notes.old owners → RunsFull shape (pages_of P.Pages pages.old) (added_entries (block_listings def.now row.now block)))) }
    ensures runs { RunsOverPages P.Pages (IsSpaceAround P.Pages shape pages.old def.now block) (IsSpaceAround P.Pages shape pages.old def.now block)
        (BreaksAround P.Pages shape pages.old def.now block (λ owners forests. IsUnlisted def.now forests block)) pages.old pages.new (store_fault_in store_part_of result) }
{
    let cell = cell_of(alloc, def, &row.values)?;
    wipe_block(def, shape, pages, block)?;
    put_slot(def, shape, pages, Rid { block, slot: 0 }, row)?;
    list_block(alloc, def, shape, notes, pages, &cell, block)
}
