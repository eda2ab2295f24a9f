// A row more in a Used block.
ghost use Rattle.std.specs.Prelude.{◌≡◌, ◌<◌, List, Option, Some, None, false, length, IfOk, IfSome, OnOk, slice_index_or};
ghost use Rattle.store_api.specs.Causes.{fault_of};
ghost use Rattle.store_api.specs.RunsOverPages.{RunsOverPages};
ghost use Rattle.extent_map.specs.declared.kind.Kind.{Kind};
ghost use Rattle.extent_map.specs.declared.space_notes.SpaceNotes.{SpaceNotes};
ghost use Rattle.mdc_ast.specs.declared.row.Row.{Row};
ghost use Rattle.mdc_ast.specs.TableLimits.{IsTableDef};
ghost use Rattle.table_trees.specs.SpaceChanges.{MakesChanges};
ghost use Rattle.block_rows.specs.HeldRows.{HoldsRows, PutsFirst};
ghost use Rattle.mdc_ast.specs.FittingRows.{RowFits};
ghost use Rattle.mdc_sound.specs.Placing.{HasRoomFor};
ghost use Rattle.mdc_sound.specs.Placing.Spot.{OtherBlock};
ghost use Rattle.mdc_sound.specs.RunningFull.{block_changes};
ghost use Rattle.mdc_sound.specs.StandingTable.{BreaksExpected, BreaksTable, IsBlockOrMapPage, IsPageOfBlock, StandsTable, TableForests, pages_of, spots_of};
ghost use Rattle.table_blocks.specs.BlockChanges.{BreaksAround};
ghost use Rattle.table_blocks.specs.BlockSteps.{FillsSlot, HasEmptySlot, HasRoomAt};
ghost use Rattle.table_blocks.specs.Seats.{HasSeat};

use crate::faults::miscounted;
use block_map::{BlockMap, BlockRow, BlockState, FoundRow};
use block_rows::{find_seat, put_first, put_slot};
use mdc_ast::{Row, TableDef};
use mdc_values::Rid;
use row_page::capacity;
use std::alloc::Global;
use store_api::{Pages, Shape, StoreFault};

/// Puts a row into the lowest empty slot of a Used block of its cell, which has this line in the block map and has room, and
/// answers where it lies. Damaged where the block hasn't that line, or no slot is empty. It claims no page.
pub fn put_in_block<P: Pages>(
    alloc: Global,
    def: &TableDef,
    shape: Shape,
    pages: &mut P,
    line: BlockRow,
    row: &Row,
) -> Result<Rid, StoreFault>
    requires defined { IsTableDef def.now.number def.now }
    requires fits { RowFits def.now row.now }
    requires used { line.state ≡ BlockState.Used }
    requires within { line.block < shape.extents }
    requires going { (P.state pages.old).ended ≡ false }
    ensures block { IfOk result (λ rid. rid.block ≡ line.block) }
    ensures fills { IfOk result (λ rid. (noted : SpaceNotes) (owners : List Kind) (forests : TableForests) → StandsTable P.Pages shape pages.old def.now owners forests
        → HasRoomAt P.Pages shape pages.old def.now line row.now owners forests → FillsSlot P.Pages shape noted pages.old pages.new def.now rid row.now owners forests) }
    ensures makes { IfOk result (λ rid. (owners : List Kind) (forests : TableForests) → StandsTable P.Pages shape pages.old def.now owners forests
        → HasRoomAt P.Pages shape pages.old def.now line row.now owners forests
        → MakesChanges shape (pages_of P.Pages pages.old) (block_changes def.now row.now line.block (slice_index_or (spots_of P.Pages shape pages.old def.now owners forests) line.block OtherBlock)) (pages_of P.Pages pages.new)) }
    ensures count { length (P.state pages.new).work ≡ length (P.state pages.old).work }
    ensures runs { RunsOverPages P.Pages (IsBlockOrMapPage P.Pages shape pages.old def.now line.block) (IsBlockOrMapPage P.Pages shape pages.old def.now line.block)
        (BreaksExpected P.Pages shape pages.old def.now (HasRoomAt P.Pages shape pages.old def.now line row.now)) pages.old pages.new (fault_of result) }
{
    let Some(rows) = line.rows.checked_add(1) else {
        return Err(miscounted(shape, line.block));
    };
    let map = BlockMap::at(alloc, def.roots.map);
    let more = BlockRow {
        block: line.block,
        state: BlockState::Used,
        rows,
    };
    map.replace(pages, line, more)?;
    let slot = put_counted(def, shape, pages, line.block, row)?;
    Ok(Rid {
        block: line.block,
        slot,
    })
}

/// Puts a row into the lowest empty slot of a Used block of the table that is of the row's cell by the row in its lowest slot, and
/// answers where it lies. None where the block is no such block, or has no room: then nothing is changed. It claims no page.
pub fn put_if_room<P: Pages>(
    alloc: Global,
    def: &TableDef,
    shape: Shape,
    pages: &mut P,
    block: u32,
    row: &Row,
) -> Result<Option<Rid>, StoreFault>
    requires defined { IsTableDef def.now.number def.now }
    requires fits { RowFits def.now row.now }
    requires within { block < shape.extents }
    requires going { (P.state pages.old).ended ≡ false }
    ensures block { IfOk result (λ put. IfSome put (λ rid. rid.block ≡ block)) }
    ensures fills { IfOk result (λ put. IfSome put (λ rid. (noted : SpaceNotes) (owners : List Kind) (forests : TableForests) → StandsTable P.Pages shape pages.old def.now owners forests
        → HasRoomFor def.now row.now (slice_index_or (spots_of P.Pages shape pages.old def.now owners forests) block OtherBlock) × FillsSlot P.Pages shape noted pages.old pages.new def.now rid row.now owners forests)) }
    ensures makes { IfOk result (λ put. IfSome put (λ rid. (owners : List Kind) (forests : TableForests) → StandsTable P.Pages shape pages.old def.now owners forests
        → MakesChanges shape (pages_of P.Pages pages.old) (block_changes def.now row.now block (slice_index_or (spots_of P.Pages shape pages.old def.now owners forests) block OtherBlock)) (pages_of P.Pages pages.new))) }
    ensures kept { IfOk result (λ put. put ≡ None → (P.state pages.new).work ≡ (P.state pages.old).work) }
    ensures count { length (P.state pages.new).work ≡ length (P.state pages.old).work }
    ensures runs { RunsOverPages P.Pages (IsBlockOrMapPage P.Pages shape pages.old def.now block) (IsBlockOrMapPage P.Pages shape pages.old def.now block)
        (BreaksTable P.Pages shape pages.old def.now) pages.old pages.new (fault_of result) }
{
    let map = BlockMap::at(alloc, def.roots.map);
    let slots = shape.extent_pages * u32::from(capacity(&def.columns));
    // The block map is asked first: the block's pages are looked at only where it is the table's own.
    let Some(line) = map.find_room(pages, block, slots)? else {
        return Ok(None);
    };
    let Some(slot) = find_seat(def, shape, pages, block, row)? else {
        return Ok(None);
    };
    let rid = Rid { block, slot };
    put_in_seat(def, shape, &map, pages, &line, rid, row)?;
    Ok(Some(rid))
}

/// Puts a row into its seat in a block, and counts it.
fn put_in_seat<P: Pages>(
    def: &TableDef,
    shape: Shape,
    map: &BlockMap,
    pages: &mut P,
    line: &FoundRow,
    rid: Rid,
    row: &Row,
) -> Result<(), StoreFault>
    requires defined { IsTableDef def.now.number def.now }
    requires fits { RowFits def.now row.now }
    requires root { map.now.tree.root ≡ def.now.roots.map }
    requires within { rid.block < shape.extents }
    requires seat { HasSeat P.Pages shape pages.old def.now map.now.tree rid.block row.now line.now rid.slot }
    requires going { (P.state pages.old).ended ≡ false }
    ensures fills { OnOk result ((noted : SpaceNotes) (owners : List Kind) (forests : TableForests) → StandsTable P.Pages shape pages.old def.now owners forests
        → HasRoomFor def.now row.now (slice_index_or (spots_of P.Pages shape pages.old def.now owners forests) rid.block OtherBlock)
        × FillsSlot P.Pages shape noted pages.old pages.new def.now rid row.now owners forests) }
    ensures makes { OnOk result ((owners : List Kind) (forests : TableForests) → StandsTable P.Pages shape pages.old def.now owners forests
        → MakesChanges shape (pages_of P.Pages pages.old) (block_changes def.now row.now rid.block (slice_index_or (spots_of P.Pages shape pages.old def.now owners forests) rid.block OtherBlock)) (pages_of P.Pages pages.new)) }
    ensures count { length (P.state pages.new).work ≡ length (P.state pages.old).work }
    ensures runs { RunsOverPages P.Pages (IsBlockOrMapPage P.Pages shape pages.old def.now rid.block) (IsBlockOrMapPage P.Pages shape pages.old def.now rid.block)
        (BreaksTable P.Pages shape pages.old def.now) pages.old pages.new (fault_of result) }
{
    map.count_found(pages, line)?;
    put_slot(def, shape, pages, rid, row)?;
    Ok(())
}

/// Puts a row into the lowest empty slot of a block whose line counts it already, and answers that slot. Damaged where no slot is
/// empty.
fn put_counted<P: Pages>(
    def: &TableDef,
    shape: Shape,
    pages: &mut P,
    block: u32,
    row: &Row,
) -> Result<u16, StoreFault>
    requires defined { IsTableDef def.now.number def.now }
    requires fits { RowFits def.now row.now }
    requires within { block < shape.extents }
    requires going { (P.state pages.old).ended ≡ false }
    ensures puts { IfOk result (λ slot. (slots : List (Option Row)) → HoldsRows P.Pages shape pages.old def.now block slots
        → PutsFirst P.Pages shape pages.old pages.new def.now block row.now slots (Some slot)) }
    ensures count { length (P.state pages.new).work ≡ length (P.state pages.old).work }
    ensures runs { RunsOverPages P.Pages (IsPageOfBlock shape block) (IsPageOfBlock shape block)
        (BreaksAround P.Pages shape pages.old def.now block (HasEmptySlot P.Pages shape pages.old def.now block)) pages.old pages.new (fault_of result) }
{
    let Some(slot) = put_first(def, shape, pages, block, row)? else {
        return Err(miscounted(shape, block));
    };
    Ok(slot)
}
