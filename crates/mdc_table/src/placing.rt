// A row is put where placing says.
ghost use Rattle.std.specs.Prelude.{◌≡◌, List, Option, None, false, slice_index_or, IfErr, IfOk, IfSome, IsTrue};
ghost use Rattle.store_api.specs.Causes.{fault_of, store_fault_in};
ghost use Rattle.store_api.specs.RunsOverPages.{RunsOverPages};
ghost use Rattle.extent_map.specs.Damages.{IfFull, store_part_of};
ghost use Rattle.extent_map.specs.Owners.{AreRightNotes};
ghost use Rattle.extent_map.specs.declared.kind.Kind.{Kind};
ghost use Rattle.extent_map.specs.declared.space_notes.SpaceNotes.{SpaceNotes};
ghost use Rattle.mdc_ast.specs.TableLimits.{IsTableDef};
ghost use Rattle.table_trees.specs.SpaceChanges.{MakesChanges};
ghost use Rattle.mdc_ast.specs.FittingRows.{RowFits};
ghost use Rattle.mdc_sound.specs.Placing.{HasRoomFor};
ghost use Rattle.mdc_sound.specs.Placing.Spot.{OtherBlock};
ghost use Rattle.mdc_sound.specs.RunningFull.{block_changes};
ghost use Rattle.mdc_sound.specs.StandingTable.{BreaksTable, IsBlockOrMapPage, IsTableSpace, KeepsBlocksBut, MeetsNoFree, StandsTable, TableForests, pages_of, spots_of};
ghost use Rattle.table_blocks.specs.BlockSteps.{FillsSlot};
ghost use Rattle.free_space.specs.FoundRoom.{cell_key_of};
ghost use Rattle.free_space.specs.RoomNotes.{room_of};
ghost use Rattle.mdc_table.specs.AnyPlace.{IsFreeSpot};
ghost use Rattle.mdc_table.specs.NextBlock.{BeginsNext, FindsNoPlace, NextBlockRunsFull};
ghost use Rattle.mdc_table.specs.RowSteps.{PlacesRowInTable};
ghost use Rattle.mdc_table.specs.WhereStanding.{WhereReady, WhereStands};

use crate::faults::unmapped;
use block_index::cell_key;
use block_map::{BlockMap, BlockRow, BlockState};
use extent_map::{SpaceFault, SpaceNotes};
use free_space::{Room, Rooms, find_room};
use mdc_ast::{Row, TableDef};
use mdc_values::Rid;
use std::alloc::Global;
use store_api::{Pages, Shape, StoreFault};
use table_blocks::{begin_free_block, begin_new_block, put_if_room, put_in_block};

/// Puts a row that fits the definition where placing says, and answers where it lies. The table's other blocks stay, whatever
/// their state, and it claims no more pages than the row asks for. `Full` says that no Used block of its cell has room, and that
/// it asks for more extents than are free. After a fault `undo` goes back to a mark, and the notes of free space and of the rooms are to be
/// forgotten. Whatever the notes say, the row goes into an empty slot of a Used block of its cell, of a Free block or of a free extent,
/// and the table's other blocks stay. Wrong notes cost time; the block may then not be the lowest one, and `Full` may come where there
/// is still room.
pub fn place_row<P: Pages>(
    alloc: Global,
    def: &TableDef,
    shape: Shape,
    notes: &mut SpaceNotes,
    rooms: &mut Rooms,
    pages: &mut P,
    row: &Row,
) -> Result<Rid, SpaceFault>
    requires defined { IsTableDef def.now.number def.now }
    requires fits { RowFits def.now row.now }
    requires going { (P.state pages.old).ended ≡ false }
    ensures places { IfOk result (λ rid. WhereStands P.Pages shape pages.old def.now
        (PlacesRowInTable P.Pages shape notes.old notes.new (room_of rooms.old) (room_of rooms.new) pages.old pages.new def.now row.now rid)) }
    ensures full { IfErr result (λ fault. IfFull fault (λ cap. (cap ≡ shape.extents) × WhereReady P.Pages shape notes.old (room_of rooms.old) pages.old def.now
        (FindsNoPlace P.Pages shape pages.old pages.new def.now row.now))) }
    ensures runs { RunsOverPages P.Pages (IsTableSpace P.Pages shape pages.old def.now) (IsTableSpace P.Pages shape pages.old def.now)
        (BreaksTable P.Pages shape pages.old def.now) pages.old pages.new (store_fault_in store_part_of result) }
{
    let key = cell_key(alloc, def, &row.values)?;
    let room = rooms.of(&key);
    if let Some(rid) = put_where_noted(alloc, def, shape, pages, room, row)? {
        return Ok(rid);
    }
    place_by_search(alloc, def, shape, notes, rooms, pages, &key, row)
}

/// Puts a row into the block that is noted of its cell, where the row in the block's lowest slot is of that cell and the block has
/// room. None where it isn't, or hasn't: then nothing is changed. No block index is searched.
fn put_where_noted<P: Pages>(
    alloc: Global,
    def: &TableDef,
    shape: Shape,
    pages: &mut P,
    room: Room,
    row: &Row,
) -> Result<Option<Rid>, StoreFault>
    requires defined { IsTableDef def.now.number def.now }
    requires fits { RowFits def.now row.now }
    requires going { (P.state pages.old).ended ≡ false }
    ensures known { IfOk result (λ put. IfSome put (λ rid. IsTrue room.is_of_cell)) }
    ensures block { IfOk result (λ put. IfSome put (λ rid. rid.block ≡ room.first)) }
    ensures fills { IfOk result (λ put. IfSome put (λ rid. (noted : SpaceNotes) (owners : List Kind) (forests : TableForests) → StandsTable P.Pages shape pages.old def.now owners forests
        → HasRoomFor def.now row.now (slice_index_or (spots_of P.Pages shape pages.old def.now owners forests) room.first OtherBlock) × FillsSlot P.Pages shape noted pages.old pages.new def.now rid row.now owners forests)) }
    ensures makes { IfOk result (λ put. IfSome put (λ rid. (owners : List Kind) (forests : TableForests) → StandsTable P.Pages shape pages.old def.now owners forests
        → MakesChanges shape (pages_of P.Pages pages.old) (block_changes def.now row.now room.first (slice_index_or (spots_of P.Pages shape pages.old def.now owners forests) room.first OtherBlock)) (pages_of P.Pages pages.new))) }
    ensures kept { IfOk result (λ put. put ≡ None → (P.state pages.new).work ≡ (P.state pages.old).work) }
    ensures runs { RunsOverPages P.Pages (IsBlockOrMapPage P.Pages shape pages.old def.now room.first) (IsBlockOrMapPage P.Pages shape pages.old def.now room.first)
        (BreaksTable P.Pages shape pages.old def.now) pages.old pages.new (fault_of result) }
{
    if !room.is_of_cell {
        return Ok(None);
    }
    if room.first >= shape.extents {
        return Ok(None);
    }
    put_if_room(alloc, def, shape, pages, room.first, row)
}

/// The same as `place_row` for a row whose cell has this key, by a search for a block with room from the noted one on.
fn place_by_search<P: Pages>(
    alloc: Global,
    def: &TableDef,
    shape: Shape,
    notes: &mut SpaceNotes,
    rooms: &mut Rooms,
    pages: &mut P,
    key: &[u8],
    row: &Row,
) -> Result<Rid, SpaceFault>
    requires defined { IsTableDef def.now.number def.now }
    requires fits { RowFits def.now row.now }
    requires going { (P.state pages.old).ended ≡ false }
    requires key { key.now ≡ cell_key_of def.now row.now.values }
    ensures places { IfOk result (λ rid. WhereStands P.Pages shape pages.old def.now
        (PlacesRowInTable P.Pages shape notes.old notes.new (room_of rooms.old) (room_of rooms.new) pages.old pages.new def.now row.now rid)) }
    ensures full { IfErr result (λ fault. IfFull fault (λ cap. (cap ≡ shape.extents) × WhereReady P.Pages shape notes.old (room_of rooms.old) pages.old def.now
        (FindsNoPlace P.Pages shape pages.old pages.new def.now row.now))) }
    ensures runs { RunsOverPages P.Pages (IsTableSpace P.Pages shape pages.old def.now) (IsTableSpace P.Pages shape pages.old def.now)
        (BreaksTable P.Pages shape pages.old def.now) pages.old pages.new (store_fault_in store_part_of result) }
{
    let from = rooms.of(key).first;
    let Some(line) = find_room(alloc, def, shape, pages, key, from)? else {
        let block = begin_block(alloc, def, shape, notes, pages, row)?;
        rooms.note(key, block);
        return Ok(Rid { block, slot: 0 });
    };
    rooms.note(key, line.block);
    // the line of a Used block, as it is found wherever the table stands
    let line = BlockRow {
        block: line.block,
        state: BlockState::Used,
        rows: line.rows,
    };
    Ok(put_in_block(alloc, def, shape, pages, line, row)?)
}

/// Takes a block into use with a row: the lowest Free one, else the lowest free extent. Damaged where the block map names a
/// block that there isn't.
fn begin_block<P: Pages>(
    alloc: Global,
    def: &TableDef,
    shape: Shape,
    notes: &mut SpaceNotes,
    pages: &mut P,
    row: &Row,
) -> Result<u32, SpaceFault>
    requires defined { IsTableDef def.now.number def.now }
    requires fits { RowFits def.now row.now }
    requires going { (P.state pages.old).ended ≡ false }
    ensures begins { IfOk result (λ block. (owners : List Kind) (forests : TableForests) → StandsTable P.Pages shape pages.old def.now owners forests
        → BeginsNext P.Pages shape notes.old notes.new pages.old pages.new def.now block row.now owners forests) }
    ensures free { IfOk result (λ block. (owners : List Kind) (forests : TableForests) → StandsTable P.Pages shape pages.old def.now owners forests
        → IsFreeSpot (slice_index_or (spots_of P.Pages shape pages.old def.now owners forests) block OtherBlock)) }
    ensures full { IfErr result (λ fault. IfFull fault (λ cap. (cap ≡ shape.extents) × ((owners : List Kind) (forests : TableForests) → StandsTable P.Pages shape pages.old def.now owners forests
        → AreRightNotes shape notes.old owners → MeetsNoFree P.Pages shape pages.new))) }
    ensures makes { IfOk result (λ block. (owners : List Kind) (forests : TableForests) → StandsTable P.Pages shape pages.old def.now owners forests → AreRightNotes shape notes.old owners
        → MakesChanges shape (pages_of P.Pages pages.old) (block_changes def.now row.now block (slice_index_or (spots_of P.Pages shape pages.old def.now owners forests) block OtherBlock)) (pages_of P.Pages pages.new)) }
    ensures runs_full { IfErr result (λ fault. IfFull fault (λ cap. (owners : List Kind) (forests : TableForests) → StandsTable P.Pages shape pages.old def.now owners forests → AreRightNotes shape notes.old owners
        → NextBlockRunsFull shape (pages_of P.Pages pages.old) def.now row.now owners forests.map)) }
    ensures stay { IfOk result (λ block. (owners : List Kind) (forests : TableForests) → StandsTable P.Pages shape pages.old def.now owners forests → KeepsBlocksBut P.Pages shape pages.old pages.new def.now owners (λ other. other ≡ block)) }
    ensures runs { RunsOverPages P.Pages (IsTableSpace P.Pages shape pages.old def.now) (IsTableSpace P.Pages shape pages.old def.now)
        (BreaksTable P.Pages shape pages.old def.now) pages.old pages.new (store_fault_in store_part_of result) }
{
    let map = BlockMap::at(alloc, def.roots.map);
    let Some(block) = map.first_free(pages)? else {
        return begin_new_block(alloc, def, shape, notes, pages, row);
    };
    if block >= shape.extents {
        return Err(SpaceFault::Store(unmapped(def)));
    }
    begin_free_block(alloc, def, shape, notes, pages, block, row)?;
    Ok(block)
}
