// A row is taken out.
ghost use Rattle.std.specs.Prelude.{◌≡◌, false, length, IsTrue, OnOk};
ghost use Rattle.store_api.specs.Causes.{fault_of};
ghost use Rattle.store_api.specs.RunsOverPages.{RunsOverPages};
ghost use Rattle.mdc_ast.specs.TableLimits.{IsTableDef};
ghost use Rattle.mdc_sound.specs.StandingTable.{BreaksExpected, IsTableOrMapPage, KeepsBlocksBut};
ghost use Rattle.block_rows.specs.HeldRows.{HasReadValues};
ghost use Rattle.block_rows.specs.SeenRows.{SeesSomeRow};
ghost use Rattle.table_blocks.specs.BlockSteps.{HasThisRow};
ghost use Rattle.table_blocks.specs.SeenSlots.{IsMapApart, SeesUsedSlot};
ghost use Rattle.free_space.specs.RoomNotes.{room_of};
ghost use Rattle.mdc_table.specs.LoweredNotes.{LowersNoteOf, NotesRowTaken};
ghost use Rattle.mdc_table.specs.RowSteps.{TakesRowFromTable};
ghost use Rattle.mdc_table.specs.WhereStanding.{WhereStands, WhereStandsWithRow};

use crate::faults::unmapped;
use crate::reading::block_slots;
use block_index::cell_key;
use extent_map::SpaceNotes;
use free_space::Rooms;
use mdc_ast::{Row, TableDef};
use mdc_values::Rid;
use std::alloc::Global;
use store_api::{Pages, Shape, StoreFault};

/// Takes the row out that lies in a place; it is given too. Damaged where no row lies there. It claims no page. The note of the
/// row's cell stays as it is where the block had room before and keeps other rows; else it is lowered, and where memory has no
/// room for the key of the cell all notes are lost. Whatever the notes say, this row alone leaves, the table goes on standing, and
/// its other blocks stay. After a fault `undo` goes back to a mark, and the notes are to be forgotten.
pub fn take_row<P: Pages>(
    alloc: Global,
    def: &TableDef,
    shape: Shape,
    notes: &mut SpaceNotes,
    rooms: &mut Rooms,
    pages: &mut P,
    rid: Rid,
    row: &Row,
) -> Result<(), StoreFault>
    requires defined { IsTableDef def.now.number def.now }
    requires keyed { HasReadValues def.now.columns row.now }
    requires going { (P.state pages.old).ended ≡ false }
    ensures takes { OnOk result (WhereStandsWithRow P.Pages shape pages.old def.now rid row.now
        (TakesRowFromTable P.Pages shape notes.old notes.new (room_of rooms.old) (room_of rooms.new) pages.old pages.new def.now row.now rid)) }
    ensures seen { OnOk result (IsTrue (P.state pages.old).is_told → IsMapApart P.Pages shape pages.old def.now rid.block → SeesSomeRow (SeesUsedSlot P.Pages shape pages.old def.now rid)) }
    ensures stay { WhereStands P.Pages shape pages.old def.now (λ owners forests. KeepsBlocksBut P.Pages shape pages.old pages.new def.now owners (λ block. block ≡ rid.block)) }
    ensures count { length (P.state pages.new).work ≡ length (P.state pages.old).work }
    ensures runs { RunsOverPages P.Pages (IsTableOrMapPage P.Pages shape pages.old def.now) (IsTableOrMapPage P.Pages shape pages.old def.now)
        (BreaksExpected P.Pages shape pages.old def.now (HasThisRow P.Pages shape pages.old def.now rid row.now)) pages.old pages.new (fault_of result) }
{
    let slots = block_slots(def, shape);
    if rid.block >= shape.extents || u32::from(rid.slot) >= slots {
        return Err(unmapped(def));
    }
    let left = table_blocks::take_row(alloc, def, shape, notes, pages, rid, row)?;
    note_taken(alloc, def, rooms, row, rid.block, left, slots);
    Ok(())
}

/// Notes that a row was taken out of a block with so many slots, in which so many rows are left.
fn note_taken(
    alloc: Global,
    def: &TableDef,
    rooms: &mut Rooms,
    row: &Row,
    block: u32,
    left: u16,
    slots: u32,
)
    requires defined { IsTableDef def.now.number def.now }
    requires keyed { HasReadValues def.now.columns row.now }
    ensures notes { NotesRowTaken def.now row.now block left slots (room_of rooms.old) (room_of rooms.new) }
{
    let left = u32::from(left);
    // No right note leads past a block that had room before, and the block is still one of the cell where rows are left in it.
    if 0 < left && left + 1 < slots {
        return;
    }
    lower_note(alloc, def, rooms, row, block);
}

/// Lowers the note of a row's cell to a block. All notes are lost where memory has no room for the key of the cell.
fn lower_note(alloc: Global, def: &TableDef, rooms: &mut Rooms, row: &Row, block: u32)
    requires defined { IsTableDef def.now.number def.now }
    requires keyed { HasReadValues def.now.columns row.now }
    ensures lowers { LowersNoteOf def.now row.now block (room_of rooms.old) (room_of rooms.new) }
{
    match cell_key(alloc, def, &row.values) {
        Ok(key) => rooms.lower(&key, block),
        Err(_) => rooms.forget(),
    }
}
