// A row less.
ghost use Rattle.std.specs.Prelude.{◌≡◌, [], List, false, length, IsTrue, OnOk};
ghost use Rattle.store_api.specs.Causes.{fault_of};
ghost use Rattle.store_api.specs.Frame.{Touches};
ghost use Rattle.store_api.specs.RunsOverPages.{RunsOverPages};
ghost use Rattle.extent_map.specs.declared.kind.Kind.{Kind};
ghost use Rattle.mdc_ast.specs.declared.row.Row.{Row};
ghost use Rattle.mdc_ast.specs.TableLimits.{IsTableDef};
ghost use Rattle.table_trees.specs.SpaceChanges.{MakesChanges, removed_entries};
ghost use Rattle.table_trees.specs.TableTrees.{record_places};
ghost use Rattle.table_trees.specs.TreesBeside.{IsTreesOrMapPage};
ghost use Rattle.mdc_sound.specs.RunningFull.{row_listings};
ghost use Rattle.mdc_sound.specs.StandingTable.{BreaksExpected, IsTableOrMapPage, KeepsBlocksBut, StandsTable, TableForests, pages_of};
ghost use Rattle.block_rows.specs.HeldRows.{HasReadValues};
ghost use Rattle.block_rows.specs.SeenRows.{SeesSomeRow};
ghost use Rattle.row_entries.specs.RowEntries.{HasRowEntries, IsTreeOrMapPageOfTable, LeavesRow};
ghost use Rattle.table_blocks.specs.BlockSteps.{HasThisRow};
ghost use Rattle.table_blocks.specs.SeenSlots.{IsMapApart, SeesUsedSlot};
ghost use Rattle.free_space.specs.RoomNotes.{room_of};
ghost use Rattle.cell_change.specs.ApartIndexes.{AreIndexesApart};
ghost use Rattle.cell_change.specs.ExpectedTables.{WithSoundIndexes};
ghost use Rattle.cell_change.specs.RowChanges.{DeletesFromDatabase, WhereStandsWithRow};

use extent_map::SpaceNotes;
use mdc_ast::{Row, TableDef};
use mdc_table::{Rooms, take_row};
use mdc_values::Rid;
use row_entries::leave_row;
use std::alloc::Global;
use store_api::{Pages, Shape, StoreFault};

/// Deletes the row that lies in a place, which is given too: it leaves all record indexes, and then its slot. It claims no page.
/// Whatever the notes say, the row and its entries go, and nothing else. After a fault `undo` goes back to a mark, and the notes of
/// free space and of the rooms are to be forgotten.
pub fn delete_row<P: Pages>(
    alloc: Global,
    def: &TableDef,
    shape: Shape,
    notes: &mut SpaceNotes,
    rooms: &mut Rooms,
    pages: &mut P,
    rid: Rid,
    row: &Row,
) -> Result<(), StoreFault>
    requires defined { IsTableDef def.now.number def.now }
    requires row { HasReadValues def.now.columns row.now }
    requires going { (P.state pages.old).ended ≡ false }
    ensures deletes { OnOk result (WhereStandsWithRow P.Pages shape pages.old def.now rid row.now
        (DeletesFromDatabase P.Pages shape notes.old notes.new (room_of rooms.old) (room_of rooms.new) pages.old pages.new def.now row.now rid)) }
    ensures seen { OnOk result (IsTrue (P.state pages.old).is_told → IsMapApart P.Pages shape pages.old def.now rid.block → AreIndexesApart P.Pages shape pages.old def.now rid.block
        → SeesSomeRow (SeesUsedSlot P.Pages shape pages.old def.now rid)) }
    ensures seen_standing { OnOk result (IsMapApart P.Pages shape pages.old def.now rid.block → (owners : List Kind) (forests : TableForests) → StandsTable P.Pages shape pages.old def.now owners forests
        → SeesSomeRow (SeesUsedSlot P.Pages shape pages.old def.now rid)) }
    ensures stay { (owners : List Kind) (forests : TableForests) → StandsTable P.Pages shape pages.old def.now owners forests → KeepsBlocksBut P.Pages shape pages.old pages.new def.now owners (λ block. block ≡ rid.block) }
    ensures count { length (P.state pages.new).work ≡ length (P.state pages.old).work }
    ensures runs { RunsOverPages P.Pages (IsTableOrMapPage P.Pages shape pages.old def.now) (IsTableOrMapPage P.Pages shape pages.old def.now)
        (BreaksExpected P.Pages shape pages.old def.now (WithSoundIndexes P.Pages shape pages.old def.now (HasThisRow P.Pages shape pages.old def.now rid row.now))) pages.old pages.new (fault_of result) }
{
    leave_entries(alloc, def, shape, notes, pages, row, rid)?;
    take_row(alloc, def, shape, notes, rooms, pages, rid, row)
}

/// Takes a row out of all record indexes. Nothing is done where the table has none.
fn leave_entries<P: Pages>(
    alloc: Global,
    def: &TableDef,
    shape: Shape,
    notes: &mut SpaceNotes,
    pages: &mut P,
    row: &Row,
    rid: Rid,
) -> Result<(), StoreFault>
    requires defined { IsTableDef def.now.number def.now }
    requires row { HasReadValues def.now.columns row.now }
    requires going { (P.state pages.old).ended ≡ false }
    ensures leaves { OnOk result ((owners : List Kind) (forests : TableForests) → StandsTable P.Pages shape pages.old def.now owners forests
        → LeavesRow P.Pages shape notes.old notes.new pages.old pages.new def.now row.now rid owners forests) }
    ensures makes { OnOk result ((owners : List Kind) (forests : TableForests) → StandsTable P.Pages shape pages.old def.now owners forests
        → MakesChanges shape (pages_of P.Pages pages.old) (removed_entries (row_listings def.now row.now rid)) (pages_of P.Pages pages.new)) }
    ensures none { def.now.indexes ≡ [] → pages.new ≡ pages.old }
    ensures touches { Touches P.Pages (IsTreesOrMapPage P.Pages shape pages.old (record_places def.now)) pages.old pages.new }
    ensures count { length (P.state pages.new).work ≡ length (P.state pages.old).work }
    ensures runs { RunsOverPages P.Pages (IsTreeOrMapPageOfTable P.Pages shape pages.old def.now) (IsTreeOrMapPageOfTable P.Pages shape pages.old def.now)
        (BreaksExpected P.Pages shape pages.old def.now (HasRowEntries def.now row.now rid)) pages.old pages.new (fault_of result) }
{
    if def.indexes.len() == 0 {
        return Ok(());
    }
    leave_row(alloc, def, shape, notes, pages, row, rid)
}
