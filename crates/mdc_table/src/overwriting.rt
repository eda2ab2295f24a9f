// Another row of the same cell in the place of one.
ghost use Rattle.std.specs.Prelude.{◌≡◌, ◌≢◌, Some, false, length, IsTrue, OnOk};
ghost use Rattle.store_api.specs.Causes.{fault_of};
ghost use Rattle.store_api.specs.RunsOverPages.{RunsOverPages};
ghost use Rattle.mdc_ast.specs.declared.row.Row.{Row};
ghost use Rattle.mdc_ast.specs.TableLimits.{IsTableDef};
ghost use Rattle.mdc_ast.specs.FittingRows.{RowFits};
ghost use Rattle.mdc_sound.specs.StandingTable.{BreaksExpected, HasRowAt, KeepsBlocksBut, pages_of};
ghost use Rattle.free_space.specs.RoomNotes.{room_of};
ghost use Rattle.block_rows.specs.SeenRows.{SeesSlot, SeesSomeRow};
ghost use Rattle.table_blocks.specs.SeenSlots.{IsUsedInMap};
ghost use Rattle.mdc_table.specs.KnownBlocks.{IsExpectedPlace, IsUsedIfKnown};
ghost use Rattle.mdc_table.specs.RowSteps.{OverwritesRowInTable};
ghost use Rattle.mdc_table.specs.WhereStanding.{WhereStands, WhereStandsWithRow};

use crate::faults::unmapped;
use crate::reading::block_slots;
use free_space::Rooms;
use mdc_ast::{Row, TableDef};
use mdc_values::Rid;
use std::alloc::Global;
use store_api::{Pages, Shape, StoreFault};
use table_blocks::overwrite_row_of_used;

/// Puts a row into the place of one that lies there and is of the same cell. Damaged where none lies there. The block map isn't asked
/// where the block is known to be a Used one of the table. It changes no tree, and the notes stay right. Whatever the notes say, the
/// table goes on standing, and its other blocks stay. After a fault `undo` goes back to a mark.
pub fn overwrite_row<P: Pages>(
    alloc: Global,
    def: &TableDef,
    shape: Shape,
    rooms: &Rooms,
    pages: &mut P,
    known: Option<u32>,
    rid: Rid,
    row: &Row,
) -> Result<(), StoreFault>
    requires defined { IsTableDef def.now.number def.now }
    requires fits { RowFits def.now row.now }
    requires going { (P.state pages.old).ended ≡ false }
    ensures overwrites { OnOk result ((was : Row) → WhereStandsWithRow P.Pages shape pages.old def.now rid was
        (OverwritesRowInTable P.Pages shape (room_of rooms.now) pages.old pages.new def.now was row.now rid)) }
    ensures seen { OnOk result (IsTrue (P.state pages.old).is_told → SeesSomeRow (SeesSlot shape (pages_of P.Pages pages.old) def.now rid)) }
    ensures used { OnOk result (IsTrue (P.state pages.old).is_told → known ≢ Some rid.block → IsUsedInMap P.Pages pages.old def.now rid.block) }
    ensures stay { WhereStands P.Pages shape pages.old def.now (λ owners forests. KeepsBlocksBut P.Pages shape pages.old pages.new def.now owners (λ block. block ≡ rid.block)) }
    ensures count { length (P.state pages.new).work ≡ length (P.state pages.old).work }
    ensures runs { RunsOverPages P.Pages (IsExpectedPlace P.Pages shape pages.old def.now (IsUsedIfKnown known rid.block))
        (IsExpectedPlace P.Pages shape pages.old def.now (IsUsedIfKnown known rid.block))
        (BreaksExpected P.Pages shape pages.old def.now (HasRowAt P.Pages shape pages.old def.now rid)) pages.old pages.new (fault_of result) }
{
    let _rooms = rooms;
    if rid.block >= shape.extents || u32::from(rid.slot) >= block_slots(def, shape) {
        return Err(unmapped(def));
    }
    if known == Some(rid.block) {
        return overwrite_row_of_used(def, shape, pages, rid, row);
    }
    table_blocks::overwrite_row(alloc, def, shape, pages, rid, row)
}
