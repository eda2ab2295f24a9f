// A row is taken out.
ghost use Rattle.std.specs.Prelude.{◌≡◌, ◌<◌, None, false, length, OnOk};
ghost use Rattle.store_api.specs.Causes.{fault_of};
ghost use Rattle.mdc_ast.specs.TableLimits.{IsTableDef};
ghost use Rattle.mdc_sound.specs.StandingTable.{IsTableOrMapPage, KeepsBlocksBut};
ghost use Rattle.block_rows.specs.HeldRows.{HasReadValues};
ghost use Rattle.free_space.specs.RoomNotes.{room_of};
ghost use Rattle.mdc_table.specs.RowSteps.{TakesRowFromTable};
ghost use Rattle.mdc_table.specs.WhereStanding.{WhereStands, WhereStandsWithRow};
ghost use Rattle.checked_table.specs.ExactDamage.{AnswersExactly, HasRowIfStanding};
ghost use Rattle.checked_table.specs.WholeChanges.{IsWholeChange};

use crate::ending::{begin_change, forget_notes, keep_or_undo, undo_change};
use extent_map::SpaceNotes;
use free_space::Rooms;
use mdc_ast::{Row, TableDef};
use mdc_values::Rid;
use std::alloc::Global;
use store_api::{Pages, Shape, StoreFault};

/// Takes the row out that lies in a place; it is given too. It claims no page. After a fault all pages are as they were, the notes
/// are forgotten, and where the row lies there if the table stands, damage is exact.
pub fn take_row<P: Pages>(
    alloc: Global,
    def: &TableDef,
    shape: Shape,
    notes: &mut SpaceNotes,
    rooms: &mut Rooms,
    pages: &mut P,
    rid: Rid,
    row: &Row,
) -> Result<(), StoreFault>
    requires defined { IsTableDef def.now.number def.now }
    requires place { def.now.number < 16 }
    requires keyed { HasReadValues def.now.columns row.now }
    requires going { (P.state pages.old).ended ≡ false }
    requires unmarked { (P.state pages.old).marked ≡ None }
    ensures takes { OnOk result (WhereStandsWithRow P.Pages shape pages.old def.now rid row.now
        (TakesRowFromTable P.Pages shape notes.old notes.new (room_of rooms.old) (room_of rooms.new) pages.old pages.new def.now row.now rid)) }
    ensures stay { WhereStands P.Pages shape pages.old def.now (λ owners forests. KeepsBlocksBut P.Pages shape pages.old pages.new def.now owners (λ block. block ≡ rid.block)) }
    ensures count { length (P.state pages.new).work ≡ length (P.state pages.old).work }
    ensures exact { HasRowIfStanding P.Pages shape pages.old def.now rid row.now → AnswersExactly P.Pages shape def.now pages.old (fault_of result) }
    ensures whole { IsWholeChange P.Pages (IsTableOrMapPage P.Pages shape pages.old def.now) notes.new rooms.new pages.old pages.new result (fault_of result) }
{
    begin_change(pages);
    match mdc_table::take_row(alloc, def, shape, notes, rooms, pages, rid, row) {
        Ok(()) => match keep_or_undo(pages) {
            Ok(()) => Ok(()),
            Err(fault) => {
                forget_notes(notes, rooms);
                Err(fault)
            }
        },
        Err(fault) => Err(undo_change(alloc, def, shape, notes, rooms, pages, fault)),
    }
}
