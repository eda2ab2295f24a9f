// A row is put where placing says.
ghost use Rattle.std.specs.Prelude.{◌≡◌, ◌<◌, None, false, IfErr, IfOk};
ghost use Rattle.store_api.specs.Causes.{store_fault_in};
ghost use Rattle.extent_map.specs.Damages.{IfFull, store_part_of};
ghost use Rattle.mdc_ast.specs.TableLimits.{IsTableDef};
ghost use Rattle.mdc_ast.specs.FittingRows.{RowFits};
ghost use Rattle.mdc_sound.specs.StandingTable.{IsTableSpace};
ghost use Rattle.free_space.specs.RoomNotes.{room_of};
ghost use Rattle.mdc_table.specs.RowSteps.{PlacesRowInTable};
ghost use Rattle.mdc_table.specs.WhereStanding.{WhereReady, WhereStands};
ghost use Rattle.checked_table.specs.ExactDamage.{AnswersExactly};
ghost use Rattle.checked_table.specs.MissingPlaces.{LacksPlace};
ghost use Rattle.checked_table.specs.WholeChanges.{IsWholeChange};

use crate::ending::{begin_change, forget_notes, keep_or_undo, undo_space_change};
use extent_map::{SpaceFault, SpaceNotes};
use free_space::Rooms;
use mdc_ast::{Row, TableDef};
use mdc_values::Rid;
use std::alloc::Global;
use store_api::{Pages, Shape};

/// Puts a row that fits the definition where placing says, and answers where it lies. The table's other blocks stay, and it claims
/// no more pages than the row asks for. `Full` says that no Used block of its cell has room, and that it asks for more extents
/// than are free. After a fault all pages are as they were, damage is exact, and the notes are forgotten.
pub fn place_row<P: Pages>(
    alloc: Global,
    def: &TableDef,
    shape: Shape,
    notes: &mut SpaceNotes,
    rooms: &mut Rooms,
    pages: &mut P,
    row: &Row,
) -> Result<Rid, SpaceFault>
    requires defined { IsTableDef def.now.number def.now }
    requires place { def.now.number < 16 }
    requires fits { RowFits def.now row.now }
    requires going { (P.state pages.old).ended ≡ false }
    requires unmarked { (P.state pages.old).marked ≡ None }
    ensures places { IfOk result (λ rid. WhereStands P.Pages shape pages.old def.now
        (PlacesRowInTable P.Pages shape notes.old notes.new (room_of rooms.old) (room_of rooms.new) pages.old pages.new def.now row.now rid)) }
    ensures full { IfErr result (λ fault. IfFull fault (λ cap. (cap ≡ shape.extents) × WhereReady P.Pages shape notes.old (room_of rooms.old) pages.old def.now (LacksPlace P.Pages shape pages.old def.now row.now))) }
    ensures exact { AnswersExactly P.Pages shape def.now pages.old (store_fault_in store_part_of result) }
    ensures whole { IsWholeChange P.Pages (IsTableSpace P.Pages shape pages.old def.now) notes.new rooms.new pages.old pages.new result (store_fault_in store_part_of result) }
{
    begin_change(pages);
    match mdc_table::place_row(alloc, def, shape, notes, rooms, pages, row) {
        Ok(rid) => match keep_or_undo(pages) {
            Ok(()) => Ok(rid),
            Err(fault) => {
                forget_notes(notes, rooms);
                Err(SpaceFault::Store(fault))
            }
        },
        Err(fault) => Err(undo_space_change(alloc, def, shape, notes, rooms, pages, fault)),
    }
}
