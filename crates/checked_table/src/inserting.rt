// A row more.
ghost use Rattle.std.specs.Prelude.{◌≡◌, ◌+◌, ◌<◌, ◌^◌, [], ◌∷◌, None, false, IfErr, IfOk, OnErr, OnOk};
ghost use Rattle.store_api.specs.Causes.{store_fault_in};
ghost use Rattle.extent_map.specs.Damages.{IfFull, store_part_of};
ghost use Rattle.mdc_ast.specs.TableLimits.{IsTableDef};
ghost use Rattle.mdc_ast.specs.FittingRows.{RowFits};
ghost use Rattle.mdc_sound.specs.RunningFull.{InsertRunsFull};
ghost use Rattle.mdc_sound.specs.StandingTable.{IsTableSpace, pages_of};
ghost use Rattle.free_space.specs.RoomNotes.{room_of};
ghost use Rattle.cell_change.specs.RowChanges.{InsertsIntoDatabase, WhereReady};
ghost use Rattle.checked_table.specs.ExactDamage.{AnswersExactly};
ghost use Rattle.checked_table.specs.WholeChanges.{IsWholeChange};

use crate::ending::{begin_change, forget_notes, keep_or_undo, undo_space_change};
use extent_map::{SpaceFault, SpaceNotes};
use free_space::Rooms;
use mdc_ast::{Row, TableDef};
use mdc_values::Rid;
use std::alloc::Global;
use store_api::{Pages, Shape};

/// Inserts a row that fits the definition and whose number is the table's next one, which it raises, and enters it in all record
/// indexes. It answers where the row lies, and claims no more pages than the row asks for. `Full` says that an INSERT of the row runs
/// full: what it needs where placing puts it, and then in the record indexes, asks for more extents than are free. After a fault the
/// definition and all pages are as they were, damage is exact, and the notes are forgotten.
pub fn insert_row<P: Pages>(
    alloc: Global,
    def: &mut TableDef,
    shape: Shape,
    notes: &mut SpaceNotes,
    rooms: &mut Rooms,
    pages: &mut P,
    row: &Row,
) -> Result<Rid, SpaceFault>
    requires defined { IsTableDef def.old.number def.old }
    requires place { def.old.number < 16 }
    requires fits { RowFits def.old row.now }
    requires number { row.now.number ≡ def.old.next }
    requires more { def.old.next + 1 < 2 ^ 64 }
    requires going { (P.state pages.old).ended ≡ false }
    requires unmarked { (P.state pages.old).marked ≡ None }
    ensures inserts { IfOk result (λ rid. WhereReady P.Pages shape notes.old (room_of rooms.old) pages.old def.old (InsertsIntoDatabase P.Pages shape notes.old notes.new (room_of rooms.new) pages.old pages.new def.old row.now rid)) }
    ensures next { OnOk result (def.new ≡ record def.old { next = def.old.next + 1 }) }
    ensures kept { OnErr result (def.new ≡ def.old) }
    ensures full { IfErr result (λ fault. IfFull fault (λ cap. (cap ≡ shape.extents) × WhereReady P.Pages shape notes.old (room_of rooms.old) pages.old def.old (λ owners forests. InsertRunsFull shape (pages_of P.Pages pages.old) def.old (row.now ∷ [])))) }
    ensures exact { AnswersExactly P.Pages shape def.old pages.old (store_fault_in store_part_of result) }
    ensures whole { IsWholeChange P.Pages (IsTableSpace P.Pages shape pages.old def.old) notes.new rooms.new pages.old pages.new result (store_fault_in store_part_of result) }
{
    let next = def.next;
    begin_change(pages);
    match cell_change::insert_row(alloc, def, shape, notes, rooms, pages, row) {
        Ok(rid) => match keep_or_undo(pages) {
            Ok(()) => Ok(rid),
            Err(fault) => {
                def.next = next;
                forget_notes(notes, rooms);
                Err(SpaceFault::Store(fault))
            }
        },
        Err(fault) => Err(undo_space_change(alloc, def, shape, notes, rooms, pages, fault)),
    }
}
