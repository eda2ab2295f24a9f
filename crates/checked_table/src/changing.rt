// A row becomes another.
ghost use Rattle.std.specs.Prelude.{◌≡◌, ◌<◌, [], ◌∷◌, None, false, IfErr, IfOk};
ghost use Rattle.store_api.specs.Causes.{store_fault_in};
ghost use Rattle.extent_map.specs.Damages.{IfFull, store_part_of};
ghost use Rattle.mdc_ast.specs.TableLimits.{IsTableDef};
ghost use Rattle.block_rows.specs.HeldRows.{HasReadValues};
ghost use Rattle.mdc_ast.specs.FittingRows.{RowFits};
ghost use Rattle.mdc_sound.specs.RunningFull.{UpdateRunsFull};
ghost use Rattle.mdc_sound.specs.StandingTable.{pages_of};
ghost use Rattle.free_space.specs.RoomNotes.{room_of};
ghost use Rattle.mdc_table.specs.KnownBlocks.{IsExpectedSpace};
ghost use Rattle.table_blocks.specs.BlockSteps.{HasThisRow};
ghost use Rattle.cell_change.specs.RowChanges.{ChangesInDatabase, WhereReadyWithRow, placed_at};
ghost use Rattle.checked_table.specs.ExactDamage.{AnswersExactly, HasRowIfStanding};
ghost use Rattle.checked_table.specs.WholeChanges.{IsWholeChange};

use crate::ending::{begin_change, forget_notes, keep_or_undo, undo_space_change};
use extent_map::{SpaceFault, SpaceNotes};
use free_space::Rooms;
use mdc_ast::{Row, TableDef};
use mdc_values::Rid;
use std::alloc::Global;
use store_api::{Pages, Shape};

/// Makes the row in a place, which is given, another one that fits the definition and has its number, and answers where that
/// lies: in the same place where the cell is the same, else where placing puts it once the old one is out. Record indexes change in
/// which the keys differ, and all where it moves. It claims no more pages than the row asks for, and `Full` says that an UPDATE of
/// this row runs full: once all is out that goes, what it needs asks for more extents than are free. After a fault all pages are as
/// they were, the notes are forgotten, and where the row lies there if the table stands, damage is exact.
pub fn change_row<P: Pages>(
    alloc: Global,
    def: &TableDef,
    shape: Shape,
    notes: &mut SpaceNotes,
    rooms: &mut Rooms,
    pages: &mut P,
    rid: Rid,
    was: &Row,
    is: &Row,
) -> Result<Rid, SpaceFault>
    requires defined { IsTableDef def.now.number def.now }
    requires place { def.now.number < 16 }
    requires was { HasReadValues def.now.columns was.now }
    requires fits { RowFits def.now is.now }
    requires number { is.now.number ≡ was.now.number }
    requires going { (P.state pages.old).ended ≡ false }
    requires unmarked { (P.state pages.old).marked ≡ None }
    ensures changes { IfOk result (λ to. WhereReadyWithRow P.Pages shape notes.old (room_of rooms.old) pages.old def.now rid was.now
        (ChangesInDatabase P.Pages shape notes.old notes.new (room_of rooms.new) pages.old pages.new def.now was.now is.now rid to)) }
    ensures full { IfErr result (λ fault. IfFull fault (λ cap. (cap ≡ shape.extents) × WhereReadyWithRow P.Pages shape notes.old (room_of rooms.old) pages.old def.now rid was.now
        (λ owners forests. UpdateRunsFull shape (pages_of P.Pages pages.old) def.now ((placed_at rid was.now, is.now) ∷ [])))) }
    ensures exact { HasRowIfStanding P.Pages shape pages.old def.now rid was.now → AnswersExactly P.Pages shape def.now pages.old (store_fault_in store_part_of result) }
    ensures whole { IsWholeChange P.Pages (IsExpectedSpace P.Pages shape pages.old def.now (HasThisRow P.Pages shape pages.old def.now rid was.now)) notes.new rooms.new pages.old pages.new result (store_fault_in store_part_of result) }
{
    begin_change(pages);
    match cell_change::change_row(alloc, def, shape, notes, rooms, pages, None, rid, was, is) {
        Ok(to) => match keep_or_undo(pages) {
            Ok(()) => Ok(to),
            Err(fault) => {
                forget_notes(notes, rooms);
                Err(SpaceFault::Store(fault))
            }
        },
        Err(fault) => Err(undo_space_change(alloc, def, shape, notes, rooms, pages, fault)),
    }
}
