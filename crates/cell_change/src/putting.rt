// A row comes into a table.
ghost use Rattle.std.specs.Prelude.{◌≡◌, false, IfErr, IfOk};
ghost use Rattle.store_api.specs.Causes.{store_fault_in};
ghost use Rattle.store_api.specs.RunsOverPages.{RunsOverPages};
ghost use Rattle.extent_map.specs.Damages.{IfFull, store_part_of};
ghost use Rattle.mdc_ast.specs.TableLimits.{IsTableDef};
ghost use Rattle.mdc_ast.specs.FittingRows.{RowFits};
ghost use Rattle.mdc_sound.specs.StandingTable.{BreaksExpected, IsTableSpace, pages_of, spots_of};
ghost use Rattle.free_space.specs.RoomNotes.{room_of};
ghost use Rattle.cell_change.specs.ExpectedTables.{HasSoundIndexes, PutRunsFull};
ghost use Rattle.cell_change.specs.RowChanges.{InsertsRow, WhereReady};

use extent_map::{SpaceFault, SpaceNotes};
use mdc_ast::{Row, TableDef};
use mdc_table::{Rooms, place_row};
use mdc_values::Rid;
use row_entries::enter_row;
use std::alloc::Global;
use store_api::{Pages, Shape};

/// Puts a row that fits the definition where placing says, enters it in all record indexes, and answers where it lies. It claims no
/// more pages than the row asks for. `Full` says that no Used block of its cell has room or an index has none for its entry, and that
/// what it needs asks for more extents than are free.
pub(crate) fn put_row<P: Pages>(
    alloc: Global,
    def: &TableDef,
    shape: Shape,
    notes: &mut SpaceNotes,
    rooms: &mut Rooms,
    pages: &mut P,
    row: &Row,
) -> Result<Rid, SpaceFault>
    requires defined { IsTableDef def.now.number def.now }
    requires fits { RowFits def.now row.now }
    requires going { (P.state pages.old).ended ≡ false }
    ensures inserts { IfOk result (λ rid. WhereReady P.Pages shape notes.old (room_of rooms.old) pages.old def.now (InsertsRow P.Pages shape notes.old notes.new (room_of rooms.new) pages.old pages.new def.now row.now rid)) }
    ensures full { IfErr result (λ fault. IfFull fault (λ cap. (cap ≡ shape.extents) × WhereReady P.Pages shape notes.old (room_of rooms.old) pages.old def.now
        (λ owners forests. PutRunsFull shape (pages_of P.Pages pages.old) def.now (spots_of P.Pages shape pages.old def.now owners forests) row.now))) }
    ensures runs { RunsOverPages P.Pages (IsTableSpace P.Pages shape pages.old def.now) (IsTableSpace P.Pages shape pages.old def.now)
        (BreaksExpected P.Pages shape pages.old def.now (HasSoundIndexes P.Pages shape pages.old def.now)) pages.old pages.new (store_fault_in store_part_of result) }
{
    let rid = place_row(alloc, def, shape, notes, rooms, pages, row)?;
    enter_row(alloc, def, shape, notes, pages, row, rid)?;
    Ok(rid)
}
