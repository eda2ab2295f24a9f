// Another row of the same cell comes into the place of one.
ghost use Rattle.std.specs.Prelude.{◌≡◌, [], ◌∷◌, false, IfErr, IsTrue, OnOk};
ghost use Rattle.store_api.specs.Causes.{store_fault_in};
ghost use Rattle.store_api.specs.RunsOverPages.{RunsOverPages};
ghost use Rattle.extent_map.specs.Damages.{IfFull, store_part_of};
ghost use Rattle.mdc_ast.specs.TableLimits.{IsTableDef};
ghost use Rattle.block_rows.specs.HeldRows.{HasReadValues};
ghost use Rattle.block_rows.specs.SeenRows.{SeesSlot, SeesSomeRow};
ghost use Rattle.mdc_ast.specs.FittingRows.{RowFits};
ghost use Rattle.table_trees.specs.RowCells.{AreOfOneCell};
ghost use Rattle.mdc_sound.specs.RunningFull.{UpdateRunsFull};
ghost use Rattle.mdc_sound.specs.StandingTable.{BreaksExpected, pages_of};
ghost use Rattle.row_entries.specs.SoundEntries.{placed_at};
ghost use Rattle.free_space.specs.RoomNotes.{room_of};
ghost use Rattle.mdc_table.specs.KnownBlocks.{IsExpectedSpace};
ghost use Rattle.table_blocks.specs.BlockSteps.{HasThisRow};
ghost use Rattle.cell_change.specs.ExpectedTables.{WithSoundIndexes};
ghost use Rattle.cell_change.specs.RowChanges.{ChangesOneRow, WhereReadyWithRow};

use extent_map::{SpaceFault, SpaceNotes};
use mdc_ast::{Row, TableDef};
use mdc_table::{Rooms, overwrite_row};
use mdc_values::Rid;
use row_entries::renew_row;
use std::alloc::Global;
use store_api::{Pages, Shape};

/// Puts a row into the place of one of the same cell, which is given, and changes the record indexes in which their keys differ. It
/// claims no more pages than these entries ask for, and `Full` says that an UPDATE of this row runs full.
pub(crate) fn rewrite_row<P: Pages>(
    alloc: Global,
    def: &TableDef,
    shape: Shape,
    notes: &mut SpaceNotes,
    rooms: &Rooms,
    pages: &mut P,
    known: Option<u32>,
    rid: Rid,
    was: &Row,
    is: &Row,
) -> Result<(), SpaceFault>
    requires defined { IsTableDef def.now.number def.now }
    requires was { HasReadValues def.now.columns was.now }
    requires fits { RowFits def.now is.now }
    requires one_cell { AreOfOneCell def.now was.now.values is.now.values }
    requires going { (P.state pages.old).ended ≡ false }
    ensures changes { OnOk result (WhereReadyWithRow P.Pages shape notes.old (room_of rooms.now) pages.old def.now rid was.now
        (ChangesOneRow P.Pages shape notes.old notes.new (room_of rooms.now) pages.old pages.new def.now was.now is.now rid rid)) }
    ensures seen { OnOk result (IsTrue (P.state pages.old).is_told → SeesSomeRow (SeesSlot shape (pages_of P.Pages pages.old) def.now rid)) }
    ensures full { IfErr result (λ fault. IfFull fault (λ cap. (cap ≡ shape.extents) × WhereReadyWithRow P.Pages shape notes.old (room_of rooms.now) pages.old def.now rid was.now
        (λ owners forests. UpdateRunsFull shape (pages_of P.Pages pages.old) def.now ((placed_at rid was.now, is.now) ∷ [])))) }
    ensures runs { RunsOverPages P.Pages (IsExpectedSpace P.Pages shape pages.old def.now (HasThisRow P.Pages shape pages.old def.now rid was.now)) (IsExpectedSpace P.Pages shape pages.old def.now (HasThisRow P.Pages shape pages.old def.now rid was.now))
        (BreaksExpected P.Pages shape pages.old def.now (WithSoundIndexes P.Pages shape pages.old def.now (HasThisRow P.Pages shape pages.old def.now rid was.now))) pages.old pages.new (store_fault_in store_part_of result) }
{
    overwrite_row(alloc, def, shape, rooms, pages, known, rid, is)?;
    renew_row(alloc, def, shape, notes, pages, was, is, rid)
}
