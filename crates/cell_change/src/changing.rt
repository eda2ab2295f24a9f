// A row becomes another.
ghost use Rattle.std.specs.Prelude.{◌≡◌, [], ◌∷◌, List, false, IsTrue, IfErr, IfOk, OnOk};
ghost use Rattle.store_api.specs.Causes.{store_fault_in};
ghost use Rattle.store_api.specs.RunsOverPages.{RunsOverPages};
ghost use Rattle.extent_map.specs.Damages.{IfFull, store_part_of};
ghost use Rattle.extent_map.specs.declared.kind.Kind.{Kind};
ghost use Rattle.mdc_ast.specs.TableLimits.{IsTableDef};
ghost use Rattle.block_rows.specs.HeldRows.{HasReadValues};
ghost use Rattle.block_rows.specs.SeenRows.{SeesSlot, SeesSomeRow};
ghost use Rattle.mdc_ast.specs.FittingRows.{RowFits};
ghost use Rattle.table_trees.specs.RowCells.{AreOfOneCell};
ghost use Rattle.mdc_sound.specs.RunningFull.{UpdateRunsFull};
ghost use Rattle.mdc_sound.specs.StandingTable.{BreaksExpected, StandsTable, TableForests, pages_of};
ghost use Rattle.row_entries.specs.SoundEntries.{placed_at};
ghost use Rattle.free_space.specs.RoomNotes.{room_of};
ghost use Rattle.mdc_table.specs.KnownBlocks.{IsExpectedSpace};
ghost use Rattle.table_blocks.specs.BlockSteps.{HasThisRow};
ghost use Rattle.table_blocks.specs.SeenSlots.{IsMapApart};
ghost use Rattle.cell_change.specs.ApartIndexes.{AreIndexesApart};
ghost use Rattle.cell_change.specs.ExpectedTables.{WithSoundIndexes};
ghost use Rattle.cell_change.specs.RowChanges.{ChangesInDatabase, WhereReadyWithRow};

use crate::deleting::delete_row;
use crate::putting::put_row;
use crate::rewriting::rewrite_row;
use block_index::are_of_one_cell;
use extent_map::{SpaceFault, SpaceNotes};
use mdc_ast::{Row, TableDef};
use mdc_table::Rooms;
use mdc_values::Rid;
use std::alloc::Global;
use store_api::{Pages, Shape};

/// Makes the row in a place, which is given, another one that fits the definition and has its number, and answers where that
/// lies: in the same place where the cell is the same, else where placing puts it once the old one is out. Where it keeps its place
/// the record indexes change in which the keys differ, and where it moves all do. A block that is known to be a Used one of the
/// table isn't asked of the block map again: the block of a row that was just changed is one. It claims no more pages than the row
/// asks for, and `Full` says that an UPDATE of this row runs full: once all is out that goes, what it needs asks for more extents
/// than are free. After a fault `undo` goes back to a mark, and the notes of free space and of the rooms are to be forgotten.
pub fn change_row<P: Pages>(
    alloc: Global,
    def: &TableDef,
    shape: Shape,
    notes: &mut SpaceNotes,
    rooms: &mut Rooms,
    pages: &mut P,
    known: Option<u32>,
    rid: Rid,
    was: &Row,
    is: &Row,
) -> Result<Rid, SpaceFault>
    requires defined { IsTableDef def.now.number def.now }
    requires was { HasReadValues def.now.columns was.now }
    requires fits { RowFits def.now is.now }
    requires number { is.now.number ≡ was.now.number }
    requires going { (P.state pages.old).ended ≡ false }
    ensures changes { IfOk result (λ to. WhereReadyWithRow P.Pages shape notes.old (room_of rooms.old) pages.old def.now rid was.now
        (ChangesInDatabase P.Pages shape notes.old notes.new (room_of rooms.new) pages.old pages.new def.now was.now is.now rid to)) }
    ensures seen { OnOk result (IsTrue (P.state pages.old).is_told → IsMapApart P.Pages shape pages.old def.now rid.block → AreIndexesApart P.Pages shape pages.old def.now rid.block
        → SeesSomeRow (SeesSlot shape (pages_of P.Pages pages.old) def.now rid)) }
    ensures seen_kept { OnOk result (IsTrue (P.state pages.old).is_told → AreOfOneCell def.now was.now.values is.now.values → SeesSomeRow (SeesSlot shape (pages_of P.Pages pages.old) def.now rid)) }
    ensures seen_standing { OnOk result (IsMapApart P.Pages shape pages.old def.now rid.block → (owners : List Kind) (forests : TableForests) → StandsTable P.Pages shape pages.old def.now owners forests
        → SeesSomeRow (SeesSlot shape (pages_of P.Pages pages.old) def.now rid)) }
    ensures full { IfErr result (λ fault. IfFull fault (λ cap. (cap ≡ shape.extents) × WhereReadyWithRow P.Pages shape notes.old (room_of rooms.old) pages.old def.now rid was.now
        (λ owners forests. UpdateRunsFull shape (pages_of P.Pages pages.old) def.now ((placed_at rid was.now, is.now) ∷ [])))) }
    ensures runs { RunsOverPages P.Pages (IsExpectedSpace P.Pages shape pages.old def.now (HasThisRow P.Pages shape pages.old def.now rid was.now)) (IsExpectedSpace P.Pages shape pages.old def.now (HasThisRow P.Pages shape pages.old def.now rid was.now))
        (BreaksExpected P.Pages shape pages.old def.now (WithSoundIndexes P.Pages shape pages.old def.now (HasThisRow P.Pages shape pages.old def.now rid was.now))) pages.old pages.new (store_fault_in store_part_of result) }
{
    if are_of_one_cell(def, &was.values, &is.values) {
        rewrite_row(alloc, def, shape, notes, rooms, pages, known, rid, was, is)?;
        return Ok(rid);
    }
    delete_row(alloc, def, shape, notes, rooms, pages, rid, was)?;
    put_row(alloc, def, shape, notes, rooms, pages, is)
}
