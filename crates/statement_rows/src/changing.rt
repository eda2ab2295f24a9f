// The rows of an UPDATE.
ghost use Rattle.std.specs.Prelude.{◌≡◌, List, false, length, map, IfErr, OnOk};
ghost use Rattle.std.specs.List.{AllByRecursion};
ghost use Rattle.store_api.specs.Causes.{store_fault_in};
ghost use Rattle.store_api.specs.RunsOverPages.{RunsOverPages};
ghost use Rattle.extent_map.specs.Damages.{IfFull, store_part_of};
ghost use Rattle.extent_map.specs.declared.kind.Kind.{Kind};
ghost use Rattle.mdc_ast.specs.TableLimits.{IsTableDef};
ghost use Rattle.mdc_sound.specs.Placing.{block_slot_count};
ghost use Rattle.mdc_sound.specs.RunningFull.{UpdateRunsFull};
ghost use Rattle.mdc_sound.specs.StandingTable.{TableForests, pages_of};
ghost use Rattle.free_space.specs.RoomNotes.{room_of};
ghost use Rattle.statement_rows.specs.RowsAndSpace.{TurnsRowsBy};
ghost use Rattle.statement_rows.specs.RowsOfStatement.{AnyPage, BreaksReady, ChangesRowsOf, HasTheseRows, IsReadyBetween, with_rows};
ghost use Rattle.statement_rows.specs.Turning.{MayTurn, turned_row};

use cell_change::change_row;
use extent_map::{SpaceFault, SpaceNotes};
use mdc_ast::{Row, TableDef};
use mdc_table::{Hit, Rooms};
use std::alloc::Global;
use store_api::{Pages, Shape};

/// A row and where it lies, and the row that it becomes.
#[derive(Debug, Drop)]
pub struct Turned {
    pub hit: Hit,
    pub row: Row,
}

/// Makes rows others, by rising row number, with their entries in the record indexes. Each of them was read, and becomes one that fits
/// the definition and has its number. It claims no more pages than the rows ask for, and `Full` says that an UPDATE of them runs full. After a fault `undo` goes back to
/// a mark, and the notes of free space and of the rooms are to be forgotten.
pub fn change_rows<P: Pages>(
    alloc: Global,
    def: &TableDef,
    shape: Shape,
    notes: &mut SpaceNotes,
    rooms: &mut Rooms,
    pages: &mut P,
    turned: &[Turned],
) -> Result<(), SpaceFault>
    requires defined { IsTableDef def.now.number def.now }
    requires may { AllByRecursion (MayTurn def.now) turned.now }
    requires going { (P.state pages.old).ended ≡ false }
    ensures changes { OnOk result ((owners : List Kind) (forests : TableForests) → IsReadyBetween P.Pages shape notes.old (room_of rooms.old) pages.old def.now owners forests
        → HasTheseRows P.Pages shape pages.old def.now (map (λ turned. (turned_row turned).0) turned.now) owners forests
        → ChangesRowsOf P.Pages shape notes.old notes.new (room_of rooms.new) pages.old pages.new def.now def.now owners forests
        (λ was space is. TurnsRowsBy def.now (block_slot_count shape def.now) was (map turned_row turned.now) space is) (with_rows (map (λ turned. turned.row) turned.now))) }
    ensures full { IfErr result (λ fault. IfFull fault (λ cap. (cap ≡ shape.extents)
        × ((owners : List Kind) (forests : TableForests) → IsReadyBetween P.Pages shape notes.old (room_of rooms.old) pages.old def.now owners forests
        → HasTheseRows P.Pages shape pages.old def.now (map (λ turned. (turned_row turned).0) turned.now) owners forests
        → UpdateRunsFull shape (pages_of P.Pages pages.old) def.now (map turned_row turned.now)))) }
    ensures idle { length turned.now ≡ 0 → (P.state pages.new).work ≡ (P.state pages.old).work }
    ensures runs { RunsOverPages P.Pages AnyPage AnyPage
        (BreaksReady P.Pages shape notes.old (room_of rooms.old) pages.old def.now (HasTheseRows P.Pages shape pages.old def.now (map (λ turned. (turned_row turned).0) turned.now)))
        pages.old pages.new (store_fault_in store_part_of result) }
{
    // The rows of a block mostly come one after the other, and the block map is asked of it once.
    let mut known = None;
    for one in turned {
        let to = change_row(
            alloc,
            def,
            shape,
            notes,
            rooms,
            pages,
            known,
            one.hit.rid,
            &one.hit.row,
            &one.row,
        )?;
        known = Some(to.block);
    }
    Ok(())
}
