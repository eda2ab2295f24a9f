// The rows of an INSERT.
ghost use Rattle.std.specs.Prelude.{◌≡◌, ◌+◌, ◌<◌, ◌^◌, List, false, length, IfErr, OnErr, OnOk};
ghost use Rattle.std.specs.List.{AllByRecursion};
ghost use Rattle.store_api.specs.Causes.{store_fault_in};
ghost use Rattle.store_api.specs.RunsOverPages.{RunsOverPages};
ghost use Rattle.extent_map.specs.Damages.{IfFull, store_part_of};
ghost use Rattle.extent_map.specs.declared.kind.Kind.{Kind};
ghost use Rattle.mdc_ast.specs.Database.{appended, numbered};
ghost use Rattle.mdc_ast.specs.TableLimits.{IsTableDef};
ghost use Rattle.mdc_ast.specs.FittingRows.{RowFits};
ghost use Rattle.mdc_sound.specs.Placing.{block_slot_count};
ghost use Rattle.mdc_sound.specs.RunningFull.{InsertRunsFull};
ghost use Rattle.mdc_sound.specs.StandingTable.{TableForests, pages_of};
ghost use Rattle.free_space.specs.RoomNotes.{room_of};
ghost use Rattle.statement_rows.specs.RowsAndSpace.{PutsRowsBy};
ghost use Rattle.statement_rows.specs.RowsOfStatement.{AnyPage, BreaksReady, ChangesRowsOf, IsReadyBetween, NothingMore};

use cell_change::insert_row;
use extent_map::{SpaceFault, SpaceNotes};
use mdc_ast::{Row, TableDef};
use mdc_table::Rooms;
use mdc_values::{List, Value};
use std::alloc::Global;
use store_api::{Pages, Shape};

/// Inserts rows of these values, which fit the definition, numbered from the table's next number on, and enters them in the record
/// indexes. It claims no more pages than the rows ask for, and `Full` says that an INSERT of them runs full. After a fault the definition is as it was, `undo` goes back
/// to a mark, and the notes of free space and of the rooms are to be forgotten.
pub fn insert_rows<P: Pages>(
    alloc: Global,
    def: &mut TableDef,
    shape: Shape,
    notes: &mut SpaceNotes,
    rooms: &mut Rooms,
    pages: &mut P,
    tuples: List<List<Value>>,
) -> Result<(), SpaceFault>
    requires defined { IsTableDef def.old.number def.old }
    requires fit { AllByRecursion (RowFits def.old) (numbered def.old.next tuples) }
    requires more { def.old.next + length tuples < 2 ^ 64 }
    requires going { (P.state pages.old).ended ≡ false }
    ensures inserts { OnOk result ((owners : List Kind) (forests : TableForests) → IsReadyBetween P.Pages shape notes.old (room_of rooms.old) pages.old def.old owners forests
        → ChangesRowsOf P.Pages shape notes.old notes.new (room_of rooms.new) pages.old pages.new def.old def.new owners forests
        (λ was space is. PutsRowsBy def.old (block_slot_count shape def.old) was (numbered def.old.next tuples) space is) (appended tuples)) }
    ensures next { OnOk result (def.new ≡ record def.old { next = def.old.next + length tuples }) }
    ensures kept { OnErr result (def.new ≡ def.old) }
    ensures full { IfErr result (λ fault. IfFull fault (λ cap. (cap ≡ shape.extents)
        × ((owners : List Kind) (forests : TableForests) → IsReadyBetween P.Pages shape notes.old (room_of rooms.old) pages.old def.old owners forests
        → InsertRunsFull shape (pages_of P.Pages pages.old) def.old (numbered def.old.next tuples)))) }
    ensures runs { RunsOverPages P.Pages AnyPage AnyPage (BreaksReady P.Pages shape notes.old (room_of rooms.old) pages.old def.old NothingMore) pages.old pages.new (store_fault_in store_part_of result) }
{
    let first = def.next;
    let inserted = insert_each(alloc, def, shape, notes, rooms, pages, tuples);
    if inserted.is_err() {
        def.next = first;
    }
    inserted
}

// Inserts the rows, one after the other, and raises the next number with each.
fn insert_each<P: Pages>(
    alloc: Global,
    def: &mut TableDef,
    shape: Shape,
    notes: &mut SpaceNotes,
    rooms: &mut Rooms,
    pages: &mut P,
    tuples: List<List<Value>>,
) -> Result<(), SpaceFault>
    requires defined { IsTableDef def.old.number def.old }
    requires fit { AllByRecursion (RowFits def.old) (numbered def.old.next tuples) }
    requires more { def.old.next + length tuples < 2 ^ 64 }
    requires going { (P.state pages.old).ended ≡ false }
    ensures inserts { OnOk result ((owners : List Kind) (forests : TableForests) → IsReadyBetween P.Pages shape notes.old (room_of rooms.old) pages.old def.old owners forests
        → ChangesRowsOf P.Pages shape notes.old notes.new (room_of rooms.new) pages.old pages.new def.old def.new owners forests
        (λ was space is. PutsRowsBy def.old (block_slot_count shape def.old) was (numbered def.old.next tuples) space is) (appended tuples)) }
    ensures next { OnOk result (def.new ≡ record def.old { next = def.old.next + length tuples }) }
    ensures raised { def.new ≡ record def.old { next = def.new.next } }
    ensures full { IfErr result (λ fault. IfFull fault (λ cap. (cap ≡ shape.extents)
        × ((owners : List Kind) (forests : TableForests) → IsReadyBetween P.Pages shape notes.old (room_of rooms.old) pages.old def.old owners forests
        → InsertRunsFull shape (pages_of P.Pages pages.old) def.old (numbered def.old.next tuples)))) }
    ensures runs { RunsOverPages P.Pages AnyPage AnyPage (BreaksReady P.Pages shape notes.old (room_of rooms.old) pages.old def.old NothingMore) pages.old pages.new (store_fault_in store_part_of result) }
{
    for values in tuples.into_vec() {
        let row = Row {
            number: def.next,
            values,
        };
        insert_row(alloc, def, shape, notes, rooms, pages, &row)?;
    }
    Ok(())
}
