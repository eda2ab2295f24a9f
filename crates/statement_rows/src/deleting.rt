// The rows of a DELETE.
ghost use Rattle.std.specs.Prelude.{◌≡◌, List, false, length, map, OnOk};
ghost use Rattle.store_api.specs.Causes.{fault_of};
ghost use Rattle.store_api.specs.Frame.{Touches};
ghost use Rattle.store_api.specs.RunsOverPages.{RunsOverPages};
ghost use Rattle.extent_map.specs.declared.kind.Kind.{Kind};
ghost use Rattle.mdc_ast.specs.TableLimits.{IsTableDef};
ghost use Rattle.block_rows.specs.HeldRows.{HaveReadValues, placed_row};
ghost use Rattle.mdc_sound.specs.StandingTable.{TableForests};
ghost use Rattle.free_space.specs.RoomNotes.{room_of};
ghost use Rattle.mdc_table.specs.KnownBlocks.{IsExpectedSpace};
ghost use Rattle.statement_rows.specs.RowsAndSpace.{TakesRowsBy};
ghost use Rattle.statement_rows.specs.RowsOfStatement.{AnyPage, BreaksReady, ChangesRowsOf, HasTheseRows, IsReadyBetween, LieApart, without_rows};

use cell_change::delete_row;
use extent_map::SpaceNotes;
use mdc_ast::TableDef;
use mdc_table::{Hit, Rooms};
use std::alloc::Global;
use store_api::{Pages, Shape, StoreFault};

/// Deletes rows, which are given with their places, by rising row number, and their entries in the record indexes. It claims no page,
/// and trees change as the rows ask for. Where the rows lie in a table that stands, no page outside the table's space changes, whatever
/// the notes say.
/// After a fault `undo` goes back to a mark, and the notes of free space and of the rooms are to be forgotten.
pub fn delete_rows<P: Pages>(
    alloc: Global,
    def: &TableDef,
    shape: Shape,
    notes: &mut SpaceNotes,
    rooms: &mut Rooms,
    pages: &mut P,
    hits: &[Hit],
) -> Result<(), StoreFault>
    requires defined { IsTableDef def.now.number def.now }
    requires read { HaveReadValues def.now.columns hits.now }
    requires going { (P.state pages.old).ended ≡ false }
    ensures deletes { OnOk result ((owners : List Kind) (forests : TableForests) → IsReadyBetween P.Pages shape notes.old (room_of rooms.old) pages.old def.now owners forests
        → HasTheseRows P.Pages shape pages.old def.now (map placed_row hits.now) owners forests
        → ChangesRowsOf P.Pages shape notes.old notes.new (room_of rooms.new) pages.old pages.new def.now def.now owners forests
        (λ was space is. TakesRowsBy def.now was (map placed_row hits.now) space is) (without_rows (map (λ hit. hit.row) hits.now))) }
    ensures count { length (P.state pages.new).work ≡ length (P.state pages.old).work }
    ensures touches { Touches P.Pages (IsExpectedSpace P.Pages shape pages.old def.now (LieApart P.Pages shape pages.old def.now hits.now)) pages.old pages.new }
    ensures idle { length hits.now ≡ 0 → (P.state pages.new).work ≡ (P.state pages.old).work }
    ensures runs { RunsOverPages P.Pages AnyPage AnyPage
        (BreaksReady P.Pages shape notes.old (room_of rooms.old) pages.old def.now (HasTheseRows P.Pages shape pages.old def.now (map placed_row hits.now))) pages.old pages.new (fault_of result) }
{
    for hit in hits {
        delete_row(alloc, def, shape, notes, rooms, pages, hit.rid, &hit.row)?;
    }
    Ok(())
}
