// A row leaves the record indexes of its table.
ghost use Rattle.std.specs.Prelude.{◌≡◌, List, false, length, IsTrue, OnOk};
ghost use Rattle.store_api.specs.Causes.{fault_of};
ghost use Rattle.store_api.specs.Frame.{Touches};
ghost use Rattle.store_api.specs.RunsOverPages.{RunsOverPages};
ghost use Rattle.extent_map.specs.declared.kind.Kind.{Kind};
ghost use Rattle.mdc_ast.specs.TableLimits.{IsTableDef};
ghost use Rattle.entry_tree.specs.Forest.{Forest};
ghost use Rattle.table_trees.specs.SpaceChanges.{MakesChanges, removed_entries};
ghost use Rattle.table_trees.specs.TableTrees.{record_places};
ghost use Rattle.table_trees.specs.TreesBeside.{IsTreesOrMapPage};
ghost use Rattle.mdc_sound.specs.RunningFull.{listings_in, row_listings};
ghost use Rattle.mdc_sound.specs.StandingTable.{BreaksExpected, StandsTable, TableForests, pages_of};
ghost use Rattle.record_index.specs.OneIndex.{LosesOneEntry};
ghost use Rattle.row_entries.specs.ChosenIndexes.{HasRecordKeys, LacksEntry, all_chosen, chosen_indexes, entry_of};
ghost use Rattle.row_entries.specs.ChosenTrees.{BreaksIndexes, IfDamaged, MovesTrees, StandIndexes};
ghost use Rattle.row_entries.specs.RowEntries.{HasRowEntries, IsTreeOrMapPageOfTable, LeavesRow};

use crate::choosing::ALL_INDEXES;
use extent_map::SpaceNotes;
use mdc_ast::{Row, TableDef};
use mdc_values::Rid;
use record_index::drop_row;
use std::alloc::Global;
use store_api::{Pages, Shape, StoreFault};

/// Takes a row out of all record indexes of its table, in their order. It claims no page, and touches neither page 0 nor an idle
/// page. All other trees, the blocks and the rows stay. Where an index hasn't the entry, its root is damaged by rule 11: no other
/// damage is named where the indexes stand, and else only that of the extent map or of an index. After a fault `undo` goes back,
/// and the notes are to be forgotten.
pub fn leave_row<P: Pages>(
    alloc: Global,
    def: &TableDef,
    shape: Shape,
    notes: &mut SpaceNotes,
    pages: &mut P,
    row: &Row,
    rid: Rid,
) -> Result<(), StoreFault>
    requires defined { IsTableDef def.now.number def.now }
    requires row { HasRecordKeys def.now row.now.values }
    requires going { (P.state pages.old).ended ≡ false }
    ensures leaves { OnOk result ((owners : List Kind) (forests : TableForests) → StandsTable P.Pages shape pages.old def.now owners forests
        → LeavesRow P.Pages shape notes.old notes.new pages.old pages.new def.now row.now rid owners forests) }
    ensures makes { OnOk result ((owners : List Kind) (forests : TableForests) → StandsTable P.Pages shape pages.old def.now owners forests
        → MakesChanges shape (pages_of P.Pages pages.old) (removed_entries (row_listings def.now row.now rid)) (pages_of P.Pages pages.new)) }
    ensures count { length (P.state pages.new).work ≡ length (P.state pages.old).work }
    ensures runs { RunsOverPages P.Pages (IsTreeOrMapPageOfTable P.Pages shape pages.old def.now) (IsTreeOrMapPageOfTable P.Pages shape pages.old def.now)
        (BreaksExpected P.Pages shape pages.old def.now (HasRowEntries def.now row.now rid)) pages.old pages.new (fault_of result) }
    ensures touches { Touches P.Pages (IsTreesOrMapPage P.Pages shape pages.old (record_places def.now)) pages.old pages.new }
    ensures names { IfDamaged (fault_of result) (BreaksIndexes P.Pages shape pages.old def.now (all_chosen def.now) (LacksEntry def.now row.now rid)) }
{
    let chosen = &ALL_INDEXES[..def.indexes.len()];
    leave_chosen(alloc, def, chosen, shape, notes, pages, row, rid)
}

/// Takes a row out of the chosen record indexes of its table, in their order.
pub(crate) fn leave_chosen<P: Pages>(
    alloc: Global,
    def: &TableDef,
    chosen: &[bool],
    shape: Shape,
    notes: &mut SpaceNotes,
    pages: &mut P,
    row: &Row,
    rid: Rid,
) -> Result<(), StoreFault>
    requires defined { IsTableDef def.now.number def.now }
    requires one_each { length chosen.now ≡ length def.now.indexes }
    requires row { HasRecordKeys def.now row.now.values }
    requires going { (P.state pages.old).ended ≡ false }
    ensures leaves { OnOk result ((owners : List Kind) (trees : List Forest) → StandIndexes P.Pages shape pages.old def.now owners trees
        → MovesTrees P.Pages LosesOneEntry shape notes.old notes.new pages.new def.now (entry_of def.now row.now rid) chosen.now owners trees) }
    ensures makes { OnOk result ((owners : List Kind) (trees : List Forest) → StandIndexes P.Pages shape pages.old def.now owners trees → IsTrue (P.state pages.old).is_told
        → MakesChanges shape (pages_of P.Pages pages.old) (removed_entries (listings_in def.now (chosen_indexes chosen.now def.now.indexes) row.now rid)) (pages_of P.Pages pages.new)) }
    ensures count { length (P.state pages.new).work ≡ length (P.state pages.old).work }
    ensures runs { RunsOverPages P.Pages (IsTreesOrMapPage P.Pages shape pages.old (record_places def.now)) (IsTreesOrMapPage P.Pages shape pages.old (record_places def.now))
        (BreaksIndexes P.Pages shape pages.old def.now chosen.now (LacksEntry def.now row.now rid)) pages.old pages.new (fault_of result) }
{
    for index in 0..chosen.len() {
        if !chosen[index] {
            continue;
        }
        drop_row(alloc, def, index as u8, shape, notes, pages, row, rid)?;
    }
    Ok(())
}
