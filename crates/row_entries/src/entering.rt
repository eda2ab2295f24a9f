// A row comes into the record indexes of its table.
ghost use Rattle.std.specs.Prelude.{◌≡◌, List, false, length, IfErr, IsTrue, OnOk};
ghost use Rattle.store_api.specs.Causes.{store_fault_in};
ghost use Rattle.store_api.specs.RunsOverPages.{RunsOverPages};
ghost use Rattle.extent_map.specs.Damages.{IfFull, store_part_of};
ghost use Rattle.extent_map.specs.Owners.{AreRightNotes};
ghost use Rattle.extent_map.specs.declared.kind.Kind.{Kind};
ghost use Rattle.mdc_ast.specs.TableLimits.{IsTableDef};
ghost use Rattle.entry_tree.specs.Forest.{Forest};
ghost use Rattle.table_trees.specs.SpaceChanges.{MakesChanges, RunsFull, added_entries};
ghost use Rattle.table_trees.specs.TableTrees.{record_places};
ghost use Rattle.table_trees.specs.TreesBeside.{GrowsPages, IsSpaceOfTrees};
ghost use Rattle.mdc_sound.specs.RunningFull.{listings_in, row_listings};
ghost use Rattle.mdc_sound.specs.StandingTable.{BreaksExpected, IsTreeSpaceOfTable, StandsTable, TableForests, pages_of};
ghost use Rattle.record_index.specs.OneIndex.{GainsOneEntry};
ghost use Rattle.row_entries.specs.ChosenIndexes.{HasEntry, HasRecordKeys, all_chosen, chosen_indexes, entry_of};
ghost use Rattle.row_entries.specs.ChosenTrees.{BreaksIndexes, IfDamaged, MovesTrees, StandIndexes};
ghost use Rattle.row_entries.specs.RowEntries.{EntersRow, LacksRowEntries};

use crate::choosing::ALL_INDEXES;
use extent_map::{SpaceFault, SpaceNotes};
use mdc_ast::{Row, TableDef};
use mdc_values::Rid;
use record_index::add_row;
use std::alloc::Global;
use store_api::{Pages, Shape};

/// Enters a row in all record indexes of its table, in their order. It claims no more pages than its entries ask for, and `Full`
/// says that one of them asks for more than there are. All other trees, the blocks and the rows stay. Where an index has the entry
/// already, its root is damaged by rule 11: no other damage is named where the indexes stand, and else only that of the extent map
/// or of an index. After a fault `undo` goes back, and the notes are to be forgotten.
pub fn enter_row<P: Pages>(
    alloc: Global,
    def: &TableDef,
    shape: Shape,
    notes: &mut SpaceNotes,
    pages: &mut P,
    row: &Row,
    rid: Rid,
) -> Result<(), SpaceFault>
    requires defined { IsTableDef def.now.number def.now }
    requires row { HasRecordKeys def.now row.now.values }
    requires going { (P.state pages.old).ended ≡ false }
    ensures enters { OnOk result ((owners : List Kind) (forests : TableForests) → StandsTable P.Pages shape pages.old def.now owners forests
        → EntersRow P.Pages shape notes.old notes.new pages.old pages.new def.now row.now rid owners forests) }
    ensures makes { OnOk result ((owners : List Kind) (forests : TableForests) → StandsTable P.Pages shape pages.old def.now owners forests → AreRightNotes shape notes.old owners
        → MakesChanges shape (pages_of P.Pages pages.old) (added_entries (row_listings def.now row.now rid)) (pages_of P.Pages pages.new)) }
    ensures full { IfErr result (λ fault. IfFull fault (λ cap. (cap ≡ shape.extents) × ((owners : List Kind) (forests : TableForests) → StandsTable P.Pages shape pages.old def.now owners forests → AreRightNotes shape notes.old owners
        → RunsFull shape (pages_of P.Pages pages.old) (added_entries (row_listings def.now row.now rid))))) }
    ensures runs { RunsOverPages P.Pages (IsTreeSpaceOfTable P.Pages shape pages.old def.now) (IsTreeSpaceOfTable P.Pages shape pages.old def.now)
        (BreaksExpected P.Pages shape pages.old def.now (LacksRowEntries def.now row.now rid)) pages.old pages.new (store_fault_in store_part_of result) }
    ensures names { IfDamaged (store_fault_in store_part_of result) (BreaksIndexes P.Pages shape pages.old def.now (all_chosen def.now) (HasEntry def.now row.now rid)) }
{
    let chosen = &ALL_INDEXES[..def.indexes.len()];
    enter_chosen(alloc, def, chosen, shape, notes, pages, row, rid)
}

/// Enters a row in the chosen record indexes of its table, in their order.
pub(crate) fn enter_chosen<P: Pages>(
    alloc: Global,
    def: &TableDef,
    chosen: &[bool],
    shape: Shape,
    notes: &mut SpaceNotes,
    pages: &mut P,
    row: &Row,
    rid: Rid,
) -> Result<(), SpaceFault>
    requires defined { IsTableDef def.now.number def.now }
    requires one_each { length chosen.now ≡ length def.now.indexes }
    requires row { HasRecordKeys def.now row.now.values }
    requires going { (P.state pages.old).ended ≡ false }
    ensures enters { OnOk result ((owners : List Kind) (trees : List Forest) → StandIndexes P.Pages shape pages.old def.now owners trees
        → MovesTrees P.Pages GainsOneEntry shape notes.old notes.new pages.new def.now (entry_of def.now row.now rid) chosen.now owners trees) }
    ensures makes { OnOk result ((owners : List Kind) (trees : List Forest) → StandIndexes P.Pages shape pages.old def.now owners trees → IsTrue (P.state pages.old).is_told → AreRightNotes shape notes.old owners
        → MakesChanges shape (pages_of P.Pages pages.old) (added_entries (listings_in def.now (chosen_indexes chosen.now def.now.indexes) row.now rid)) (pages_of P.Pages pages.new)) }
    ensures grows { OnOk result ((owners : List Kind) (trees : List Forest) → StandIndexes P.Pages shape pages.old def.now owners trees → GrowsPages P.Pages shape pages.old pages.new) }
    ensures full { IfErr result (λ fault. IfFull fault (λ cap. (cap ≡ shape.extents) × ((owners : List Kind) (trees : List Forest) → StandIndexes P.Pages shape pages.old def.now owners trees → IsTrue (P.state pages.old).is_told → AreRightNotes shape notes.old owners
        → RunsFull shape (pages_of P.Pages pages.old) (added_entries (listings_in def.now (chosen_indexes chosen.now def.now.indexes) row.now rid))))) }
    ensures runs { RunsOverPages P.Pages (IsSpaceOfTrees P.Pages shape pages.old (record_places def.now)) (IsSpaceOfTrees P.Pages shape pages.old (record_places def.now))
        (BreaksIndexes P.Pages shape pages.old def.now chosen.now (HasEntry def.now row.now rid)) pages.old pages.new (store_fault_in store_part_of result) }
{
    for index in 0..chosen.len() {
        if !chosen[index] {
            continue;
        }
        add_row(alloc, def, index as u8, shape, notes, pages, row, rid)?;
    }
    Ok(())
}
