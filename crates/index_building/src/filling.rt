// The rows of a table come into a record index.
ghost use Rattle.std.specs.Prelude.{◌≡◌, ◌<◌, [], ◌∷◌, map, length, false, IfErr, IsTrue, OnOk};
ghost use Rattle.std.specs.List.{FoldsTo};
ghost use Rattle.store_api.specs.Causes.{store_fault_in};
ghost use Rattle.store_api.specs.RunsOverPages.{RunsOverPages};
ghost use Rattle.extent_map.specs.Damages.{IfFull, store_part_of};
ghost use Rattle.extent_map.specs.Owners.{AreRightNotes};
ghost use Rattle.block_rows.specs.HeldRows.{HaveReadValues, placed_row};
ghost use Rattle.table_trees.specs.SpaceChanges.{MakesChange, RunsFull};
ghost use Rattle.table_trees.specs.TreesBeside.{GrowsPages, IsSpaceOfTrees};
ghost use Rattle.record_index.specs.OneIndex.{AmongTrees};
ghost use Rattle.record_index.specs.RecordIndexes.{HasRecordIndexes, place_of_record_index};
ghost use Rattle.index_building.specs.FilledIndexes.{BreaksFilling, FillsIndex, entering_changes};

use block_rows::Hit;
use extent_map::{SpaceFault, SpaceNotes};
use mdc_ast::TableDef;
use record_index::add_row;
use std::alloc::Global;
use store_api::{Pages, Shape};

/// Enters rows in a record index, one after the other. All other trees stay. `Full` says that an entry asks for more than there is.
pub(crate) fn fill_index<P: Pages>(
    alloc: Global,
    def: &TableDef,
    index: u8,
    shape: Shape,
    notes: &mut SpaceNotes,
    pages: &mut P,
    rows: &[Hit],
) -> Result<(), SpaceFault>
    requires indexes { HasRecordIndexes def.now }
    requires there { index < length def.now.indexes }
    requires read { HaveReadValues def.now.columns rows.now }
    requires going { (P.state pages.old).ended ≡ false }
    ensures fills { OnOk result (AmongTrees P.Pages shape pages.old (place_of_record_index def.now index)
        (FillsIndex P.Pages shape notes.old notes.new pages.new def.now index (map placed_row rows.now))) }
    ensures makes { OnOk result (AmongTrees P.Pages shape pages.old (place_of_record_index def.now index) (λ owners places trees i. IsTrue (P.state pages.old).is_told → AreRightNotes shape notes.old owners
        → FoldsTo (MakesChange shape) (P.state pages.old).work (entering_changes def.now index (map placed_row rows.now)) (P.state pages.new).work)) }
    ensures grows { OnOk result (AmongTrees P.Pages shape pages.old (place_of_record_index def.now index) (λ owners places trees i. GrowsPages P.Pages shape pages.old pages.new)) }
    ensures full { IfErr result (λ fault. IfFull fault (λ cap. (cap ≡ shape.extents) × AmongTrees P.Pages shape pages.old (place_of_record_index def.now index) (λ owners places trees i. IsTrue (P.state pages.old).is_told → AreRightNotes shape notes.old owners
        → RunsFull shape (P.state pages.old).work (entering_changes def.now index (map placed_row rows.now))))) }
    ensures runs { RunsOverPages P.Pages (IsSpaceOfTrees P.Pages shape pages.old (place_of_record_index def.now index ∷ [])) (IsSpaceOfTrees P.Pages shape pages.old (place_of_record_index def.now index ∷ []))
        (BreaksFilling P.Pages shape pages.old def.now index (map placed_row rows.now)) pages.old pages.new (store_fault_in store_part_of result) }
{
    for hit in rows {
        add_row(alloc, def, index, shape, notes, pages, &hit.row, hit.rid)?;
    }
    Ok(())
}
