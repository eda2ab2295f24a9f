// A row comes into a record index.
ghost use Rattle.std.specs.Prelude.{◌≡◌, ◌<◌, [], ◌∷◌, false, length, IfErr, IsTrue, OnOk};
ghost use Rattle.store_api.specs.Causes.{store_fault_in};
ghost use Rattle.store_api.specs.RunsOverPages.{RunsOverPages};
ghost use Rattle.extent_map.specs.Damages.{IfFull, store_part_of};
ghost use Rattle.extent_map.specs.Map.{KeepsRoot};
ghost use Rattle.extent_map.specs.Owners.{AreRightNotes};
ghost use Rattle.table_trees.specs.SpaceChanges.{AsksTooMuch, MakesChange};
ghost use Rattle.table_trees.specs.SpaceChanges.SpaceChange.{AddEntry};
ghost use Rattle.table_trees.specs.TreesBeside.{GrowsPages, IsSpaceOfTrees};
ghost use Rattle.record_index.specs.OneIndex.{AmongTrees, BreaksAddingRow, ChangesOneTree, FillsExtents, GainsOneEntry};
ghost use Rattle.record_index.specs.RecordIndexes.{HasRecordIndexes, HaveKeysIn, entry_in_record_index, parts_of_record_index, place_of_record_index};

use crate::entries::tree_and_entry;
use block_index::enter;
use extent_map::{SpaceFault, SpaceNotes};
use mdc_ast::{Row, TableDef};
use mdc_values::Rid;
use std::alloc::Global;
use store_api::rules::RECORD_INDEXES_RULE;
use store_api::{Pages, Shape};

/// Enters a row in a record index, by its key and its place. With right notes it claims no more pages than the entry asks for, and
/// `Full` says that it asks for more than there are. All other trees stay, at `Full` that of the index too, and of page 0 only the
/// page count changes. Where the entry is there already, the root of the index is damaged by rule 11, which is named for nothing
/// else where the extent map and the tree have their form. After a fault `undo` goes back, and the notes are to be forgotten.
pub fn add_row<P: Pages>(
    alloc: Global,
    def: &TableDef,
    index: u8,
    shape: Shape,
    notes: &mut SpaceNotes,
    pages: &mut P,
    row: &Row,
    rid: Rid,
) -> Result<(), SpaceFault>
    requires indexes { HasRecordIndexes def.now }
    requires there { index < length def.now.indexes }
    requires row { HaveKeysIn def.now.columns (parts_of_record_index def.now index) row.now.values }
    requires going { (P.state pages.old).ended ≡ false }
    ensures adds { OnOk result (AmongTrees P.Pages shape pages.old (place_of_record_index def.now index)
        (ChangesOneTree P.Pages shape notes.old notes.new pages.new (GainsOneEntry (entry_in_record_index def.now index row.now.values rid)))) }
    ensures makes { OnOk result (AmongTrees P.Pages shape pages.old (place_of_record_index def.now index) (λ owners places trees i. IsTrue (P.state pages.old).is_told → AreRightNotes shape notes.old owners
        → MakesChange shape (P.state pages.old).work (AddEntry (place_of_record_index def.now index) (entry_in_record_index def.now index row.now.values rid)) (P.state pages.new).work)) }
    ensures grows { OnOk result (AmongTrees P.Pages shape pages.old (place_of_record_index def.now index) (λ owners places trees i. GrowsPages P.Pages shape pages.old pages.new)) }
    ensures full { IfErr result (λ fault. IfFull fault (λ cap. (cap ≡ shape.extents) × AmongTrees P.Pages shape pages.old (place_of_record_index def.now index)
        (FillsExtents P.Pages shape notes.old notes.new pages.old pages.new (place_of_record_index def.now index) (entry_in_record_index def.now index row.now.values rid)))) }
    ensures asks { IfErr result (λ fault. IfFull fault (λ cap. AmongTrees P.Pages shape pages.old (place_of_record_index def.now index) (λ owners places trees i. IsTrue (P.state pages.old).is_told → AreRightNotes shape notes.old owners
        → AsksTooMuch shape (P.state pages.old).work (AddEntry (place_of_record_index def.now index) (entry_in_record_index def.now index row.now.values rid))))) }
    ensures root { AmongTrees P.Pages shape pages.old (place_of_record_index def.now index) (λ owners places trees i. KeepsRoot P.Pages pages.old pages.new) }
    ensures runs { RunsOverPages P.Pages (IsSpaceOfTrees P.Pages shape pages.old (place_of_record_index def.now index ∷ [])) (IsSpaceOfTrees P.Pages shape pages.old (place_of_record_index def.now index ∷ []))
        (BreaksAddingRow P.Pages shape pages.old (place_of_record_index def.now index) (entry_in_record_index def.now index row.now.values rid)) pages.old pages.new (store_fault_in store_part_of result) }
{
    let (tree, entry) = tree_and_entry(alloc, def, index, &row.values, rid);
    enter(
        &tree,
        RECORD_INDEXES_RULE,
        shape,
        notes,
        pages,
        entry.bytes(),
    )
}
