// A row leaves a record index.
ghost use Rattle.std.specs.Prelude.{◌≡◌, ◌<◌, [], ◌∷◌, false, length, IsTrue, OnOk};
ghost use Rattle.store_api.specs.Causes.{fault_of};
ghost use Rattle.store_api.specs.RunsOverPages.{RunsOverPages};
ghost use Rattle.table_trees.specs.SpaceChanges.{MakesChange};
ghost use Rattle.table_trees.specs.SpaceChanges.SpaceChange.{RemoveEntry};
ghost use Rattle.table_trees.specs.TreesBeside.{IsTreesOrMapPage};
ghost use Rattle.record_index.specs.OneIndex.{AmongTrees, BreaksDroppingRow, ChangesOneTree, LosesOneEntry};
ghost use Rattle.record_index.specs.RecordIndexes.{HasRecordIndexes, HaveKeysIn, entry_in_record_index, parts_of_record_index, place_of_record_index};

use crate::entries::tree_and_entry;
use block_index::leave;
use extent_map::SpaceNotes;
use mdc_ast::{Row, TableDef};
use mdc_values::Rid;
use std::alloc::Global;
use store_api::rules::RECORD_INDEXES_RULE;
use store_api::{Pages, Shape, StoreFault};

/// Takes a row out of a record index, by its key and its place. It claims no page, and touches neither page 0 nor an idle page.
/// All other trees stay. Where the entry isn't there, the root of the index is damaged by rule 11, which is named for nothing
/// else where the extent map and the tree have their form. After a fault `undo` goes back, and the notes are to be forgotten.
pub fn drop_row<P: Pages>(
    alloc: Global,
    def: &TableDef,
    index: u8,
    shape: Shape,
    notes: &mut SpaceNotes,
    pages: &mut P,
    row: &Row,
    rid: Rid,
) -> Result<(), StoreFault>
    requires indexes { HasRecordIndexes def.now }
    requires there { index < length def.now.indexes }
    requires row { HaveKeysIn def.now.columns (parts_of_record_index def.now index) row.now.values }
    requires going { (P.state pages.old).ended ≡ false }
    ensures drops { OnOk result (AmongTrees P.Pages shape pages.old (place_of_record_index def.now index)
        (ChangesOneTree P.Pages shape notes.old notes.new pages.new (LosesOneEntry (entry_in_record_index def.now index row.now.values rid)))) }
    ensures makes { OnOk result (AmongTrees P.Pages shape pages.old (place_of_record_index def.now index) (λ owners places trees i. IsTrue (P.state pages.old).is_told
        → MakesChange shape (P.state pages.old).work (RemoveEntry (place_of_record_index def.now index) (entry_in_record_index def.now index row.now.values rid)) (P.state pages.new).work)) }
    ensures count { length (P.state pages.new).work ≡ length (P.state pages.old).work }
    ensures runs { RunsOverPages P.Pages (IsTreesOrMapPage P.Pages shape pages.old (place_of_record_index def.now index ∷ [])) (IsTreesOrMapPage P.Pages shape pages.old (place_of_record_index def.now index ∷ []))
        (BreaksDroppingRow P.Pages shape pages.old (place_of_record_index def.now index) (entry_in_record_index def.now index row.now.values rid)) pages.old pages.new (fault_of result) }
{
    let (tree, entry) = tree_and_entry(alloc, def, index, &row.values, rid);
    leave(
        &tree,
        RECORD_INDEXES_RULE,
        shape,
        notes,
        pages,
        entry.bytes(),
    )
}
