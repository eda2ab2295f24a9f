// Entries of blocks that were rolled out leave a record index.
ghost use Rattle.std.specs.Prelude.{◌≡◌, ◌<◌, [], ◌∷◌, false, length, replicate, IfOk, IsTrue};
ghost use Rattle.store_api.specs.Causes.{fault_of};
ghost use Rattle.store_api.specs.RunsOverPages.{RunsOverPages};
ghost use Rattle.key_codec.specs.Keys.{width_of_parts};
ghost use Rattle.entry_tree.specs.Reading.{BoundFits};
ghost use Rattle.table_trees.specs.TreesBeside.{IsTreesOrMapPage};
ghost use Rattle.record_index.specs.OneIndex.{AmongTrees, BreaksSweepingIndex, ChangesOneTree};
ghost use Rattle.record_index.specs.RecordIndexes.{HasRecordIndexes, parts_of_record_index, place_of_record_index};
ghost use Rattle.record_index.specs.SweptLeaf.{SweepsOneLeaf, TakesNoSpace};

use block_index::lowest_bound;
use entry_tree::{Entry, Swept};
use extent_map::SpaceNotes;
use key_codec::key_width;
use mdc_ast::TableDef;
use mdc_values::Blocks;
use std::alloc::Global;
use store_api::{Pages, Shape, StoreFault};
use table_trees::record_tree;

/// Where a sweep of a record index begins: at or below each entry.
pub fn first_bound(alloc: Global, def: &TableDef, index: u8) -> Entry
    requires indexes { HasRecordIndexes def.now }
    requires there { index < length def.now.indexes }
    ensures { let place = place_of_record_index def.now index in result ≡ replicate place.width 0 }
{
    let tree = record_tree(alloc, def, usize::from(index));
    lowest_bound(tree.width)
}

/// Takes the entries from a bound on that name one of these blocks out of the first leaf of a record index that holds an entry
/// from there on. Says how many they were, and the bound at which the entries behind that leaf begin, if there are any. It
/// claims no page, and all other trees stay; where no entry left, nothing changed. After a fault `undo` goes back, and the notes
/// are to be forgotten.
pub fn sweep_step<P: Pages>(
    alloc: Global,
    def: &TableDef,
    index: u8,
    shape: Shape,
    notes: &mut SpaceNotes,
    pages: &mut P,
    bound: &[u8],
    blocks: &Blocks,
) -> Result<Swept, StoreFault>
    requires indexes { HasRecordIndexes def.now }
    requires there { index < length def.now.indexes }
    requires width { let place = place_of_record_index def.now index in length bound.now ≡ place.width }
    requires going { (P.state pages.old).ended ≡ false }
    ensures sweeps { IfOk result (λ swept. AmongTrees P.Pages shape pages.old (place_of_record_index def.now index)
        (ChangesOneTree P.Pages shape notes.old notes.new pages.new (SweepsOneLeaf bound.now (width_of_parts def.now.columns (parts_of_record_index def.now index)) blocks.now swept.removed swept.next))) }
    ensures frees { IfOk result (λ swept. AmongTrees P.Pages shape pages.old (place_of_record_index def.now index) (λ owners places trees i. IsTrue (P.state pages.old).is_told
        → TakesNoSpace shape (P.state pages.old).work (P.state pages.new).work)) }
    ensures not { IfOk result (λ swept. swept.removed ≡ 0 → (P.state pages.new).work ≡ (P.state pages.old).work) }
    ensures not_notes { IfOk result (λ swept. swept.removed ≡ 0 → notes.new ≡ notes.old) }
    ensures next { IfOk result (λ swept. let place = place_of_record_index def.now index in BoundFits place.width swept.next) }
    ensures count { length (P.state pages.new).work ≡ length (P.state pages.old).work }
    ensures runs { RunsOverPages P.Pages (IsTreesOrMapPage P.Pages shape pages.old (place_of_record_index def.now index ∷ [])) (IsTreesOrMapPage P.Pages shape pages.old (place_of_record_index def.now index ∷ []))
        (BreaksSweepingIndex P.Pages shape pages.old (place_of_record_index def.now index)) pages.old pages.new (fault_of result) }
{
    let index = usize::from(index);
    let tree = record_tree(alloc, def, index);
    let width = key_width(&def.columns, &def.indexes.at(index).parts);
    tree.sweep_leaf(shape, notes, pages, bound, width, blocks)
}
