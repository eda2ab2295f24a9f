// A block leaves the block indexes.
ghost use Rattle.std.specs.Prelude.{◌≡◌, List, false, length, IsTrue, OnOk};
ghost use Rattle.store_api.specs.Causes.{fault_of};
ghost use Rattle.store_api.specs.RunsOverPages.{RunsOverPages};
ghost use Rattle.extent_map.specs.declared.kind.Kind.{Kind};
ghost use Rattle.entry_tree.specs.Forest.{Forest};
ghost use Rattle.table_trees.specs.SpaceChanges.{MakesChanges, removed_entries};
ghost use Rattle.table_trees.specs.TableTrees.{HasBlockIndexes, block_index_places};
ghost use Rattle.table_trees.specs.TreesBeside.{IsTreesOrMapPage, StandTrees};
ghost use Rattle.block_index.specs.Cells.{FitsCell, index_listings};
ghost use Rattle.block_index.specs.Listing.{BreaksUnlisting, UnlistsBlock};

use crate::entries::cell_entries;
use crate::one_entry::leave;
use extent_map::SpaceNotes;
use mdc_ast::{Cell, TableDef};
use std::alloc::Global;
use store_api::rules::BLOCK_INDEXES_RULE;
use store_api::{Pages, Shape, StoreFault};
use table_trees::block_index_tree;

/// Takes a block out that is listed under the values of its cell: of the composite index, and then of that of each dimension.
/// It claims no page, and touches neither page 0 nor an idle page. Where an index hasn't the entry, its root is damaged by rule 10.
pub fn unlist_block<P: Pages>(
    alloc: Global,
    def: &TableDef,
    shape: Shape,
    notes: &mut SpaceNotes,
    pages: &mut P,
    cell: &Cell,
    block: u32,
) -> Result<(), StoreFault>
    requires indexes { HasBlockIndexes def.now }
    requires cell { FitsCell def.now cell.now.values }
    requires going { (P.state pages.old).ended ≡ false }
    ensures unlists { OnOk result ((owners : List Kind) (trees : List Forest) → StandTrees P.Pages shape pages.old owners (block_index_places def.now) trees
        → UnlistsBlock P.Pages shape notes.old notes.new pages.new def.now cell.now.values block owners trees) }
    ensures makes { OnOk result ((owners : List Kind) (trees : List Forest) → StandTrees P.Pages shape pages.old owners (block_index_places def.now) trees
        → IsTrue (P.state pages.old).is_told → MakesChanges shape (P.state pages.old).work (removed_entries (index_listings def.now cell.now.values block)) (P.state pages.new).work) }
    ensures count { length (P.state pages.new).work ≡ length (P.state pages.old).work }
    ensures runs { RunsOverPages P.Pages (IsTreesOrMapPage P.Pages shape pages.old (block_index_places def.now)) (IsTreesOrMapPage P.Pages shape pages.old (block_index_places def.now))
        (BreaksUnlisting P.Pages shape notes.old pages.old def.now cell.now.values block) pages.old pages.new (fault_of result) }
{
    let entries = cell_entries(alloc, def, cell, block)?;
    for i in 0..entries.len() {
        let tree = block_index_tree(alloc, def, i);
        leave(
            &tree,
            BLOCK_INDEXES_RULE,
            shape,
            notes,
            pages,
            entries[i].bytes(),
        )?;
    }
    Ok(())
}
