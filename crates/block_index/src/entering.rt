// A block comes into the block indexes.
ghost use Rattle.std.specs.Prelude.{◌≡◌, List, false, IfErr, IsTrue, OnOk};
ghost use Rattle.store_api.specs.Causes.{store_fault_in};
ghost use Rattle.store_api.specs.RunsOverPages.{RunsOverPages};
ghost use Rattle.extent_map.specs.Damages.{IfFull, store_part_of};
ghost use Rattle.extent_map.specs.Owners.{AreRightNotes};
ghost use Rattle.extent_map.specs.declared.kind.Kind.{Kind};
ghost use Rattle.entry_tree.specs.Forest.{Forest};
ghost use Rattle.table_trees.specs.SpaceChanges.{MakesChanges, RunsFull, added_entries};
ghost use Rattle.table_trees.specs.TableTrees.{HasBlockIndexes, block_index_places};
ghost use Rattle.table_trees.specs.TreesBeside.{GrowsPages, IsSpaceOfTrees, StandTrees};
ghost use Rattle.block_index.specs.Cells.{FitsCell, index_listings};
ghost use Rattle.block_index.specs.Listing.{BreaksListing, FillsListing, ListsBlock};

use crate::entries::cell_entries;
use crate::one_entry::enter;
use extent_map::{SpaceFault, SpaceNotes};
use mdc_ast::{Cell, TableDef};
use std::alloc::Global;
use store_api::rules::BLOCK_INDEXES_RULE;
use store_api::{Pages, Shape};
use table_trees::block_index_tree;

/// Lists a block under the values of its cell: in the composite index, and then in that of each dimension. It claims no more
/// pages than these entries ask for, and `Full` says that one of them asks for more than there are. Where an index has the entry
/// already, its root is damaged by rule 10. After a fault `undo` goes back, and the notes are to be forgotten.
pub fn list_block<P: Pages>(
    alloc: Global,
    def: &TableDef,
    shape: Shape,
    notes: &mut SpaceNotes,
    pages: &mut P,
    cell: &Cell,
    block: u32,
) -> Result<(), SpaceFault>
    requires indexes { HasBlockIndexes def.now }
    requires cell { FitsCell def.now cell.now.values }
    requires going { (P.state pages.old).ended ≡ false }
    ensures lists { OnOk result ((owners : List Kind) (trees : List Forest) → StandTrees P.Pages shape pages.old owners (block_index_places def.now) trees
        → ListsBlock P.Pages shape notes.old notes.new pages.new def.now cell.now.values block owners trees) }
    ensures full { IfErr result (λ fault. IfFull fault (λ cap. (cap ≡ shape.extents) × FillsListing P.Pages shape notes.old notes.new pages.old pages.new def.now cell.now.values block)) }
    ensures makes { OnOk result ((owners : List Kind) (trees : List Forest) → StandTrees P.Pages shape pages.old owners (block_index_places def.now) trees
        → IsTrue (P.state pages.old).is_told → AreRightNotes shape notes.old owners → MakesChanges shape (P.state pages.old).work (added_entries (index_listings def.now cell.now.values block)) (P.state pages.new).work) }
    ensures runs_full { IfErr result (λ fault. IfFull fault (λ cap. (owners : List Kind) (trees : List Forest) → StandTrees P.Pages shape pages.old owners (block_index_places def.now) trees
        → IsTrue (P.state pages.old).is_told → AreRightNotes shape notes.old owners → RunsFull shape (P.state pages.old).work (added_entries (index_listings def.now cell.now.values block)))) }
    ensures grows { OnOk result ((owners : List Kind) (trees : List Forest) → StandTrees P.Pages shape pages.old owners (block_index_places def.now) trees
        → GrowsPages P.Pages shape pages.old pages.new) }
    ensures runs { RunsOverPages P.Pages (IsSpaceOfTrees P.Pages shape pages.old (block_index_places def.now)) (IsSpaceOfTrees P.Pages shape pages.old (block_index_places def.now))
        (BreaksListing P.Pages shape notes.old pages.old def.now cell.now.values block) pages.old pages.new (store_fault_in store_part_of result) }
{
    let entries = cell_entries(alloc, def, cell, block)?;
    for i in 0..entries.len() {
        let tree = block_index_tree(alloc, def, i);
        enter(
            &tree,
            BLOCK_INDEXES_RULE,
            shape,
            notes,
            pages,
            entries[i].bytes(),
        )?;
    }
    Ok(())
}
