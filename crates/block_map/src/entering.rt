// A block comes into a map, or leaves it.
ghost use Rattle.std.specs.Prelude.{◌≡◌, List, length, false, IfErr, OnOk};
ghost use Rattle.store_api.specs.Causes.{fault_of, store_fault_in};
ghost use Rattle.store_api.specs.RunsOverPages.{RunsOverPages};
ghost use Rattle.extent_map.specs.Damages.{IfFull, store_part_of};
ghost use Rattle.extent_map.specs.Map.{KeepsRoot};
ghost use Rattle.extent_map.specs.declared.kind.Kind.{Kind};
ghost use Rattle.entry_tree.specs.Forest.{Forest};
ghost use Rattle.entry_tree.specs.Pruning.{IsTreeOrMapPage};
ghost use Rattle.entry_tree.specs.Standing.{AddsEntry, FindsFull, IsTreeSpace, StandsTree};
ghost use Rattle.block_map.specs.MapChanges.{BreaksEntering, BreaksLeaving, LeavesMap};
ghost use Rattle.block_map.specs.MapRows.{row_entry};

use crate::{BlockMap, BlockRow};
use extent_map::{SpaceFault, SpaceNotes};
use store_api::{Pages, Shape, StoreFault};

impl BlockMap {
    /// Enters a block that isn't there. `Full` says that the tree met no free extent. Damaged where the map has this row.
    pub fn enter<P: Pages>(
        &self,
        shape: Shape,
        notes: &mut SpaceNotes,
        pages: &mut P,
        row: BlockRow,
    ) -> Result<(), SpaceFault>
        requires going { (P.state pages.old).ended ≡ false }
        ensures adds { OnOk result ((owners : List Kind) (t : Forest) → StandsTree P.Pages shape pages.old self.now.tree owners t
            → AddsEntry P.Pages shape notes.old notes.new pages.old pages.new self.now.tree (row_entry row) owners t) }
        ensures full { IfErr result (λ fault. IfFull fault (λ cap. (cap ≡ shape.extents)
            × ((owners : List Kind) (t : Forest) → StandsTree P.Pages shape pages.old self.now.tree owners t → FindsFull P.Pages shape notes.old notes.new pages.old pages.new self.now.tree (row_entry row) owners t))) }
        ensures root { (owners : List Kind) (t : Forest) → StandsTree P.Pages shape pages.old self.now.tree owners t → KeepsRoot P.Pages pages.old pages.new }
        ensures runs { RunsOverPages P.Pages (IsTreeSpace P.Pages shape pages.old self.now.tree) (IsTreeSpace P.Pages shape pages.old self.now.tree)
            (BreaksEntering P.Pages shape pages.old self.now.tree row) pages.old pages.new (store_fault_in store_part_of result) }
    {
        if self.tree.add(shape, notes, pages, &row.entry())? {
            Ok(())
        } else {
            Err(SpaceFault::Store(self.damaged()))
        }
    }

    /// Takes a block that is there out of the map. It claims no page. Damaged where the map doesn't name the block.
    pub fn leave<P: Pages>(
        &self,
        shape: Shape,
        notes: &mut SpaceNotes,
        pages: &mut P,
        block: u32,
    ) -> Result<(), StoreFault>
        requires going { (P.state pages.old).ended ≡ false }
        ensures leaves { OnOk result ((owners : List Kind) (t : Forest) → StandsTree P.Pages shape pages.old self.now.tree owners t
            → LeavesMap P.Pages shape notes.old notes.new pages.new self.now.tree block owners t) }
        ensures count { length (P.state pages.new).work ≡ length (P.state pages.old).work }
        ensures runs { RunsOverPages P.Pages (IsTreeOrMapPage P.Pages shape pages.old self.now.tree) (IsTreeOrMapPage P.Pages shape pages.old self.now.tree)
            (BreaksLeaving P.Pages shape pages.old self.now.tree block) pages.old pages.new (fault_of result) }
    {
        let Some(row) = self.get(pages, block)? else {
            return Err(self.damaged());
        };
        if self.tree.remove(shape, notes, pages, &row.entry())? {
            Ok(())
        } else {
            Err(self.damaged())
        }
    }
}
