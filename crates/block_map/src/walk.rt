// The rows of a block map, one after the other.
ghost use Rattle.std.specs.Prelude.{◌≡◌, ◌+◌, ◌<◌, ◌^◌, [], Some, length, true, false, IfOk, IfSome, OnOk};
ghost use Rattle.store_api.specs.Causes.{fault_of};
ghost use Rattle.store_api.specs.Frame.{NoPage};
ghost use Rattle.store_api.specs.RunsOverPages.{RunsOverPages};
ghost use Rattle.entry_tree.specs.Forest.{Forest, leaf_entries};
ghost use Rattle.entry_tree.specs.HeldTrees.{BreaksTree, HoldsTree, IsTreePage};
ghost use Rattle.block_map.specs.BlockMaps.{BreaksMapTree};
ghost use Rattle.block_map.specs.MapLines.{map_entry};
ghost use Rattle.block_map.specs.Walking.{GivesNext, IsWalking, RisesTo, WalkFits, left_of_walk};

use crate::row::lowest_entry;
use crate::{BlockMap, BlockRow};
use entry_tree::{Entry, Leaf};
use std::alloc::Global;
use store_api::{Pages, StoreFault};

/// A walk over the rows of a map from a block on. It keeps one leaf, whose memory it uses again.
#[derive(Drop)]
pub(crate) struct Walk {
    pub(crate) leaf: Leaf,
    /// The place in the leaf of the entry that comes next.
    pub(crate) at: usize,
    /// The lowest block that may come next.
    pub(crate) lowest: u64,
}

impl Walk {
    /// A walk that begins at a block.
    pub(crate) fn from(alloc: Global, block: u32) -> Walk
        ensures entries { result.leaf.entries ≡ [] }
        ensures next { result.leaf.next ≡ Some (map_entry block 0 0) }
        ensures at { result.at ≡ 0 }
        ensures lowest { result.lowest ≡ 0 }
        ensures fits { WalkFits result }
    {
        let mut leaf = Leaf::new(alloc);
        leaf.next = Some(Entry::of(&lowest_entry(block)));
        Walk {
            leaf,
            at: 0,
            lowest: 0,
        }
    }

    /// The next row, if there is one.
    pub(crate) fn next<P: Pages>(
        &mut self,
        map: &BlockMap,
        pages: &mut P,
    ) -> Result<Option<BlockRow>, StoreFault>
        requires fits { WalkFits self.old }
        requires going { (P.state pages.old).ended ≡ false }
        ensures fits { OnOk result (WalkFits self.new) }
        ensures gives { IfOk result (λ row. (t : Forest) → HoldsTree P.Pages pages.old map.now.tree t → GivesNext (leaf_entries t) self.old self.new row) }
        ensures rises { IfOk result (λ row. IfSome row (RisesTo self.old self.new)) }
        ensures same { (P.state pages.new).work ≡ (P.state pages.old).work }
        ensures runs { RunsOverPages P.Pages NoPage (IsTreePage P.Pages pages.old map.now.tree)
            (BreaksMapTree P.Pages pages.old map.now.tree (λ t. IsWalking (leaf_entries t) self.old)) pages.old pages.new (fault_of result) }
    {
        if !self.load(map, pages)? {
            return Ok(None);
        }
        let Some(row) = BlockRow::of(self.leaf.entries.at(self.at)) else {
            return Err(map.damaged());
        };
        if u64::from(row.block) < self.lowest {
            return Err(map.damaged());
        }
        self.lowest = u64::from(row.block) + 1;
        self.at += 1;
        Ok(Some(row))
    }

    // Whether an entry is left. Where the leaf has none more, the next leaf is read.
    fn load<P: Pages>(&mut self, map: &BlockMap, pages: &mut P) -> Result<bool, StoreFault>
        requires fits { WalkFits self.old }
        requires going { (P.state pages.old).ended ≡ false }
        ensures fits { OnOk result (WalkFits self.new) }
        ensures left { OnOk result ((t : Forest) → HoldsTree P.Pages pages.old map.now.tree t → left_of_walk (leaf_entries t) self.new ≡ left_of_walk (leaf_entries t) self.old) }
        ensures none { IfOk result (λ more. more ≡ false → (t : Forest) → HoldsTree P.Pages pages.old map.now.tree t → left_of_walk (leaf_entries t) self.old ≡ []) }
        ensures some { IfOk result (λ more. more ≡ true → self.new.at < length self.new.leaf.entries) }
        ensures room { IfOk result (λ more. more ≡ true → self.new.at + 1 < 2 ^ 64) }
        ensures lowest { self.new.lowest ≡ self.old.lowest }
        ensures same { (P.state pages.new).work ≡ (P.state pages.old).work }
        ensures runs { RunsOverPages P.Pages NoPage (IsTreePage P.Pages pages.old map.now.tree) (BreaksTree P.Pages pages.old map.now.tree) pages.old pages.new (fault_of result) }
    {
        if self.at < self.leaf.entries.len() {
            return Ok(true);
        }
        let Some(next) = self.leaf.next.take() else {
            return Ok(false);
        };
        self.at = 0;
        map.tree
            .read_leaf_from(pages, next.bytes(), &mut self.leaf)?;
        Ok(self.leaf.entries.len() > 0)
    }
}
