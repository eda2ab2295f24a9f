// The row of a block, and where it stands.
ghost use Rattle.std.specs.Prelude.{◌≡◌, false, IfOk, IfNone, IfSome};
ghost use Rattle.store_api.specs.Causes.{fault_of};
ghost use Rattle.store_api.specs.Frame.{NoPage};
ghost use Rattle.store_api.specs.RunsOverPages.{RunsOverPages};
ghost use Rattle.entry_tree.specs.Forest.{Forest};
ghost use Rattle.entry_tree.specs.HeldTrees.{HoldsTree, IsTreePage};
ghost use Rattle.block_map.specs.BlockMaps.{AnyMap, BreaksMapTree, FindsBlock};
ghost use Rattle.block_map.specs.FoundRows.{IsRowFound, LacksBlock, found_row};

use crate::row::lowest_entry;
use crate::{BlockMap, BlockRow};
use entry_tree::FoundEntry;
use store_api::{Pages, StoreFault};

/// A row that was found, and where its entry stands.
#[derive(Drop)]
pub struct FoundRow {
    /// The row.
    pub row: BlockRow,
    pub(crate) place: FoundEntry,
}

impl BlockMap {
    /// The row of a block. None exactly where the map doesn't name it.
    pub fn get<P: Pages>(&self, pages: &mut P, block: u32) -> Result<Option<BlockRow>, StoreFault>
        requires going { (P.state pages.old).ended ≡ false }
        ensures found { IfOk result (λ row. (t : Forest) → HoldsTree P.Pages pages.old self.now.tree t → FindsBlock t block row) }
        ensures named { IfOk result (λ row. IfSome row (λ row. row.block ≡ block)) }
        ensures same { (P.state pages.new).work ≡ (P.state pages.old).work }
        ensures runs { RunsOverPages P.Pages NoPage (IsTreePage P.Pages pages.old self.now.tree) (BreaksMapTree P.Pages pages.old self.now.tree AnyMap) pages.old pages.new (fault_of result) }
    {
        match self.find_row(pages, block)? {
            Some(found) => Ok(Some(found.row)),
            None => Ok(None),
        }
    }

    /// The same, and where the row stands.
    pub(crate) fn find_row<P: Pages>(
        &self,
        pages: &mut P,
        block: u32,
    ) -> Result<Option<FoundRow>, StoreFault>
        requires going { (P.state pages.old).ended ≡ false }
        ensures found { IfOk result (λ found. (t : Forest) → HoldsTree P.Pages pages.old self.now.tree t → FindsBlock t block (found_row found)) }
        ensures named { IfOk result (λ found. IfSome found (λ found. found.row.block ≡ block)) }
        ensures stands { IfOk result (λ found. IfSome found (IsRowFound P.Pages pages.new self.now.tree)) }
        ensures lacks { IfOk result (λ found. IfNone found ((t : Forest) → HoldsTree P.Pages pages.old self.now.tree t → LacksBlock block t)) }
        ensures same { (P.state pages.new).work ≡ (P.state pages.old).work }
        ensures runs { RunsOverPages P.Pages NoPage (IsTreePage P.Pages pages.old self.now.tree) (BreaksMapTree P.Pages pages.old self.now.tree AnyMap) pages.old pages.new (fault_of result) }
    {
        let bound = lowest_entry(block);
        let Some(place) = self.tree.find_from(pages, &bound)? else {
            return Ok(None);
        };
        let Some(row) = BlockRow::of(place.bytes()) else {
            return Err(self.damaged());
        };
        if row.block != block {
            return Ok(None);
        }
        Ok(Some(FoundRow { row, place }))
    }
}
