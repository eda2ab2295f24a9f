// A row becomes another one in its place.
ghost use Rattle.std.specs.Prelude.{◌≡◌, length, false, OnOk};
ghost use Rattle.store_api.specs.Causes.{fault_of};
ghost use Rattle.store_api.specs.RunsOverPages.{RunsOverPages};
ghost use Rattle.entry_tree.specs.Forest.{Forest};
ghost use Rattle.entry_tree.specs.HeldTrees.{BreaksTree, HoldsTree, IsTreePage};
ghost use Rattle.block_map.specs.BlockMaps.{BreaksMapTree, HasRow, IsMapForm, NamesBlock};
ghost use Rattle.block_map.specs.FoundRows.{IsRowFound};
ghost use Rattle.block_map.specs.MapChanges.{ChangesRowTo, SetsRow};

use crate::{BlockMap, BlockRow, FoundRow};
use store_api::{Pages, StoreFault};

impl BlockMap {
    /// Replaces the row of a block by another one of the same block, in one descent. It claims no page. Damaged where the
    /// map hasn't that row.
    pub fn replace<P: Pages>(
        &self,
        pages: &mut P,
        was: BlockRow,
        is: BlockRow,
    ) -> Result<(), StoreFault>
        requires alike { was.block ≡ is.block }
        requires going { (P.state pages.old).ended ≡ false }
        ensures there { OnOk result ((t : Forest) → HoldsTree P.Pages pages.old self.now.tree t → HasRow was t) }
        ensures changes { OnOk result ((t : Forest) → HoldsTree P.Pages pages.old self.now.tree t → IsMapForm t → ChangesRowTo P.Pages pages.new self.now.tree was is t) }
        ensures count { length (P.state pages.new).work ≡ length (P.state pages.old).work }
        ensures runs { RunsOverPages P.Pages (IsTreePage P.Pages pages.old self.now.tree) (IsTreePage P.Pages pages.old self.now.tree)
            (BreaksMapTree P.Pages pages.old self.now.tree (HasRow was)) pages.old pages.new (fault_of result) }
    {
        if self.tree.amend(pages, &was.entry(), &is.entry())? {
            Ok(())
        } else {
            Err(self.damaged())
        }
    }

    /// Replaces a row that was found by another one of the same block, mostly without a search. It claims no page.
    pub(crate) fn replace_found<P: Pages>(
        &self,
        pages: &mut P,
        was: &FoundRow,
        is: BlockRow,
    ) -> Result<(), StoreFault>
        requires found { IsRowFound P.Pages pages.old self.now.tree was.now }
        requires alike { was.now.row.block ≡ is.block }
        requires going { (P.state pages.old).ended ≡ false }
        ensures changes { OnOk result ((t : Forest) → HoldsTree P.Pages pages.old self.now.tree t → IsMapForm t → ChangesRowTo P.Pages pages.new self.now.tree was.now.row is t) }
        ensures count { length (P.state pages.new).work ≡ length (P.state pages.old).work }
        ensures runs { RunsOverPages P.Pages (IsTreePage P.Pages pages.old self.now.tree) (IsTreePage P.Pages pages.old self.now.tree)
            (BreaksTree P.Pages pages.old self.now.tree) pages.old pages.new (fault_of result) }
    {
        self.tree.amend_found(pages, &was.place, &is.entry())?;
        Ok(())
    }

    /// Gives a block that is there this state and this number of rows, mostly in one descent. It claims no page. Damaged where the
    /// map doesn't name the block.
    pub fn set<P: Pages>(&self, pages: &mut P, row: BlockRow) -> Result<(), StoreFault>
        requires going { (P.state pages.old).ended ≡ false }
        ensures sets { OnOk result ((t : Forest) → HoldsTree P.Pages pages.old self.now.tree t → IsMapForm t → SetsRow P.Pages pages.new self.now.tree row t) }
        ensures count { length (P.state pages.new).work ≡ length (P.state pages.old).work }
        ensures runs { RunsOverPages P.Pages (IsTreePage P.Pages pages.old self.now.tree) (IsTreePage P.Pages pages.old self.now.tree)
            (BreaksMapTree P.Pages pages.old self.now.tree (NamesBlock row.block)) pages.old pages.new (fault_of result) }
    {
        let Some(was) = self.find_row(pages, row.block)? else {
            return Err(self.damaged());
        };
        self.replace_found(pages, &was, row)
    }
}
