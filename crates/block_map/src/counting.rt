// A Used block has a row more, or a row less.
ghost use Rattle.std.specs.Prelude.{◌≡◌, ◌+◌, ◌-◌, ◌<◌, ◌≤◌, ◌⊎◌, length, false, IsTrue, IfOk, IfNone, IfSome, OnOk};
ghost use Rattle.store_api.specs.Causes.{fault_of};
ghost use Rattle.store_api.specs.Frame.{NoPage};
ghost use Rattle.store_api.specs.RunsOverPages.{RunsOverPages};
ghost use Rattle.entry_tree.specs.Forest.{Forest};
ghost use Rattle.entry_tree.specs.HeldTrees.{HoldsTree, IsTreePage};
ghost use Rattle.block_map.specs.BlockMaps.{AnyMap, BreaksMapTree, HasRow, IsMapForm};
ghost use Rattle.block_map.specs.Counting.{FindsUsed, FindsUsedRow, HasRoom, IfUsed, LacksRoom, used_row};
ghost use Rattle.block_map.specs.FoundRows.{IsRowFound};
ghost use Rattle.block_map.specs.MapChanges.{ChangesRowTo};

use crate::{BlockMap, BlockRow, BlockState, FoundRow};
use store_api::{Pages, StoreFault};

impl BlockMap {
    /// The row of a Used block with fewer rows than `most`, and where it stands. None where there is no such block, or its number
    /// of rows is the highest one, 65,535.
    pub fn find_room<P: Pages>(
        &self,
        pages: &mut P,
        block: u32,
        most: u32,
    ) -> Result<Option<FoundRow>, StoreFault>
        requires going { (P.state pages.old).ended ≡ false }
        ensures finds { IfOk result (λ found. IfSome found (FindsUsedRow P.Pages pages.old pages.new self.now.tree block)) }
        ensures room { IfOk result (λ found. IfSome found (λ found. found.row.rows < most)) }
        ensures few { IfOk result (λ found. IfSome found (λ found. found.row.rows < 65535)) }
        ensures full { IfOk result (λ found. IfNone found ((t : Forest) → HoldsTree P.Pages pages.old self.now.tree t → IsMapForm t
            → IfUsed block (λ rows. (most ≤ rows) ⊎ (rows ≡ 65535)) t)) }
        ensures same { (P.state pages.new).work ≡ (P.state pages.old).work }
        ensures runs { RunsOverPages P.Pages NoPage (IsTreePage P.Pages pages.old self.now.tree) (BreaksMapTree P.Pages pages.old self.now.tree AnyMap) pages.old pages.new (fault_of result) }
    {
        // What was found is large, so that it is moved as a whole, and as seldom as can be.
        let found = self.find_row(pages, block)?;
        if lacks_room(&found, most) {
            return Ok(None);
        }
        Ok(found)
    }

    /// Counts a row more in a Used block whose row was found, in pages that are as they were then, mostly without a search. It
    /// claims no page.
    pub fn count_found<P: Pages>(&self, pages: &mut P, found: &FoundRow) -> Result<(), StoreFault>
        requires found { IsRowFound P.Pages pages.old self.now.tree found.now }
        requires few { found.now.row.rows < 65535 }
        requires going { (P.state pages.old).ended ≡ false }
        ensures more { OnOk result ((t : Forest) → HoldsTree P.Pages pages.old self.now.tree t → IsMapForm t
            → ChangesRowTo P.Pages pages.new self.now.tree found.now.row (used_row found.now.row.block (found.now.row.rows + 1)) t) }
        ensures count { length (P.state pages.new).work ≡ length (P.state pages.old).work }
        ensures runs { RunsOverPages P.Pages (IsTreePage P.Pages pages.old self.now.tree) (IsTreePage P.Pages pages.old self.now.tree)
            (BreaksMapTree P.Pages pages.old self.now.tree AnyMap) pages.old pages.new (fault_of result) }
    {
        let block = found.row.block;
        let had = found.row.rows;
        let state = BlockState::Used;
        let rows = had + 1;
        self.replace_found(pages, found, BlockRow { block, state, rows })
    }

    /// Counts a row less in a Used block with two rows or more, mostly in one descent, and answers how many it had. None where there is
    /// no such block: then nothing is changed. It claims no page.
    pub fn discount_row<P: Pages>(
        &self,
        pages: &mut P,
        block: u32,
    ) -> Result<Option<u16>, StoreFault>
        requires going { (P.state pages.old).ended ≡ false }
        ensures there { IfOk result (λ counted. IfSome counted (λ had. (t : Forest) → HoldsTree P.Pages pages.old self.now.tree t → HasRow (used_row block had) t)) }
        ensures fewer { IfOk result (λ counted. IfSome counted (λ had. (t : Forest) → HoldsTree P.Pages pages.old self.now.tree t → IsMapForm t
            → ChangesRowTo P.Pages pages.new self.now.tree (used_row block had) (used_row block (had - 1)) t)) }
        ensures some { IfOk result (λ counted. IfSome counted (λ had. 1 < had)) }
        ensures last { IfOk result (λ counted. IfNone counted ((t : Forest) → HoldsTree P.Pages pages.old self.now.tree t → IsMapForm t
            → IfUsed block (λ rows. rows ≤ 1) t)) }
        ensures kept { IfOk result (λ counted. IfNone counted ((P.state pages.new).work ≡ (P.state pages.old).work)) }
        ensures count { length (P.state pages.new).work ≡ length (P.state pages.old).work }
        ensures runs { RunsOverPages P.Pages (IsTreePage P.Pages pages.old self.now.tree) (IsTreePage P.Pages pages.old self.now.tree)
            (BreaksMapTree P.Pages pages.old self.now.tree AnyMap) pages.old pages.new (fault_of result) }
    {
        let Some(found) = self.find_used(pages, block)? else {
            return Ok(None);
        };
        let had = found.row.rows;
        if had <= 1 {
            return Ok(None);
        }
        let state = BlockState::Used;
        let rows = had - 1;
        self.replace_found(pages, &found, BlockRow { block, state, rows })?;
        Ok(Some(had))
    }

    // The row of a Used block, and where it stands. None where the map hasn't the block as a Used one.
    fn find_used<P: Pages>(&self, pages: &mut P, block: u32) -> Result<Option<FoundRow>, StoreFault>
        requires going { (P.state pages.old).ended ≡ false }
        ensures finds { IfOk result (FindsUsed P.Pages pages.old pages.new self.now.tree block) }
        ensures same { (P.state pages.new).work ≡ (P.state pages.old).work }
        ensures runs { RunsOverPages P.Pages NoPage (IsTreePage P.Pages pages.old self.now.tree) (BreaksMapTree P.Pages pages.old self.now.tree AnyMap) pages.old pages.new (fault_of result) }
    {
        let Some(found) = self.find_row(pages, block)? else {
            return Ok(None);
        };
        if found.row.state != BlockState::Used {
            return Ok(None);
        }
        Ok(Some(found))
    }
}

/// Whether a row was found that isn't that of a Used block with room.
fn lacks_room(found: &Option<FoundRow>, most: u32) -> bool
    ensures lacks { IsTrue result → IfSome found.now (λ found. LacksRoom most found.row) }
    ensures room { result ≡ false → IfSome found.now (λ found. HasRoom most found.row) }
{
    let Some(found) = found else {
        return false;
    };
    !has_room(found.row, most)
}

/// Whether a row is that of a Used block with fewer rows than `most`, and fewer than the highest number.
fn has_room(row: BlockRow, most: u32) -> bool
    ensures room { IsTrue result → HasRoom most row }
    ensures lacks { result ≡ false → LacksRoom most row }
{
    if row.state != BlockState::Used {
        return false;
    }
    if u32::from(row.rows) >= most {
        return false;
    }
    row.rows != u16::MAX
}
