// The rows and the blocks of a state, and the lowest of the Free ones.
ghost use Rattle.std.specs.Prelude.{◌≡◌, ◌++◌, ◌∷◌, [], false, map, IfOk, IfErr, OnOk};
ghost use Rattle.mdc_values.specs.Rising.{IsLower, IsRising};
ghost use Rattle.store_api.specs.Causes.{fault_of};
ghost use Rattle.store_api.specs.Frame.{NoPage};
ghost use Rattle.store_api.specs.RunsOverPages.{RunsOverPages};
ghost use Rattle.entry_tree.specs.Forest.{Forest};
ghost use Rattle.entry_tree.specs.HeldTrees.{HoldsTree, IsTreePage};
ghost use Rattle.block_map.specs.BlockMaps.{AnyMap, BreaksMapTree, FindsFree};
ghost use Rattle.block_map.specs.MapLines.{AreMapEntries, blocks_of_state, lines_of_state};
ghost use Rattle.block_map.specs.MapRows.{line_of, state_number};

use crate::walk::Walk;
use crate::{BlockMap, BlockRow, BlockState};
use mdc_values::{Blocks, Memory};
use std::alloc::Global;
use store_api::{Pages, StoreFault};

impl BlockMap {
    /// The rows of the blocks of a state, by rising number, in one walk.
    pub fn rows<P: Pages>(
        &self,
        pages: &mut P,
        state: BlockState,
    ) -> Result<Vec<BlockRow>, StoreFault>
        requires going { (P.state pages.old).ended ≡ false }
        ensures rows { IfOk result (λ rows. (t : Forest) → HoldsTree P.Pages pages.old self.now.tree t → map line_of rows.items ≡ lines_of_state (state_number state) t) }
        ensures rising { IfOk result (λ rows. IsRising IsLower (map (λ row. row.block) rows.items)) }
        ensures same { (P.state pages.new).work ≡ (P.state pages.old).work }
        ensures runs { RunsOverPages P.Pages NoPage (IsTreePage P.Pages pages.old self.now.tree) (BreaksMapTree P.Pages pages.old self.now.tree AnyMap) pages.old pages.new (fault_of result) }
    {
        let mut rows = Vec::new(self.alloc);
        let mut walk = Walk::from(self.alloc, 0);
        'entries: loop {
            let Some(row) = walk.next(self, pages)? else {
                return Ok(rows);
            };
            if row.state == state {
                push_row(&mut rows, row)?;
            }
        }
    }

    /// The blocks of a state, by rising number.
    pub fn list<P: Pages>(&self, pages: &mut P, state: BlockState) -> Result<Blocks, StoreFault>
        requires going { (P.state pages.old).ended ≡ false }
        ensures listed { IfOk result (λ blocks. (t : Forest) → HoldsTree P.Pages pages.old self.now.tree t → blocks ≡ blocks_of_state (state_number state) t) }
        ensures same { (P.state pages.new).work ≡ (P.state pages.old).work }
        ensures runs { RunsOverPages P.Pages NoPage (IsTreePage P.Pages pages.old self.now.tree) (BreaksMapTree P.Pages pages.old self.now.tree AnyMap) pages.old pages.new (fault_of result) }
    {
        let rows = self.rows(pages, state)?;
        Ok(blocks_of(self.alloc, rows.as_slice())?)
    }

    /// The lowest Free block from a number on, if there is one.
    pub fn first_free_from<P: Pages>(
        &self,
        pages: &mut P,
        from: u32,
    ) -> Result<Option<u32>, StoreFault>
        requires going { (P.state pages.old).ended ≡ false }
        ensures found { IfOk result (λ block. (t : Forest) → HoldsTree P.Pages pages.old self.now.tree t → AreMapEntries t → FindsFree t from block) }
        ensures same { (P.state pages.new).work ≡ (P.state pages.old).work }
        ensures runs { RunsOverPages P.Pages NoPage (IsTreePage P.Pages pages.old self.now.tree) (BreaksMapTree P.Pages pages.old self.now.tree AnyMap) pages.old pages.new (fault_of result) }
    {
        let mut walk = Walk::from(self.alloc, from);
        'rows: loop {
            let Some(row) = walk.next(self, pages)? else {
                return Ok(None);
            };
            if row.state == BlockState::Free {
                return Ok(Some(row.block));
            }
        }
    }

    /// The lowest Free block, if there is one.
    pub fn first_free<P: Pages>(&self, pages: &mut P) -> Result<Option<u32>, StoreFault>
        requires going { (P.state pages.old).ended ≡ false }
        ensures found { IfOk result (λ block. (t : Forest) → HoldsTree P.Pages pages.old self.now.tree t → AreMapEntries t → FindsFree t 0 block) }
        ensures same { (P.state pages.new).work ≡ (P.state pages.old).work }
        ensures runs { RunsOverPages P.Pages NoPage (IsTreePage P.Pages pages.old self.now.tree) (BreaksMapTree P.Pages pages.old self.now.tree AnyMap) pages.old pages.new (fault_of result) }
    {
        self.first_free_from(pages, 0)
    }
}

// Puts a row last.
fn push_row(rows: &mut Vec<BlockRow>, row: BlockRow) -> Result<(), StoreFault>
    ensures pushed { OnOk result (rows.new.items ≡ rows.old.items ++ row ∷ []) }
    ensures fault { IfErr result (λ fault. fault ≡ StoreFault.Memory) }
{
    rows.push(row)?;
    Ok(())
}

// The blocks of rows.
fn blocks_of(alloc: Global, rows: &[BlockRow]) -> Result<Blocks, Memory>
    requires { IsRising IsLower (map (λ row. row.block) rows.now) }
    ensures { IfOk result (λ blocks. blocks ≡ map (λ row. row.block) rows.now) }
{
    let mut blocks = Blocks::new(alloc);
    for row in rows {
        blocks.push(row.block)?;
    }
    Ok(blocks)
}
