// Rule 8: the counts of rows.
ghost use Rattle.std.specs.Prelude.{◌≡◌, ◌≢◌, ◌==◌, ◌&&◌, ◌<◌, ◌^◌, ◌⊎◌, false, length, nat_lt, Contains, IfOk, IsTrue};
ghost use Rattle.store_api.specs.Causes.{fault_of};
ghost use Rattle.store_api.specs.Frame.{NoPage};
ghost use Rattle.store_api.specs.RunsOverPages.{RunsOverPages};
ghost use Rattle.entry_tree.specs.Forest.{Forest};
ghost use Rattle.block_map.specs.MapLines.{blocks_of_state, mapped_blocks, used_blocks};
ghost use Rattle.block_map.specs.MapRows.{state_number};
ghost use Rattle.mdc_sound.specs.TableRows.{rows_in_block};
ghost use Rattle.file_check.specs.Known.{HasBlockMap};
ghost use Rattle.file_check.specs.KnownTables.{TellsMap};
ghost use Rattle.file_check.specs.BlocksJudged.{BreaksBlockCount, IsBlockCounted, JudgesCount};
ghost use Rattle.file_check.specs.Judging.{Judges, JudgesEach};
ghost use Rattle.file_check.specs.Looking.{AnyPage, Unless};
ghost use Rattle.file_check.specs.RowsJudged.{AnyMiscounted, AreCounted};

use crate::blocks::{blocks_in_state, row_in_map};
use crate::lowest::lower;
use block_map::BlockState;
use extent_map::first_page;
use mdc_ast::TableDef;
use std::alloc::Global;
use store_api::{Pages, Shape, StoreFault};

/// Judges the counts of all blocks of a table but the Used ones: the lowest first page of one whose count isn't right.
pub(crate) fn judge_idle_counts<P: Pages>(
    alloc: Global,
    shape: Shape,
    pages: &mut P,
    def: &TableDef,
) -> Result<Option<u32>, StoreFault>
    requires going { (P.state pages.old).ended ≡ false }
    ensures judged { IfOk result (λ found. IsTrue (P.state pages.old).is_told → (map_tree : Forest) → HasBlockMap shape (P.state pages.old).work def.now map_tree
        → Judges (AreCounted shape (P.state pages.old).work def.now map_tree 0 × AreCounted shape (P.state pages.old).work def.now map_tree 2)
        (λ p. AnyMiscounted shape (P.state pages.old).work def.now map_tree 0 p ⊎ AnyMiscounted shape (P.state pages.old).work def.now map_tree 2 p) found) }
    ensures same { (P.state pages.new).work ≡ (P.state pages.old).work }
    ensures runs { RunsOverPages P.Pages NoPage AnyPage (Unless P.Pages pages.old (TellsMap shape def.now)) pages.old pages.new (fault_of result) }
{
    let free = judge_idle_state(alloc, shape, pages, def, BlockState::Free)?;
    let pending = judge_idle_state(alloc, shape, pages, def, BlockState::Pending)?;
    Ok(lower(free, pending))
}

/// Judges the counts of the blocks of a state that isn't Used. They have no row.
fn judge_idle_state<P: Pages>(
    alloc: Global,
    shape: Shape,
    pages: &mut P,
    def: &TableDef,
    state: BlockState,
) -> Result<Option<u32>, StoreFault>
    requires idle { state_number state ≢ 1 }
    requires going { (P.state pages.old).ended ≡ false }
    ensures judged { IfOk result (λ found. IsTrue (P.state pages.old).is_told → (map_tree : Forest) → HasBlockMap shape (P.state pages.old).work def.now map_tree
        → JudgesEach (IsBlockCounted shape (P.state pages.old).work def.now map_tree) (BreaksBlockCount shape (P.state pages.old).work def.now map_tree)
        (blocks_of_state (state_number state) map_tree) found) }
    ensures same { (P.state pages.new).work ≡ (P.state pages.old).work }
    ensures runs { RunsOverPages P.Pages NoPage AnyPage (Unless P.Pages pages.old (TellsMap shape def.now)) pages.old pages.new (fault_of result) }
{
    let blocks = blocks_in_state(alloc, shape, pages, def, state)?;
    let mut lowest = None;
    for block in blocks.as_slice() {
        let here = judge_count_of_block(alloc, shape, pages, def, *block, 0)?;
        lowest = lower(lowest, here);
    }
    Ok(lowest)
}

/// The first page of a block with so many rows, where its count isn't right.
pub(crate) fn judge_count_of_block<P: Pages>(
    alloc: Global,
    shape: Shape,
    pages: &mut P,
    def: &TableDef,
    block: u32,
    rows: usize,
) -> Result<Option<u32>, StoreFault>
    requires below { block < shape.extents }
    requires going { (P.state pages.old).ended ≡ false }
    ensures judged { IfOk result (λ found. IsTrue (P.state pages.old).is_told → (map_tree : Forest) → HasBlockMap shape (P.state pages.old).work def.now map_tree
        → Contains (mapped_blocks map_tree) block → (Contains (used_blocks map_tree) block → rows ≡ length (rows_in_block shape (P.state pages.old).work def.now block))
        → Judges (IsBlockCounted shape (P.state pages.old).work def.now map_tree block) (BreaksBlockCount shape (P.state pages.old).work def.now map_tree block) found) }
    ensures same { (P.state pages.new).work ≡ (P.state pages.old).work }
    ensures runs { RunsOverPages P.Pages NoPage AnyPage (Unless P.Pages pages.old (TellsMap shape def.now)) pages.old pages.new (fault_of result) }
{
    if is_counted(alloc, shape, pages, def, block, rows)? {
        Ok(None)
    } else {
        Ok(Some(first_page(shape, block)))
    }
}

/// Whether the block map counts a block with so many rows right.
fn is_counted<P: Pages>(
    alloc: Global,
    shape: Shape,
    pages: &mut P,
    def: &TableDef,
    block: u32,
    rows: usize,
) -> Result<bool, StoreFault>
    requires going { (P.state pages.old).ended ≡ false }
    ensures judged { IfOk result (λ counted. IsTrue (P.state pages.old).is_told → (map_tree : Forest) → HasBlockMap shape (P.state pages.old).work def.now map_tree
        → Contains (mapped_blocks map_tree) block → (Contains (used_blocks map_tree) block → rows ≡ length (rows_in_block shape (P.state pages.old).work def.now block))
        → JudgesCount shape (P.state pages.old).work def.now map_tree block counted) }
    ensures same { (P.state pages.new).work ≡ (P.state pages.old).work }
    ensures runs { RunsOverPages P.Pages NoPage AnyPage (Unless P.Pages pages.old (TellsMap shape def.now)) pages.old pages.new (fault_of result) }
{
    let Some(row) = row_in_map(alloc, pages, def, block)? else {
        return Ok(false);
    };
    match row.state {
        BlockState::Used => Ok(is_used_count(row.rows, rows)),
        BlockState::Free | BlockState::Pending => Ok(is_idle_count(row.rows)),
    }
}

/// Whether the line of a Used block with so many rows may say this.
fn is_used_count(rows: u16, count: usize) -> bool
    ensures right { result ≡ (nat_lt 0 rows && rows == count) }
    ensures few { rows < 2 ^ 16 }
{
    rows > 0 && usize::from(rows) == count
}

/// Whether the line of any other block may say this.
fn is_idle_count(rows: u16) -> bool
    ensures right { result ≡ (rows == 0) }
    ensures few { rows < 2 ^ 16 }
{
    rows == 0
}
