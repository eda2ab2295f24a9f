// The rows in the Used blocks of a table, each block read once.
ghost use Rattle.std.specs.Prelude.{◌≡◌, ◌++◌, ◌∷◌, ◌<◌, [], false, Contains, IfErr, IfOk, IsTrue, List, None, OnOk, ℕ};
ghost use Rattle.store_api.specs.Causes.{fault_of};
ghost use Rattle.store_api.specs.Frame.{NoPage};
ghost use Rattle.store_api.specs.RunsOverPages.{RunsOverPages};
ghost use Rattle.entry_tree.specs.Forest.{Forest};
ghost use Rattle.block_map.specs.MapLines.{used_blocks};
ghost use Rattle.mdc_ast.specs.TableLimits.{IsTableDef};
ghost use Rattle.file_check.specs.KnownTables.{TableHasRows, TellsTable};
ghost use Rattle.file_check.specs.Looking.{AnyPage, Unless};
ghost use Rattle.file_check.specs.RowsJudged.{JudgesAllUsed, JudgesUsed};

use crate::block_entries::judge_entries_of_block;
use crate::blocks::blocks_in_state;
use crate::cells::judge_cell_of_block;
use crate::counts::judge_count_of_block;
use crate::lowest::lower;
use crate::row_keys::push_numbers;
use crate::rows::rows_of_block;
use block_map::BlockState;
use mdc_ast::TableDef;
use std::alloc::Global;
use store_api::{Pages, Shape, StoreFault};

/// What the rows of the Used blocks say, as far as these were read.
#[derive(Drop)]
pub(crate) struct UsedRows {
    /// How many Used blocks there are.
    pub(crate) blocks: usize,
    /// The lowest first page of a block whose count isn't right.
    pub(crate) counts: Option<u32>,
    /// The lowest first page of a block with rows of two cells.
    pub(crate) cells: Option<u32>,
    /// The lowest root of a block index that hasn't the entry of a block.
    pub(crate) entries: Option<u32>,
    /// The numbers of the rows.
    pub(crate) numbers: Vec<u64>,
}

/// Judges counts, cells and entries of the Used blocks of a table, and gathers the numbers of their rows.
pub(crate) fn judge_used_blocks<P: Pages>(
    alloc: Global,
    shape: Shape,
    pages: &mut P,
    def: &TableDef,
) -> Result<UsedRows, StoreFault>
    requires defined { IsTableDef def.now.number def.now }
    requires going { (P.state pages.old).ended ≡ false }
    ensures judged { IfOk result (λ found. IsTrue (P.state pages.old).is_told → (map_tree : Forest) → TableHasRows shape (P.state pages.old).work def.now map_tree
        → JudgesAllUsed shape (P.state pages.old).work def.now map_tree found) }
    ensures same { (P.state pages.new).work ≡ (P.state pages.old).work }
    ensures runs { RunsOverPages P.Pages NoPage AnyPage (Unless P.Pages pages.old (TellsTable shape def.now)) pages.old pages.new (fault_of result) }
{
    let blocks = blocks_in_state(alloc, shape, pages, def, BlockState::Used)?;
    let mut found = UsedRows {
        blocks: blocks.as_slice().len(),
        counts: None,
        cells: None,
        entries: None,
        numbers: Vec::new(alloc),
    };
    for block in blocks.as_slice() {
        judge_used_block(alloc, shape, pages, def, *block, &mut found)?;
    }
    Ok(found)
}

/// The same of one block more.
fn judge_used_block<P: Pages>(
    alloc: Global,
    shape: Shape,
    pages: &mut P,
    def: &TableDef,
    block: u32,
    found: &mut UsedRows,
) -> Result<(), StoreFault>
    requires defined { IsTableDef def.now.number def.now }
    requires below { block < shape.extents }
    requires going { (P.state pages.old).ended ≡ false }
    ensures judged { OnOk result (IsTrue (P.state pages.old).is_told → (map_tree : Forest) → TableHasRows shape (P.state pages.old).work def.now map_tree
        → Contains (used_blocks map_tree) block → (done : List ℕ) → JudgesUsed shape (P.state pages.old).work def.now map_tree done found.old
        → JudgesUsed shape (P.state pages.old).work def.now map_tree (done ++ block ∷ []) found.new) }
    ensures blocks { found.new.blocks ≡ found.old.blocks }
    ensures same { (P.state pages.new).work ≡ (P.state pages.old).work }
    ensures runs { RunsOverPages P.Pages NoPage AnyPage
        (Unless P.Pages pages.old (λ told. (map_tree : Forest) × TableHasRows shape told def.now map_tree × Contains (used_blocks map_tree) block)) pages.old pages.new (fault_of result) }
{
    let rows = rows_of_block(alloc, shape, pages, def, block)?;
    let counts = judge_count_of_block(alloc, shape, pages, def, block, rows.len())?;
    let entries = judge_entries_of_block(alloc, pages, def, &rows)?;
    let cells = judge_cell_of_block(shape, def, block, &rows);
    found.counts = lower(found.counts, counts);
    found.entries = lower(found.entries, entries);
    found.cells = lower(found.cells, cells);
    push_numbers(&rows, &mut found.numbers)?;
    Ok(())
}
