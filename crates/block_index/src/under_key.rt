// The blocks under one key of the composite index.
ghost use Rattle.std.specs.Prelude.{◌≡◌, ◌+◌, ◌≤◌, ◌++◌, ◌∷◌, [], false, length, IfErr, IfOk, IfSome, OnOk};
ghost use Rattle.mdc_values.specs.Rising.{IsLower, LastIsBefore};
ghost use Rattle.store_api.specs.Causes.{fault_of};
ghost use Rattle.store_api.specs.Frame.{NoPage};
ghost use Rattle.store_api.specs.RunsOverPages.{RunsOverPages};
ghost use Rattle.entry_tree.specs.Forest.{Forest, leaf_entries};
ghost use Rattle.entry_tree.specs.HeldTrees.{BreaksTree, HoldsTree, IsTreePage};
ghost use Rattle.key_codec.specs.Keys.{width_of_parts};
ghost use Rattle.table_trees.specs.RowCells.{cell_places};
ghost use Rattle.table_trees.specs.TableTrees.{AreIndexParts, cell_parts, composite_place};
ghost use Rattle.table_trees.specs.TreesBeside.{BreaksTreeAt, HoldsTreeAt, IsTreePageAt};
ghost use Rattle.block_index.specs.Cells.{FitsCell, key_of_values};
ghost use Rattle.block_index.specs.Reading.{AreBlocksUnder, FindsUnder};

use crate::entries::BLOCK_BYTES;
use crate::key_numbers::next_number;
use crate::keys::key_of_cell;
use entry_tree::Tree;
use mdc_ast::{Cell, TableDef};
use mdc_values::Blocks;
use std::alloc::Global;
use store_api::{Pages, StoreFault};
use table_trees::composite_tree;

/// The lowest block from a number on that is listed under the key of a cell. It is one descent, and takes no memory.
pub fn first_block_from<P: Pages>(
    alloc: Global,
    def: &TableDef,
    pages: &mut P,
    key: &[u8],
    from: u32,
) -> Result<Option<u32>, StoreFault>
    requires parts { AreIndexParts def.now.columns (cell_parts def.now) }
    requires width { length key.now ≡ width_of_parts def.now.columns (cell_parts def.now) }
    requires going { (P.state pages.old).ended ≡ false }
    ensures found { IfOk result (λ block. (t : Forest) → HoldsTreeAt P.Pages pages.old (composite_place def.now) t → FindsUnder key.now (leaf_entries t) from block) }
    ensures reached { IfOk result (λ block. IfSome block (λ block. from ≤ block)) }
    ensures same { (P.state pages.new).work ≡ (P.state pages.old).work }
    ensures runs { RunsOverPages P.Pages NoPage (IsTreePageAt P.Pages pages.old (composite_place def.now)) (BreaksTreeAt P.Pages pages.old (composite_place def.now)) pages.old pages.new (fault_of result) }
{
    next_block(&composite_tree(alloc, def), pages, key, from)
}

/// The blocks that are listed under a cell, by rising number.
pub fn blocks_of<P: Pages>(
    alloc: Global,
    def: &TableDef,
    pages: &mut P,
    cell: &Cell,
) -> Result<Blocks, StoreFault>
    requires parts { AreIndexParts def.now.columns (cell_parts def.now) }
    requires cell { FitsCell def.now cell.now.values }
    requires going { (P.state pages.old).ended ≡ false }
    ensures listed { IfOk result (λ blocks. (t : Forest) → HoldsTreeAt P.Pages pages.old (composite_place def.now) t
        → AreBlocksUnder (key_of_values def.now.columns (cell_places def.now) cell.now.values) (leaf_entries t) blocks) }
    ensures same { (P.state pages.new).work ≡ (P.state pages.old).work }
    ensures runs { RunsOverPages P.Pages NoPage (IsTreePageAt P.Pages pages.old (composite_place def.now)) (BreaksTreeAt P.Pages pages.old (composite_place def.now)) pages.old pages.new (fault_of result) }
{
    let key = key_of_cell(alloc, def, cell)?;
    blocks_under(alloc, &composite_tree(alloc, def), pages, &key)
}

/// The blocks that an index has under a key.
fn blocks_under<P: Pages>(
    alloc: Global,
    tree: &Tree,
    pages: &mut P,
    key: &[u8],
) -> Result<Blocks, StoreFault>
    requires width { length key.now + 4 ≡ tree.now.width }
    requires going { (P.state pages.old).ended ≡ false }
    ensures listed { IfOk result (λ blocks. (t : Forest) → HoldsTree P.Pages pages.old tree.now t → AreBlocksUnder key.now (leaf_entries t) blocks) }
    ensures same { (P.state pages.new).work ≡ (P.state pages.old).work }
    ensures runs { RunsOverPages P.Pages NoPage (IsTreePage P.Pages pages.old tree.now) (BreaksTree P.Pages pages.old tree.now) pages.old pages.new (fault_of result) }
{
    let mut blocks = Blocks::new(alloc);
    let mut from = 0;
    'finding: loop {
        let Some(block) = next_block(tree, pages, key, from)? else {
            return Ok(blocks);
        };
        push_block(&mut blocks, block)?;
        if block == u32::MAX {
            return Ok(blocks);
        }
        from = block + 1;
    }
}

/// The lowest block from a number on that an index has under a key.
fn next_block<P: Pages>(
    tree: &Tree,
    pages: &mut P,
    key: &[u8],
    from: u32,
) -> Result<Option<u32>, StoreFault>
    requires width { length key.now + 4 ≡ tree.now.width }
    requires going { (P.state pages.old).ended ≡ false }
    ensures found { IfOk result (λ block. (t : Forest) → HoldsTree P.Pages pages.old tree.now t → FindsUnder key.now (leaf_entries t) from block) }
    ensures reached { IfOk result (λ block. IfSome block (λ block. from ≤ block)) }
    ensures same { (P.state pages.new).work ≡ (P.state pages.old).work }
    ensures runs { RunsOverPages P.Pages NoPage (IsTreePage P.Pages pages.old tree.now) (BreaksTree P.Pages pages.old tree.now) pages.old pages.new (fault_of result) }
{
    match next_number(tree, pages, key, BLOCK_BYTES, u64::from(from))? {
        Some(block) => Ok(Some(block as u32)),
        None => Ok(None),
    }
}

/// Puts a block last.
pub(crate) fn push_block(blocks: &mut Blocks, block: u32) -> Result<(), StoreFault>
    requires { LastIsBefore IsLower block blocks.old }
    ensures pushed { OnOk result (blocks.new ≡ blocks.old ++ block ∷ []) }
    ensures fault { IfErr result (λ fault. fault ≡ StoreFault.Memory) }
{
    Ok(blocks.push(block)?)
}
