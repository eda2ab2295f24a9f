// The entries of a block in the block indexes.
ghost use Rattle.std.specs.Prelude.{◌≡◌, ◌≤◌, length, IfErr, IfOk};
ghost use Rattle.table_trees.specs.TableTrees.{HasBlockIndexes};
ghost use Rattle.block_index.specs.Cells.{FitsCell, cell_entries, entry_under};

use crate::key_numbers::numbered;
use crate::keys::{key_of_cell, push_key};
use entry_tree::Entry;
use mdc_ast::{Cell, TableDef};
use std::alloc::Global;
use store_api::StoreFault;

/// In how many bytes an entry names its block.
pub(crate) const BLOCK_BYTES: usize = 4;

/// The entries of a block under the values of its cell: that in the composite index, and then those in the dimensions'.
pub(crate) fn cell_entries(
    alloc: Global,
    def: &TableDef,
    cell: &Cell,
    block: u32,
) -> Result<Vec<Entry>, StoreFault>
    requires indexes { HasBlockIndexes def.now }
    requires cell { FitsCell def.now cell.now.values }
    ensures entries { IfOk result (λ entries. entries.items ≡ cell_entries def.now cell.now.values block) }
    ensures memory { IfErr result (λ fault. fault ≡ StoreFault.Memory) }
{
    let mut entries = Vec::new(alloc);
    let key = key_of_cell(alloc, def, cell)?;
    entries.push(entry_under(&key, block))?;
    let mut values = cell.values.as_slice();
    for dim in def.dims.as_slice() {
        let mut key = Vec::new(alloc);
        values = push_key(&mut key, &def.columns, dim, values)?;
        entries.push(entry_under(&key, block))?;
    }
    Ok(entries)
}

/// A key, and the block behind it. It takes no memory.
fn entry_under(key: &[u8], block: u32) -> Entry
    requires { length key.now ≤ 130 }
    ensures { result ≡ entry_under key.now block }
{
    numbered(key, BLOCK_BYTES, u64::from(block))
}
