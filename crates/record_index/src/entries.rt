// A record index, and the key or the entry of a row in it.
ghost use Rattle.std.specs.Prelude.{◌≡◌, ◌<◌, ◌+◌, length};
ghost use Rattle.table_trees.specs.TableTrees.{place_of_tree};
ghost use Rattle.record_index.specs.RecordIndexes.{HasRecordIndexes, HaveKeysIn, entry_in_record_index, key_in_record_index, parts_of_record_index, place_of_record_index};

use crate::keys::{row_entry, row_key};
use entry_tree::{Entry, Tree};
use mdc_ast::TableDef;
use mdc_values::{List, Rid, Value};
use std::alloc::Global;
use table_trees::record_tree;

/// The tree of a record index, and the key of these values in it. It takes no memory.
pub(crate) fn tree_and_key(
    alloc: Global,
    def: &TableDef,
    index: u8,
    values: &List<Value>,
) -> (Tree, Entry)
    requires indexes { HasRecordIndexes def.now }
    requires there { index < length def.now.indexes }
    requires values { HaveKeysIn def.now.columns (parts_of_record_index def.now index) values.now }
    ensures tree { place_of_tree result.0 ≡ place_of_record_index def.now index }
    ensures key { result.1 ≡ key_in_record_index def.now index values.now }
    ensures width { length result.1 + 6 ≡ result.0.width }
{
    let index = usize::from(index);
    let key = row_key(&def.columns, &def.indexes.at(index).parts, values);
    (record_tree(alloc, def, index), key)
}

/// The tree of a record index, and the entry in it of a row of these values in a place. It takes no memory.
pub(crate) fn tree_and_entry(
    alloc: Global,
    def: &TableDef,
    index: u8,
    values: &List<Value>,
    rid: Rid,
) -> (Tree, Entry)
    requires indexes { HasRecordIndexes def.now }
    requires there { index < length def.now.indexes }
    requires values { HaveKeysIn def.now.columns (parts_of_record_index def.now index) values.now }
    ensures tree { place_of_tree result.0 ≡ place_of_record_index def.now index }
    ensures entry { result.1 ≡ entry_in_record_index def.now index values.now rid }
    ensures width { length result.1 ≡ result.0.width }
{
    let index = usize::from(index);
    let entry = row_entry(&def.columns, &def.indexes.at(index).parts, values, rid);
    (record_tree(alloc, def, index), entry)
}
