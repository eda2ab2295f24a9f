// The handles of the trees of a table.
ghost use Rattle.std.specs.Prelude.{◌≡◌, ◌<◌, ◌≤◌, ℕ, List, Some, length, slice_get};
ghost use Rattle.mdc_ast.specs.declared.definition.IndexDef.{IndexDef};
ghost use Rattle.key_codec.specs.Keys.{ArePartsOf};
ghost use Rattle.table_trees.specs.TableTrees.{AreIndexParts, HasBlockIndexes, block_index_places, cell_parts, composite_place, dimension_places, map_place, place_of_tree, record_places, rising_parts};

use crate::widths::{cell_width, places_width};
use entry_tree::Tree;
use key_codec::key_width;
use mdc_ast::TableDef;
use std::alloc::Global;
use store_api::layout::{BLOCK_BYTES, BLOCK_MAP_WIDTH, ROW_PLACE_BYTES};

/// The block map of a table.
pub fn block_map_tree(alloc: Global, def: &TableDef) -> Tree
    ensures { place_of_tree result ≡ map_place def.now }
{
    Tree::at(alloc, def.roots.map, BLOCK_MAP_WIDTH)
}

/// The index of a table's blocks by all dimension columns.
pub fn composite_tree(alloc: Global, def: &TableDef) -> Tree
    requires { AreIndexParts def.now.columns (cell_parts def.now) }
    ensures { place_of_tree result ≡ composite_place def.now }
{
    Tree::at(alloc, def.roots.composite, cell_width(def) + BLOCK_BYTES)
}

/// The index of a table's blocks by the columns of a dimension.
pub fn dimension_tree(alloc: Global, def: &TableDef, dim: usize) -> Tree
    requires there { dim < length def.now.dims }
    requires root { dim < length def.now.roots.dims }
    requires parts { (places : List ℕ) → slice_get def.now.dims dim ≡ Some places → AreIndexParts def.now.columns (rising_parts places) }
    ensures { slice_get (dimension_places def.now) dim ≡ Some (place_of_tree result) }
{
    let width = places_width(&def.columns, def.dims.at(dim));
    Tree::at(alloc, *def.roots.dims.at(dim), width + BLOCK_BYTES)
}

/// A block index of a table: the first is the composite one, and then come those of the dimensions.
pub fn block_index_tree(alloc: Global, def: &TableDef, index: usize) -> Tree
    requires indexes { HasBlockIndexes def.now }
    requires there { index ≤ length def.now.dims }
    ensures { slice_get (block_index_places def.now) index ≡ Some (place_of_tree result) }
{
    if index == 0 {
        return composite_tree(alloc, def);
    }
    dimension_tree(alloc, def, index - 1)
}

/// A record index of a table.
pub fn record_tree(alloc: Global, def: &TableDef, index: usize) -> Tree
    requires there { index < length def.now.indexes }
    requires parts { (which : IndexDef) → slice_get def.now.indexes index ≡ Some which → ArePartsOf def.now.columns which.parts }
    ensures { slice_get (record_places def.now) index ≡ Some (place_of_tree result) }
{
    let which = def.indexes.at(index);
    let width = key_width(&def.columns, &which.parts);
    Tree::at(alloc, which.root, width + ROW_PLACE_BYTES)
}
