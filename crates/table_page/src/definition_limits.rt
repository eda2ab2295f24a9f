// Whether a definition is one that statements can make, whatever its roots and its next row number.
ghost use Rattle.std.specs.List.{AllByRecursion, list_all, list_any};
ghost use Rattle.std.specs.Prelude.{◌≡◌, ◌<◌, ◌↔◌, IfOk, IsTrue, length, map};
ghost use Rattle.mdc_ast.specs.Definitions as definitions;
ghost use Rattle.mdc_ast.specs.Definitions.{AllNamesDiffer};
ghost use Rattle.mdc_ast.specs.TableLimits as limits;
ghost use Rattle.mdc_ast.specs.TableLimits.{AreRootsFor, AreTableDims, AreTableIndexes, IsGoodIndex, IsTableDef};

use crate::column_limits::are_table_columns;
use crate::key_limits::{
    are_there, do_places_differ, is_good_dimension, is_short_key, places_of, places_of_all,
};
use crate::layout::{MOST_DIMS, MOST_INDEXES, MOST_PARTS};
use crate::name_limits::{is_given_name, is_same};
use mdc_ast::{ColumnDef, IndexDef, Name, Roots, TableDef};
use mdc_values::{List, Memory};
use std::alloc::Global;

/// Whether a definition is within the limits.
pub fn is_within_limits(alloc: Global, def: &TableDef) -> Result<bool, Memory>
    ensures { IfOk result (λ within. IsTrue within ↔ IsTableDef def.now.number def.now) }
{
    // So that the number is known to be one of 64 bits.
    let _next = def.next;
    let columns = def.columns.as_slice();
    let dims = def.dims.as_slice();
    let are_dims = are_table_dims(alloc, columns, dims)?;
    let are_indexes = are_table_indexes(alloc, columns, def.indexes.as_slice())?;
    Ok(
        is_given_name(&def.name)
            && are_table_columns(columns)
            && are_dims
            && are_indexes
            && has_a_root_each(dims, &def.roots),
    )
}

/// Whether dimensions may be those of a table.
fn are_table_dims(alloc: Global, columns: &[ColumnDef], dims: &[List<u8>]) -> Result<bool, Memory>
    ensures { IfOk result (λ good. IsTrue good ↔ AreTableDims columns.now dims.now) }
{
    let places = places_of_all(alloc, dims)?;
    Ok(
        !dims.is_empty()
            && dims.len() <= MOST_DIMS
            && are_good_dims(columns, dims)
            && do_places_differ(&places)
            && is_short_key(columns, &places),
    )
}

fn are_good_dims(columns: &[ColumnDef], dims: &[List<u8>]) -> bool
    ensures { result ≡ list_all (limits.is_good_dimension columns.now) dims.now }
{
    dims.iter()
        .all(|dim| is_good_dimension(columns, dim.as_slice()))
}

/// Whether indexes may be those of a table.
fn are_table_indexes(
    alloc: Global,
    columns: &[ColumnDef],
    indexes: &[IndexDef],
) -> Result<bool, Memory>
    ensures { IfOk result (λ good. IsTrue good ↔ AreTableIndexes columns.now indexes.now) }
{
    let are_good = are_good_indexes(alloc, columns, indexes)?;
    Ok(are_good && indexes.len() <= MOST_INDEXES && do_indexes_differ(indexes))
}

fn are_good_indexes(
    alloc: Global,
    columns: &[ColumnDef],
    indexes: &[IndexDef],
) -> Result<bool, Memory>
    ensures { IfOk result (λ good. IsTrue good ↔ AllByRecursion (IsGoodIndex columns.now) indexes.now) }
{
    for index in indexes {
        if !is_good_index(alloc, columns, index)? {
            return Ok(false);
        }
    }
    Ok(true)
}

fn is_good_index(alloc: Global, columns: &[ColumnDef], index: &IndexDef) -> Result<bool, Memory>
    ensures { IfOk result (λ good. IsTrue good ↔ IsGoodIndex columns.now index.now) }
{
    // So that the root is known to be a number of 32 bits.
    let _root = index.root;
    let places = places_of(alloc, index.parts.as_slice())?;
    Ok(
        is_given_name(&index.name)
            && !places.is_empty()
            && places.len() <= MOST_PARTS
            && are_there(columns, &places)
            && do_places_differ(&places)
            && is_short_key(columns, &places),
    )
}

/// Whether no name of an index stands twice.
fn do_indexes_differ(indexes: &[IndexDef]) -> bool
    ensures { IsTrue result ↔ AllNamesDiffer (map (λ index. index.name) indexes.now) }
{
    for (i, index) in indexes.iter().enumerate() {
        if is_index_among(&index.name, &indexes[i + 1..]) {
            return false;
        }
    }
    true
}

fn is_index_among(name: &Name, indexes: &[IndexDef]) -> bool
    ensures { result ≡ list_any (λ index. definitions.is_same name.now index.name) indexes.now }
{
    indexes.iter().any(|index| is_same(name, &index.name))
}

/// Whether each dimension has a root.
fn has_a_root_each(dims: &[List<u8>], roots: &Roots) -> bool
    ensures { IsTrue result ↔ AreRootsFor dims.now roots.now }
{
    // So that the roots are known to be numbers of 32 bits.
    let (_map, _composite) = (roots.map, roots.composite);
    are_as_many(roots.dims.as_slice(), dims)
}

fn are_as_many(roots: &[u32], dims: &[List<u8>]) -> bool
    ensures count { IsTrue result ↔ (length roots.now ≡ length dims.now) }
    ensures fit { AllByRecursion (λ root. root < 4294967296) roots.now }
{
    roots.len() == dims.len()
}
