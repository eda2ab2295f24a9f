// An index of a table, by what its entries name.
ghost use Rattle.std.specs.Prelude.{◌≡◌, ◌<◌, ◌++◌, length, slice_get, Some, IfErr, IfOk, OnOk};
ghost use Rattle.mdc_ast.specs.TableLimits.{IsTableDef};
ghost use Rattle.table_trees.specs.TableTrees.{cell_parts, rising_parts};
ghost use Rattle.file_check.specs.TableIndexes.{FitsTable, bytes_behind_key, indexes_of_kind, place_of_index};

use entry_tree::Tree;
use mdc_ast::{KeyPart, TableDef};
use mdc_values::List;
use std::alloc::Global;
use store_api::StoreFault;
use table_trees::{block_index_tree, record_tree};

/// What the entries of an index name behind their keys.
#[derive(Clone, Copy, Debug)]
pub(crate) enum IndexKind {
    /// A block: the composite index and the index of each dimension.
    Blocks,
    /// A row, by its place: the record indexes.
    Rows,
}

impl IndexKind {
    /// How many indexes of this kind a table has.
    pub(crate) fn count(self, def: &TableDef) -> usize
        requires limits { IsTableDef def.now.number def.now }
        ensures { result ≡ length (indexes_of_kind self def.now) }
    {
        match self {
            IndexKind::Blocks => 1 + def.dims.len(),
            IndexKind::Rows => def.indexes.len(),
        }
    }

    /// How many bytes stand behind the key in an entry: a block, or a block and a slot.
    pub(crate) fn bytes_behind_key(self) -> usize
        ensures { result ≡ bytes_behind_key self }
    {
        match self {
            IndexKind::Blocks => 4,
            IndexKind::Rows => 6,
        }
    }
}

/// An index of a table.
#[derive(Drop)]
pub(crate) struct TableIndex {
    pub(crate) kind: IndexKind,
    pub(crate) tree: Tree,
    pub(crate) parts: List<KeyPart>,
}

impl TableIndex {
    /// The index in a place among those of its kind.
    pub(crate) fn at(
        alloc: Global,
        def: &TableDef,
        kind: IndexKind,
        place: usize,
    ) -> Result<TableIndex, StoreFault>
        requires limits { IsTableDef def.now.number def.now }
        requires there { place < length (indexes_of_kind kind def.now) }
        ensures kind { IfOk result (λ index. index.kind ≡ kind) }
        ensures place { IfOk result (λ index. slice_get (indexes_of_kind kind def.now) place ≡ Some (place_of_index index)) }
        ensures fits { IfOk result (FitsTable def.now) }
        ensures memory { IfErr result (λ fault. fault ≡ StoreFault.Memory) }
    {
        match kind {
            IndexKind::Blocks => block_index(alloc, def, place),
            IndexKind::Rows => record_index(alloc, def, place),
        }
    }
}

/// The block index in a place: the first is the composite one, and then come those of the dimensions.
fn block_index(alloc: Global, def: &TableDef, place: usize) -> Result<TableIndex, StoreFault>
    requires limits { IsTableDef def.now.number def.now }
    requires there { place < length (indexes_of_kind IndexKind.Blocks def.now) }
    ensures kind { IfOk result (λ index. index.kind ≡ IndexKind.Blocks) }
    ensures place { IfOk result (λ index. slice_get (indexes_of_kind IndexKind.Blocks def.now) place ≡ Some (place_of_index index)) }
    ensures fits { IfOk result (FitsTable def.now) }
    ensures memory { IfErr result (λ fault. fault ≡ StoreFault.Memory) }
{
    let tree = block_index_tree(alloc, def, place);
    let kind = IndexKind::Blocks;
    if place == 0 {
        let parts = all_cell_parts(alloc, def)?;
        return Ok(TableIndex { kind, tree, parts });
    }
    let parts = dimension_parts(alloc, def.dims.at(place - 1))?;
    Ok(TableIndex { kind, tree, parts })
}

/// The record index in a place.
fn record_index(alloc: Global, def: &TableDef, place: usize) -> Result<TableIndex, StoreFault>
    requires limits { IsTableDef def.now.number def.now }
    requires there { place < length def.now.indexes }
    ensures kind { IfOk result (λ index. index.kind ≡ IndexKind.Rows) }
    ensures place { IfOk result (λ index. slice_get (indexes_of_kind IndexKind.Rows def.now) place ≡ Some (place_of_index index)) }
    ensures fits { IfOk result (FitsTable def.now) }
    ensures memory { IfErr result (λ fault. fault ≡ StoreFault.Memory) }
{
    let tree = record_tree(alloc, def, place);
    let kind = IndexKind::Rows;
    let parts = Vec::from_slice(alloc, def.indexes.at(place).parts.as_slice())?;
    let parts = List::from_vec(parts);
    Ok(TableIndex { kind, tree, parts })
}

/// The parts of the key of a cell: all dimension columns, in the order of the dimensions.
fn all_cell_parts(alloc: Global, def: &TableDef) -> Result<List<KeyPart>, StoreFault>
    ensures parts { IfOk result (λ parts. parts ≡ cell_parts def.now) }
    ensures memory { IfErr result (λ fault. fault ≡ StoreFault.Memory) }
{
    let mut parts = Vec::new(alloc);
    for dim in def.dims.as_slice() {
        push_rising(&mut parts, dim)?;
    }
    Ok(List::from_vec(parts))
}

/// The parts of the key of a dimension.
fn dimension_parts(alloc: Global, dim: &List<u8>) -> Result<List<KeyPart>, StoreFault>
    ensures parts { IfOk result (λ parts. parts ≡ rising_parts dim.now) }
    ensures memory { IfErr result (λ fault. fault ≡ StoreFault.Memory) }
{
    let mut parts = Vec::new(alloc);
    push_rising(&mut parts, dim)?;
    Ok(List::from_vec(parts))
}

/// Puts the columns in these places last, none descending.
fn push_rising(parts: &mut Vec<KeyPart>, places: &List<u8>) -> Result<(), StoreFault>
    ensures parts { OnOk result (parts.new.items ≡ parts.old.items ++ rising_parts places.now) }
    ensures memory { IfErr result (λ fault. fault ≡ StoreFault.Memory) }
{
    for column in places.as_slice() {
        let column = *column;
        let descending = false;
        parts.push(KeyPart { column, descending })?;
    }
    Ok(())
}
