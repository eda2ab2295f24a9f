// The cells that the composite index lists.
ghost use Rattle.std.specs.Prelude.{◌≡◌, ◌+◌, ◌≤◌, ◌++◌, ℕ, List, false, length, IfErr, IfOk, OnOk};
ghost use Rattle.std.specs.List.{AllByRecursion};
ghost use Rattle.mdc_words.specs.ByteOrder.{Entry};
ghost use Rattle.mdc_values.specs.declared.value.Value.{Value};
ghost use Rattle.store_api.specs.Causes.{fault_of};
ghost use Rattle.store_api.specs.Frame.{NoPage};
ghost use Rattle.store_api.specs.RunsOverPages.{RunsOverPages};
ghost use Rattle.entry_tree.specs.Forest.{Forest, leaf_entries};
ghost use Rattle.entry_tree.specs.HeldTrees.{BreaksTree, HoldsTree, IsTreePage};
ghost use Rattle.key_codec.specs.Keys.{ArePartsOf, width_of_parts};
ghost use Rattle.table_trees.specs.TableTrees.{AreIndexParts, cell_parts, composite_place, rising_parts};
ghost use Rattle.table_trees.specs.TreesBeside.{BreaksTreeAt, HoldsTreeAt, IsTreePageAt};
ghost use Rattle.block_index.specs.ListedCells.{AreCellEntries, IsCellEntry, IsListedTo, IsReadTo};

use crate::leaves::{lowest_bound, read_leaf};
use byteorder::{BigEndian, ByteOrder};
use entry_tree::{Entries, Leaf, Tree};
use key_codec::{part_width, read_part};
use mdc_ast::{Cell, ColumnDef, TableDef};
use mdc_values::{List, Memory, Value};
use std::alloc::Global;
use store_api::{Pages, StoreFault};
use table_trees::composite_tree;

/// A cell, and a block that is listed under it.
#[derive(Debug, Drop)]
pub struct CellBlock {
    pub cell: Cell,
    pub block: u32,
}

/// All cells that the composite index lists, each with a block, in the order of the index.
pub fn cells<P: Pages>(
    alloc: Global,
    def: &TableDef,
    pages: &mut P,
) -> Result<List<CellBlock>, StoreFault>
    requires parts { AreIndexParts def.now.columns (cell_parts def.now) }
    requires going { (P.state pages.old).ended ≡ false }
    ensures listed { IfOk result (λ found. (t : Forest) → HoldsTreeAt P.Pages pages.old (composite_place def.now) t
        → (all : List CellBlock) → AreCellEntries def.now (leaf_entries t) all → found ≡ all) }
    ensures same { (P.state pages.new).work ≡ (P.state pages.old).work }
    ensures runs { RunsOverPages P.Pages NoPage (IsTreePageAt P.Pages pages.old (composite_place def.now)) (BreaksTreeAt P.Pages pages.old (composite_place def.now)) pages.old pages.new (fault_of result) }
{
    let tree = composite_tree(alloc, def);
    walk_cells(alloc, def, &tree, pages)
}

/// The cells of all entries of an index of the dimension columns.
fn walk_cells<P: Pages>(
    alloc: Global,
    def: &TableDef,
    tree: &Tree,
    pages: &mut P,
) -> Result<List<CellBlock>, StoreFault>
    requires parts { ArePartsOf def.now.columns (cell_parts def.now) }
    requires width { tree.now.width ≡ width_of_parts def.now.columns (cell_parts def.now) + 4 }
    requires going { (P.state pages.old).ended ≡ false }
    ensures listed { IfOk result (λ found. (t : Forest) → HoldsTree P.Pages pages.old tree.now t
        → (all : List CellBlock) → AreCellEntries def.now (leaf_entries t) all → found ≡ all) }
    ensures same { (P.state pages.new).work ≡ (P.state pages.old).work }
    ensures runs { RunsOverPages P.Pages NoPage (IsTreePage P.Pages pages.old tree.now) (BreaksTree P.Pages pages.old tree.now) pages.old pages.new (fault_of result) }
{
    let mut found = List::new(alloc);
    let mut leaf = Leaf::new(alloc);
    let mut bound = Some(lowest_bound(tree.width));
    'leaves: loop {
        let Some(low) = bound else {
            return Ok(found);
        };
        bound = read_leaf(tree, pages, low.bytes(), &mut leaf)?;
        take_leaf(alloc, def, &leaf.entries, &mut found)?;
    }
}

/// Puts the cells of the entries of a leaf last.
fn take_leaf(
    alloc: Global,
    def: &TableDef,
    leaf: &Entries,
    found: &mut List<CellBlock>,
) -> Result<(), StoreFault>
    requires parts { ArePartsOf def.now.columns (cell_parts def.now) }
    requires long { AllByRecursion (λ entry. width_of_parts def.now.columns (cell_parts def.now) + 4 ≤ length entry) leaf.now }
    ensures taken { OnOk result ((more : List Entry) (all : List CellBlock) → IsListedTo def.now (leaf.now ++ more) found.old all → IsListedTo def.now more found.new all) }
    ensures memory { IfErr result (λ fault. fault ≡ StoreFault.Memory) }
{
    Ok(take_cells(alloc, def, leaf, found)?)
}

/// Puts the cells of some entries last.
fn take_cells(
    alloc: Global,
    def: &TableDef,
    entries: &Entries,
    found: &mut List<CellBlock>,
) -> Result<(), Memory>
    requires parts { ArePartsOf def.now.columns (cell_parts def.now) }
    requires long { AllByRecursion (λ entry. width_of_parts def.now.columns (cell_parts def.now) + 4 ≤ length entry) entries.now }
    ensures taken { OnOk result ((more : List Entry) (all : List CellBlock) → IsListedTo def.now (entries.now ++ more) found.old all → IsListedTo def.now more found.new all) }
{
    for i in 0..entries.len() {
        let cell = read_cell(alloc, def, entries.at(i))?;
        found.push(cell)?;
    }
    Ok(())
}

/// The cell and the block of which an entry was made, where the values fit their columns. Of other bytes it is some cell.
fn read_cell(alloc: Global, def: &TableDef, entry: &[u8]) -> Result<CellBlock, Memory>
    requires parts { ArePartsOf def.now.columns (cell_parts def.now) }
    requires long { width_of_parts def.now.columns (cell_parts def.now) + 4 ≤ length entry.now }
    ensures { IfOk result (λ found. (listed : CellBlock) → IsCellEntry def.now entry.now listed → found ≡ listed) }
{
    let mut values = List::new(alloc);
    let mut rest = entry;
    for dim in def.dims.as_slice() {
        rest = read_values(alloc, &def.columns, dim, rest, &mut values)?;
    }
    let cell = Cell { values };
    let block = BigEndian::read_u32(rest);
    Ok(CellBlock { cell, block })
}

/// Reads the values of the columns in some places from the front of an entry's rest, and puts them last. Lends the bytes
/// behind them.
fn read_values<'e>(
    alloc: Global,
    columns: &List<ColumnDef>,
    places: &List<u8>,
    bytes: &'e [u8],
    values: &mut List<Value>,
) -> Result<&'e [u8], Memory>
    requires parts { ArePartsOf columns.now (rising_parts places.now) }
    requires long { width_of_parts columns.now (rising_parts places.now) ≤ length bytes.now }
    ensures read { IfOk result (λ rest. (more : List ℕ) (written : List Value) (block : ℕ)
        → IsReadTo columns.now (places.now ++ more) bytes.now values.old written block → IsReadTo columns.now more rest.now values.new written block) }
    ensures rest { IfOk result (λ rest. length rest.now + width_of_parts columns.now (rising_parts places.now) ≡ length bytes.now) }
{
    let mut rest = bytes;
    for place in places.as_slice() {
        let ty = columns.at(usize::from(*place)).ty;
        let value = read_part(alloc, ty, rest)?;
        values.push(value)?;
        rest = &rest[usize::from(part_width(ty))..];
    }
    Ok(rest)
}
