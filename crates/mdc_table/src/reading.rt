// The rows of a table, read.
ghost use Rattle.std.specs.Prelude.{◌≡◌, ◌<◌, ◌^◌, List, Contains, false, map, length, IsTrue, IfOk, IfSome};
ghost use Rattle.mdc_ast.specs.declared.row.Row.{Row};
ghost use Rattle.mdc_values.specs.Rising.{IsLower, IsRising};
ghost use Rattle.store_api.specs.Causes.{fault_of};
ghost use Rattle.store_api.specs.Fetching.{BringsOnce};
ghost use Rattle.store_api.specs.Frame.{NoPage};
ghost use Rattle.store_api.specs.RunsOverPages.{RunsOverPages};
ghost use Rattle.store_api.specs.declared.shape.Shape.{Shape};
ghost use Rattle.extent_map.specs.declared.kind.Kind.{Kind};
ghost use Rattle.mdc_ast.specs.TableLimits.{IsTableDef};
ghost use Rattle.entry_tree.specs.Forest.{Forest};
ghost use Rattle.block_map.specs.MapLines.{lines_of_state, map_lines, used_blocks};
ghost use Rattle.block_map.specs.MapRows.{line_of};
ghost use Rattle.block_rows.specs.HeldRows.{HasReadValues, HaveReadValues, placed_row};
ghost use Rattle.block_rows.specs.SeenRows.{HasSeenRows};
ghost use Rattle.row_page.specs.Row.{AreRowColumns};
ghost use Rattle.mdc_sound.specs.Placing.{block_slot_count, row_at_spot};
ghost use Rattle.mdc_sound.specs.StandingTable.{BreaksExpected, BreaksTable, IsPageOfBlock, StandsTable, TableForests, pages_of, spots_of};
ghost use Rattle.mdc_sound.specs.TableRows.{rows_in_block};
ghost use Rattle.table_trees.specs.TableTrees.{map_place};
ghost use Rattle.table_trees.specs.TreesBeside.{HoldsTreeAt, IsTreePageAt};
ghost use Rattle.mdc_table.specs.SeenPlaces.{SeesPlace};
ghost use Rattle.mdc_table.specs.TableReading.{HasUsedBlock, IsRowLook};

use crate::faults::unmapped;
use block_map::{BlockMap, BlockRow, BlockState};
use block_rows::{Hit, row_in_slot, rows_of_block};
use mdc_ast::{Row, TableDef};
use mdc_values::{Blocks, Rid};
use row_page::capacity;
use std::alloc::Global;
use store_api::{Pages, Shape, StoreFault};

/// A copy of the row in a place. None exactly where the block isn't Used, or the slot is empty. Whatever the pages hold, the block map
/// and the slot were seen to say so.
pub fn row_at<P: Pages>(
    alloc: Global,
    def: &TableDef,
    shape: Shape,
    pages: &mut P,
    rid: Rid,
) -> Result<Option<Row>, StoreFault>
    requires defined { IsTableDef def.now.number def.now }
    requires going { (P.state pages.old).ended ≡ false }
    ensures found { IfOk result (λ row. (owners : List Kind) (forests : TableForests) → StandsTable P.Pages shape pages.old def.now owners forests
        → row ≡ row_at_spot (spots_of P.Pages shape pages.old def.now owners forests) rid) }
    ensures keyed { IfOk result (λ row. IfSome row (HasReadValues def.now.columns)) }
    ensures seen { IfOk result (λ row. IsTrue (P.state pages.old).is_told → SeesPlace P.Pages shape pages.old def.now rid row) }
    ensures same { (P.state pages.new).work ≡ (P.state pages.old).work }
    ensures runs { RunsOverPages P.Pages NoPage (IsRowLook P.Pages shape pages.old def.now rid.block) (BreaksTable P.Pages shape pages.old def.now) pages.old pages.new (fault_of result) }
{
    if rid.block >= shape.extents || u32::from(rid.slot) >= block_slots(def, shape) {
        return Ok(None);
    }
    let map = BlockMap::at(alloc, def.roots.map);
    let Some(line) = map.get(pages, rid.block)? else {
        return Ok(None);
    };
    if line.state != BlockState::Used {
        return Ok(None);
    }
    row_in_slot(alloc, def, shape, pages, rid)
}

/// How many slots a block has.
pub(crate) fn block_slots(def: &TableDef, shape: Shape) -> u32
    requires { AreRowColumns def.now.columns }
    ensures { result ≡ block_slot_count shape def.now }
{
    shape.extent_pages * u32::from(capacity(&def.columns))
}

/// Copies of the rows of a Used block, by rising slot, each with its place. Each of its pages comes to hand once, and no other row
/// page. Damaged where there is no such extent, and where a page isn't a row page or doesn't have as many rows as its head says.
pub fn rows_of_used_block<P: Pages>(
    alloc: Global,
    def: &TableDef,
    shape: Shape,
    pages: &mut P,
    block: u32,
) -> Result<Vec<Hit>, StoreFault>
    requires defined { IsTableDef def.now.number def.now }
    requires going { (P.state pages.old).ended ≡ false }
    ensures rows { IfOk result (λ hits. (owners : List Kind) (forests : TableForests) → StandsTable P.Pages shape pages.old def.now owners forests → Contains (used_blocks forests.map) block
        → map placed_row hits.items ≡ rows_in_block shape (pages_of P.Pages pages.old) def.now block) }
    ensures seen { IfOk result (λ hits. IsTrue (P.state pages.old).is_told → HasSeenRows shape (pages_of P.Pages pages.old) def.now block (length hits.items)) }
    ensures keyed { IfOk result (λ hits. HaveReadValues def.now.columns hits.items) }
    ensures same { (P.state pages.new).work ≡ (P.state pages.old).work }
    ensures once { BringsOnce P.Pages (IsPageOfBlock shape block) pages.old pages.new }
    ensures runs { RunsOverPages P.Pages NoPage (IsPageOfBlock shape block) (BreaksExpected P.Pages shape pages.old def.now (HasUsedBlock block)) pages.old pages.new (fault_of result) }
{
    if block >= shape.extents {
        return Err(unmapped(def));
    }
    match rows_of_block(alloc, def, shape, pages, block) {
        Ok(hits) => Ok(hits),
        Err(fault) => Err(fault),
    }
}

/// How many rows the line of a Used block says that it has. Damaged where the block map doesn't have the block as a Used one. It
/// looks at no row page.
pub fn rows_of_line<P: Pages>(
    alloc: Global,
    def: &TableDef,
    shape: Shape,
    pages: &mut P,
    block: u32,
) -> Result<u16, StoreFault>
    requires going { (P.state pages.old).ended ≡ false }
    ensures line { IfOk result (λ rows. (t : Forest) → HoldsTreeAt P.Pages pages.old (map_place def.now) t → Contains (map_lines t) (record { block = block; state = 1; rows = rows })) }
    ensures same { (P.state pages.new).work ≡ (P.state pages.old).work }
    ensures runs { RunsOverPages P.Pages NoPage (IsTreePageAt P.Pages pages.old (map_place def.now)) (BreaksExpected P.Pages shape pages.old def.now (HasUsedBlock block)) pages.old pages.new (fault_of result) }
{
    let _shape = shape;
    let map = BlockMap::at(alloc, def.roots.map);
    let Some(row) = map.get(pages, block)? else {
        return Err(unmapped(def));
    };
    if row.state != BlockState::Used {
        return Err(unmapped(def));
    }
    Ok(stated(&row))
}

/// How many rows a line says.
fn stated(line: &BlockRow) -> u16
    ensures value { result ≡ line.now.rows }
    ensures few { result < 2 ^ 16 }
{
    line.rows
}

/// The lines of the Used blocks in the block map, by rising number, in one walk. It looks at no row page.
pub fn used_lines<P: Pages>(
    alloc: Global,
    def: &TableDef,
    shape: Shape,
    pages: &mut P,
) -> Result<Vec<BlockRow>, StoreFault>
    requires going { (P.state pages.old).ended ≡ false }
    ensures of_tree { IfOk result (λ used. (t : Forest) → HoldsTreeAt P.Pages pages.old (map_place def.now) t → map line_of used.items ≡ lines_of_state 1 t) }
    ensures rising { IfOk result (λ used. IsRising IsLower (map (λ line. line.block) used.items)) }
    ensures same { (P.state pages.new).work ≡ (P.state pages.old).work }
    ensures runs { RunsOverPages P.Pages NoPage (IsTreePageAt P.Pages pages.old (map_place def.now)) (BreaksTable P.Pages shape pages.old def.now) pages.old pages.new (fault_of result) }
{
    let _shape = shape;
    BlockMap::at(alloc, def.roots.map).rows(pages, BlockState::Used)
}

/// The Used blocks, by rising number. It looks at no row page.
pub fn used_blocks<P: Pages>(
    alloc: Global,
    def: &TableDef,
    shape: Shape,
    pages: &mut P,
) -> Result<Blocks, StoreFault>
    requires going { (P.state pages.old).ended ≡ false }
    ensures listed { IfOk result (λ blocks. (owners : List Kind) (forests : TableForests) → StandsTable P.Pages shape pages.old def.now owners forests → blocks ≡ used_blocks forests.map) }
    ensures of_tree { IfOk result (λ blocks. (t : Forest) → HoldsTreeAt P.Pages pages.old (map_place def.now) t → blocks ≡ used_blocks t) }
    ensures same { (P.state pages.new).work ≡ (P.state pages.old).work }
    ensures runs { RunsOverPages P.Pages NoPage (IsTreePageAt P.Pages pages.old (map_place def.now)) (BreaksTable P.Pages shape pages.old def.now) pages.old pages.new (fault_of result) }
{
    let _shape = shape;
    BlockMap::at(alloc, def.roots.map).list(pages, BlockState::Used)
}
