// The lowest block of a cell that has room.
ghost use Rattle.std.specs.Prelude.{◌≡◌, ◌<◌, ◌^◌, List, Contains, IsTrue, false, IfOk, IfSome};
ghost use Rattle.store_api.specs.Causes.{fault_of};
ghost use Rattle.store_api.specs.Frame.{NoPage};
ghost use Rattle.store_api.specs.RunsOverPages.{RunsOverPages};
ghost use Rattle.extent_map.specs.declared.kind.Kind.{Kind};
ghost use Rattle.mdc_ast.specs.declared.row.Row.{Row};
ghost use Rattle.mdc_ast.specs.Database.{fits_all};
ghost use Rattle.mdc_ast.specs.TableLimits.{IsTableDef};
ghost use Rattle.block_map.specs.BlockMaps.{HasRow};
ghost use Rattle.block_map.specs.MapLines.{used_blocks};
ghost use Rattle.mdc_sound.specs.StandingTable.{BreaksExpected, BreaksTable, IsTableTreePage, StandsTable, TableForests, spots_of};
ghost use Rattle.free_space.specs.FoundRoom.{FindsRoom, cell_key_of};

use block_index::first_block_from;
use block_map::{BlockMap, BlockRow, BlockState};
use mdc_ast::TableDef;
use row_page::capacity;
use std::alloc::Global;
use store_api::rules::{BLOCK_INDEXES_RULE, BLOCK_MAPS_RULE};
use store_api::{Damage, Pages, Shape, StoreFault};
use table_trees::cell_width;

/// The lowest Used block from a number on that is of the cell with this key and has an empty slot, with its row in the block map.
/// None where there is none.
pub fn find_room<P: Pages>(
    alloc: Global,
    def: &TableDef,
    shape: Shape,
    pages: &mut P,
    key: &[u8],
    from: u32,
) -> Result<Option<BlockRow>, StoreFault>
    requires defined { IsTableDef def.now.number def.now }
    requires going { (P.state pages.old).ended ≡ false }
    ensures finds { IfOk result (λ found. (owners : List Kind) (forests : TableForests) (row : Row) → StandsTable P.Pages shape pages.old def.now owners forests
        → IsTrue (fits_all def.now.columns row.values) → key.now ≡ cell_key_of def.now row.values
        → FindsRoom def.now (spots_of P.Pages shape pages.old def.now owners forests) forests.map row from found) }
    ensures within { IfOk result (λ found. IfSome found (λ found. found.block < shape.extents)) }
    ensures same { (P.state pages.new).work ≡ (P.state pages.old).work }
    ensures runs { RunsOverPages P.Pages NoPage (IsTableTreePage P.Pages shape pages.old def.now) (BreaksTable P.Pages shape pages.old def.now) pages.old pages.new (fault_of result) }
{
    if key.len() != usize::from(cell_width(def)) {
        return Ok(None);
    }
    let slots = shape.extent_pages * u32::from(capacity(&def.columns));
    let mut next = from;
    'walk: loop {
        let Some(block) = first_block_from(alloc, def, pages, key, next)? else {
            return Ok(None);
        };
        let row = used_row(alloc, def, shape, pages, block)?;
        if u32::from(row.rows) < slots {
            return Ok(Some(row));
        }
        next = block + 1;
    }
}

/// The row of a Used block in the block map. Damaged where the map doesn't say that the block is Used, or there is no such
/// extent.
fn used_row<P: Pages>(
    alloc: Global,
    def: &TableDef,
    shape: Shape,
    pages: &mut P,
    block: u32,
) -> Result<BlockRow, StoreFault>
    requires going { (P.state pages.old).ended ≡ false }
    ensures mapped { IfOk result (λ row. (owners : List Kind) (forests : TableForests) → StandsTable P.Pages shape pages.old def.now owners forests → HasRow row forests.map) }
    ensures named { IfOk result (λ row. row.block ≡ block) }
    ensures used { IfOk result (λ row. row.state ≡ BlockState.Used) }
    ensures within { IfOk result (λ row. row.block < shape.extents) }
    ensures few { IfOk result (λ row. row.rows < 2 ^ 16) }
    ensures same { (P.state pages.new).work ≡ (P.state pages.old).work }
    ensures runs { RunsOverPages P.Pages NoPage (IsTableTreePage P.Pages shape pages.old def.now)
        (BreaksExpected P.Pages shape pages.old def.now (λ owners forests. Contains (used_blocks forests.map) block)) pages.old pages.new (fault_of result) }
{
    let map = BlockMap::at(alloc, def.roots.map);
    let Some(row) = map.get(pages, block)? else {
        return Err(damaged(def.roots.composite, BLOCK_INDEXES_RULE));
    };
    if row.state != BlockState::Used {
        return Err(damaged(def.roots.composite, BLOCK_INDEXES_RULE));
    }
    if block >= shape.extents {
        return Err(damaged(def.roots.map, BLOCK_MAPS_RULE));
    }
    Ok(row)
}

/// A page breaks a rule.
fn damaged(page: u32, rule: u16) -> StoreFault
    ensures { result ≡ StoreFault.Damaged (record { page = page; rule = rule }) }
{
    StoreFault::Damaged(Damage { page, rule })
}
