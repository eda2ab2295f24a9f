// The damage that a table's blocks may show.
ghost use Rattle.std.specs.Prelude.{◌≡◌, ◌<◌};
ghost use Rattle.store_api.specs.Extents.{first_page_of};
ghost use Rattle.mdc_table.specs.UsedSlots.{NamesLackingRow};

use extent_map::first_page;
use mdc_ast::TableDef;
use store_api::rules::{BLOCK_MAPS_RULE, CELLS_RULE, RECORD_INDEXES_RULE};
use store_api::{Damage, Shape, StoreFault};
use table_blocks::miscounted;

/// The block map doesn't say of a block what it should.
pub(crate) fn unmapped(def: &TableDef) -> StoreFault
    ensures { result ≡ StoreFault.Damaged (record { page = def.now.roots.map; rule = 6 }) }
{
    StoreFault::Damaged(Damage {
        page: def.roots.map,
        rule: BLOCK_MAPS_RULE,
    })
}

/// A row of a block isn't of the block's cell.
pub(crate) fn strayed(shape: Shape, block: u32) -> StoreFault
    requires { block < shape.extents }
    ensures { result ≡ StoreFault.Damaged (record { page = first_page_of shape.extents shape.extent_pages block; rule = 9 }) }
{
    StoreFault::Damaged(Damage {
        page: first_page(shape, block),
        rule: CELLS_RULE,
    })
}

/// A slot of a block that is listed has no row. Which record index lists it isn't known here, so that the first of the table is named;
/// the block, if the table has none.
pub(crate) fn rowless(def: &TableDef, shape: Shape, block: u32) -> StoreFault
    requires { block < shape.extents }
    ensures { NamesLackingRow shape def.now block result }
{
    let Some(index) = def.indexes.as_slice().first() else {
        return miscounted(shape, block);
    };
    StoreFault::Damaged(Damage {
        page: index.root,
        rule: RECORD_INDEXES_RULE,
    })
}
