// Changes of the slots of a block.
ghost use Rattle.std.specs.Prelude.{◌≡◌, ◌<◌, ◌*◌, List, Option, Some, None, length, false, replicate, slice_set, IsTrue, IfOk, OnOk};
ghost use Rattle.mdc_ast.specs.declared.row.Row.{Row};
ghost use Rattle.mdc_ast.specs.Database.{fits_all};
ghost use Rattle.store_api.specs.Causes.{fault_of};
ghost use Rattle.store_api.specs.RunsOverPages.{RunsOverPages};
ghost use Rattle.row_page.specs.Row.{AreRowColumns};
ghost use Rattle.mdc_sound.specs.Placing.{block_slot_count};
ghost use Rattle.mdc_sound.specs.StandingTable.{IsPageOfBlock, pages_of};
ghost use Rattle.block_rows.specs.HeldRows.{BreaksExtent, BreaksRows, ClearsSlot, HoldsRows, PutsFirst};
ghost use Rattle.block_rows.specs.SeenRows.{SeesIfRow, SeesSlot};

use crate::page_changing::{clear_in_page, put_first_in_page, put_in_page};
use crate::places::{first_page, first_slot, place_of_slot};
use mdc_ast::{Row, TableDef};
use mdc_values::Rid;
use row_page::RowShape;
use store_api::{Pages, Shape, StoreFault, blank_page, write_page};

/// Puts a row into the lowest empty slot of a block, and answers that slot. None where no slot is empty.
pub fn put_first<P: Pages>(
    def: &TableDef,
    shape: Shape,
    pages: &mut P,
    block: u32,
    row: &Row,
) -> Result<Option<u16>, StoreFault>
    requires columns { AreRowColumns def.now.columns }
    requires fits { IsTrue (fits_all def.now.columns row.now.values) }
    requires below { block < shape.extents }
    requires going { (P.state pages.old).ended ≡ false }
    ensures puts { IfOk result (λ slot. (slots : List (Option Row)) → HoldsRows P.Pages shape pages.old def.now block slots
        → PutsFirst P.Pages shape pages.old pages.new def.now block row.now slots slot) }
    ensures count { length (P.state pages.new).work ≡ length (P.state pages.old).work }
    ensures runs { RunsOverPages P.Pages (IsPageOfBlock shape block) (IsPageOfBlock shape block) (BreaksRows P.Pages shape pages.old def.now block) pages.old pages.new (fault_of result) }
{
    let first = first_page(shape, pages, block)?;
    let row_shape = RowShape::of(&def.columns);
    for j in 0..shape.extent_pages {
        if let Some(slot) = put_first_in_page(&row_shape, pages, first + j, row)? {
            return Ok(Some(first_slot(&row_shape, shape, j) + slot));
        }
    }
    Ok(None)
}

/// Puts a row into a slot, in the place of any that is there, and answers whether one lay there.
pub fn put_slot<P: Pages>(
    def: &TableDef,
    shape: Shape,
    pages: &mut P,
    rid: Rid,
    row: &Row,
) -> Result<bool, StoreFault>
    requires columns { AreRowColumns def.now.columns }
    requires fits { IsTrue (fits_all def.now.columns row.now.values) }
    requires below { rid.block < shape.extents }
    requires slot { rid.slot < block_slot_count shape def.now }
    requires going { (P.state pages.old).ended ≡ false }
    ensures puts { OnOk result ((slots : List (Option Row)) → HoldsRows P.Pages shape pages.old def.now rid.block slots
        → HoldsRows P.Pages shape pages.new def.now rid.block (slice_set slots rid.slot (Some row.now))) }
    ensures seen { IfOk result (λ filled. IsTrue (P.state pages.old).is_told → SeesIfRow (SeesSlot shape (pages_of P.Pages pages.old) def.now rid) filled) }
    ensures count { length (P.state pages.new).work ≡ length (P.state pages.old).work }
    ensures runs { RunsOverPages P.Pages (IsPageOfBlock shape rid.block) (IsPageOfBlock shape rid.block) (BreaksRows P.Pages shape pages.old def.now rid.block) pages.old pages.new (fault_of result) }
{
    let row_shape = RowShape::of(&def.columns);
    let place = place_of_slot(&row_shape, shape, pages, rid)?;
    put_in_page(&row_shape, pages, place.page, place.slot, row)
}

/// Empties a slot, and answers whether a row lay there.
pub fn clear_slot<P: Pages>(
    def: &TableDef,
    shape: Shape,
    pages: &mut P,
    rid: Rid,
) -> Result<bool, StoreFault>
    requires columns { AreRowColumns def.now.columns }
    requires below { rid.block < shape.extents }
    requires slot { rid.slot < block_slot_count shape def.now }
    requires going { (P.state pages.old).ended ≡ false }
    ensures clears { IfOk result (λ filled. (slots : List (Option Row)) → HoldsRows P.Pages shape pages.old def.now rid.block slots
        → ClearsSlot P.Pages shape pages.new def.now rid slots filled) }
    ensures seen { IfOk result (λ filled. IsTrue (P.state pages.old).is_told → SeesIfRow (SeesSlot shape (pages_of P.Pages pages.old) def.now rid) filled) }
    ensures count { length (P.state pages.new).work ≡ length (P.state pages.old).work }
    ensures runs { RunsOverPages P.Pages (IsPageOfBlock shape rid.block) (IsPageOfBlock shape rid.block) (BreaksRows P.Pages shape pages.old def.now rid.block) pages.old pages.new (fault_of result) }
{
    let row_shape = RowShape::of(&def.columns);
    let place = place_of_slot(&row_shape, shape, pages, rid)?;
    clear_in_page(&row_shape, pages, place.page, place.slot)
}

/// Makes each page of an extent an empty row page. Its pages may hold anything before. It looks at none of them.
pub fn wipe_block<P: Pages>(
    def: &TableDef,
    shape: Shape,
    pages: &mut P,
    block: u32,
) -> Result<(), StoreFault>
    requires columns { AreRowColumns def.now.columns }
    requires below { block < shape.extents }
    requires going { (P.state pages.old).ended ≡ false }
    ensures wipes { OnOk result (IsTrue (P.state pages.old).is_told → HoldsRows P.Pages shape pages.new def.now block (replicate (block_slot_count shape def.now) None)) }
    ensures count { length (P.state pages.new).work ≡ length (P.state pages.old).work }
    ensures runs { RunsOverPages P.Pages (IsPageOfBlock shape block) (IsPageOfBlock shape block) (BreaksExtent P.Pages shape pages.old block) pages.old pages.new (fault_of result) }
{
    let first = first_page(shape, pages, block)?;
    let mut empty = *blank_page();
    RowShape::of(&def.columns).wipe(&mut empty);
    for j in 0..shape.extent_pages {
        write_page(pages, first + j, &empty)?;
    }
    Ok(())
}
