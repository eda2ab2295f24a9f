// Changes of the slots of one page of a block.
ghost use Rattle.std.specs.Prelude.{◌≡◌, ◌<◌, List, Option, Some, None, length, false, slice_set, IsTrue, IfOk, IfErr, IfSome, OnOk};
ghost use Rattle.mdc_ast.specs.declared.row.Row.{Row};
ghost use Rattle.mdc_ast.specs.Database.{fits_all};
ghost use Rattle.store_api.specs.Causes.{fault_of};
ghost use Rattle.store_api.specs.Frame.{OnlyPage};
ghost use Rattle.store_api.specs.RunsOverPages.{RunsOverPages};
ghost use Rattle.store_api.specs.StoreState.{page_at};
ghost use Rattle.row_page.specs.RowPage.{slot_count, IsRowPage};
ghost use Rattle.block_rows.specs.PageRows.{HoldsRowPage, IsFaultOfBytes, PutsInPage, RefusesPage};
ghost use Rattle.block_rows.specs.HeldRows.{IsFilledSlot};
ghost use Rattle.block_rows.specs.SeenRows.{SeesIfRow, SeesSlotOfPage};

use crate::page_reading::{first_empty_in_page, no_row_page};
use mdc_ast::Row;
use row_page::RowShape;
use store_api::{Page, Pages, StoreFault};

/// Puts a row into the lowest empty slot of page p, and answers that slot. None where no slot is empty.
pub(crate) fn put_first_in_page<P: Pages>(
    shape: &RowShape<'_>,
    pages: &mut P,
    p: u32,
    row: &Row,
) -> Result<Option<u16>, StoreFault>
    requires fits { IsTrue (fits_all shape.now.columns.now row.now.values) }
    requires going { (P.state pages.old).ended ≡ false }
    requires within { p < length (P.state pages.old).work }
    ensures puts { IfOk result (λ slot. (slots : List (Option Row)) → HoldsRowPage P.Pages shape.now.columns.now pages.old p slots → PutsInPage P.Pages shape.now.columns.now pages.old pages.new p row.now slots slot) }
    ensures below { IfOk result (λ slot. IfSome slot (λ slot. slot < slot_count shape.now.columns.now)) }
    ensures none { IfOk result (λ slot. slot ≡ None → (P.state pages.new).work ≡ (P.state pages.old).work) }
    ensures count { length (P.state pages.new).work ≡ length (P.state pages.old).work }
    ensures runs { RunsOverPages P.Pages (OnlyPage p) (OnlyPage p) (RefusesPage P.Pages shape.now.columns.now pages.old p) pages.old pages.new (fault_of result) }
{
    let Some(slot) = first_empty_in_page(shape, pages, p)? else {
        return Ok(None);
    };
    put_in_page(shape, pages, p, slot, row)?;
    Ok(Some(slot))
}

/// Puts a row into a slot of page p, in the place of any that is there, and answers whether one lay there.
pub(crate) fn put_in_page<P: Pages>(
    shape: &RowShape<'_>,
    pages: &mut P,
    p: u32,
    slot: u16,
    row: &Row,
) -> Result<bool, StoreFault>
    requires slot { slot < slot_count shape.now.columns.now }
    requires fits { IsTrue (fits_all shape.now.columns.now row.now.values) }
    requires going { (P.state pages.old).ended ≡ false }
    requires within { p < length (P.state pages.old).work }
    ensures puts { OnOk result ((slots : List (Option Row)) → HoldsRowPage P.Pages shape.now.columns.now pages.old p slots → HoldsRowPage P.Pages shape.now.columns.now pages.new p (slice_set slots slot (Some row.now))) }
    ensures seen { IfOk result (λ filled. IsTrue (P.state pages.old).is_told → SeesIfRow (SeesSlotOfPage shape.now.columns.now (page_at (P.state pages.old).work p) slot) filled) }
    ensures count { length (P.state pages.new).work ≡ length (P.state pages.old).work }
    ensures runs { RunsOverPages P.Pages (OnlyPage p) (OnlyPage p) (RefusesPage P.Pages shape.now.columns.now pages.old p) pages.old pages.new (fault_of result) }
{
    put_row(shape, pages.edit(p)?, p, slot, row)
}

/// Puts a row into a slot, in the bytes of page p, and answers whether one lay there.
fn put_row(
    shape: &RowShape<'_>,
    page: &mut Page,
    p: u32,
    slot: u16,
    row: &Row,
) -> Result<bool, StoreFault>
    requires slot { slot < slot_count shape.now.columns.now }
    requires fits { IsTrue (fits_all shape.now.columns.now row.now.values) }
    ensures puts { OnOk result ((slots : List (Option Row)) → IsRowPage shape.now.columns.now page.old slots → IsRowPage shape.now.columns.now page.new (slice_set slots slot (Some row.now))) }
    ensures seen { IfOk result (SeesIfRow (SeesSlotOfPage shape.now.columns.now page.old slot)) }
    ensures refuses { IfErr result (IsFaultOfBytes shape.now.columns.now page.old p) }
{
    let Some(view) = shape.look(page) else {
        return Err(no_row_page(p));
    };
    let had_row = view.row(slot).is_some();
    shape.put(page, slot, row);
    Ok(had_row)
}

/// Empties a slot of page p, and answers whether a row lay there.
pub(crate) fn clear_in_page<P: Pages>(
    shape: &RowShape<'_>,
    pages: &mut P,
    p: u32,
    slot: u16,
) -> Result<bool, StoreFault>
    requires slot { slot < slot_count shape.now.columns.now }
    requires going { (P.state pages.old).ended ≡ false }
    requires within { p < length (P.state pages.old).work }
    ensures clears { IfOk result (λ filled. (slots : List (Option Row)) → HoldsRowPage P.Pages shape.now.columns.now pages.old p slots
        → IsFilledSlot slots slot filled × HoldsRowPage P.Pages shape.now.columns.now pages.new p (slice_set slots slot None)) }
    ensures seen { IfOk result (λ filled. IsTrue (P.state pages.old).is_told → SeesIfRow (SeesSlotOfPage shape.now.columns.now (page_at (P.state pages.old).work p) slot) filled) }
    ensures count { length (P.state pages.new).work ≡ length (P.state pages.old).work }
    ensures runs { RunsOverPages P.Pages (OnlyPage p) (OnlyPage p) (RefusesPage P.Pages shape.now.columns.now pages.old p) pages.old pages.new (fault_of result) }
{
    clear_row(shape, pages.edit(p)?, p, slot)
}

/// Empties a slot, in the bytes of page p, and answers whether a row lay there.
fn clear_row(shape: &RowShape<'_>, page: &mut Page, p: u32, slot: u16) -> Result<bool, StoreFault>
    requires slot { slot < slot_count shape.now.columns.now }
    ensures clears { IfOk result (λ filled. (slots : List (Option Row)) → IsRowPage shape.now.columns.now page.old slots
        → IsFilledSlot slots slot filled × IsRowPage shape.now.columns.now page.new (slice_set slots slot None)) }
    ensures seen { IfOk result (SeesIfRow (SeesSlotOfPage shape.now.columns.now page.old slot)) }
    ensures refuses { IfErr result (IsFaultOfBytes shape.now.columns.now page.old p) }
{
    let Some(view) = shape.look(page) else {
        return Err(no_row_page(p));
    };
    let filled = view.row(slot).is_some();
    shape.clear(page, slot);
    Ok(filled)
}
