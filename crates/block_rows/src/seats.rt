// Where a row goes in a block whose lowest slot has a row of its cell.
ghost use Rattle.std.specs.Prelude.{◌≡◌, ◌↔◌, ◌≤◌, ◌<◌, List, Option, None, false, length, IsTrue, IfErr, IfOk, IfSome};
ghost use Rattle.std.specs.List.{AllByRecursion};
ghost use Rattle.mdc_ast.specs.declared.row.Row.{Row};
ghost use Rattle.mdc_ast.specs.TableLimits.{IsTableDef};
ghost use Rattle.mdc_ast.specs.Truth.{value_at};
ghost use Rattle.store_api.specs.Causes.{fault_of};
ghost use Rattle.store_api.specs.Frame.{NoPage, OnlyPage};
ghost use Rattle.store_api.specs.RunsOverPages.{RunsOverPages};
ghost use Rattle.row_page.specs.Row.{AreRowColumns, row_in};
ghost use Rattle.row_page.specs.RowPage.{slot_count, IsRowPage};
ghost use Rattle.table_trees.specs.RowCells.{AreOfOneCell};
ghost use Rattle.mdc_sound.specs.Placing.{block_slot_count};
ghost use Rattle.mdc_sound.specs.StandingTable.{IsPageOfBlock};
ghost use Rattle.block_rows.specs.HeldRows.{BreaksRows, HoldsRows};
ghost use Rattle.block_rows.specs.PageRows.{HoldsRowPage, IsFaultOfBytes, IsLowestEmpty, RefusesPage};
ghost use Rattle.block_rows.specs.SeenRows.{values_at};
ghost use Rattle.block_rows.specs.Seats.{BeginsInCell, IsSeat};

use crate::cell_columns::{is_null, is_value};
use crate::page_reading::{first_empty, first_empty_in_page, no_row_page};
use crate::places::{first_page, first_slot};
use mdc_ast::{Row, TableDef};
use row_page::{RowShape, RowView};
use store_api::{Page, Pages, Shape, StoreFault, bring};

/// What the first page of a block says to a row: whether its lowest slot has a row of the same cell, and which slot is the lowest
/// empty one.
#[derive(Clone, Copy, Debug)]
pub(crate) struct Lead {
    pub(crate) of_cell: bool,
    pub(crate) empty: Option<u16>,
}

/// The lowest empty slot of a block whose lowest slot has a row of this one's cell. None where that slot has none, or no slot is
/// empty. It looks at no row but that one.
pub fn find_seat<P: Pages>(
    def: &TableDef,
    shape: Shape,
    pages: &mut P,
    block: u32,
    row: &Row,
) -> Result<Option<u16>, StoreFault>
    requires defined { IsTableDef def.now.number def.now }
    requires columns { AreRowColumns def.now.columns }
    requires wide { length row.now.values ≡ length def.now.columns }
    requires below { block < shape.extents }
    requires going { (P.state pages.old).ended ≡ false }
    ensures seat { IfOk result (λ found. IfSome found (λ slot. (slots : List (Option Row)) → HoldsRows P.Pages shape pages.old def.now block slots → IsSeat def.now row.now slots slot)) }
    ensures below { IfOk result (λ found. IfSome found (λ slot. slot < block_slot_count shape def.now)) }
    ensures same { (P.state pages.new).work ≡ (P.state pages.old).work }
    ensures runs { RunsOverPages P.Pages NoPage (IsPageOfBlock shape block) (BreaksRows P.Pages shape pages.old def.now block) pages.old pages.new (fault_of result) }
{
    let first = first_page(shape, pages, block)?;
    let row_shape = RowShape::of(&def.columns);
    let lead = lead_of_page(def, &row_shape, pages, first, row)?;
    if !lead.of_cell {
        return Ok(None);
    }
    if let Some(slot) = lead.empty {
        return Ok(Some(slot));
    }
    for j in 1..shape.extent_pages {
        if let Some(slot) = first_empty_in_page(&row_shape, pages, first + j)? {
            return Ok(Some(first_slot(&row_shape, shape, j) + slot));
        }
    }
    Ok(None)
}

/// What page p says to a row, as the first of a block.
fn lead_of_page<P: Pages>(
    def: &TableDef,
    shape: &RowShape<'_>,
    pages: &mut P,
    p: u32,
    row: &Row,
) -> Result<Lead, StoreFault>
    requires defined { IsTableDef def.now.number def.now }
    requires columns { shape.now.columns.now ≡ def.now.columns }
    requires wide { length row.now.values ≡ length def.now.columns }
    requires going { (P.state pages.old).ended ≡ false }
    requires within { p < length (P.state pages.old).work }
    ensures of_cell { IfOk result (λ lead. IsTrue lead.of_cell → (slots : List (Option Row)) → HoldsRowPage P.Pages shape.now.columns.now pages.old p slots → BeginsInCell def.now row.now slots) }
    ensures lowest { IfOk result (λ lead. (slots : List (Option Row)) → HoldsRowPage P.Pages shape.now.columns.now pages.old p slots → IsLowestEmpty slots lead.empty) }
    ensures below { IfOk result (λ lead. IfSome lead.empty (λ slot. slot < slot_count shape.now.columns.now)) }
    ensures same { (P.state pages.new).work ≡ (P.state pages.old).work }
    ensures runs { RunsOverPages P.Pages NoPage (OnlyPage p) (RefusesPage P.Pages shape.now.columns.now pages.old p) pages.old pages.new (fault_of result) }
{
    bring(pages, p)?;
    match lead_of_bytes(def, shape, pages.page(), p, row) {
        Ok(lead) => Ok(lead),
        Err(fault) => Err(fault),
    }
}

/// The same of the bytes of page p.
fn lead_of_bytes(
    def: &TableDef,
    shape: &RowShape<'_>,
    page: &Page,
    p: u32,
    row: &Row,
) -> Result<Lead, StoreFault>
    requires defined { IsTableDef def.now.number def.now }
    requires columns { shape.now.columns.now ≡ def.now.columns }
    requires wide { length row.now.values ≡ length def.now.columns }
    ensures of_cell { IfOk result (λ lead. IsTrue lead.of_cell → (slots : List (Option Row)) → IsRowPage shape.now.columns.now page.now slots → BeginsInCell def.now row.now slots) }
    ensures lowest { IfOk result (λ lead. (slots : List (Option Row)) → IsRowPage shape.now.columns.now page.now slots → IsLowestEmpty slots lead.empty) }
    ensures below { IfOk result (λ lead. IfSome lead.empty (λ slot. slot < slot_count shape.now.columns.now)) }
    ensures refuses { IfErr result (IsFaultOfBytes shape.now.columns.now page.now p) }
{
    let empty = first_empty(shape, page, p)?;
    let of_cell = begins_in_cell(def, shape, page, row);
    Ok(Lead { of_cell, empty })
}

/// Whether the lowest slot in the bytes of a page has a row of this one's cell.
fn begins_in_cell(def: &TableDef, shape: &RowShape<'_>, page: &Page, row: &Row) -> bool
    requires defined { IsTableDef def.now.number def.now }
    requires columns { shape.now.columns.now ≡ def.now.columns }
    requires wide { length row.now.values ≡ length def.now.columns }
    ensures { IsTrue result → (slots : List (Option Row)) → IsRowPage shape.now.columns.now page.now slots → BeginsInCell def.now row.now slots }
{
    let Some(view) = shape.look(page) else {
        return false;
    };
    let Some(first) = view.row(0) else {
        return false;
    };
    is_of_cell(def, &first, row)
}

/// Whether a row that is lent is of the cell of another one.
fn is_of_cell(def: &TableDef, first: &RowView<'_>, row: &Row) -> bool
    requires defined { IsTableDef def.now.number def.now }
    requires columns { first.now.columns.now ≡ def.now.columns }
    requires wide { length row.now.values ≡ length def.now.columns }
    ensures { IsTrue result → AreOfOneCell def.now (row_in first.now.columns.now first.now.bytes.now).values row.now.values }
{
    for dim in def.dims.as_slice() {
        if !are_same_in(def, first, dim.as_slice(), row) {
            return false;
        }
    }
    true
}

/// Whether a row that is lent has the values of another one in some places.
fn are_same_in(def: &TableDef, first: &RowView<'_>, places: &[u8], row: &Row) -> bool
    requires columns { first.now.columns.now ≡ def.now.columns }
    requires there { AllByRecursion (λ place. place < length first.now.columns.now) places.now }
    requires wide { length row.now.values ≡ length first.now.columns.now }
    ensures { IsTrue result → values_at places.now (row_in first.now.columns.now first.now.bytes.now).values ≡ values_at places.now row.now.values }
{
    for place in places {
        if !has_value_of(def, first, *place, row) {
            return false;
        }
    }
    true
}

/// Whether a row that is lent has the value of another one in a place.
fn has_value_of(def: &TableDef, first: &RowView<'_>, place: u8, row: &Row) -> bool
    requires columns { first.now.columns.now ≡ def.now.columns }
    requires there { place < length first.now.columns.now }
    requires wide { length row.now.values ≡ length first.now.columns.now }
    ensures { IsTrue result ↔ value_at row.now.values place ≡ value_at (row_in first.now.columns.now first.now.bytes.now).values place }
{
    let value = row.values.at(usize::from(place));
    let Some(bytes) = first.bytes(place) else {
        return is_null(value);
    };
    is_value(def.columns.at(usize::from(place)).ty, bytes, value)
}
