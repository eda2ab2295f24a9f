// What one page of a block holds.
ghost use Rattle.std.specs.Prelude.{◌≡◌, ◌≤◌, ◌<◌, ◌+◌, [], ◌∷◌, List, Option, Some, None, false, length, slice_index_or, IsTrue, IfOk, IfErr, IfSome, OnOk};
ghost use Rattle.mdc_ast.specs.declared.row.Row.{Row};
ghost use Rattle.store_api.specs.Causes.{fault_of};
ghost use Rattle.store_api.specs.Fetching.{BringsOnce};
ghost use Rattle.store_api.specs.Frame.{NoPage, OnlyPage};
ghost use Rattle.store_api.specs.RunsOverPages.{RunsOverPages};
ghost use Rattle.store_api.specs.StoreState.{page_at};
ghost use Rattle.row_page.specs.Row.{row_in};
ghost use Rattle.row_page.specs.RowPage.{slot_count, IsRowPage};
ghost use Rattle.row_filter.specs.Filtering.{may_filter};
ghost use Rattle.block_rows.specs.CellColumns.{AreCellColumns, places_of};
ghost use Rattle.block_rows.specs.HeldRows.{qualifying, HasReadValues};
ghost use Rattle.block_rows.specs.Giving.{WasGiven};
ghost use Rattle.block_rows.specs.PageRows.{HoldsRowPage, IsFaultOfBytes, IsLowestEmpty, RefusesPage};
ghost use Rattle.block_rows.specs.SeenRows.{SeesPage, SeesSlotOfPage};

use crate::cell_columns::CellColumns;
use crate::met_rows::MetRows;
use crate::row_sink::RowSink;
use mdc_ast::{Cell, Row};
use mdc_values::Rid;
use row_filter::RowFilter;
use row_page::{RowShape, RowView};
use std::alloc::Global;
use store_api::rules::ROW_PAGES_RULE;
use store_api::{Damage, Page, Pages, StoreFault, bring};

/// Page p isn't a row page.
pub(crate) fn no_row_page(p: u32) -> StoreFault
    ensures { result ≡ StoreFault.Damaged (record { page = p; rule = 7 }) }
{
    StoreFault::Damaged(Damage {
        page: p,
        rule: ROW_PAGES_RULE,
    })
}

/// The lowest empty slot of page p.
pub(crate) fn first_empty_in_page<P: Pages>(
    shape: &RowShape<'_>,
    pages: &mut P,
    p: u32,
) -> Result<Option<u16>, StoreFault>
    requires going { (P.state pages.old).ended ≡ false }
    requires within { p < length (P.state pages.old).work }
    ensures lowest { IfOk result (λ slot. (slots : List (Option Row)) → HoldsRowPage P.Pages shape.now.columns.now pages.old p slots → IsLowestEmpty slots slot) }
    ensures below { IfOk result (λ slot. IfSome slot (λ slot. slot < slot_count shape.now.columns.now)) }
    ensures same { (P.state pages.new).work ≡ (P.state pages.old).work }
    ensures runs { RunsOverPages P.Pages NoPage (OnlyPage p) (RefusesPage P.Pages shape.now.columns.now pages.old p) pages.old pages.new (fault_of result) }
{
    bring(pages, p)?;
    match first_empty(shape, pages.page(), p) {
        Ok(slot) => Ok(slot),
        Err(fault) => Err(fault),
    }
}

/// The lowest empty slot in the bytes of page p. The bits of a page that states as many rows as it has slots aren't looked at.
pub(crate) fn first_empty(
    shape: &RowShape<'_>,
    page: &Page,
    p: u32,
) -> Result<Option<u16>, StoreFault>
    ensures lowest { IfOk result (λ slot. (slots : List (Option Row)) → IsRowPage shape.now.columns.now page.now slots → IsLowestEmpty slots slot) }
    ensures below { IfOk result (λ slot. IfSome slot (λ slot. slot < slot_count shape.now.columns.now)) }
    ensures refuses { IfErr result (IsFaultOfBytes shape.now.columns.now page.now p) }
{
    let Some(view) = shape.look(page) else {
        return Err(no_row_page(p));
    };
    if view.rows() == shape.slots() {
        return Ok(None);
    }
    Ok(view.first_empty())
}

/// A copy of the row in a slot of page p.
pub(crate) fn row_in_page<P: Pages>(
    alloc: Global,
    shape: &RowShape<'_>,
    pages: &mut P,
    p: u32,
    slot: u16,
) -> Result<Option<Row>, StoreFault>
    requires slot { slot < slot_count shape.now.columns.now }
    requires going { (P.state pages.old).ended ≡ false }
    requires within { p < length (P.state pages.old).work }
    ensures found { IfOk result (λ row. (slots : List (Option Row)) → HoldsRowPage P.Pages shape.now.columns.now pages.old p slots → row ≡ slice_index_or slots slot None) }
    ensures seen { IfOk result (λ row. IsTrue (P.state pages.old).is_told → SeesSlotOfPage shape.now.columns.now (page_at (P.state pages.old).work p) slot row) }
    ensures keyed { IfOk result (λ row. IfSome row (HasReadValues shape.now.columns.now)) }
    ensures same { (P.state pages.new).work ≡ (P.state pages.old).work }
    ensures once { BringsOnce P.Pages (OnlyPage p) pages.old pages.new }
    ensures runs { RunsOverPages P.Pages NoPage (OnlyPage p) (RefusesPage P.Pages shape.now.columns.now pages.old p) pages.old pages.new (fault_of result) }
{
    bring(pages, p)?;
    match copy_row(alloc, shape, pages.page(), p, slot) {
        Ok(row) => Ok(row),
        Err(fault) => Err(fault),
    }
}

/// A copy of the row in a slot, in the bytes of page p.
fn copy_row(
    alloc: Global,
    shape: &RowShape<'_>,
    page: &Page,
    p: u32,
    slot: u16,
) -> Result<Option<Row>, StoreFault>
    requires slot { slot < slot_count shape.now.columns.now }
    ensures seen { IfOk result (SeesSlotOfPage shape.now.columns.now page.now slot) }
    ensures keyed { IfOk result (λ row. IfSome row (HasReadValues shape.now.columns.now)) }
    ensures refuses { IfErr result (IsFaultOfBytes shape.now.columns.now page.now p) }
{
    let Some(view) = shape.look(page) else {
        return Err(no_row_page(p));
    };
    let Some(row) = view.row(slot) else {
        return Ok(None);
    };
    Ok(Some(copy_of(alloc, &row)?))
}

/// A copy of a row that is lent.
fn copy_of(alloc: Global, row: &RowView) -> Result<Row, StoreFault>
    ensures row { IfOk result (λ copy. copy ≡ row_in row.now.columns.now row.now.bytes.now) }
    ensures memory { IfErr result (λ fault. fault ≡ StoreFault.Memory) }
{
    match row.to_row(alloc) {
        Ok(copy) => Ok(copy),
        Err(_) => Err(StoreFault::Memory),
    }
}

/// Gives a sink the rows of page p that a filter takes, by rising slot, and meets each row. Its first slot is that of the block which
/// is given. Damaged where it isn't a row page, or doesn't have as many rows as its head says.
pub(crate) fn scan_page<P: Pages, K: RowSink>(
    alloc: Global,
    shape: &RowShape<'_>,
    cells: &CellColumns,
    given: &Option<Cell>,
    pages: &mut P,
    p: u32,
    first: Rid,
    filter: &mut RowFilter,
    met: &mut MetRows,
    sink: &mut K,
) -> Result<(), StoreFault>
    requires room { first.slot + slot_count shape.now.columns.now < 65536 }
    requires few { met.old.rows ≤ first.slot }
    requires are { AreCellColumns shape.now.columns.now cells.now }
    requires wide { length shape.now.columns.now ≡ length filter.old.values }
    requires judged { (row : Row) → HasReadValues shape.now.columns.now row → IsTrue (may_filter filter.old.pred.now row.values) }
    requires fits { K.RowSink.is_for shape.now.columns.now sink.old }
    requires going { (P.state pages.old).ended ≡ false }
    requires within { p < length (P.state pages.old).work }
    ensures sees { OnOk result (IsTrue (P.state pages.old).is_told → SeesPage K.RowSink shape.now.columns.now (places_of cells.now.columns.items) given.now (page_at (P.state pages.old).work p) first.block first.slot filter.old.pred.now
        sink.old sink.new met.old met.new) }
    ensures few { OnOk result (met.new.rows ≤ first.slot + slot_count shape.now.columns.now) }
    ensures fits { OnOk result (K.RowSink.is_for shape.now.columns.now sink.new) }
    ensures pred { filter.new.pred.now ≡ filter.old.pred.now }
    ensures width { length filter.new.values ≡ length filter.old.values }
    ensures same { (P.state pages.new).work ≡ (P.state pages.old).work }
    ensures once { BringsOnce P.Pages (OnlyPage p) pages.old pages.new }
    ensures runs { RunsOverPages P.Pages NoPage (OnlyPage p) (RefusesPage P.Pages shape.now.columns.now pages.old p) pages.old pages.new (fault_of result) }
{
    bring(pages, p)?;
    match scan_rows(
        alloc,
        shape,
        cells,
        given,
        pages.page(),
        p,
        first,
        filter,
        met,
        sink,
    ) {
        Ok(()) => Ok(()),
        Err(fault) => Err(fault),
    }
}

/// Gives a sink the rows in the bytes of page p that a filter takes, and meets each row.
fn scan_rows<K: RowSink>(
    alloc: Global,
    shape: &RowShape<'_>,
    cells: &CellColumns,
    given: &Option<Cell>,
    page: &Page,
    p: u32,
    first: Rid,
    filter: &mut RowFilter,
    met: &mut MetRows,
    sink: &mut K,
) -> Result<(), StoreFault>
    requires room { first.slot + slot_count shape.now.columns.now < 65536 }
    requires few { met.old.rows ≤ first.slot }
    requires are { AreCellColumns shape.now.columns.now cells.now }
    requires wide { length shape.now.columns.now ≡ length filter.old.values }
    requires judged { (row : Row) → HasReadValues shape.now.columns.now row → IsTrue (may_filter filter.old.pred.now row.values) }
    requires fits { K.RowSink.is_for shape.now.columns.now sink.old }
    ensures sees { OnOk result (SeesPage K.RowSink shape.now.columns.now (places_of cells.now.columns.items) given.now page.now first.block first.slot filter.old.pred.now
        sink.old sink.new met.old met.new) }
    ensures few { OnOk result (met.new.rows ≤ first.slot + slot_count shape.now.columns.now) }
    ensures fits { OnOk result (K.RowSink.is_for shape.now.columns.now sink.new) }
    ensures pred { filter.new.pred.now ≡ filter.old.pred.now }
    ensures width { length filter.new.values ≡ length filter.old.values }
    ensures refuses { IfErr result (IsFaultOfBytes shape.now.columns.now page.now p) }
{
    let Some(view) = shape.look(page) else {
        return Err(no_row_page(p));
    };
    let rows_before = met.rows;
    let mut from = 0;
    let mut last = &page[..0];
    'slots: while let Some(slot) = view.next_filled(from) {
        let row = view.filled_row(slot);
        let rid = Rid {
            block: first.block,
            slot: first.slot + slot,
        };
        let bytes = cells.bytes_of_slot(shape, page, slot);
        met.meet(alloc, shape, cells, given, &row, last, bytes)?;
        last = bytes;
        give_if_taken(alloc, &row, rid, filter, sink)?;
        from = slot + 1;
    }
    if met.rows != rows_before + u32::from(view.rows()) {
        return Err(no_row_page(p));
    }
    Ok(())
}

/// Gives a sink a row that is lent, if a filter takes it.
pub(crate) fn give_if_taken<K: RowSink>(
    alloc: Global,
    row: &RowView,
    rid: Rid,
    filter: &mut RowFilter,
    sink: &mut K,
) -> Result<(), StoreFault>
    requires wide { length row.now.columns.now ≡ length filter.old.values }
    requires read { HasReadValues row.now.columns.now (row_in row.now.columns.now row.now.bytes.now) }
    requires judged { IsTrue (may_filter filter.old.pred.now (row_in row.now.columns.now row.now.bytes.now).values) }
    requires fits { K.RowSink.is_for row.now.columns.now sink.old }
    ensures given { OnOk result (WasGiven K.RowSink sink.old sink.new (qualifying filter.old.pred.now (record { rid = rid; row = row_in row.now.columns.now row.now.bytes.now } ∷ []))) }
    ensures fits { OnOk result (K.RowSink.is_for row.now.columns.now sink.new) }
    ensures pred { filter.new.pred.now ≡ filter.old.pred.now }
    ensures width { length filter.new.values ≡ length filter.old.values }
    ensures memory { IfErr result (λ fault. fault ≡ StoreFault.Memory) }
{
    let Ok(taken) = filter.takes(alloc, row) else {
        return Err(StoreFault::Memory);
    };
    if !taken {
        return Ok(());
    }
    Ok(sink.take(alloc, row, rid)?)
}
