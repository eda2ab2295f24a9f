// The rows in some slots of a block.
ghost use Rattle.std.specs.Prelude.{◌≡◌, ◌≤◌, ◌<◌, false, drop, length, take, IsTrue, IfErr, IfOk, OnOk};
ghost use Rattle.std.specs.List.{AllByRecursion};
ghost use Rattle.mdc_values.specs.Rising.{IsLower, IsRising};
ghost use Rattle.mdc_ast.specs.declared.row.Row.{Row};
ghost use Rattle.store_api.specs.Causes.{fault_of};
ghost use Rattle.store_api.specs.Fetching.{BringsOnce};
ghost use Rattle.store_api.specs.Frame.{NoPage, OnlyPage};
ghost use Rattle.store_api.specs.RunsOverPages.{RunsOverPages};
ghost use Rattle.store_api.specs.StoreState.{page_at};
ghost use Rattle.row_page.specs.Row.{AreRowColumns};
ghost use Rattle.row_page.specs.RowPage.{slot_count};
ghost use Rattle.mdc_sound.specs.StandingTable.{IsPageOfBlock, pages_of};
ghost use Rattle.mdc_sound.specs.TableRows.{rows_in_block};
ghost use Rattle.row_filter.specs.Filtering.{may_filter};
ghost use Rattle.block_rows.specs.Giving.{WasGiven};
ghost use Rattle.block_rows.specs.HeldRows.{BreaksRows, HasReadValues, qualifying};
ghost use Rattle.block_rows.specs.ListedSlots.{AreOnPage, HasSeenSlots, IsPageForSlots, IsPageOfSlots, SeesSlotsOfPage, rows_in_slots};
ghost use Rattle.block_rows.specs.PageRows.{IsFaultOfBytes, RefusesPage};

use crate::page_reading::{give_if_taken, no_row_page};
use crate::places::{first_page, first_slot};
use crate::row_sink::RowSink;
use mdc_ast::TableDef;
use mdc_values::Rid;
use row_filter::RowFilter;
use row_page::RowShape;
use std::alloc::Global;
use store_api::{Page, Pages, Shape, StoreFault, bring};

/// Gives a sink the rows in some slots of a block that a filter takes, by rising slot, and says how many of the slots have a row.
/// Of the block's pages those in which one of the slots lies come to hand, each once, and a row is judged where it lies. A slot past
/// the last of the block is passed over. Damaged where such a page isn't a row page.
pub fn scan_slots<P: Pages, K: RowSink>(
    alloc: Global,
    def: &TableDef,
    shape: Shape,
    pages: &mut P,
    block: u32,
    slots: &[u16],
    filter: &mut RowFilter,
    sink: &mut K,
) -> Result<usize, StoreFault>
    requires columns { AreRowColumns def.now.columns }
    requires below { block < shape.extents }
    requires rise { IsRising IsLower slots.now }
    requires wide { length def.now.columns ≡ length filter.old.values }
    requires judged { (row : Row) → HasReadValues def.now.columns row → IsTrue (may_filter filter.old.pred.now row.values) }
    requires fits { K.RowSink.is_for def.now.columns sink.old }
    requires going { (P.state pages.old).ended ≡ false }
    ensures given { OnOk result (IsTrue (P.state pages.old).is_told
        → WasGiven K.RowSink sink.old sink.new (qualifying filter.old.pred.now (rows_in_slots slots.now (rows_in_block shape (pages_of P.Pages pages.old) def.now block)))) }
    ensures counted { IfOk result (λ count. IsTrue (P.state pages.old).is_told
        → count ≡ length (rows_in_slots slots.now (rows_in_block shape (pages_of P.Pages pages.old) def.now block))) }
    ensures seen { OnOk result (IsTrue (P.state pages.old).is_told → HasSeenSlots shape (pages_of P.Pages pages.old) def.now block slots.now) }
    ensures fits { OnOk result (K.RowSink.is_for def.now.columns sink.new) }
    ensures pred { filter.new.pred.now ≡ filter.old.pred.now }
    ensures width { length filter.new.values ≡ length filter.old.values }
    ensures same { (P.state pages.new).work ≡ (P.state pages.old).work }
    ensures once { BringsOnce P.Pages (IsPageOfSlots shape def.now block slots.now) pages.old pages.new }
    ensures runs { RunsOverPages P.Pages NoPage (IsPageOfBlock shape block) (BreaksRows P.Pages shape pages.old def.now block) pages.old pages.new (fault_of result) }
{
    let first = first_page(shape, pages, block)?;
    let row_shape = RowShape::of(&def.columns);
    let mut left = slots;
    let mut count: usize = 0;
    for j in 0..shape.extent_pages {
        let slot = first_slot(&row_shape, shape, j);
        let (here, behind) = left.split_at(count_below(left, slot + row_shape.slots()));
        let rid = Rid { block, slot };
        left = behind;
        let more = scan_slots_of_page(
            alloc,
            &row_shape,
            pages,
            first + j,
            rid,
            here,
            filter,
            sink,
        )?;
        count += more;
    }
    Ok(count)
}

/// How many of some slots lie below a bound.
fn count_below(slots: &[u16], bound: u16) -> usize
    requires rise { IsRising IsLower slots.now }
    ensures within { result ≤ length slots.now }
    ensures below { AllByRecursion (λ slot. slot < bound) (take result slots.now) }
    ensures behind { AllByRecursion (λ slot. bound ≤ slot) (drop result slots.now) }
{
    slots.partition_point(|slot| *slot < bound)
}

/// Gives a sink the rows in some slots that lie in page p, those that a filter takes, and says how many of the slots have a row. The
/// first slot of the page is that of the block which is given. Where no slot is listed the page doesn't come to hand.
fn scan_slots_of_page<P: Pages, K: RowSink>(
    alloc: Global,
    shape: &RowShape<'_>,
    pages: &mut P,
    p: u32,
    first: Rid,
    slots: &[u16],
    filter: &mut RowFilter,
    sink: &mut K,
) -> Result<usize, StoreFault>
    requires on_page { AreOnPage first.slot (slot_count shape.now.columns.now) slots.now }
    requires wide { length shape.now.columns.now ≡ length filter.old.values }
    requires judged { (row : Row) → HasReadValues shape.now.columns.now row → IsTrue (may_filter filter.old.pred.now row.values) }
    requires fits { K.RowSink.is_for shape.now.columns.now sink.old }
    requires going { (P.state pages.old).ended ≡ false }
    requires within { p < length (P.state pages.old).work }
    ensures sees { IfOk result (λ count. IsTrue (P.state pages.old).is_told → SeesSlotsOfPage K.RowSink shape.now.columns.now (page_at (P.state pages.old).work p) first.block first.slot slots.now filter.old.pred.now
        sink.old sink.new count) }
    ensures within { IfOk result (λ count. count ≤ length slots.now) }
    ensures fits { OnOk result (K.RowSink.is_for shape.now.columns.now sink.new) }
    ensures pred { filter.new.pred.now ≡ filter.old.pred.now }
    ensures width { length filter.new.values ≡ length filter.old.values }
    ensures same { (P.state pages.new).work ≡ (P.state pages.old).work }
    ensures once { BringsOnce P.Pages (IsPageForSlots slots.now p) pages.old pages.new }
    ensures runs { RunsOverPages P.Pages NoPage (OnlyPage p) (RefusesPage P.Pages shape.now.columns.now pages.old p) pages.old pages.new (fault_of result) }
{
    if slots.is_empty() {
        return Ok(0);
    }
    bring(pages, p)?;
    match scan_slots_in(alloc, shape, pages.page(), p, first, slots, filter, sink) {
        Ok(count) => Ok(count),
        Err(fault) => Err(fault),
    }
}

/// The same in the bytes of page p.
fn scan_slots_in<K: RowSink>(
    alloc: Global,
    shape: &RowShape<'_>,
    page: &Page,
    p: u32,
    first: Rid,
    slots: &[u16],
    filter: &mut RowFilter,
    sink: &mut K,
) -> Result<usize, StoreFault>
    requires on_page { AreOnPage first.slot (slot_count shape.now.columns.now) slots.now }
    requires wide { length shape.now.columns.now ≡ length filter.old.values }
    requires judged { (row : Row) → HasReadValues shape.now.columns.now row → IsTrue (may_filter filter.old.pred.now row.values) }
    requires fits { K.RowSink.is_for shape.now.columns.now sink.old }
    ensures sees { IfOk result (SeesSlotsOfPage K.RowSink shape.now.columns.now page.now first.block first.slot slots.now filter.old.pred.now sink.old sink.new) }
    ensures within { IfOk result (λ count. count ≤ length slots.now) }
    ensures fits { OnOk result (K.RowSink.is_for shape.now.columns.now sink.new) }
    ensures pred { filter.new.pred.now ≡ filter.old.pred.now }
    ensures width { length filter.new.values ≡ length filter.old.values }
    ensures refuses { IfErr result (IsFaultOfBytes shape.now.columns.now page.now p) }
{
    let Some(view) = shape.look(page) else {
        return Err(no_row_page(p));
    };
    let mut count: usize = 0;
    for slot in slots {
        let Some(row) = view.row(*slot - first.slot) else {
            continue;
        };
        count += 1;
        let rid = Rid {
            block: first.block,
            slot: *slot,
        };
        give_if_taken(alloc, &row, rid, filter, sink)?;
    }
    Ok(count)
}
