// The rows of a block, and the one in a slot.
ghost use Rattle.std.specs.Prelude.{◌≡◌, ◌↔◌, ◌<◌, List, Option, None, false, map, length, slice_index_or, IsTrue, IfOk, IfSome, OnOk};
ghost use Rattle.mdc_ast.specs.declared.row.Row.{Row};
ghost use Rattle.store_api.specs.Causes.{fault_of};
ghost use Rattle.store_api.specs.Fetching.{BringsOnce};
ghost use Rattle.store_api.specs.Frame.{NoPage};
ghost use Rattle.store_api.specs.RunsOverPages.{RunsOverPages};
ghost use Rattle.row_page.specs.Row.{AreRowColumns};
ghost use Rattle.mdc_sound.specs.Placing.{block_slot_count};
ghost use Rattle.mdc_sound.specs.StandingTable.{IsPageOfBlock, pages_of};
ghost use Rattle.mdc_sound.specs.TableRows.{rows_in_block};
ghost use Rattle.row_filter.specs.Filtering.{may_filter};
ghost use Rattle.block_rows.specs.CellColumns.{AreCellColumns, places_of};
ghost use Rattle.block_rows.specs.Giving.{WasGiven};
ghost use Rattle.block_rows.specs.HeldRows.{BreaksRows, HasReadValues, HaveReadValues, HoldsRows, placed_row, qualifying};
ghost use Rattle.block_rows.specs.SeenRows.{AreInCell, HasSeenRows, SeesSlot};

use crate::counted::scan_counted;
use crate::page_reading::row_in_page;
use crate::places::place_of_slot;
use crate::{CellColumns, Hit, RowSink, SeenRows};
use mdc_ast::{Cell, Row, TableDef};
use mdc_values::Rid;
use row_filter::RowFilter;
use row_page::RowShape;
use std::alloc::Global;
use store_api::{Pages, Shape, StoreFault};

/// More rows than a block has.
const UNBOUNDED: u16 = u16::MAX;

/// Gives a sink the rows of a block that a filter takes, by rising slot, and tells how many rows there are, and whether they are of a
/// cell, or of one cell where none is given. They are compared by the columns of the cell that are given. Each page of the block comes
/// to hand once, and a row is judged where it lies. Damaged where a page isn't a row page, or doesn't have as many rows as its head
/// says.
pub fn scan_block<P: Pages, K: RowSink>(
    alloc: Global,
    def: &TableDef,
    shape: Shape,
    pages: &mut P,
    block: u32,
    cells: &CellColumns,
    cell: &Option<Cell>,
    filter: &mut RowFilter,
    sink: &mut K,
) -> Result<SeenRows, StoreFault>
    requires columns { AreRowColumns def.now.columns }
    requires below { block < shape.extents }
    requires are { AreCellColumns def.now.columns cells.now }
    requires wide { length def.now.columns ≡ length filter.old.values }
    requires judged { (row : Row) → HasReadValues def.now.columns row → IsTrue (may_filter filter.old.pred.now row.values) }
    requires fits { K.RowSink.is_for def.now.columns sink.old }
    requires going { (P.state pages.old).ended ≡ false }
    ensures given { OnOk result (IsTrue (P.state pages.old).is_told
        → WasGiven K.RowSink sink.old sink.new (qualifying filter.old.pred.now (rows_in_block shape (pages_of P.Pages pages.old) def.now block))) }
    ensures seen { IfOk result (λ seen. IsTrue (P.state pages.old).is_told → HasSeenRows shape (pages_of P.Pages pages.old) def.now block seen.rows) }
    ensures in_cell { IfOk result (λ seen. IsTrue (P.state pages.old).is_told
        → IsTrue seen.in_cell ↔ AreInCell (places_of cells.now.columns.items) cell.now (rows_in_block shape (pages_of P.Pages pages.old) def.now block)) }
    ensures fits { OnOk result (K.RowSink.is_for def.now.columns sink.new) }
    ensures pred { filter.new.pred.now ≡ filter.old.pred.now }
    ensures width { length filter.new.values ≡ length filter.old.values }
    ensures same { (P.state pages.new).work ≡ (P.state pages.old).work }
    ensures once { BringsOnce P.Pages (IsPageOfBlock shape block) pages.old pages.new }
    ensures runs { RunsOverPages P.Pages NoPage (IsPageOfBlock shape block) (BreaksRows P.Pages shape pages.old def.now block) pages.old pages.new (fault_of result) }
{
    scan_counted(
        alloc, def, shape, pages, block, UNBOUNDED, cells, cell, filter, sink,
    )
}

/// Copies of the rows of a block, by rising slot, each with its place. Each page of the block comes to hand once. Damaged where a page
/// isn't a row page, or doesn't have as many rows as its head says.
pub fn rows_of_block<P: Pages>(
    alloc: Global,
    def: &TableDef,
    shape: Shape,
    pages: &mut P,
    block: u32,
) -> Result<Vec<Hit>, StoreFault>
    requires columns { AreRowColumns def.now.columns }
    requires below { block < shape.extents }
    requires going { (P.state pages.old).ended ≡ false }
    ensures rows { IfOk result (λ hits. IsTrue (P.state pages.old).is_told → map placed_row hits.items ≡ rows_in_block shape (pages_of P.Pages pages.old) def.now block) }
    ensures seen { IfOk result (λ hits. IsTrue (P.state pages.old).is_told → HasSeenRows shape (pages_of P.Pages pages.old) def.now block (length hits.items)) }
    ensures keyed { IfOk result (λ hits. HaveReadValues def.now.columns hits.items) }
    ensures same { (P.state pages.new).work ≡ (P.state pages.old).work }
    ensures once { BringsOnce P.Pages (IsPageOfBlock shape block) pages.old pages.new }
    ensures runs { RunsOverPages P.Pages NoPage (IsPageOfBlock shape block) (BreaksRows P.Pages shape pages.old def.now block) pages.old pages.new (fault_of result) }
{
    let every_row = None;
    let Ok(mut filter) = RowFilter::new(alloc, &every_row, def.columns.len()) else {
        return Err(StoreFault::Memory);
    };
    let cells = CellColumns::none(alloc, def);
    let no_cell = None;
    let mut hits = Vec::new(alloc);
    scan_block(
        alloc,
        def,
        shape,
        pages,
        block,
        &cells,
        &no_cell,
        &mut filter,
        &mut hits,
    )?;
    Ok(hits)
}

/// A copy of the row in a slot. None exactly where the slot is empty.
pub fn row_in_slot<P: Pages>(
    alloc: Global,
    def: &TableDef,
    shape: Shape,
    pages: &mut P,
    rid: Rid,
) -> Result<Option<Row>, StoreFault>
    requires columns { AreRowColumns def.now.columns }
    requires below { rid.block < shape.extents }
    requires slot { rid.slot < block_slot_count shape def.now }
    requires going { (P.state pages.old).ended ≡ false }
    ensures found { IfOk result (λ row. (slots : List (Option Row)) → HoldsRows P.Pages shape pages.old def.now rid.block slots → row ≡ slice_index_or slots rid.slot None) }
    ensures seen { IfOk result (λ row. IsTrue (P.state pages.old).is_told → SeesSlot shape (pages_of P.Pages pages.old) def.now rid row) }
    ensures keyed { IfOk result (λ row. IfSome row (HasReadValues def.now.columns)) }
    ensures same { (P.state pages.new).work ≡ (P.state pages.old).work }
    ensures runs { RunsOverPages P.Pages NoPage (IsPageOfBlock shape rid.block) (BreaksRows P.Pages shape pages.old def.now rid.block) pages.old pages.new (fault_of result) }
{
    let row_shape = RowShape::of(&def.columns);
    let place = place_of_slot(&row_shape, shape, pages, rid)?;
    row_in_page(alloc, &row_shape, pages, place.page, place.slot)
}
