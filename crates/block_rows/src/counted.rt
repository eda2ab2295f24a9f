// The rows of a block, up to the last that is counted.
ghost use Rattle.std.specs.Prelude.{◌≡◌, ◌↔◌, ◌≤◌, ◌<◌, false, length, IsTrue, IfOk, OnOk};
ghost use Rattle.mdc_ast.specs.declared.row.Row.{Row};
ghost use Rattle.store_api.specs.Causes.{fault_of};
ghost use Rattle.store_api.specs.Fetching.{BringsOnce};
ghost use Rattle.store_api.specs.Frame.{NoPage};
ghost use Rattle.store_api.specs.RunsOverPages.{RunsOverPages};
ghost use Rattle.row_page.specs.Row.{AreRowColumns};
ghost use Rattle.mdc_sound.specs.StandingTable.{pages_of};
ghost use Rattle.mdc_sound.specs.TableRows.{rows_in_block};
ghost use Rattle.row_filter.specs.Filtering.{may_filter};
ghost use Rattle.block_rows.specs.CellColumns.{AreCellColumns, places_of};
ghost use Rattle.block_rows.specs.CountedRows.{HasSeenCounted, IsCountedPage, counted_rows};
ghost use Rattle.block_rows.specs.Giving.{WasGiven};
ghost use Rattle.block_rows.specs.HeldRows.{BreaksRows, HasReadValues, qualifying};
ghost use Rattle.block_rows.specs.SeenRows.{AreInCell};

use crate::met_rows::MetRows;
use crate::page_reading::scan_page;
use crate::places::{first_page, first_slot};
use crate::{CellColumns, RowSink, SeenRows};
use mdc_ast::{Cell, TableDef};
use mdc_values::Rid;
use row_filter::RowFilter;
use row_page::RowShape;
use std::alloc::Global;
use store_api::{Pages, Shape, StoreFault};

/// Gives a sink the rows of a block that a filter takes, by rising slot and page by page, until so many rows were met. It tells how many
/// rows there are on these pages, and whether they are of a cell, or of one cell where none is given. They are compared by the columns
/// of the cell that are given. Each page before which fewer rows lie comes to hand once, and no page behind them, and a row is judged
/// where it lies. Damaged where such a page isn't a row page, or doesn't have as many rows as its head says.
pub fn scan_counted<P: Pages, K: RowSink>(
    alloc: Global,
    def: &TableDef,
    shape: Shape,
    pages: &mut P,
    block: u32,
    rows: u16,
    cells: &CellColumns,
    cell: &Option<Cell>,
    filter: &mut RowFilter,
    sink: &mut K,
) -> Result<SeenRows, StoreFault>
    requires columns { AreRowColumns def.now.columns }
    requires below { block < shape.extents }
    requires are { AreCellColumns def.now.columns cells.now }
    requires wide { length def.now.columns ≡ length filter.old.values }
    requires judged { (row : Row) → HasReadValues def.now.columns row → IsTrue (may_filter filter.old.pred.now row.values) }
    requires fits { K.RowSink.is_for def.now.columns sink.old }
    requires going { (P.state pages.old).ended ≡ false }
    ensures given { OnOk result (IsTrue (P.state pages.old).is_told
        → WasGiven K.RowSink sink.old sink.new (qualifying filter.old.pred.now (counted_rows shape (pages_of P.Pages pages.old) def.now block rows))) }
    ensures seen { IfOk result (λ seen. IsTrue (P.state pages.old).is_told → HasSeenCounted shape (pages_of P.Pages pages.old) def.now block rows seen.rows) }
    ensures in_cell { IfOk result (λ seen. IsTrue (P.state pages.old).is_told
        → IsTrue seen.in_cell ↔ AreInCell (places_of cells.now.columns.items) cell.now (counted_rows shape (pages_of P.Pages pages.old) def.now block rows)) }
    ensures whole { length (rows_in_block shape (pages_of P.Pages pages.old) def.now block) ≤ rows
        → counted_rows shape (pages_of P.Pages pages.old) def.now block rows ≡ rows_in_block shape (pages_of P.Pages pages.old) def.now block }
    ensures fits { OnOk result (K.RowSink.is_for def.now.columns sink.new) }
    ensures pred { filter.new.pred.now ≡ filter.old.pred.now }
    ensures width { length filter.new.values ≡ length filter.old.values }
    ensures same { (P.state pages.new).work ≡ (P.state pages.old).work }
    ensures once { BringsOnce P.Pages (IsCountedPage P.Pages shape pages.old def.now block rows) pages.old pages.new }
    ensures runs { RunsOverPages P.Pages NoPage (IsCountedPage P.Pages shape pages.old def.now block rows) (BreaksRows P.Pages shape pages.old def.now block) pages.old pages.new (fault_of result) }
{
    let first = first_page(shape, pages, block)?;
    let row_shape = RowShape::of(&def.columns);
    let mut met = MetRows::none();
    for j in 0..shape.extent_pages {
        if met.rows >= u32::from(rows) {
            break;
        }
        let slot = first_slot(&row_shape, shape, j);
        let rid = Rid { block, slot };
        scan_page(
            alloc,
            &row_shape,
            cells,
            cell,
            pages,
            first + j,
            rid,
            filter,
            &mut met,
            sink,
        )?;
    }
    Ok(SeenRows {
        rows: met.rows,
        in_cell: met.in_cell,
    })
}
