// The rows of a block as the trees of its table list it, up to the last that is counted.
ghost use Rattle.std.specs.Prelude.{◌≡◌, ◌<◌, ◌≤◌, length, false, IsTrue, OnOk};
ghost use Rattle.mdc_ast.specs.declared.row.Row.{Row};
ghost use Rattle.mdc_ast.specs.TableLimits.{IsTableDef};
ghost use Rattle.store_api.specs.Causes.{fault_of};
ghost use Rattle.store_api.specs.Fetching.{BringsOnce};
ghost use Rattle.store_api.specs.Frame.{NoPage};
ghost use Rattle.store_api.specs.RunsOverPages.{RunsOverPages};
ghost use Rattle.row_filter.specs.Filtering.{may_filter};
ghost use Rattle.block_rows.specs.CellColumns.{AreCellColumns, places_of};
ghost use Rattle.block_rows.specs.CountedRows.{IsCountedPage, counted_rows};
ghost use Rattle.block_rows.specs.Giving.{WasGiven};
ghost use Rattle.block_rows.specs.HeldRows.{HasReadValues, qualifying};
ghost use Rattle.table_trees.specs.RowCells.{cell_places};
ghost use Rattle.mdc_sound.specs.StandingTable.{BreaksExpected, pages_of};
ghost use Rattle.mdc_sound.specs.TableRows.{rows_in_block};
ghost use Rattle.mdc_table.specs.SeenBlocks.{HasSeenCountedBlock, IsListedSo};

use crate::faults::unmapped;
use crate::listed::{ListedBlock, as_listed};
use block_rows::{CellColumns, RowSink, scan_counted};
use mdc_ast::TableDef;
use row_filter::RowFilter;
use std::alloc::Global;
use store_api::{Pages, Shape, StoreFault};

/// Gives a sink the rows of a Used block that a filter takes, by rising slot, until as many were met as its line says. Each of its
/// pages comes to hand once, but none behind the page with that row, and no other row page: that the block has more rows isn't seen.
/// Damaged where there is no such extent, where such a page isn't a row page or doesn't have as many rows as its head says, where
/// these pages don't have as many rows as the line says, and where a row isn't of its cell, or the rows not of one where no cell is
/// given.
pub fn scan_counted_block<P: Pages, K: RowSink>(
    alloc: Global,
    def: &TableDef,
    shape: Shape,
    pages: &mut P,
    cells: &CellColumns,
    listed: &ListedBlock,
    filter: &mut RowFilter,
    sink: &mut K,
) -> Result<(), StoreFault>
    requires defined { IsTableDef def.now.number def.now }
    requires are { AreCellColumns def.now.columns cells.now }
    requires places { places_of cells.now.columns.items ≡ cell_places def.now }
    requires wide { length def.now.columns ≡ length filter.old.values }
    requires judged { (row : Row) → HasReadValues def.now.columns row → IsTrue (may_filter filter.old.pred.now row.values) }
    requires fits { K.RowSink.is_for def.now.columns sink.old }
    requires going { (P.state pages.old).ended ≡ false }
    ensures given { OnOk result (IsTrue (P.state pages.old).is_told → length (rows_in_block shape (pages_of P.Pages pages.old) def.now listed.now.block) ≤ listed.now.rows
        → WasGiven K.RowSink sink.old sink.new (qualifying filter.old.pred.now (rows_in_block shape (pages_of P.Pages pages.old) def.now listed.now.block))) }
    ensures given_some { OnOk result (IsTrue (P.state pages.old).is_told
        → WasGiven K.RowSink sink.old sink.new (qualifying filter.old.pred.now (counted_rows shape (pages_of P.Pages pages.old) def.now listed.now.block listed.now.rows))) }
    ensures seen { OnOk result (IsTrue (P.state pages.old).is_told → HasSeenCountedBlock shape (pages_of P.Pages pages.old) def.now listed.now) }
    ensures some { OnOk result (0 < listed.now.rows) }
    ensures fits { OnOk result (K.RowSink.is_for def.now.columns sink.new) }
    ensures pred { filter.new.pred.now ≡ filter.old.pred.now }
    ensures width { length filter.new.values ≡ length filter.old.values }
    ensures same { (P.state pages.new).work ≡ (P.state pages.old).work }
    ensures once { BringsOnce P.Pages (IsCountedPage P.Pages shape pages.old def.now listed.now.block listed.now.rows) pages.old pages.new }
    ensures runs { RunsOverPages P.Pages NoPage (IsCountedPage P.Pages shape pages.old def.now listed.now.block listed.now.rows) (BreaksExpected P.Pages shape pages.old def.now (IsListedSo P.Pages shape pages.old def.now listed.now)) pages.old pages.new (fault_of result) }
{
    let block = listed.block;
    if block >= shape.extents {
        return Err(unmapped(def));
    }
    let seen = scan_counted(
        alloc,
        def,
        shape,
        pages,
        block,
        listed.rows,
        cells,
        &listed.cell,
        filter,
        sink,
    )?;
    as_listed(shape, listed, seen)
}
