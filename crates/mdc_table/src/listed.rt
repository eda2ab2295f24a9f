// A block as the trees of its table list it, and its rows.
ghost use Rattle.std.specs.Prelude.{◌≡◌, ◌<◌, length, false, IsTrue, IfErr, OnOk};
ghost use Rattle.mdc_ast.specs.declared.row.Row.{Row};
ghost use Rattle.mdc_ast.specs.TableLimits.{IsTableDef};
ghost use Rattle.store_api.specs.Causes.{fault_of};
ghost use Rattle.store_api.specs.Fetching.{BringsOnce};
ghost use Rattle.store_api.specs.Frame.{NoPage};
ghost use Rattle.store_api.specs.RunsOverPages.{RunsOverPages};
ghost use Rattle.row_filter.specs.Filtering.{may_filter};
ghost use Rattle.block_rows.specs.CellColumns.{AreCellColumns, places_of};
ghost use Rattle.block_rows.specs.Giving.{WasGiven};
ghost use Rattle.block_rows.specs.HeldRows.{HasReadValues, qualifying};
ghost use Rattle.table_trees.specs.RowCells.{cell_places};
ghost use Rattle.mdc_sound.specs.StandingTable.{BreaksExpected, IsPageOfBlock, pages_of};
ghost use Rattle.mdc_sound.specs.TableRows.{rows_in_block};
ghost use Rattle.mdc_table.specs.SeenBlocks.{HasSeenBlock, IsListedSo, NamesUnlisted};

use crate::faults::{strayed, unmapped};
use block_rows::{CellColumns, RowSink, SeenRows, scan_block};
use mdc_ast::{Cell, TableDef};
use row_filter::RowFilter;
use std::alloc::Global;
use store_api::{Pages, Shape, StoreFault};
use table_blocks::miscounted;

/// A Used block as the trees of its table list it: how many rows its line in the block map says that it has, and the cell under
/// which the composite index lists it, where it was found there.
#[derive(Debug, Drop)]
pub struct ListedBlock {
    pub block: u32,
    pub rows: u16,
    pub cell: Option<Cell>,
}

/// Gives a sink the rows of a Used block that a filter takes, by rising slot. Each of its pages comes to hand once, and no other row
/// page. Damaged where there is no such extent, where a page isn't a row page or doesn't have as many rows as its head says, where the
/// block doesn't have as many rows as its line says, and where a row isn't of its cell, or its rows not of one where no cell is given.
pub fn scan_listed_block<P: Pages, K: RowSink>(
    alloc: Global,
    def: &TableDef,
    shape: Shape,
    pages: &mut P,
    cells: &CellColumns,
    listed: &ListedBlock,
    filter: &mut RowFilter,
    sink: &mut K,
) -> Result<(), StoreFault>
    requires defined { IsTableDef def.now.number def.now }
    requires are { AreCellColumns def.now.columns cells.now }
    requires places { places_of cells.now.columns.items ≡ cell_places def.now }
    requires wide { length def.now.columns ≡ length filter.old.values }
    requires judged { (row : Row) → HasReadValues def.now.columns row → IsTrue (may_filter filter.old.pred.now row.values) }
    requires fits { K.RowSink.is_for def.now.columns sink.old }
    requires going { (P.state pages.old).ended ≡ false }
    ensures given { OnOk result (IsTrue (P.state pages.old).is_told
        → WasGiven K.RowSink sink.old sink.new (qualifying filter.old.pred.now (rows_in_block shape (pages_of P.Pages pages.old) def.now listed.now.block))) }
    ensures seen { OnOk result (IsTrue (P.state pages.old).is_told → HasSeenBlock shape (pages_of P.Pages pages.old) def.now listed.now) }
    ensures fits { OnOk result (K.RowSink.is_for def.now.columns sink.new) }
    ensures pred { filter.new.pred.now ≡ filter.old.pred.now }
    ensures width { length filter.new.values ≡ length filter.old.values }
    ensures same { (P.state pages.new).work ≡ (P.state pages.old).work }
    ensures once { BringsOnce P.Pages (IsPageOfBlock shape listed.now.block) pages.old pages.new }
    ensures runs { RunsOverPages P.Pages NoPage (IsPageOfBlock shape listed.now.block) (BreaksExpected P.Pages shape pages.old def.now (IsListedSo P.Pages shape pages.old def.now listed.now)) pages.old pages.new (fault_of result) }
{
    let block = listed.block;
    if block >= shape.extents {
        return Err(unmapped(def));
    }
    let seen = scan_block(
        alloc,
        def,
        shape,
        pages,
        block,
        cells,
        &listed.cell,
        filter,
        sink,
    )?;
    as_listed(shape, listed, seen)
}

/// Damaged where a block has no row by its line or not as many as that says, or has one of another cell.
pub(crate) fn as_listed(
    shape: Shape,
    listed: &ListedBlock,
    seen: SeenRows,
) -> Result<(), StoreFault>
    requires below { listed.now.block < shape.extents }
    ensures agrees { OnOk result ((seen.rows ≡ listed.now.rows) × IsTrue seen.in_cell) }
    ensures some { OnOk result (0 < listed.now.rows) }
    ensures names { IfErr result (NamesUnlisted shape listed.now seen) }
{
    if listed.rows == 0 || seen.rows != u32::from(listed.rows) {
        return Err(miscounted(shape, listed.block));
    }
    if !seen.in_cell {
        return Err(strayed(shape, listed.block));
    }
    Ok(())
}
