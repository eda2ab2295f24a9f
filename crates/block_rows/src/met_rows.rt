// The rows of a block that were met so far.
ghost use Rattle.std.specs.Prelude.{◌≡◌, ◌<◌, ◌+◌, ◌^◌, None, true, length, IfErr, OnOk};
ghost use Rattle.row_page.specs.Row.{row_in, row_width_of};
ghost use Rattle.block_rows.specs.CellColumns.{AreCellColumns, places_of};
ghost use Rattle.block_rows.specs.SeenRows.{IsLastRow, MeetsCell, values_at};

use crate::cell_columns::{CellColumns, are_alike, cell_of, is_in_cell};
use mdc_ast::Cell;
use row_page::{RowShape, RowView};
use std::alloc::Global;
use store_api::StoreFault;

/// The rows of a block that were met so far: how many, and whether all are of the cell by which they are judged. Where no cell is
/// given, that is the cell of the first row.
#[derive(Debug, Drop)]
pub(crate) struct MetRows {
    pub(crate) rows: u32,
    pub(crate) first: Option<Cell>,
    pub(crate) in_cell: bool,
}

impl MetRows {
    /// No row yet.
    pub(crate) fn none() -> MetRows
        ensures rows { result.rows ≡ 0 }
        ensures first { result.first ≡ None }
        ensures in_cell { result.in_cell ≡ true }
    {
        MetRows {
            rows: 0,
            first: None,
            in_cell: true,
        }
    }

    /// Meets a row more, which has these bytes. Where they are alike to those of the last row nothing is decoded: the row is of the
    /// cell if the last one was.
    #[inline(always)]
    pub(crate) fn meet(
        &mut self,
        alloc: Global,
        shape: &RowShape<'_>,
        cells: &CellColumns,
        given: &Option<Cell>,
        row: &RowView,
        last: &[u8],
        bytes: &[u8],
    ) -> Result<(), StoreFault>
        requires room { self.old.rows + 1 < 2 ^ 32 }
        requires are { AreCellColumns shape.now.columns.now cells.now }
        requires shape { row.now.columns.now ≡ shape.now.columns.now }
        requires bytes { bytes.now ≡ row.now.bytes.now }
        requires width { length bytes.now ≡ row_width_of shape.now.columns.now }
        requires last { IsLastRow shape.now.columns.now (places_of cells.now.columns.items) given.now self.old.first self.old.in_cell last.now }
        ensures counted { OnOk result (self.new.rows ≡ self.old.rows + 1) }
        ensures meets { OnOk result (MeetsCell (values_at (places_of cells.now.columns.items) (row_in row.now.columns.now row.now.bytes.now).values) given.now self.old.first self.new.first self.old.in_cell self.new.in_cell) }
        ensures memory { IfErr result (λ fault. fault ≡ StoreFault.Memory) }
    {
        self.rows += 1;
        if are_alike(shape, &cells.columns, last, bytes) {
            return Ok(());
        }
        self.judge(alloc, shape, cells, given, row, bytes)
    }

    /// Judges by its values a row that was counted, and has these bytes.
    #[inline(never)]
    fn judge(
        &mut self,
        alloc: Global,
        shape: &RowShape<'_>,
        cells: &CellColumns,
        given: &Option<Cell>,
        row: &RowView,
        bytes: &[u8],
    ) -> Result<(), StoreFault>
        requires are { AreCellColumns shape.now.columns.now cells.now }
        requires shape { row.now.columns.now ≡ shape.now.columns.now }
        requires bytes { bytes.now ≡ row.now.bytes.now }
        ensures counted { OnOk result (self.new.rows ≡ self.old.rows) }
        ensures meets { OnOk result (MeetsCell (values_at (places_of cells.now.columns.items) (row_in row.now.columns.now row.now.bytes.now).values) given.now self.old.first self.new.first self.old.in_cell self.new.in_cell) }
        ensures memory { IfErr result (λ fault. fault ≡ StoreFault.Memory) }
    {
        if let Some(cell) = given {
            self.in_cell = self.in_cell && is_in_cell(shape, &cells.columns, bytes, cell);
            return Ok(());
        }
        if let Some(cell) = &self.first {
            self.in_cell = self.in_cell && is_in_cell(shape, &cells.columns, bytes, cell);
            return Ok(());
        }
        let Ok(cell) = cell_of(alloc, &cells.columns, row) else {
            return Err(StoreFault::Memory);
        };
        self.first = Some(cell);
        Ok(())
    }
}
