// The columns of the cell, where they lie in the bytes of a row.
ghost use Rattle.std.specs.Prelude.{◌≡◌, ◌↔◌, ◌≤◌, ◌<◌, ◌++◌, [], length, IsTrue, IfOk, OnOk};
ghost use Rattle.std.specs.List.{AllByRecursion};
ghost use Rattle.mdc_ast.specs.Definitions.{width};
ghost use Rattle.mdc_ast.specs.TableLimits.{IsTableDef};
ghost use Rattle.mdc_ast.specs.Truth.{value_at};
ghost use Rattle.row_page.specs.Row.{AreRowColumns, column_value, nulls_in, row_in, row_width_of};
ghost use Rattle.row_page.specs.RowPage.{slot_bytes, slot_count, slots_start};
ghost use Rattle.table_trees.specs.RowCells.{cell_places};
ghost use Rattle.block_rows.specs.CellColumns.{AreCellColumns, IsCellColumn, places_of};
ghost use Rattle.block_rows.specs.SeenRows.{values_at};

use byteorder::{BigEndian, ByteOrder};
use mdc_ast::{Cell, ColumnDef, TableDef};
use mdc_values::{ColType, List, Memory, Value, trim};
use row_page::{RowShape, RowView, capacity, row_width};
use std::alloc::Global;
use store_api::Page;

/// How many bytes the head of a page has. The bits of the slots stand behind it.
const PAGE_HEAD: usize = 16;

/// Where the null bits stand in the bytes of a row, behind its number.
const NULLS: usize = 8;

/// A column of the cell: its place among the columns, its type, and where its bytes begin and end in those of a row.
#[derive(Clone, Copy, Debug)]
pub(crate) struct CellColumn {
    pub(crate) place: u8,
    pub(crate) ty: ColType,
    pub(crate) start: usize,
    pub(crate) end: usize,
}

/// The columns by which the rows of a block are compared: those of the cell, in the order of the dimensions, or none; and where the
/// bytes of rows lie in a page.
#[derive(Debug, Drop)]
pub struct CellColumns {
    pub(crate) columns: Vec<CellColumn>,
    /// Where the first slot of a page begins.
    pub(crate) slots_start: usize,
    /// How many bytes a row has.
    pub(crate) row_width: usize,
}

impl CellColumns {
    /// No column, so that any rows are alike. It takes no memory.
    pub fn none(alloc: Global, def: &TableDef) -> CellColumns
        requires columns { AreRowColumns def.now.columns }
        ensures places { places_of result.columns.items ≡ [] }
        ensures are { AreCellColumns def.now.columns result }
    {
        CellColumns {
            columns: Vec::new(alloc),
            slots_start: slots_start(&def.columns),
            row_width: row_width(def.columns.as_slice()),
        }
    }

    /// The columns of the cell of a table.
    pub fn of(alloc: Global, def: &TableDef) -> Result<CellColumns, Memory>
        requires defined { IsTableDef def.now.number def.now }
        ensures places { IfOk result (λ made. places_of made.columns.items ≡ cell_places def.now) }
        ensures are { IfOk result (AreCellColumns def.now.columns) }
    {
        let mut columns = Vec::new(alloc);
        for dim in def.dims.as_slice() {
            push_columns(&def.columns, dim.as_slice(), &mut columns)?;
        }
        Ok(CellColumns {
            columns,
            slots_start: slots_start(&def.columns),
            row_width: row_width(def.columns.as_slice()),
        })
    }

    /// Lends the bytes of a slot of a page, whether it has a row or not.
    pub(crate) fn bytes_of_slot<'p>(
        &self,
        shape: &RowShape<'_>,
        page: &'p Page,
        slot: u16,
    ) -> &'p [u8]
        requires are { AreCellColumns shape.now.columns.now self.now }
        requires slot { slot < slot_count shape.now.columns.now }
        ensures bytes { result.now ≡ slot_bytes shape.now.columns.now page.now slot }
        ensures width { length result.now ≡ row_width_of shape.now.columns.now }
    {
        let _shape = shape;
        let start = self.slots_start + usize::from(slot) * self.row_width;
        &page[start..start + self.row_width]
    }
}

/// Where the first slot of a page begins.
fn slots_start(columns: &List<ColumnDef>) -> usize
    requires { AreRowColumns columns.now }
    ensures { result ≡ slots_start columns.now }
{
    PAGE_HEAD + usize::from(capacity(columns).div_ceil(8))
}

/// Puts the columns in some places last, as those of the cell.
fn push_columns(
    columns: &List<ColumnDef>,
    places: &[u8],
    made: &mut Vec<CellColumn>,
) -> Result<(), Memory>
    requires few { length columns.now ≤ 16 }
    requires there { AllByRecursion (λ place. place < length columns.now) places.now }
    ensures places { OnOk result (places_of made.new.items ≡ places_of made.old.items ++ places.now) }
    ensures columns { OnOk result (AllByRecursion (IsCellColumn columns.now) made.old.items → AllByRecursion (IsCellColumn columns.now) made.new.items) }
{
    for place in places {
        made.push(cell_column(columns, *place))?;
    }
    Ok(())
}

/// The column in a place, as one of the cell.
fn cell_column(columns: &List<ColumnDef>, place: u8) -> CellColumn
    requires few { length columns.now ≤ 16 }
    requires there { place < length columns.now }
    ensures place { result.place ≡ place }
    ensures column { IsCellColumn columns.now result }
{
    let at = usize::from(place);
    let all = columns.as_slice();
    CellColumn {
        place,
        ty: columns.at(at).ty,
        start: row_width(&all[..at]),
        end: row_width(&all[..at + 1]),
    }
}

/// The values of a row in some columns, as a cell.
pub(crate) fn cell_of(alloc: Global, columns: &[CellColumn], row: &RowView) -> Result<Cell, Memory>
    requires columns { AllByRecursion (IsCellColumn row.now.columns.now) columns.now }
    ensures { IfOk result (λ cell. cell.values ≡ values_at (places_of columns.now) (row_in row.now.columns.now row.now.bytes.now).values) }
{
    let mut values = List::new(alloc);
    for column in columns {
        values.push(row.value(alloc, column.place)?)?;
    }
    Ok(Cell { values })
}

/// Whether the bytes of a row have the values of a cell in some columns.
pub(crate) fn is_in_cell(
    shape: &RowShape<'_>,
    columns: &[CellColumn],
    row: &[u8],
    cell: &Cell,
) -> bool
    requires columns { AllByRecursion (IsCellColumn shape.now.columns.now) columns.now }
    requires row { length row.now ≡ row_width_of shape.now.columns.now }
    ensures { IsTrue result ↔ cell.now.values ≡ values_at (places_of columns.now) (row_in shape.now.columns.now row.now).values }
{
    let values = cell.values.as_slice();
    if values.len() != columns.len() {
        return false;
    }
    let nulls = BigEndian::read_u16(&row[NULLS..]);
    for (i, column) in columns.iter().enumerate() {
        if !has_value(shape, column, nulls, row, &values[i]) {
            return false;
        }
    }
    true
}

/// Whether the bytes of two rows are alike where they have the values of some columns. Such rows have the same values there, and
/// nothing is decoded. Others may have the same values too, since the bytes below a null may be any.
#[inline(always)]
pub(crate) fn are_alike(
    shape: &RowShape<'_>,
    columns: &[CellColumn],
    first: &[u8],
    second: &[u8],
) -> bool
    requires columns { AllByRecursion (IsCellColumn shape.now.columns.now) columns.now }
    requires row { length second.now ≡ row_width_of shape.now.columns.now }
    ensures width { IsTrue result → length first.now ≡ row_width_of shape.now.columns.now }
    ensures values { IsTrue result → values_at (places_of columns.now) (row_in shape.now.columns.now first.now).values ≡ values_at (places_of columns.now) (row_in shape.now.columns.now second.now).values }
{
    if first.len() != second.len() {
        return false;
    }
    let nulls = BigEndian::read_u16(&first[NULLS..]);
    let others = BigEndian::read_u16(&second[NULLS..]);
    for column in columns {
        if !are_alike_in(shape, column, nulls, first, others, second) {
            return false;
        }
    }
    true
}

/// Whether the bytes of two rows, each with its null bits, are alike in a column.
#[inline(always)]
fn are_alike_in(
    shape: &RowShape<'_>,
    column: &CellColumn,
    nulls: u16,
    first: &[u8],
    others: u16,
    second: &[u8],
) -> bool
    requires column { IsCellColumn shape.now.columns.now column.now }
    requires first { length first.now ≡ row_width_of shape.now.columns.now }
    requires second { length second.now ≡ row_width_of shape.now.columns.now }
    requires nulls { nulls ≡ nulls_in first.now }
    requires others { others ≡ nulls_in second.now }
    ensures { IsTrue result → value_at (row_in shape.now.columns.now first.now).values column.now.place ≡ value_at (row_in shape.now.columns.now second.now).values column.now.place }
{
    let _shape = shape;
    if ((nulls ^ others) >> column.place) % 2 == 1 {
        return false;
    }
    is_same_value(
        column.ty,
        &first[column.start..column.end],
        &second[column.start..column.end],
    )
}

/// Whether the bytes of a column are alike, as a number where they are one. Then they are the same value.
#[inline(always)]
#[tactic(auto, unfolding(row_page::specs::Row::column_value))]
fn is_same_value(ty: ColType, one: &[u8], other: &[u8]) -> bool
    requires one { length one.now ≡ width ty }
    requires other { length other.now ≡ width ty }
    ensures { IsTrue result → column_value ty one.now ≡ column_value ty other.now }
{
    match ty {
        ColType::Integer => BigEndian::read_i32(one) == BigEndian::read_i32(other),
        ColType::Bigint => BigEndian::read_i64(one) == BigEndian::read_i64(other),
        ColType::Char(_) => one == other,
        ColType::Date => BigEndian::read_u32(one) == BigEndian::read_u32(other),
    }
}

/// Whether the bytes of a row have a value in a column.
fn has_value(
    shape: &RowShape<'_>,
    column: &CellColumn,
    nulls: u16,
    row: &[u8],
    value: &Value,
) -> bool
    requires column { IsCellColumn shape.now.columns.now column.now }
    requires row { length row.now ≡ row_width_of shape.now.columns.now }
    requires nulls { nulls ≡ nulls_in row.now }
    ensures { IsTrue result ↔ value.now ≡ value_at (row_in shape.now.columns.now row.now).values column.now.place }
{
    let _shape = shape;
    if (nulls >> column.place) % 2 == 1 {
        return is_null(value);
    }
    is_value(column.ty, &row[column.start..column.end], value)
}

/// Whether the bytes of a column are a value.
#[tactic(auto, unfolding(row_page::specs::Row::column_value))]
pub(crate) fn is_value(ty: ColType, bytes: &[u8], value: &Value) -> bool
    requires { length bytes.now ≡ width ty }
    ensures { IsTrue result ↔ value.now ≡ column_value ty bytes.now }
{
    match ty {
        ColType::Integer => is_number(value, BigEndian::read_i32(bytes) as i64),
        ColType::Bigint => is_number(value, BigEndian::read_i64(bytes)),
        ColType::Char(_) => is_text(value, trim(bytes)),
        ColType::Date => is_day(value, BigEndian::read_u32(bytes)),
    }
}

pub(crate) fn is_null(value: &Value) -> bool
    ensures { IsTrue result ↔ value.now ≡ Value.Null }
{
    matches!(value, Value::Null)
}

fn is_number(value: &Value, number: i64) -> bool
    ensures { IsTrue result ↔ value.now ≡ Value.Int number }
{
    match value {
        Value::Int(other) => *other == number,
        Value::Null | Value::Text(_) | Value::Day(_) => false,
    }
}

fn is_text(value: &Value, text: &[u8]) -> bool
    ensures { IsTrue result ↔ value.now ≡ Value.Text text.now }
{
    match value {
        Value::Text(other) => other.bytes() == text,
        Value::Null | Value::Int(_) | Value::Day(_) => false,
    }
}

fn is_day(value: &Value, day: u32) -> bool
    ensures { IsTrue result ↔ value.now ≡ Value.Day day }
{
    match value {
        Value::Day(other) => *other == day,
        Value::Null | Value::Int(_) | Value::Text(_) => false,
    }
}
