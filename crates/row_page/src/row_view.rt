// A row in a slot, lent.
ghost use Rattle.std.specs.Prelude.{◌≡◌, ◌≤◌, ◌<◌, ◌+◌, ℕ, length, slice_get, slice_index, drop, replicate, false, true, IfOk, IsErr, IsTrue, ◌↔◌, MatchOption, Some};
ghost use Rattle.mdc_values.specs.Value.{IsText};
ghost use Rattle.mdc_values.specs.declared.value.Value.{Value};
ghost use Rattle.row_page.specs.Row.{AreNullsBlank, is_stored_null, nulls_in, row_in, row_width_of, stored_bytes};
ghost use Rattle.row_page.specs.RowPage.{IsWrittenRow};

use crate::judging::are_zeros;
use crate::layout::{NULLS, ROW_HEAD, column_width, part, row_width};
use crate::values::{read_or_null, read_value};
use byteorder::{BigEndian, ByteOrder};
use mdc_ast::{ColumnDef, Row};
use mdc_values::{List, Memory, Value};
use std::alloc::Global;

/// A row, seen in the bytes of its slot.
#[derive(Clone, Copy, Debug)]
pub struct RowView<'p> {
    bytes: &'p [u8],
    columns: &'p [ColumnDef],
    ghost few: { length columns.now ≤ 16 },
    ghost wide: { length bytes.now ≡ row_width_of columns.now },
    ghost long: { 10 ≤ length bytes.now },
}

impl<'p> RowView<'p> {
    /// The row in these bytes, which are as many as a row of the columns has.
    pub(crate) fn of(bytes: &'p [u8], columns: &'p [ColumnDef]) -> RowView<'p>
        requires few { length columns.now ≤ 16 }
        requires wide { length bytes.now ≡ row_width_of columns.now }
        ensures bytes { result.bytes.now ≡ bytes.now }
        ensures columns { result.columns.now ≡ columns.now }
    {
        RowView { bytes, columns }
    }

    /// The number of the row in its table.
    pub fn number(&self) -> u64
        ensures { result ≡ (row_in self.now.columns.now self.now.bytes.now).number }
    {
        BigEndian::read_u64(self.bytes)
    }

    /// Lends the bytes of a column, as they are stored. It is None exactly where the value is null.
    pub fn bytes(&self, column: u8) -> Option<&'p [u8]>
        requires { column < length self.now.columns.now }
        ensures { MatchOption result (is_stored_null column self.now.bytes.now ≡ true) (λ bytes. (is_stored_null column self.now.bytes.now ≡ false) × (bytes.now ≡ stored_bytes self.now.columns.now column self.now.bytes.now)) }
    {
        let column = column as usize;
        if (self.nulls() >> column) % 2 == 1 {
            return None;
        }
        let start = row_width(&self.columns[..column]);
        let size = column_width(self.columns[column].ty);
        Some(part(self.bytes, start, size))
    }

    /// The value of a column. Only a text takes memory.
    pub fn value(&self, alloc: Global, column: u8) -> Result<Value, Memory>
        requires { column < length self.now.columns.now }
        ensures ok { IfOk result (λ value. slice_get (row_in self.now.columns.now self.now.bytes.now).values column ≡ Some value) }
        ensures memory { IsErr result → (value : Value) → slice_get (row_in self.now.columns.now self.now.bytes.now).values column ≡ Some value → IsText value }
    {
        let ty = self.columns[column as usize].ty;
        match self.bytes(column) {
            None => Ok(Value::Null),
            Some(bytes) => read_value(alloc, ty, bytes),
        }
    }

    /// A copy of the row.
    pub fn to_row(&self, alloc: Global) -> Result<Row, Memory>
        ensures { IfOk result (λ row. row ≡ row_in self.now.columns.now self.now.bytes.now) }
    {
        let bytes = self.bytes;
        let mut values = Vec::with_capacity(alloc, self.columns.len())?;
        let mut nulls = self.nulls();
        let mut at = ROW_HEAD;
        for column in self.columns {
            let size = column_width(column.ty);
            let stored = part(bytes, at, size);
            let value = read_or_null(alloc, nulls % 2 == 1, column.ty, stored)?;
            values.push(value)?;
            nulls /= 2;
            at += size;
        }
        Ok(Row {
            number: self.number(),
            values: List::from_vec(values),
        })
    }

    /// Whether the bytes are those that the row is written as: no null bit is set behind those of the columns, and the
    /// bytes of a null are zeros.
    pub(crate) fn is_written(&self) -> bool
        ensures { IsTrue result ↔ IsWrittenRow self.now.columns.now self.now.bytes.now }
    {
        let bytes = self.bytes;
        are_nulls_blank(self.columns, self.nulls(), bytes)
    }

    fn nulls(&self) -> u16
        ensures { result ≡ nulls_in self.now.bytes.now }
    {
        let bytes = self.bytes;
        BigEndian::read_u16(&bytes[NULLS..])
    }
}

/// Whether the bytes of nulls are zeros, and no null bit is set behind those of the columns.
fn are_nulls_blank(columns: &[ColumnDef], mut nulls: u16, bytes: &[u8]) -> bool
    requires { length bytes.now ≡ row_width_of columns.now }
    ensures blank { IsTrue result ↔ AreNullsBlank columns.now nulls (drop 10 bytes.now) }
    ensures bytes { (i : ℕ) → slice_index bytes.now i < 256 }
{
    let mut at = ROW_HEAD;
    for column in columns {
        let size = column_width(column.ty);
        if !is_blank_if(nulls % 2 == 1, part(bytes, at, size)) {
            return false;
        }
        nulls /= 2;
        at += size;
    }
    nulls == 0
}

/// Whether there are zeros alone, where a value is null.
fn is_blank_if(is_null: bool, bytes: &[u8]) -> bool
    ensures { IsTrue result ↔ (IsTrue is_null → bytes.now ≡ replicate (length bytes.now) 0) }
{
    !is_null || are_zeros(bytes)
}
