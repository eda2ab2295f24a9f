// Values as the bytes of a column, and rows as the bytes of a slot.
ghost use Rattle.std.specs.Prelude.{◌≡◌, ◌≤◌, ◌<◌, ◌^◌, ◌+◌, ◌-◌, ◌++◌, length, take, drop, replicate, IsTrue, IfOk, IsErr};
ghost use Rattle.byteorder.specs.Endian.{big_bytes};
ghost use Rattle.mdc_values.specs.Value.{IsText};
ghost use Rattle.mdc_ast.specs.Definitions.{width};
ghost use Rattle.mdc_ast.specs.Database.{fits_all, is_null, is_of_type};
ghost use Rattle.row_page.specs.Row.{column_bytes, column_value, columns_bytes, null_bits, row_bytes, row_width_of, value_or_null};

use crate::layout::{NULLS, ROW_HEAD, column_width};
use byteorder::{BigEndian, ByteOrder};
use mdc_ast::{ColumnDef, Row};
use mdc_values::{Chars, ColType, Memory, Value, trim};
use std::alloc::Global;

/// The value that the bytes of a column are. Only a text takes memory.
#[tactic(auto, unfolding(crate::specs::Row::column_value))]
pub fn read_value(alloc: Global, ty: ColType, bytes: &[u8]) -> Result<Value, Memory>
    requires { length bytes.now ≡ width ty }
    ensures ok { IfOk result (λ value. value ≡ column_value ty bytes.now) }
    ensures memory { IsErr result → IsText (column_value ty bytes.now) }
{
    match ty {
        ColType::Integer => Ok(Value::Int(BigEndian::read_i32(bytes) as i64)),
        ColType::Bigint => Ok(Value::Int(BigEndian::read_i64(bytes))),
        ColType::Char(_) => Ok(Value::Text(Chars::of(alloc, trim(bytes))?)),
        ColType::Date => Ok(Value::Day(BigEndian::read_u32(bytes))),
    }
}

/// The value of a column that may be null.
pub fn read_or_null(
    alloc: Global,
    is_null: bool,
    ty: ColType,
    bytes: &[u8],
) -> Result<Value, Memory>
    requires { length bytes.now ≡ width ty }
    ensures ok { IfOk result (λ value. value ≡ value_or_null is_null ty bytes.now) }
    ensures memory { IsErr result → IsText (value_or_null is_null ty bytes.now) }
{
    if is_null {
        return Ok(Value::Null);
    }
    read_value(alloc, ty, bytes)
}

/// Writes a value as the bytes of a column, at the front of these. Answers how many bytes that are.
#[tactic(auto, unfolding(crate::specs::Row::column_bytes))]
pub fn write_value(out: &mut [u8], ty: ColType, value: &Value) -> usize
    requires room { width ty ≤ length out.old }
    requires typed { IsTrue (is_of_type ty value.now) }
    ensures bytes { out.new ≡ column_bytes ty value.now ++ drop (width ty) out.old }
    ensures size { result ≡ width ty }
{
    match (ty, value) {
        (ColType::Integer, Value::Int(number)) => {
            BigEndian::write_i32(out, *number as i32);
            4
        }
        (ColType::Bigint, Value::Int(number)) => {
            BigEndian::write_i64(out, *number);
            8
        }
        (ColType::Char(length), Value::Text(text)) => {
            write_text(&mut out[..length as usize], text.bytes());
            length as usize
        }
        (ColType::Date, Value::Day(day)) => {
            BigEndian::write_u32(out, *day);
            4
        }
        _ => write_zeros(out, column_width(ty)),
    }
}

/// Writes so many zeros at the front of bytes, and answers how many.
fn write_zeros(out: &mut [u8], size: usize) -> usize
    requires { size ≤ length out.old }
    ensures bytes { out.new ≡ replicate size 0 ++ drop size out.old }
    ensures size { result ≡ size }
{
    out[..size].fill(0);
    size
}

/// Writes a text with blanks behind it.
fn write_text(out: &mut [u8], text: &[u8])
    requires { length text.now ≤ length out.old }
    ensures { out.new ≡ text.now ++ replicate (length out.old - length text.now) 32 }
{
    out[..text.len()].copy_from_slice(text);
    out[text.len()..].fill(b' ');
}

/// Writes a row, which fits the columns, as the bytes of a slot.
pub fn write_row(out: &mut [u8], columns: &[ColumnDef], row: &Row)
    requires room { length out.old ≡ row_width_of columns.now }
    requires few { length columns.now ≤ 16 }
    requires fits { IsTrue (fits_all columns.now row.now.values) }
    ensures bytes { out.new ≡ row_bytes columns.now row.now }
    ensures number { row.now.number < 2 ^ 64 }
{
    BigEndian::write_u64(out, row.number);
    let nulls = write_values(out, columns, row.values.as_slice());
    write_nulls(out, nulls);
}

/// Writes null bits into their place in a row.
fn write_nulls(out: &mut [u8], nulls: u16)
    requires { 10 ≤ length out.old }
    ensures { out.new ≡ take 8 out.old ++ big_bytes 2 nulls ++ drop 10 out.old }
{
    out[NULLS..ROW_HEAD].copy_from_slice(&nulls.to_be_bytes());
}

/// Writes values behind the head of a row, column by column, and answers their null bits.
fn write_values(out: &mut [u8], columns: &[ColumnDef], values: &[Value]) -> u16
    requires room { length out.old ≡ row_width_of columns.now }
    requires few { length columns.now ≤ 16 }
    requires same { length values.now ≡ length columns.now }
    requires fits { IsTrue (fits_all columns.now values.now) }
    ensures bytes { out.new ≡ take 10 out.old ++ columns_bytes columns.now values.now }
    ensures nulls { result ≡ null_bits values.now }
{
    let mut nulls = 0;
    let mut at = ROW_HEAD;
    for (i, column) in columns.iter().enumerate() {
        let value = &values[i];
        nulls += u16::from(is_null(value)) << i;
        at = write_value_at(out, at, column.ty, value);
    }
    nulls
}

fn is_null(value: &Value) -> bool
    ensures { result ≡ is_null value.now }
{
    matches!(value, Value::Null)
}

/// Writes a value as the bytes of a column, from a place on. Answers where they end.
fn write_value_at(out: &mut [u8], at: usize, ty: ColType, value: &Value) -> usize
    requires room { at + width ty ≤ length out.old }
    requires typed { IsTrue (is_of_type ty value.now) }
    ensures bytes { out.new ≡ take at out.old ++ column_bytes ty value.now ++ drop (at + width ty) out.old }
    ensures end { result ≡ at + width ty }
{
    at + write_value(&mut out[at..], ty, value)
}
