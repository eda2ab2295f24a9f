// The rows of these tests, each told by its number in the table and by a seed.
ghost use Rattle.std.specs.Prelude.{◌≡◌, IfOk};

use crate::tables::TableKind;
use mdc_ast::Row;
use mdc_values::{Chars, List, Memory, Value};
use std::alloc::Global;

// The days that rows have.
const LEAP_DAY: u32 = 20_240_229;

const LAST_DAY: u32 = 19_991_231;

// How many cells seeds tell apart.
const WIDE_CELLS: u64 = 100;

const MIXED_CELLS: u64 = 18;

const NARROW_CELLS: u64 = 1_000;

/// The number of the cell that the row of a seed is of.
pub fn cell_of(kind: TableKind, seed: u64) -> u64 {
    match kind {
        TableKind::Wide => seed % WIDE_CELLS,
        TableKind::Mixed => seed % MIXED_CELLS,
        TableKind::Narrow => seed % NARROW_CELLS,
    }
}

/// A seed for any number: of four cells in the wide table, and of all in the others.
pub fn seed_of(kind: TableKind, any: u64) -> u64 {
    match kind {
        TableKind::Wide => any % 4 + WIDE_CELLS * (any / 4 % 26),
        TableKind::Mixed => any % (MIXED_CELLS * 30),
        TableKind::Narrow => any % NARROW_CELLS,
    }
}

/// How many rows a block of the table has.
pub fn slots_of(kind: TableKind) -> u16 {
    match kind {
        TableKind::Wide => 10,
        TableKind::Mixed => 192,
        TableKind::Narrow => 450,
    }
}

/// The row of a number and a seed.
pub fn row_of(alloc: Global, kind: TableKind, number: u64, seed: u64) -> Result<Row, Memory>
    ensures number { IfOk result (λ row. row.number ≡ number) }
{
    let values = match kind {
        TableKind::Wide => wide_values(alloc, number, seed)?,
        TableKind::Mixed => mixed_values(alloc, number, seed)?,
        TableKind::Narrow => narrow_values(alloc, seed)?,
    };
    Ok(Row { number, values })
}

// D is the cell, and X, Y and Z tell rows of one cell apart.
fn wide_values(alloc: Global, number: u64, seed: u64) -> Result<List<Value>, Memory> {
    let letter = b'A' + (seed / WIDE_CELLS % 26) as u8;
    let x = Chars::of(alloc, b"NORTH")?;
    let y = Chars::of(alloc, &[letter])?;
    let values = vec![in alloc;
        Value::Int((seed % WIDE_CELLS) as i64),
        Value::Int((number % 1_000_000) as i64),
        Value::Text(x),
        Value::Text(y),
        Value::Null,
    ]?;
    Ok(List::from_vec(values))
}

// D, R and T are of the cell, with nulls and an empty text among them; V and S tell rows of one cell apart.
fn mixed_values(alloc: Global, number: u64, seed: u64) -> Result<List<Value>, Memory> {
    let cell = seed % MIXED_CELLS;
    let t = text_or_null(alloc, cell / 6)?;
    let values = vec![in alloc;
        Value::Int((number % 1_000_000) as i64),
        number_or_null(cell % 3),
        number_or_null(cell / 3 % 2),
        Value::Int((seed % 1_000) as i64 - 5_000_000_000),
        t,
        day_or_null(seed / MIXED_CELLS % 3),
    ]?;
    Ok(List::from_vec(values))
}

// D tells the cells apart, and S is one day.
fn narrow_values(alloc: Global, seed: u64) -> Result<List<Value>, Memory> {
    let values = vec![in alloc;
        Value::Int((seed % NARROW_CELLS) as i64),
        Value::Day(LEAP_DAY),
    ]?;
    Ok(List::from_vec(values))
}

fn number_or_null(which: u64) -> Value {
    match which {
        0 => Value::Null,
        1 => Value::Int(-7),
        _ => Value::Int(2_000_000_000),
    }
}

fn text_or_null(alloc: Global, which: u64) -> Result<Value, Memory> {
    match which {
        0 => Ok(Value::Text(Chars::of(alloc, b"")?)),
        1 => Ok(Value::Text(Chars::of(alloc, b"A SOUTH")?)),
        _ => Ok(Value::Null),
    }
}

fn day_or_null(which: u64) -> Value {
    match which {
        0 => Value::Null,
        1 => Value::Day(LEAP_DAY),
        _ => Value::Day(LAST_DAY),
    }
}

/// Whether a row is another one.
pub fn is_same_row(a: &Row, b: &Row) -> bool {
    a.number == b.number && are_same(a.values.as_slice(), b.values.as_slice())
}

fn are_same(a: &[Value], b: &[Value]) -> bool {
    if a.len() != b.len() {
        return false;
    }
    for i in 0..a.len() {
        if i < b.len() && !is_same(&a[i], &b[i]) {
            return false;
        }
    }
    true
}

fn is_same(a: &Value, b: &Value) -> bool {
    match (a, b) {
        (Value::Null, Value::Null) => true,
        (Value::Int(a), Value::Int(b)) => a == b,
        (Value::Text(a), Value::Text(b)) => a.bytes() == b.bytes(),
        (Value::Day(a), Value::Day(b)) => a == b,
        _ => false,
    }
}
