// The values of a row, made from numbers. Some are null.
ghost use Rattle.std.specs.Prelude.{◌≡◌, ◌<◌, IsTrue, IfOk};
ghost use Rattle.mdc_values.specs.declared.value.Value.{Value};
ghost use Rattle.mdc_ast.specs.Database.{fits};
ghost use Rattle.table_bench.specs.TableW.{column_d, column_k, column_s, column_t, column_v};

use mdc_values::{Chars, Memory, Value};
use std::alloc::Global;

/// A value of K.
pub fn key_of(number: u64) -> Value
    requires { number < 1000000 }
    ensures { IsTrue (fits column_k result) }
{
    Value::Int(number as i64)
}

/// A value of D or R, which is null for one number.
pub fn small_of(number: u64, null: u64) -> Value
    requires { number < 1000000 }
    ensures { IsTrue (fits column_d result) }
{
    if number == null {
        return Value::Null;
    }
    Value::Int(number as i64)
}

/// A value of V, half of which are below zero and one in 16 is null.
pub fn large_of(number: u64, turn: u64) -> Value
    requires number { number < 1000000 }
    requires turn { turn < 16 }
    ensures { IsTrue (fits column_v result) }
{
    if turn == 0 {
        return Value::Null;
    }
    let number = (number as i64) * 1_000_000_007;
    Value::Int(if turn < 8 { -number } else { number })
}

/// A value of T: one of two words, or null.
pub fn word_of(alloc: Global, turn: u64) -> Result<Value, Memory>
    ensures { IfOk result (λ value. IsTrue (fits column_t value)) }
{
    match turn {
        0 => text_of(alloc, b"EAST"),
        1 => text_of(alloc, b"SOUTHERN"),
        _ => Ok(Value::Null),
    }
}

fn text_of(alloc: Global, word: &[u8]) -> Result<Value, Memory>
    ensures { IfOk result (λ value. value ≡ Value.Text word.now) }
{
    Ok(Value::Text(Chars::of(alloc, word)?))
}

/// A value of S: a day of two centuries. One in 29 is null.
pub fn date_of(year: u64, month: u64, day: u64) -> Value
    requires year { year < 200 }
    requires month { month < 12 }
    requires day { day < 29 }
    ensures { IsTrue (fits column_s result) }
{
    if day == 0 {
        return Value::Null;
    }
    Value::Day(10_000 * (1900 + year as u32) + 100 * (1 + month as u32) + day as u32)
}
