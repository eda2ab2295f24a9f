// The value that a part of a key was made of.
ghost use Rattle.std.specs.Prelude.{◌≡◌, ◌≤◌, ◌++◌, ℕ, ℤ, List, IfOk, IsTrue, false, length};
ghost use Rattle.mdc_values.specs.declared.value.Value.{Value};
ghost use Rattle.mdc_values.specs.declared.value.ColType.TheVariants as column;
ghost use Rattle.mdc_values.specs.declared.value.Value.TheVariants as value;
ghost use Rattle.mdc_values.specs.Fitting.{in_bigint, in_integer};
ghost use Rattle.mdc_ast.specs.Database.{is_of_type};
ghost use Rattle.key_codec.specs.Keys as spec;

use crate::part::{BIGINT_RISE, INTEGER_RISE, PRESENT};
use byteorder::{BigEndian, ByteOrder};
use mdc_values::{Chars, ColType, Memory, Value, trim};
use std::alloc::Global;

/// The value of which an ascending part at the front of `key` was made, where it fits its column. Of other bytes it is
/// some value.
pub fn read_part(alloc: Global, ty: ColType, key: &[u8]) -> Result<Value, Memory>
    requires { spec.part_width ty ≤ length key.now }
    ensures { IfOk result (λ value. (written : Value) (rest : List ℕ) → IsTrue (is_of_type ty written)
        → key.now ≡ spec.part_bytes ty false written ++ rest → value ≡ written) }
{
    if key[0] != PRESENT {
        return Ok(Value::Null);
    }
    let bytes = &key[1..];
    match ty {
        ColType::Integer => Ok(Value::Int(read_integer(bytes))),
        ColType::Bigint => Ok(Value::Int(read_bigint(bytes))),
        ColType::Char(n) => Ok(Value::Text(Chars::of(alloc, trim(&bytes[..n as usize]))?)),
        ColType::Date => Ok(Value::Day(BigEndian::read_u32(bytes))),
    }
}

/// The number of INTEGER whose bytes of a key stand at the front.
fn read_integer(bytes: &[u8]) -> i64
    requires { 4 ≤ length bytes.now }
    ensures { (n : ℤ) (rest : List ℕ) → IsTrue (in_integer n)
        → bytes.now ≡ spec.sort_bytes column.Integer (value.Int n) ++ rest → result ≡ n }
{
    BigEndian::read_u32(bytes) as i64 - INTEGER_RISE
}

/// The number of BIGINT whose bytes of a key stand at the front.
fn read_bigint(bytes: &[u8]) -> i64
    requires { 8 ≤ length bytes.now }
    ensures { (n : ℤ) (rest : List ℕ) → IsTrue (in_bigint n)
        → bytes.now ≡ spec.sort_bytes column.Bigint (value.Int n) ++ rest → result ≡ n }
{
    (BigEndian::read_u64(bytes) as i128 - BIGINT_RISE) as i64
}
