// A value as a part of a key.
ghost use Rattle.std.specs.Prelude.{true, false, ◌∷◌, ◌-◌, ◌≡◌, ◌+◌, ◌≤◌, ◌<◌, ◌++◌, IsTrue, OnOk, length, drop};
ghost use Rattle.mdc_values.specs.Order.{padded};
ghost use Rattle.mdc_ast.specs.Definitions.{width};
ghost use Rattle.key_codec.specs.Keys.{has_key, part_bytes, sort_bytes, turned};
ghost use Rattle.key_codec.specs.Keys as spec;

use crate::width::part_width;
use byteorder::{BigEndian, ByteOrder};
use mdc_values::{ColType, Memory, Value};

/// The byte before a value that is there, and before a null.
pub(crate) const PRESENT: u8 = 0;

pub(crate) const NULL: u8 = 1;

/// The byte that fills a text up.
const BLANK: u8 = b' ';

/// How far a number is moved up so that none is negative.
pub(crate) const INTEGER_RISE: i64 = 2_147_483_648;

pub(crate) const BIGINT_RISE: i128 = 9_223_372_036_854_775_808;

/// Writes a value as a part of a key to the front of `out`. The bytes behind it stay.
pub fn put_part(out: &mut [u8], ty: ColType, descending: bool, value: &Value)
    requires room { spec.part_width ty ≤ length out.old }
    requires within { IsTrue (has_key ty value.now) }
    ensures { out.new ≡ part_bytes ty descending value.now ++ drop (spec.part_width ty) out.old }
{
    let part = &mut out[..part_width(ty) as usize];
    put_ascending(part, ty, value);
    if descending {
        turn(part);
    }
}

/// Puts a value as a part of a key last.
pub fn push_key_part(
    key: &mut Vec<u8>,
    ty: ColType,
    descending: bool,
    value: &Value,
) -> Result<(), Memory>
    requires { IsTrue (has_key ty value.now) }
    ensures { OnOk result (key.new.items ≡ key.old.items ++ part_bytes ty descending value.now) }
{
    let at = key.len();
    key.resize(at + usize::from(part_width(ty)), 0)?;
    put_part(&mut key[at..], ty, descending, value);
    Ok(())
}

/// Writes the byte for null and the bytes of a value, which fill `part`.
pub(crate) fn put_ascending(part: &mut [u8], ty: ColType, value: &Value)
    requires room { length part.old ≡ spec.part_width ty }
    requires within { IsTrue (has_key ty value.now) }
    ensures { part.new ≡ part_bytes ty false value.now }
{
    part[0] = null_byte(value);
    put_value(&mut part[1..], ty, value);
}

/// Writes the byte for null and a text with blanks behind it, which fill `part`.
pub(crate) fn put_text(part: &mut [u8], text: &[u8])
    requires { length text.now < length part.old }
    ensures { part.new ≡ 0 ∷ padded (length part.old - 1) text.now }
{
    part[0] = PRESENT;
    put_padded(&mut part[1..], text);
}

/// The byte before a value: whether it is a null.
fn null_byte(value: &Value) -> u8
    ensures { result ≡ spec.null_byte value.now }
{
    match value {
        Value::Null => NULL,
        _ => PRESENT,
    }
}

/// Writes the bytes of a value, which fill `out`.
fn put_value(out: &mut [u8], ty: ColType, value: &Value)
    requires room { length out.old ≡ width ty }
    requires within { IsTrue (has_key ty value.now) }
    ensures { out.new ≡ sort_bytes ty value.now }
{
    match (ty, value) {
        (ColType::Integer, Value::Int(n)) => BigEndian::write_u32(out, (*n + INTEGER_RISE) as u32),
        (ColType::Bigint, Value::Int(n)) => BigEndian::write_u64(
            out,
            (*n as i128 + BIGINT_RISE) as u64,
        ),
        (ColType::Char(_), Value::Text(text)) => put_padded(out, text.bytes()),
        (ColType::Date, Value::Day(day)) => BigEndian::write_u32(out, *day),
        _ => out.fill(0),
    }
}

/// Writes a text and then blanks, which fill `out`.
fn put_padded(out: &mut [u8], text: &[u8])
    requires { length text.now ≤ length out.old }
    ensures { out.new ≡ padded (length out.old) text.now }
{
    out[..text.len()].copy_from_slice(text);
    out[text.len()..].fill(BLANK);
}

/// Complements all bytes.
pub(crate) fn turn(bytes: &mut [u8])
    ensures { bytes.new ≡ turned true bytes.old }
{
    for byte in bytes.iter_mut() {
        *byte = u8::MAX - *byte;
    }
}
