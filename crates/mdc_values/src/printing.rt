// How values are shown.
ghost use Rattle.std.specs.Prelude.{◌≡◌, ◌++◌, [], ◌∷◌, flat_map, length, take, OnOk, OnErr};
ghost use Rattle.mdc_values.specs.Calendar.{day_text, two_digits};
ghost use Rattle.mdc_values.specs.Printing.{doubled, printed, quoted};

use crate::fitting::trim;
use crate::{Memory, Value};
use itoa::Buffer;

/// Appends the text of a value, as a reply shows it. After `Memory` the output is as before.
pub fn print(value: &Value, out: &mut Vec<u8>) -> Result<(), Memory>
    ensures ok { OnOk result (out.new.items ≡ out.old.items ++ printed value.now) }
    ensures err { OnErr result (out.new.items ≡ out.old.items) }
{
    match value {
        Value::Null => append(b"NULL", out),
        Value::Int(number) => append(Buffer::new().format(*number).as_bytes(), out),
        Value::Text(text) => print_text(text.bytes(), out),
        Value::Day(day) => append(&day_bytes(*day), out),
    }
}

fn append(bytes: &[u8], out: &mut Vec<u8>) -> Result<(), Memory>
    ensures ok { OnOk result (out.new.items ≡ out.old.items ++ bytes.now) }
    ensures err { OnErr result (out.new.items ≡ out.old.items) }
{
    out.extend_from_slice(bytes)?;
    Ok(())
}

/// Appends a text between quotes, or nothing of it.
fn print_text(text: &[u8], out: &mut Vec<u8>) -> Result<(), Memory>
    ensures ok { OnOk result (out.new.items ≡ out.old.items ++ quoted text.now) }
    ensures err { OnErr result (out.new.items ≡ out.old.items) }
{
    let before = out.len();
    let whole = append_quoted(trim(text), out);
    if whole.is_err() {
        out.truncate(before);
    }
    whole
}

/// Appends a text between quotes. After `Memory` a part of it may be there.
fn append_quoted(text: &[u8], out: &mut Vec<u8>) -> Result<(), Memory>
    ensures ok { OnOk result (out.new.items ≡ out.old.items ++ 39 ∷ flat_map doubled text.now ++ 39 ∷ []) }
    ensures err { OnErr result (take (length out.old.items) out.new.items ≡ out.old.items) }
{
    out.push(b'\'')?;
    for byte in text {
        if *byte == b'\'' {
            out.push(b'\'')?;
        }
        out.push(*byte)?;
    }
    out.push(b'\'')?;
    Ok(())
}

/// A day as YYYY-MM-DD.
fn day_bytes(day: u32) -> [u8; 10]
    ensures { result ≡ day_text day }
{
    let [a, b] = two_digits(day / 1_000_000);
    let [c, d] = two_digits(day / 10_000);
    let [e, f] = two_digits(day / 100);
    let [g, h] = two_digits(day);
    [a, b, c, d, b'-', e, f, b'-', g, h]
}

/// The last two digits of a number.
fn two_digits(number: u32) -> [u8; 2]
    ensures { result ≡ two_digits number }
{
    [b'0' + (number / 10 % 10) as u8, b'0' + (number % 10) as u8]
}
