// The bytes by which groups are found.
ghost use Rattle.std.specs.Prelude.{◌≡◌, ◌++◌, ◌∷◌, [], flat_map, true, IfSome, IsTrue, OnOk};
ghost use Rattle.mdc_ast.specs.Truth.{value_at};
ghost use Rattle.row_groups.specs.Keys.{are_small, code, group_key, marked};
ghost use Rattle.row_groups.specs.Values.{is_small};

use mdc_values::{Memory, Value, trim};

/// Appends the bytes of a row's values in these columns, which are equal exactly where the values are.
pub fn append_key(columns: &[u8], values: &[Value], out: &mut Vec<u8>) -> Result<(), Memory>
    ensures key { OnOk result (out.new.items ≡ out.old.items ++ group_key columns.now values.now) }
    ensures small { OnOk result (IsTrue (are_small columns.now values.now)) }
{
    for column in columns {
        append_code_at(values, *column, out)?;
    }
    Ok(())
}

/// Whether a key is that of a row's values in these columns. The key of the row isn't built for it.
pub(crate) fn is_key(key: &[u8], columns: &[u8], values: &[Value]) -> bool
    ensures { result ≡ true → (key.now ≡ group_key columns.now values.now) × IsTrue (are_small columns.now values.now) }
{
    let mut left = key;
    for column in columns {
        let Some(behind) = behind_code_at(left, values, *column) else {
            return false;
        };
        left = behind;
    }
    left.is_empty()
}

/// What stands in a key behind the bytes of the value in a column, where it begins with them.
fn behind_code_at<'k>(key: &'k [u8], values: &[Value], column: u8) -> Option<&'k [u8]>
    ensures { IfSome result (λ left. (key.now ≡ code (value_at values.now column) ++ left.now) × IsTrue (is_small (value_at values.now column))) }
{
    match values.get(usize::from(column)) {
        Some(value) => behind_code(key, value),
        None => behind_code(key, &Value::Null),
    }
}

fn behind_code<'k>(key: &'k [u8], value: &Value) -> Option<&'k [u8]>
    ensures { IfSome result (λ left. (key.now ≡ code value.now ++ left.now) × IsTrue (is_small value.now)) }
{
    match value {
        Value::Null => key.strip_prefix(&[0]),
        Value::Int(number) => behind_number(key, *number),
        Value::Text(text) => behind_text(key, text.bytes()),
        Value::Day(day) => behind_day(key, *day),
    }
}

fn behind_number(key: &[u8], number: i64) -> Option<&[u8]>
    ensures code { IfSome result (λ left. key.now ≡ code (Value.Int number) ++ left.now) }
    ensures small { IsTrue (is_small (Value.Int number)) }
{
    key.strip_prefix(&[1])?.strip_prefix(&number.to_be_bytes())
}

fn behind_text<'k>(key: &'k [u8], text: &[u8]) -> Option<&'k [u8]>
    ensures { IfSome result (λ left. key.now ≡ code (Value.Text text.now) ++ left.now) }
{
    let left = behind_marked(key.strip_prefix(&[2])?, trim(text))?;
    left.strip_prefix(&[0])
}

fn behind_marked<'k>(key: &'k [u8], text: &[u8]) -> Option<&'k [u8]>
    ensures { IfSome result (λ left. key.now ≡ flat_map marked text.now ++ left.now) }
{
    let mut left = key;
    for byte in text {
        let Some(behind) = left.strip_prefix(&[1, *byte]) else {
            return None;
        };
        left = behind;
    }
    Some(left)
}

fn behind_day(key: &[u8], day: u32) -> Option<&[u8]>
    ensures code { IfSome result (λ left. key.now ≡ code (Value.Day day) ++ left.now) }
    ensures small { IsTrue (is_small (Value.Day day)) }
{
    key.strip_prefix(&[3])?.strip_prefix(&day.to_be_bytes())
}

/// Appends the bytes of the value in a column, which is null where there is no such column.
fn append_code_at(values: &[Value], column: u8, out: &mut Vec<u8>) -> Result<(), Memory>
    ensures code { OnOk result (out.new.items ≡ out.old.items ++ code (value_at values.now column)) }
    ensures small { OnOk result (IsTrue (is_small (value_at values.now column))) }
{
    match values.get(usize::from(column)) {
        Some(value) => append_code(value, out),
        None => append_code(&Value::Null, out),
    }
}

fn append_code(value: &Value, out: &mut Vec<u8>) -> Result<(), Memory>
    ensures code { OnOk result (out.new.items ≡ out.old.items ++ code value.now) }
    ensures small { OnOk result (IsTrue (is_small value.now)) }
{
    match value {
        Value::Null => append_null(out),
        Value::Int(number) => append_number(*number, out),
        Value::Text(text) => append_text(text.bytes(), out),
        Value::Day(day) => append_day(*day, out),
    }
}

fn append_null(out: &mut Vec<u8>) -> Result<(), Memory>
    ensures { OnOk result (out.new.items ≡ out.old.items ++ 0 ∷ []) }
{
    out.push(0)?;
    Ok(())
}

fn append_number(number: i64, out: &mut Vec<u8>) -> Result<(), Memory>
    ensures code { OnOk result (out.new.items ≡ out.old.items ++ code (Value.Int number)) }
    ensures small { IsTrue (is_small (Value.Int number)) }
{
    out.push(1)?;
    out.extend_from_slice(&number.to_be_bytes())?;
    Ok(())
}

fn append_text(text: &[u8], out: &mut Vec<u8>) -> Result<(), Memory>
    ensures { OnOk result (out.new.items ≡ out.old.items ++ code (Value.Text text.now)) }
{
    out.push(2)?;
    append_marked(trim(text), out)?;
    out.push(0)?;
    Ok(())
}

fn append_marked(text: &[u8], out: &mut Vec<u8>) -> Result<(), Memory>
    ensures { OnOk result (out.new.items ≡ out.old.items ++ flat_map marked text.now) }
{
    for byte in text {
        out.push(1)?;
        out.push(*byte)?;
    }
    Ok(())
}

fn append_day(day: u32, out: &mut Vec<u8>) -> Result<(), Memory>
    ensures code { OnOk result (out.new.items ≡ out.old.items ++ code (Value.Day day)) }
    ensures small { IsTrue (is_small (Value.Day day)) }
{
    out.push(3)?;
    out.extend_from_slice(&day.to_be_bytes())?;
    Ok(())
}
