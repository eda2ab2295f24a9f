// Whether values fit columns.
ghost use Rattle.std.specs.Prelude.{◌≡◌, ◌&&◌, length, nat_le};
ghost use Rattle.mdc_values.specs.declared.value.Value.TheVariants.{Int};
ghost use Rattle.mdc_values.specs.Value.{are_bytes};
ghost use Rattle.mdc_ast.specs.Database.{fits, fits_all, is_day_number, is_null, is_of_type, is_trimmed};

use mdc_ast::ColumnDef;
use mdc_values::{ColType, Value, day, trim};

/// Whether there is a value for each column, each within its type, and none null where it may not be. It takes no memory.
pub fn do_fit(columns: &[ColumnDef], values: &[Value]) -> bool
    ensures { result ≡ fits_all columns.now values.now }
{
    if columns.len() != values.len() {
        return false;
    }
    for (place, column) in columns.iter().enumerate() {
        if !fits(column, &values[place]) {
            return false;
        }
    }
    true
}

fn fits(column: &ColumnDef, value: &Value) -> bool
    ensures { result ≡ fits column.now value.now }
{
    is_of_type(column.ty, value) && !(column.not_null && is_null(value))
}

fn is_null(value: &Value) -> bool
    ensures { result ≡ is_null value.now }
{
    matches!(value, Value::Null)
}

fn is_of_type(ty: ColType, value: &Value) -> bool
    ensures { result ≡ is_of_type ty value.now }
{
    match (ty, value) {
        (_, Value::Null) => true,
        (ColType::Integer | ColType::Bigint, Value::Int(number)) => {
            holds_number(ty, i128::from(*number))
        }
        (ColType::Char(limit), Value::Text(text)) => is_text_within(limit, text.bytes()),
        (ColType::Date, Value::Day(day)) => is_day_number(*day),
        _ => false,
    }
}

// Whether a text has at most so many bytes, and no blank at its end.
fn is_text_within(limit: u8, text: &[u8]) -> bool
    ensures { result ≡ (nat_le (length text.now) limit && is_trimmed text.now && are_bytes text.now) }
{
    text.len() <= usize::from(limit) && is_trimmed(text)
}

// Whether no blank ends a text.
fn is_trimmed(text: &[u8]) -> bool
    ensures { result ≡ is_trimmed text.now }
{
    trim(text) == text
}

// Whether a number yyyymmdd names a date that the calendar has.
fn is_day_number(number: u32) -> bool
    ensures { result ≡ is_day_number number }
{
    let Ok(year) = i16::try_from(number / 10_000) else {
        return false;
    };
    day(year, (number / 100 % 100) as i8, (number % 100) as i8).is_some()
}

// Whether a number lies in the range of a type.
fn holds_number(ty: ColType, number: i128) -> bool
    ensures { result ≡ is_of_type ty (Int number) }
{
    match ty {
        ColType::Integer => i32::try_from(number).is_ok(),
        ColType::Bigint => i64::try_from(number).is_ok(),
        ColType::Char(_) => false,
        ColType::Date => false,
    }
}
