// Values of a row, and their order.
ghost use Rattle.std.specs.Prelude.{◌≡◌, IfOk, MatchOption, false, if◌then◌else◌};
ghost use Rattle.mdc_ast.specs.Truth.{value_at};
ghost use Rattle.mdc_ast.specs.Database.{is_null};
ghost use Rattle.row_groups.specs.Values.{greater, lesser, size_of, sql_order, value_order};

use mdc_values::{Memory, Value, place};
use std::alloc::Global;
use std::cmp::Ordering;

/// The value in a column that isn't null, if there is one.
pub(crate) fn known_at(values: &[Value], column: u8) -> Option<&Value>
    ensures { MatchOption result (value_at values.now column ≡ Value.Null) (λ value. (value_at values.now column ≡ value.now) × (is_null value.now ≡ false)) }
{
    match values.get(usize::from(column)) {
        None | Some(Value::Null) => None,
        Some(value) => Some(value),
    }
}

/// A copy of the value in a column, which is null where there is no such column.
pub(crate) fn copy_at(alloc: Global, values: &[Value], column: u8) -> Result<Value, Memory>
    ensures { IfOk result (λ value. value ≡ value_at values.now column) }
{
    match values.get(usize::from(column)) {
        None => Ok(Value::Null),
        Some(value) => value.copy(alloc),
    }
}

/// Whether a value is less than the best so far, or is the first.
pub(crate) fn is_lesser(best: &Value, value: &Value) -> bool
    ensures { (if result then value.now else best.now) ≡ lesser best.now value.now }
{
    matches!(best, Value::Null) || value_order(value, best).is_lt()
}

/// Whether a value is greater than the best so far, or is the first.
pub(crate) fn is_greater(best: &Value, value: &Value) -> bool
    ensures { (if result then value.now else best.now) ≡ greater best.now value.now }
{
    matches!(best, Value::Null) || value_order(value, best).is_gt()
}

/// SQL order, and the shorter text before one with more blanks at its end.
fn value_order(a: &Value, b: &Value) -> Ordering
    ensures { result ≡ value_order a.now b.now }
{
    sql_order(a, b).then(size_of(a).cmp(&size_of(b)))
}

/// The bytes of a text, and none of all else.
fn size_of(value: &Value) -> usize
    ensures { result ≡ size_of value.now }
{
    match value {
        Value::Text(text) => text.bytes().len(),
        _ => 0,
    }
}

/// SQL order. Where the kinds differ numbers come first, then texts, then days, and a null stands above all.
pub fn sql_order(a: &Value, b: &Value) -> Ordering
    ensures { result ≡ sql_order a.now b.now }
{
    match (a, b) {
        (Value::Int(_), Value::Int(_))
        | (Value::Text(_), Value::Text(_))
        | (Value::Day(_), Value::Day(_)) => place(a, b),
        (Value::Null, Value::Null) => Ordering::Equal,
        (Value::Int(_), _) | (_, Value::Null) => Ordering::Less,
        (Value::Null, _) | (_, Value::Int(_)) => Ordering::Greater,
        (Value::Text(_), _) => Ordering::Less,
        (Value::Day(_), _) => Ordering::Greater,
    }
}
