// Whether a row fits a definition.
ghost use Rattle.std.specs.Prelude.{◌≡◌, ◌↔◌, length, IsTrue, IfSome, MatchOption};
ghost use Rattle.std.specs.List.{AllByRecursion};
ghost use Rattle.mdc_ast.specs.FittingRows.{AreMadeFrom, IsMadeFrom, RowFits, generated_value};
ghost use Rattle.mdc_ast.specs.Divisors.{HasDivisor};

use crate::values::do_fit;
use mdc_ast::{ColumnDef, GenExpr, GenKind, Row, TableDef};
use mdc_values::Value;

/// Whether a row has a value for each column, within its type and not null where it may not be, and whether each generated value is
/// the one of its base.
pub fn does_row_fit(def: &TableDef, row: &Row) -> bool
    requires divisors { AllByRecursion (λ column. IfSome column.made HasDivisor) def.now.columns }
    ensures { IsTrue result ↔ RowFits def.now row.now }
{
    let columns = def.columns.as_slice();
    let values = row.values.as_slice();
    do_fit(columns, values) && are_made_from(columns, values)
}

/// Whether each generated value of these, one for each column, is the one of its base.
fn are_made_from(columns: &[ColumnDef], values: &[Value]) -> bool
    requires one_each { length columns.now ≡ length values.now }
    requires divisors { AllByRecursion (λ column. IfSome column.made HasDivisor) columns.now }
    ensures { IsTrue result ↔ AreMadeFrom values.now columns.now values.now }
{
    for (place, column) in columns.iter().enumerate() {
        if !is_made_from(&column.made, values, &values[place]) {
            return false;
        }
    }
    true
}

/// Whether a value is the one that its column is made from, if it is made from something.
fn is_made_from(made: &Option<GenExpr>, values: &[Value], value: &Value) -> bool
    requires { IfSome made.now HasDivisor }
    ensures { IsTrue result ↔ IsMadeFrom made.now values.now value.now }
{
    let Some(e) = made else {
        return true;
    };
    match values.get(usize::from(e.base)) {
        Some(base) => is_generated(e, base, value),
        None => is_generated(e, &Value::Null, value),
    }
}

/// Whether a value is the one that is made from this value of its base.
fn is_generated(e: &GenExpr, base: &Value, value: &Value) -> bool
    requires { HasDivisor e.now }
    ensures { IsTrue result ↔ value.now ≡ generated_value e.now.kind e.now.k base.now }
{
    match (generated_number(e, base), value) {
        (None, Value::Null) => true,
        (Some(number), Value::Int(held)) => i128::from(*held) == number,
        _ => false,
    }
}

/// The number that is made from a value of the base. None where the value is null.
fn generated_number(e: &GenExpr, base: &Value) -> Option<i128>
    requires { HasDivisor e.now }
    ensures { MatchOption result (generated_value e.now.kind e.now.k base.now ≡ Value.Null) (λ number. generated_value e.now.kind e.now.k base.now ≡ Value.Int number) }
{
    let k = i128::from(e.k);
    match (e.kind, base) {
        (GenKind::IntegerOver, Value::Day(day)) => Some(i128::from(*day) / k),
        (GenKind::Year, Value::Day(day)) => Some(i128::from(day / 10_000)),
        (GenKind::Month, Value::Day(day)) => Some(i128::from(day / 100 % 100)),
        (GenKind::Over, Value::Int(number)) => Some(i128::from(*number) / k),
        (GenKind::Plus, Value::Int(number)) => Some(i128::from(*number) + k),
        _ => None,
    }
}
