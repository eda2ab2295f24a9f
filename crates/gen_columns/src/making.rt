// What expressions make of numbers.
ghost use Rattle.std.specs.Prelude.{◌≡◌, ◌≤ℤ◌, neg_ℤ, pos, unsigned_abs};
ghost use Rattle.mdc_values.specs.declared.value.Value.TheVariants.{Day, Int};
ghost use Rattle.mdc_ast.specs.Divisors.{HasDivisor};
ghost use Rattle.mdc_ast.specs.FittingRows.{generated_value};
ghost use Rattle.gen_columns.specs.DerivedSpans.{counted_as, number_or_null};

use mdc_ast::{GenExpr, GenKind};
use mdc_values::{ColType, Value};

/// What an expression makes of a value of its base. None where that is null.
pub(crate) fn made_of(e: &GenExpr, base: &Value) -> Option<i128>
    requires divisor { HasDivisor e.now }
    ensures { generated_value e.now.kind e.now.k base.now ≡ number_or_null result }
{
    match base {
        Value::Day(day) => made_of_day(e, i128::from(*day)),
        Value::Int(number) => made_of_number(e, i128::from(*number)),
        Value::Null | Value::Text(_) => None,
    }
}

/// What an expression makes of the value of its base that counts as a number. None where that is null.
pub(crate) fn made_at(e: &GenExpr, base: ColType, number: i128) -> Option<i128>
    requires divisor { HasDivisor e.now }
    requires low { neg_ℤ (pos 18446744073709551616) ≤ℤ number }
    requires high { number ≤ℤ pos 18446744073709551616 }
    ensures { generated_value e.now.kind e.now.k (counted_as base number) ≡ number_or_null result }
{
    match base {
        ColType::Date => made_of_day(e, number.abs()),
        ColType::Integer | ColType::Bigint | ColType::Char(_) => made_of_number(e, number),
    }
}

/// What an expression makes of a day. None where its base is a number.
fn made_of_day(e: &GenExpr, day: i128) -> Option<i128>
    requires divisor { HasDivisor e.now }
    requires low { pos 0 ≤ℤ day }
    ensures { generated_value e.now.kind e.now.k (Day (unsigned_abs day)) ≡ number_or_null result }
{
    match e.kind {
        GenKind::IntegerOver => Some(day / i128::from(e.k)),
        GenKind::Year => Some(day / 10_000),
        GenKind::Month => Some(day / 100 % 100),
        GenKind::Over | GenKind::Plus => None,
    }
}

/// What an expression makes of a number. None where its base is a day.
fn made_of_number(e: &GenExpr, number: i128) -> Option<i128>
    requires divisor { HasDivisor e.now }
    requires low { neg_ℤ (pos 18446744073709551616) ≤ℤ number }
    requires high { number ≤ℤ pos 18446744073709551616 }
    ensures { generated_value e.now.kind e.now.k (Int number) ≡ number_or_null result }
{
    match e.kind {
        GenKind::Over => Some(number / i128::from(e.k)),
        GenKind::Plus => Some(number + i128::from(e.k)),
        GenKind::IntegerOver | GenKind::Year | GenKind::Month => None,
    }
}
