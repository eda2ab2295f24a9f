// The span of generated values that a span of base values derives.
ghost use Rattle.std.specs.Prelude.{◌≡◌, ◌≤ℤ◌, IfSome, neg_ℤ, pos};
ghost use Rattle.mdc_ast.specs.Divisors.{HasDivisor};
ghost use Rattle.gen_columns.specs.DerivedSpans as spec;

use crate::making::made_at;
use mdc_ast::{Cut, GenExpr, GenKind, Span};
use mdc_values::{ColType, Value};

/// The span in which the generated values lie for the values of the base in a span. It is None exactly for `Month`.
pub fn range_of(e: &GenExpr, base: ColType, span: &Span) -> Option<Span>
    requires divisor { HasDivisor e.now }
    ensures derived { result ≡ spec.derived_span e.now base span.now }
    ensures covers { IfSome result (spec.CoversValues e.now base span.now) }
    ensures kinds { IfSome result spec.IsOfNumbers }
{
    if is_month(e.kind) {
        return None;
    }
    let low = low_number(base, &span.low);
    let high = high_number(base, &span.high);
    Some(span_of_numbers(e, base, low, high))
}

fn is_month(kind: GenKind) -> bool
    ensures { result ≡ spec.is_month kind }
{
    match kind {
        GenKind::Month => true,
        GenKind::IntegerOver | GenKind::Year | GenKind::Over | GenKind::Plus => false,
    }
}

/// From what is made of the low number to what is made of the high one. Nothing lies in it where they are the other way round.
fn span_of_numbers(e: &GenExpr, base: ColType, low: i128, high: i128) -> Span
    requires divisor { HasDivisor e.now }
    requires low_least { neg_ℤ (pos 18446744073709551616) ≤ℤ low }
    requires low_most { low ≤ℤ pos 18446744073709551616 }
    requires high_least { neg_ℤ (pos 18446744073709551616) ≤ℤ high }
    requires high_most { high ≤ℤ pos 18446744073709551616 }
    ensures { result ≡ spec.span_of_numbers e.now base low high }
{
    if high < low {
        return Span {
            low: Cut::Last,
            high: Cut::First,
        };
    }
    Span {
        low: Cut::Before(end_at(e, base, low)),
        high: Cut::After(end_at(e, base, high)),
    }
}

/// The generated value for the base value that counts as a number, or the nearest one of 64 bits.
fn end_at(e: &GenExpr, base: ColType, number: i128) -> Value
    requires divisor { HasDivisor e.now }
    requires low { neg_ℤ (pos 18446744073709551616) ≤ℤ number }
    requires high { number ≤ℤ pos 18446744073709551616 }
    ensures { result ≡ spec.end_at e.now base number }
{
    match made_at(e, base, number) {
        Some(made) => Value::Int(nearest(made)),
        None => Value::Null,
    }
}

/// The nearest number of 64 bits.
fn nearest(number: i128) -> i64
    ensures { result ≡ spec.nearest number }
{
    number.clamp(i128::from(i64::MIN), i128::from(i64::MAX)) as i64
}

/// No value of the base above the cut has a lower number.
fn low_number(base: ColType, cut: &Cut) -> i128
    ensures is { result ≡ spec.low_number base cut.now }
    ensures low { neg_ℤ (pos 18446744073709551616) ≤ℤ result }
    ensures high { result ≤ℤ pos 18446744073709551616 }
{
    match cut {
        Cut::First => least_number(base),
        Cut::Before(Value::Null) | Cut::After(Value::Null) | Cut::Last => greatest_number(base) + 1,
        Cut::Before(value) => counted_number(value),
        Cut::After(value) => counted_number(value) + 1,
    }
}

/// No value of the base below the cut has a higher number.
fn high_number(base: ColType, cut: &Cut) -> i128
    ensures is { result ≡ spec.high_number base cut.now }
    ensures low { neg_ℤ (pos 18446744073709551616) ≤ℤ result }
    ensures high { result ≤ℤ pos 18446744073709551616 }
{
    match cut {
        Cut::First => least_number(base) - 1,
        Cut::Before(Value::Null) | Cut::After(Value::Null) | Cut::Last => greatest_number(base),
        Cut::Before(value) => counted_number(value) - 1,
        Cut::After(value) => counted_number(value),
    }
}

/// The number that a value counts as: a day is yyyymmdd.
fn counted_number(value: &Value) -> i128
    ensures is { result ≡ spec.counted_number value.now }
    ensures low { neg_ℤ (pos 9223372036854775808) ≤ℤ result }
    ensures high { result ≤ℤ pos 9223372036854775808 }
{
    match value {
        Value::Int(number) => i128::from(*number),
        Value::Day(day) => i128::from(*day),
        Value::Null | Value::Text(_) => 0,
    }
}

fn least_number(base: ColType) -> i128
    ensures { result ≡ spec.least_number base }
{
    match base {
        ColType::Integer => i128::from(i32::MIN),
        ColType::Bigint => i128::from(i64::MIN),
        ColType::Date => 10_101,
        ColType::Char(_) => 0,
    }
}

fn greatest_number(base: ColType) -> i128
    ensures { result ≡ spec.greatest_number base }
{
    match base {
        ColType::Integer => i128::from(i32::MAX),
        ColType::Bigint => i128::from(i64::MAX),
        ColType::Date => 99_991_231,
        ColType::Char(_) => 0,
    }
}
