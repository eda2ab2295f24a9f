// Derived spans by hand.
ghost use Rattle.mdc_ast.specs.Divisors.{HasDivisor};

use crate::columns::{DIGITS, LESS, MONTH, MONTHS, MORE, TENTHS, YEAR};
use gen_columns::range_of;
use mdc_ast::{Cut, GenExpr, Span};
use mdc_values::ColType::{Bigint, Date, Integer};
use mdc_values::Op::{AtLeast, AtMost, Greater, Less};
use mdc_values::Value::{Day, Int, Null};
use mdc_values::{ColType, Op, Value};
use std::test::Fail;

/// The value of a base that counts as a number.
fn counted(base: ColType, number: i64) -> Value {
    match base {
        Date => Day(u32::try_from(number).unwrap_or(0)),
        _ => Int(number),
    }
}

/// The span of a comparison with the base value that counts as a number.
pub fn span_of(base: ColType, op: Op, number: i64) -> Span {
    let value = counted(base, number);
    match op {
        Op::Less => span(Cut::First, Cut::Before(value)),
        Op::AtMost => span(Cut::First, Cut::After(value)),
        Op::Greater => span(Cut::After(value), Cut::Before(Null)),
        Op::AtLeast => span(Cut::Before(value), Cut::Before(Null)),
        Op::Equal => span(Cut::Before(value), Cut::After(counted(base, number))),
        Op::Unequal => span(Cut::First, Cut::Before(Null)),
    }
}

fn span(low: Cut, high: Cut) -> Span {
    Span { low, high }
}

/// The derived span goes from one number to another, both included.
fn goes(range: Span, from: i64, to: i64) -> Result<(), Fail> {
    match (range.low, range.high) {
        (Cut::Before(Int(low)), Cut::After(Int(high))) => {
            if low == from && high == to {
                return Ok(());
            }
            Err(Fail::new("other ends"))
        }
        _ => Err(Fail::new("other cuts")),
    }
}

/// The span that a comparison derives goes from one number to another.
fn derives(e: &GenExpr, base: ColType, asked: (Op, i64), from: i64, to: i64) -> Result<(), Fail>
    requires divisor { HasDivisor e.now }
{
    let (op, number) = asked;
    match range_of(e, base, &span_of(base, op, number)) {
        Some(range) => goes(range, from, to),
        None => Err(Fail::new("no span")),
    }
}

/// Nothing lies in the span that is derived, which goes from Last to First.
fn is_nothing(range: Span) -> Result<(), Fail> {
    match (range.low, range.high) {
        (Cut::Last, Cut::First) => Ok(()),
        _ => Err(Fail::new("other cuts")),
    }
}

/// A comparison derives the span in which nothing lies.
fn derives_nothing(e: &GenExpr, base: ColType, op: Op, number: i64) -> Result<(), Fail>
    requires divisor { HasDivisor e.now }
{
    match range_of(e, base, &span_of(base, op, number)) {
        Some(range) => is_nothing(range),
        None => Err(Fail::new("no span")),
    }
}

/// So does a comparison with a null.
fn null_derives_nothing(e: &GenExpr, base: ColType) -> Result<(), Fail>
    requires divisor { HasDivisor e.now }
{
    match range_of(e, base, &span(Cut::Last, Cut::First)) {
        Some(range) => is_nothing(range),
        None => Err(Fail::new("no span")),
    }
}

/// A span of days derives none.
fn derives_none(e: &GenExpr, span: &Span) -> Result<(), Fail>
    requires divisor { HasDivisor e.now }
{
    match range_of(e, Date, span) {
        Some(_) => Err(Fail::new("a span")),
        None => Ok(()),
    }
}

#[test]
fn a_month_has_the_days_beside_its_own(rt: HostRuntime) -> Result<(), Fail> {
    derives(&MONTHS, Date, (AtLeast, 20_030_115), 200_301, 999_912)?;
    derives(&MONTHS, Date, (AtMost, 20_030_210), 101, 200_302)?;
    // 20030132 and 20030200, which the calendar doesn't have.
    derives(&MONTHS, Date, (Greater, 20_030_131), 200_301, 999_912)?;
    derives(&MONTHS, Date, (Less, 20_030_201), 101, 200_302)
}

#[test]
fn before_the_first_day_of_a_year_its_number_stays(rt: HostRuntime) -> Result<(), Fail> {
    derives(&YEAR, Date, (Less, 20_030_101), 1, 2003)?;
    derives(&YEAR, Date, (Greater, 20_021_231), 2002, 9999)?;
    derives(&DIGITS, Date, (Greater, 20_021_231), 20_021_232, 99_991_231)
}

#[test]
fn outside_the_calendar_lies_nothing(rt: HostRuntime) -> Result<(), Fail> {
    derives_nothing(&YEAR, Date, Less, 10_101)?;
    derives_nothing(&YEAR, Date, Greater, 99_991_231)?;
    derives(&YEAR, Date, (AtMost, 10_101), 1, 1)?;
    derives(&YEAR, Date, (AtLeast, 99_991_231), 9999, 9999)
}

#[test]
fn a_month_of_any_year_derives_none(rt: HostRuntime) -> Result<(), Fail> {
    derives_none(&MONTH, &span_of(Date, Less, 20_030_201))?;
    derives_none(&MONTH, &span(Cut::Last, Cut::First))
}

#[test]
fn tenths_are_dropped_towards_zero(rt: HostRuntime) -> Result<(), Fail> {
    derives(&TENTHS, Integer, (AtLeast, -9), 0, 214_748_364)?;
    derives(&TENTHS, Integer, (AtMost, 9), -214_748_364, 0)?;
    derives(&TENTHS, Integer, (Greater, 9), 1, 214_748_364)?;
    derives(&TENTHS, Integer, (Greater, 8), 0, 214_748_364)?;
    derives(&TENTHS, Integer, (Less, -9), -214_748_364, -1)
}

#[test]
fn a_number_outside_the_base_is_a_number(rt: HostRuntime) -> Result<(), Fail> {
    derives(
        &TENTHS,
        Integer,
        (Less, 3_000_000_000),
        -214_748_364,
        299_999_999,
    )?;
    derives_nothing(&TENTHS, Integer, Greater, 3_000_000_000)?;
    derives_nothing(&TENTHS, Integer, Less, -3_000_000_000)
}

#[test]
fn ends_are_of_64_bits(rt: HostRuntime) -> Result<(), Fail> {
    derives(&MORE, Bigint, (AtLeast, 0), 5, i64::MAX)?;
    derives(&MORE, Bigint, (AtMost, 0), -9_223_372_036_854_775_803, 5)?;
    derives(&LESS, Bigint, (AtMost, 0), i64::MIN, -5)?;
    derives(
        &LESS,
        Bigint,
        (AtLeast, i64::MIN),
        i64::MIN,
        9_223_372_036_854_775_802,
    )
}

#[test]
fn beyond_the_ends_of_64_bits_lies_nothing(rt: HostRuntime) -> Result<(), Fail> {
    derives_nothing(&MORE, Bigint, Greater, i64::MAX)?;
    derives_nothing(&LESS, Bigint, Less, i64::MIN)
}

#[test]
fn beside_a_null_lies_nothing(rt: HostRuntime) -> Result<(), Fail> {
    null_derives_nothing(&MONTHS, Date)?;
    null_derives_nothing(&YEAR, Date)?;
    null_derives_nothing(&TENTHS, Integer)?;
    null_derives_nothing(&MORE, Bigint)
}
