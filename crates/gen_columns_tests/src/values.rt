// Generated values by hand.
ghost use Rattle.mdc_ast.specs.Divisors.{HasDivisor};

use crate::columns::{DIGITS, LESS, MONTH, MONTHS, MORE, TENTHS, YEAR};
use gen_columns::{Overflow, value_of};
use mdc_ast::GenExpr;
use mdc_values::ColType::{Bigint, Integer};
use mdc_values::Value::{Day, Int, Null};
use mdc_values::{Chars, ColType, Value};
use std::test::Fail;

/// The generated value is this number.
fn makes(e: &GenExpr, target: ColType, base: Value, wanted: i64) -> Result<(), Fail>
    requires divisor { HasDivisor e.now }
{
    if let Ok(Int(number)) = value_of(e, target, &base) {
        if number == wanted {
            return Ok(());
        }
    }
    Err(Fail::new("another value"))
}

/// The generated value is a null.
fn makes_null(e: &GenExpr, base: Value) -> Result<(), Fail>
    requires divisor { HasDivisor e.now }
{
    if let Ok(Null) = value_of(e, Integer, &base) {
        return Ok(());
    }
    Err(Fail::new("no null"))
}

/// The generated value is outside the type of its column.
fn overflows(e: &GenExpr, target: ColType, base: Value) -> Result<(), Fail>
    requires divisor { HasDivisor e.now }
{
    if let Err(Overflow) = value_of(e, target, &base) {
        return Ok(());
    }
    Err(Fail::new("no overflow"))
}

#[test]
fn a_division_drops_the_remainder_towards_zero(rt: HostRuntime) -> Result<(), Fail> {
    makes(&TENTHS, Integer, Int(-15), -1)?;
    makes(&TENTHS, Integer, Int(-10), -1)?;
    makes(&TENTHS, Integer, Int(-9), 0)?;
    makes(&TENTHS, Integer, Int(0), 0)?;
    makes(&TENTHS, Integer, Int(9), 0)?;
    makes(&TENTHS, Integer, Int(15), 1)
}

#[test]
fn a_day_counts_as_its_digits(rt: HostRuntime) -> Result<(), Fail> {
    makes(&DIGITS, Integer, Day(10_101), 10_101)?;
    makes(&DIGITS, Integer, Day(99_991_231), 99_991_231)?;
    makes(&MONTHS, Integer, Day(20_030_110), 200_301)?;
    makes(&MONTHS, Bigint, Day(20_030_301), 200_303)
}

#[test]
fn a_day_has_a_year_and_a_month(rt: HostRuntime) -> Result<(), Fail> {
    makes(&YEAR, Integer, Day(20_030_110), 2003)?;
    makes(&YEAR, Integer, Day(10_101), 1)?;
    makes(&MONTH, Integer, Day(20_030_131), 1)?;
    makes(&MONTH, Integer, Day(20_040_101), 1)?;
    makes(&MONTH, Integer, Day(99_991_231), 12)
}

#[test]
fn of_a_null_it_is_a_null(rt: HostRuntime) -> Result<(), Fail> {
    makes_null(&DIGITS, Null)?;
    makes_null(&YEAR, Null)?;
    makes_null(&MONTH, Null)?;
    makes_null(&TENTHS, Null)?;
    makes_null(&MORE, Null)
}

#[test]
fn of_another_kind_of_value_it_is_a_null(rt: HostRuntime) -> Result<(), Fail> {
    makes_null(&YEAR, Int(20_030_110))?;
    makes_null(&TENTHS, Day(20_030_110))?;
    makes_null(&MORE, Value::Text(Chars::of(rt.alloc(), b"5")?))
}

#[test]
fn a_sum_overflows_beyond_the_type(rt: HostRuntime) -> Result<(), Fail> {
    makes(&MORE, Integer, Int(2_147_483_642), 2_147_483_647)?;
    overflows(&MORE, Integer, Int(2_147_483_643))?;
    makes(&MORE, Bigint, Int(2_147_483_643), 2_147_483_648)?;
    makes(&LESS, Integer, Int(-2_147_483_643), -2_147_483_648)?;
    overflows(&LESS, Integer, Int(-2_147_483_644))
}

#[test]
fn a_sum_overflows_beyond_64_bits(rt: HostRuntime) -> Result<(), Fail> {
    makes(&MORE, Bigint, Int(9_223_372_036_854_775_802), i64::MAX)?;
    overflows(&MORE, Bigint, Int(i64::MAX))?;
    overflows(&LESS, Bigint, Int(i64::MIN))
}

#[test]
fn a_quotient_overflows_beyond_the_type(rt: HostRuntime) -> Result<(), Fail> {
    makes(&TENTHS, Integer, Int(21_474_836_479), 2_147_483_647)?;
    overflows(&TENTHS, Integer, Int(21_474_836_480))?;
    makes(&TENTHS, Integer, Int(-21_474_836_489), -2_147_483_648)?;
    overflows(&TENTHS, Integer, Int(-21_474_836_490))
}
