// The cells that worked queries read: those whose value lies in each span that a test of the base derives.
ghost use Rattle.mdc_ast.specs.Divisors.{HasDivisor};

use crate::columns::{MONTH, MONTHS, TENTHS};
use crate::spans::span_of;
use gen_columns::range_of;
use mdc_ast::{Cut, GenExpr, Span};
use mdc_values::ColType::{Date, Integer};
use mdc_values::Op::{AtLeast, AtMost, Equal, Greater, Less};
use mdc_values::Value::Int;
use mdc_values::{ColType, Op};
use std::test::Fail;

/// Whether a number lies in a span of numbers, both ends included.
fn has(range: &Span, number: i64) -> bool {
    match (&range.low, &range.high) {
        (Cut::Before(Int(low)), Cut::After(Int(high))) => *low <= number && number <= *high,
        _ => false,
    }
}

/// Whether a cell is read for a comparison of the base with a number.
fn reads(e: &GenExpr, base: ColType, op: Op, number: i64, cell: i64) -> bool
    requires divisor { HasDivisor e.now }
{
    match range_of(e, base, &span_of(base, op, number)) {
        Some(range) => has(&range, cell),
        None => true,
    }
}

/// Of these cells exactly the wanted ones are read where the base lies between two numbers.
fn reads_between(
    e: &GenExpr,
    base: ColType,
    between: (i64, i64),
    cells: &[i64],
    wanted: &[i64],
) -> Result<(), Fail>
    requires divisor { HasDivisor e.now }
{
    let (low, high) = between;
    for cell in cells {
        let read = reads(e, base, AtLeast, low, *cell) && reads(e, base, AtMost, high, *cell);
        if read != wanted.contains(cell) {
            return Err(Fail::new("another cell"));
        }
    }
    Ok(())
}

/// Of these cells exactly the wanted ones are read for a comparison.
fn reads_for(
    e: &GenExpr,
    base: ColType,
    asked: (Op, i64),
    cells: &[i64],
    wanted: &[i64],
) -> Result<(), Fail>
    requires divisor { HasDivisor e.now }
{
    let (op, number) = asked;
    for cell in cells {
        if reads(e, base, op, number, *cell) != wanted.contains(cell) {
            return Err(Fail::new("another cell"));
        }
    }
    Ok(())
}

#[test]
fn days_of_two_months_read_their_cells(rt: HostRuntime) -> Result<(), Fail> {
    let cells = [200_301, 200_302, 200_303];
    let between = (20_030_115, 20_030_210);
    reads_between(&MONTHS, Date, between, &cells, &[200_301, 200_302])
}

#[test]
fn days_of_one_month_of_twelve_read_its_cell(rt: HostRuntime) -> Result<(), Fail> {
    let cells = [
        200_301, 200_302, 200_303, 200_304, 200_305, 200_306, 200_307, 200_308, 200_309, 200_310,
        200_311, 200_312,
    ];
    reads_between(&MONTHS, Date, (20_030_501, 20_030_531), &cells, &[200_305])?;
    reads_for(&MONTHS, Date, (Equal, 20_031_201), &cells, &[200_312])
}

#[test]
fn numbers_between_have_one_cell_of_tenths(rt: HostRuntime) -> Result<(), Fail> {
    reads_between(&TENTHS, Integer, (-9, 9), &[-1, 0, 1], &[0])
}

#[test]
fn above_nine_is_one_cell_of_tenths_and_above_eight_are_two(rt: HostRuntime) -> Result<(), Fail> {
    reads_for(&TENTHS, Integer, (Greater, 9), &[-1, 0, 1], &[1])?;
    reads_for(&TENTHS, Integer, (Greater, 8), &[-1, 0, 1], &[0, 1])
}

#[test]
fn a_month_of_any_year_leaves_no_cell_out(rt: HostRuntime) -> Result<(), Fail> {
    reads_for(&MONTH, Date, (Less, 20_030_201), &[1, 2], &[1, 2])
}
