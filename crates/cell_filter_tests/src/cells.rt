// What may hold in a cell, by hand: in the one in which column 1 is 5 and column 0 is null.
use cell_filter::may_hold;
use mdc_ast::{Atom, Cell, Name, Pred, Right, Roots, TableDef, Test};
use mdc_values::Value::{Int, Null};
use mdc_values::{Boxed, Chars, List, Memory, Op};
use std::alloc::Global;
use std::process::Abort;
use std::test::Fail;

/// The definition of a table: column 1 is the first dimension, column 0 the second, and column 2 is none.
fn two_dimensions(alloc: Global) -> Result<TableDef, Memory> {
    let first = List::from_vec(vec![in alloc; 1]?);
    let second = List::from_vec(vec![in alloc; 0]?);
    Ok(TableDef {
        number: 0,
        name: Name(Chars::of(alloc, b"T")?),
        columns: List::new(alloc),
        dims: List::from_vec(vec![in alloc; first, second]?),
        indexes: List::new(alloc),
        next: 0,
        roots: Roots {
            map: 0,
            composite: 0,
            dims: List::new(alloc),
        },
    })
}

/// The cell in which column 1 is 5, and column 0 is null.
fn five_and_null(alloc: Global) -> Result<Cell, Memory> {
    let values = List::from_vec(vec![in alloc; Int(5), Null]?);
    Ok(Cell { values })
}

/// In the cell a predicate may hold, and its NOT may not.
fn it_may_hold(rt: &(impl Abort + AllocGlobal), pred: Pred) -> Result<(), Fail> {
    may_hold_so(rt, pred, true, false)
}

/// In the cell the NOT of a predicate may hold, and it itself may not.
fn its_not_may_hold(rt: &(impl Abort + AllocGlobal), pred: Pred) -> Result<(), Fail> {
    may_hold_so(rt, pred, false, true)
}

fn both_may_hold(rt: &(impl Abort + AllocGlobal), pred: Pred) -> Result<(), Fail> {
    may_hold_so(rt, pred, true, true)
}

fn neither_may_hold(rt: &(impl Abort + AllocGlobal), pred: Pred) -> Result<(), Fail> {
    may_hold_so(rt, pred, false, false)
}

/// Whether a predicate may hold in the cell, and whether its NOT may. Under two NOTs it is as it was.
fn may_hold_so(
    rt: &(impl Abort + AllocGlobal),
    pred: Pred,
    it_may: bool,
    its_not_may: bool,
) -> Result<(), Fail> {
    let alloc = rt.alloc();
    let def = two_dimensions(alloc)?;
    let cell = five_and_null(alloc)?;
    assert_eq!(rt; may_hold(&pred, &def, &cell), it_may);
    let negation = Pred::Not(Boxed::new(alloc, pred)?);
    assert_eq!(rt; may_hold(&negation, &def, &cell), its_not_may);
    let twice = Pred::Not(Boxed::new(alloc, negation)?);
    assert_eq!(rt; may_hold(&twice, &def, &cell), it_may);
    Ok(())
}

fn tested(column: u8, negated: bool, test: Test) -> Pred {
    Pred::Atom(Atom {
        column,
        negated,
        test,
    })
}

/// A column = a number.
fn equals(column: u8, number: i64) -> Pred {
    let test = Test::Compare(Op::Equal, Right::Value(Int(number)));
    tested(column, false, test)
}

fn and(alloc: Global, first: Pred, second: Pred) -> Result<Pred, Memory> {
    Ok(Pred::All(List::from_vec(vec![in alloc; first, second]?)))
}

fn or(alloc: Global, first: Pred, second: Pred) -> Result<Pred, Memory> {
    Ok(Pred::Any(List::from_vec(vec![in alloc; first, second]?)))
}

#[test]
fn a_test_is_judged_on_the_cell(rt: HostRuntime) -> Result<(), Fail> {
    let within = Test::Within(List::from_vec(vec![in rt.alloc(); Int(5)]?));
    it_may_hold(&rt, equals(1, 5))?;
    its_not_may_hold(&rt, equals(1, 6))?;
    its_not_may_hold(&rt, tested(1, false, Test::Between(Int(6), Int(9))))?;
    its_not_may_hold(&rt, tested(1, true, within))
}

#[test]
fn a_comparison_with_the_null_of_a_cell_holds_neither_way(rt: HostRuntime) -> Result<(), Fail> {
    neither_may_hold(&rt, equals(0, 5))?;
    it_may_hold(&rt, tested(0, false, Test::IsNull))
}

#[test]
fn what_a_cell_does_not_tell_may_hold_both_ways(rt: HostRuntime) -> Result<(), Fail> {
    let beside = Test::Compare(Op::Equal, Right::Column(2));
    both_may_hold(&rt, equals(2, 5))?;
    both_may_hold(&rt, tested(1, false, beside))
}

#[test]
fn and_needs_both_and_its_not_one_of_them(rt: HostRuntime) -> Result<(), Fail> {
    let alloc = rt.alloc();
    its_not_may_hold(&rt, and(alloc, equals(1, 5), equals(1, 6))?)?;
    both_may_hold(&rt, and(alloc, equals(1, 5), equals(2, 6))?)
}

#[test]
fn or_needs_one_and_its_not_both(rt: HostRuntime) -> Result<(), Fail> {
    let alloc = rt.alloc();
    it_may_hold(&rt, or(alloc, equals(1, 5), equals(1, 6))?)?;
    its_not_may_hold(&rt, or(alloc, equals(1, 7), equals(1, 6))?)
}
