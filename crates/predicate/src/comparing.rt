// Tests as comparisons that no NOT stands before.
ghost use Rattle.std.specs.Prelude.{◌≡◌, [], false, IfOk, if◌then◌else◌};
ghost use Rattle.mdc_ast.specs.declared.predicate.Pred.TheVariants as preds;
ghost use Rattle.mdc_ast.specs.declared.predicate.Right.TheVariants as right_side;
ghost use Rattle.mdc_ast.specs.declared.predicate.Test.TheVariants as column_test;
ghost use Rattle.predicate.specs.Pushed.{IsPushedFrom, op_if, opposite};

use mdc_ast::{Atom, Pred, Right, Test};
use mdc_values::{List, Memory, Op, Value};
use std::alloc::Global;

/// A test of a column, or its negation, as comparisons, IS NULL and IS NOT NULL.
pub fn test_as_comparisons(
    alloc: Global,
    column: u8,
    negated: bool,
    test: &Test,
) -> Result<Pred, Memory>
    ensures { IfOk result (λ pushed. IsPushedFrom false (preds.Atom (record { column = column; negated = negated; test = test.now })) pushed) }
{
    match test {
        Test::Compare(op, right) => {
            let right = copy_of(alloc, right)?;
            Ok(comparison(column, op_if(negated, *op), right))
        }
        Test::Between(low, high) => between(alloc, column, negated, low, high),
        Test::Within(others) => within(alloc, column, negated, others.as_slice()),
        Test::IsNull => Ok(null_test(column, negated)),
    }
}

/// The parts joined by AND, or by OR.
pub fn joined(by_and: bool, parts: List<Pred>) -> Pred
    ensures { result ≡ (if by_and then preds.All parts else preds.Any parts) }
{
    if by_and {
        Pred::All(parts)
    } else {
        Pred::Any(parts)
    }
}

fn between(
    alloc: Global,
    column: u8,
    negated: bool,
    low: &Value,
    high: &Value,
) -> Result<Pred, Memory>
    ensures { IfOk result (λ pushed. IsPushedFrom false (preds.Atom (record { column = column; negated = negated; test = column_test.Between low.now high.now })) pushed) }
{
    let mut parts = List::new(alloc);
    parts.push(comparison_with(alloc, column, op_if(negated, Op::AtLeast), low)?)?;
    parts.push(comparison_with(alloc, column, op_if(negated, Op::AtMost), high)?)?;
    Ok(joined(!negated, parts))
}

fn within(alloc: Global, column: u8, negated: bool, others: &[Value]) -> Result<Pred, Memory>
    ensures { IfOk result (λ pushed. IsPushedFrom false (preds.Atom (record { column = column; negated = negated; test = column_test.Within others.now })) pushed) }
{
    if others.is_empty() {
        return within_nothing(alloc, column, negated);
    }
    let op = op_if(negated, Op::Equal);
    let mut parts = List::new(alloc);
    for other in others {
        parts.push(comparison_with(alloc, column, op, other)?)?;
    }
    Ok(joined(negated, parts))
}

// Nothing is in an empty list. The column is still named, so that the predicate may be judged on the same rows.
fn within_nothing(alloc: Global, column: u8, negated: bool) -> Result<Pred, Memory>
    ensures { IfOk result (λ pushed. IsPushedFrom false (preds.Atom (record { column = column; negated = negated; test = column_test.Within [] })) pushed) }
{
    let mut parts = List::new(alloc);
    parts.push(null_test(column, false))?;
    parts.push(null_test(column, true))?;
    Ok(joined(!negated, parts))
}

fn comparison_with(alloc: Global, column: u8, op: Op, value: &Value) -> Result<Pred, Memory>
    ensures { IfOk result (λ pred. pred ≡ preds.Atom (record { column = column; negated = false; test = column_test.Compare op (right_side.Value value.now) })) }
{
    let value = value.copy(alloc)?;
    Ok(comparison(column, op, Right::Value(value)))
}

fn comparison(column: u8, op: Op, right: Right) -> Pred
    ensures { result ≡ preds.Atom (record { column = column; negated = false; test = column_test.Compare op right }) }
{
    Pred::Atom(Atom {
        column,
        negated: false,
        test: Test::Compare(op, right),
    })
}

fn null_test(column: u8, negated: bool) -> Pred
    ensures { result ≡ preds.Atom (record { column = column; negated = negated; test = column_test.IsNull }) }
{
    Pred::Atom(Atom {
        column,
        negated,
        test: Test::IsNull,
    })
}

fn copy_of(alloc: Global, right: &Right) -> Result<Right, Memory>
    ensures { IfOk result (λ copy. copy ≡ right.now) }
{
    match right {
        Right::Value(value) => Ok(Right::Value(value.copy(alloc)?)),
        Right::Column(column) => Ok(Right::Column(*column)),
    }
}

/// A comparison, or the opposite one.
pub fn op_if(negated: bool, op: Op) -> Op
    ensures { result ≡ op_if negated op }
{
    if negated { opposite(op) } else { op }
}

/// The comparison that is true of two values exactly where this one is false, where neither is null.
pub fn opposite(op: Op) -> Op
    ensures { result ≡ opposite op }
{
    match op {
        Op::Equal => Op::Unequal,
        Op::Unequal => Op::Equal,
        Op::Less => Op::AtLeast,
        Op::AtMost => Op::Greater,
        Op::Greater => Op::AtMost,
        Op::AtLeast => Op::Less,
    }
}
