// Truth with three values by hand: tests with a null, and NOT of OR, before and after NOT is pushed.
ghost use Rattle.std.specs.Prelude.{◌≡◌, [], ◌∷◌, pos, IfOk, IsTrue};
ghost use Rattle.mdc_ast.specs.Truth.{may_judge, may_test};
ghost use Rattle.mdc_ast.specs.declared.predicate.Test.TheVariants as tests;
ghost use Rattle.mdc_values.specs.declared.value.Value.TheVariants as value;

use mdc_ast::{Atom, Pred, Right, Test};
use mdc_values::Truth::{False, True, Unknown};
use mdc_values::Value::{Int, Null};
use mdc_values::{Boxed, List, Memory, Op, Truth, Value};
use predicate::{push_not, truth};
use std::alloc::Global;
use std::process::Abort;
use std::test::Fail;

/// A predicate has that truth, and so has what NOT is pushed in.
fn has_truth(
    rt: &(impl Abort + AllocGlobal),
    pred: &Pred,
    values: &List<Value>,
    wanted: Truth,
) -> Result<(), Fail>
    requires { IsTrue (may_judge values.now pred.now) }
{
    assert_eq!(rt; truth(pred, values), wanted);
    let pushed = push_not(rt.alloc(), pred)?;
    assert_eq!(rt; truth(&pushed, values), wanted);
    Ok(())
}

/// A test of the only column of a row has that truth.
fn test_is(
    rt: &(impl Abort + AllocGlobal),
    value: Value,
    test: Test,
    wanted: Truth,
) -> Result<(), Fail>
    requires { IsTrue (may_test (value ∷ []) value test) }
{
    atom_is(rt, value, false, test, wanted)
}

/// A test of the only column of a row has that truth under the NOT within it.
fn negated_is(
    rt: &(impl Abort + AllocGlobal),
    value: Value,
    test: Test,
    wanted: Truth,
) -> Result<(), Fail>
    requires { IsTrue (may_test (value ∷ []) value test) }
{
    atom_is(rt, value, true, test, wanted)
}

fn atom_is(
    rt: &(impl Abort + AllocGlobal),
    value: Value,
    negated: bool,
    test: Test,
    wanted: Truth,
) -> Result<(), Fail>
    requires { IsTrue (may_test (value ∷ []) value test) }
{
    let values = List::from_vec(vec![in rt.alloc(); value]?);
    let pred = Pred::Atom(Atom {
        column: 0,
        negated,
        test,
    });
    has_truth(rt, &pred, &values, wanted)
}

/// = NULL
fn equals_null() -> Test
    ensures { result ≡ tests.Compare Op.Equal (Right.Value value.Null) }
{
    Test::Compare(Op::Equal, Right::Value(Null))
}

/// IN (6, NULL)
fn within_six_and_null(alloc: Global) -> Result<Test, Memory>
    ensures { IfOk result (λ test. test ≡ tests.Within (value.Int (pos 6) ∷ value.Null ∷ [])) }
{
    Ok(Test::Within(List::from_vec(vec![in alloc; Int(6), Null]?)))
}

#[test]
fn nothing_equals_null(rt: HostRuntime) -> Result<(), Fail> {
    test_is(&rt, Null, equals_null(), Unknown)?;
    negated_is(&rt, Int(5), equals_null(), Unknown)?;
    test_is(&rt, Null, Test::IsNull, True)?;
    negated_is(&rt, Null, Test::IsNull, False)
}

#[test]
fn a_null_in_a_list_leaves_what_is_not_in_it_unknown(rt: HostRuntime) -> Result<(), Fail> {
    let alloc = rt.alloc();
    negated_is(&rt, Int(6), within_six_and_null(alloc)?, False)?;
    negated_is(&rt, Int(5), within_six_and_null(alloc)?, Unknown)
}

#[test]
fn a_null_end_leaves_only_what_is_within_the_other_unknown(rt: HostRuntime) -> Result<(), Fail> {
    negated_is(&rt, Int(5), Test::Between(Null, Int(4)), True)?;
    negated_is(&rt, Int(5), Test::Between(Null, Int(6)), Unknown)
}

/// NOT (A = NULL OR A IS NULL): AND of what is not so.
#[test]
fn not_of_or_is_and_of_not(rt: HostRuntime) -> Result<(), Fail> {
    let alloc = rt.alloc();
    let equals_null = Pred::Atom(Atom {
        column: 0,
        negated: false,
        test: equals_null(),
    });
    let is_null = Pred::Atom(Atom {
        column: 0,
        negated: false,
        test: Test::IsNull,
    });
    let parts = List::from_vec(vec![in alloc; equals_null, is_null]?);
    let values = List::from_vec(vec![in alloc; Int(5)]?);
    let pred = Pred::Not(Boxed::new(alloc, Pred::Any(parts))?);
    has_truth(&rt, &pred, &values, Unknown)
}
