// The truth of a predicate on a row.
ghost use Rattle.std.specs.Prelude.{◌≡◌, ◌<◌, map, IsTrue};
ghost use Rattle.std.specs.List.{list_all};
ghost use Rattle.mdc_ast.specs.Truth as spec;
ghost use Rattle.mdc_ast.specs.Database.{is_null};
ghost use Rattle.mdc_ast.specs.Truth.{any_of, atom_truth, may_judge, may_test, may_test_atom, test_truth};
ghost use Rattle.mdc_values.specs.Order.{are_alike, compared, told};
ghost use Rattle.mdc_values.specs.declared.truth.Op.TheVariants.{Equal};

use crate::combining::{and, negated_if, not, or};
use mdc_ast::{Atom, Pred, Right, Test};
use mdc_values::{List, Op, Truth, Value, compare};

/// The truth of a predicate on the values of a row. It takes no memory. It needs that the predicate names columns that
/// are there, and compares values of one kind.
pub fn truth(pred: &Pred, values: &List<Value>) -> Truth
    requires comparable { IsTrue (may_judge values.now pred.now) }
    ensures { result ≡ spec.truth values.now pred.now }
{
    match pred {
        Pred::Atom(atom) => truth_of_atom(atom, values),
        Pred::All(preds) => {
            let mut all = Truth::True;
            for pred in preds.as_slice() {
                all = and(all, truth(pred, values));
                // No other part makes it true, or unknown.
                if let Truth::False = all {
                    return Truth::False;
                }
            }
            all
        }
        Pred::Any(preds) => {
            let mut any = Truth::False;
            for pred in preds.as_slice() {
                any = or(any, truth(pred, values));
                if let Truth::True = any {
                    return Truth::True;
                }
            }
            any
        }
        Pred::Not(pred) => not(truth(pred.get(), values)),
    }
}

fn truth_of_atom(atom: &Atom, values: &List<Value>) -> Truth
    requires { IsTrue (may_test_atom values.now atom.now) }
    ensures { result ≡ atom_truth values.now atom.now }
{
    let value = values.at(atom.column as usize);
    negated_if(atom.negated, truth_of_test(&atom.test, value, values))
}

/// The truth of a test of a value. It takes no memory. It looks at the values of the row only where the test compares with
/// a column, and needs that column to be there, and values of one kind.
pub fn truth_of_test(test: &Test, value: &Value, values: &List<Value>) -> Truth
    requires { IsTrue (may_test values.now value.now test.now) }
    ensures { result ≡ test_truth values.now value.now test.now }
{
    match test {
        Test::Compare(op, Right::Value(other)) => compare(*op, value, other),
        Test::Compare(op, Right::Column(column)) => {
            compare(*op, value, values.at(*column as usize))
        }
        Test::Between(low, high) => and(
            compare(Op::AtLeast, value, low),
            compare(Op::AtMost, value, high),
        ),
        Test::Within(others) => truth_of_within(value, others.as_slice()),
        Test::IsNull => truth_of_null(value),
    }
}

/// Whether a value equals one of the others.
fn truth_of_within(value: &Value, others: &[Value]) -> Truth
    requires { IsTrue (list_all (are_alike value.now) others.now) }
    ensures { result ≡ any_of (map (compared Equal value.now) others.now) }
{
    let mut any = Truth::False;
    for other in others {
        any = or(any, compare(Op::Equal, value, other));
    }
    any
}

fn truth_of_null(value: &Value) -> Truth
    ensures { result ≡ told (is_null value.now) }
{
    match value {
        Value::Null => Truth::True,
        _ => Truth::False,
    }
}
