// Predicates judged part by part.
ghost use Rattle.std.specs.Prelude.{◌≡◌, ◌<◌, length, IfOk, IsTrue};
ghost use Rattle.std.specs.List.{All};
ghost use Rattle.mdc_ast.specs.Truth as spec;
ghost use Rattle.mdc_ast.specs.Truth.{atom_truth, may_judge, may_test, may_test_atom, negated_if, test_truth};
ghost use Rattle.row_page.specs.Row.{row_in};
ghost use Rattle.row_filter.specs.Naming.{named_in_test};

use crate::reading::{read_part, read_right};
use mdc_ast::{Atom, Pred, Right, Test};
use mdc_values::{List, Memory, Truth, Value, compare};
use predicate::{truth, truth_of_test};
use row_page::RowView;
use std::alloc::Global;

/// Whether a predicate is true of a row. Of parts that an outermost AND joins, none is read behind the first that is not true.
pub fn is_met(
    alloc: Global,
    pred: &Pred,
    row: &RowView,
    values: &mut List<Value>,
) -> Result<bool, Memory>
    requires wide { length row.now.columns.now ≡ length values.old }
    requires judged { IsTrue (may_judge (row_in row.now.columns.now row.now.bytes.now).values pred.now) }
    ensures met { IfOk result (λ met. met ≡ spec.is_true (spec.truth (row_in row.now.columns.now row.now.bytes.now).values pred.now)) }
    ensures wide { length values.new ≡ length values.old }
{
    let Pred::All(parts) = pred else {
        return holds(alloc, pred, row, values);
    };
    for part in parts.as_slice() {
        if !holds(alloc, part, row, values)? {
            return Ok(false);
        }
    }
    Ok(true)
}

fn holds(
    alloc: Global,
    part: &Pred,
    row: &RowView,
    values: &mut List<Value>,
) -> Result<bool, Memory>
    requires wide { length row.now.columns.now ≡ length values.old }
    requires judged { IsTrue (may_judge (row_in row.now.columns.now row.now.bytes.now).values part.now) }
    ensures met { IfOk result (λ met. met ≡ spec.is_true (spec.truth (row_in row.now.columns.now row.now.bytes.now).values part.now)) }
    ensures wide { length values.new ≡ length values.old }
{
    match part {
        Pred::Atom(atom) => atom_holds(alloc, atom, row, values),
        _ => {
            read_part(alloc, part, row, values)?;
            Ok(is_true(part, values))
        }
    }
}

// The value of the column that is tested is judged as it is read, and not kept.
fn atom_holds(
    alloc: Global,
    atom: &Atom,
    row: &RowView,
    values: &mut List<Value>,
) -> Result<bool, Memory>
    requires wide { length row.now.columns.now ≡ length values.old }
    requires judged { IsTrue (may_test_atom (row_in row.now.columns.now row.now.bytes.now).values atom.now) }
    ensures met { IfOk result (λ met. met ≡ spec.is_true (atom_truth (row_in row.now.columns.now row.now.bytes.now).values atom.now)) }
    ensures wide { length values.new ≡ length values.old }
{
    let value = row.value(alloc, atom.column)?;
    let truth = truth_in_row(alloc, &atom.test, &value, row, values)?;
    Ok(is_true_if(atom.negated, truth))
}

// Most tests compare with a value. They need no other column, and no walk through the kinds of tests.
fn truth_in_row(
    alloc: Global,
    test: &Test,
    value: &Value,
    row: &RowView,
    values: &mut List<Value>,
) -> Result<Truth, Memory>
    requires wide { length row.now.columns.now ≡ length values.old }
    requires there { All (λ place. place < length values.old) (named_in_test test.now) }
    requires judged { IsTrue (may_test (row_in row.now.columns.now row.now.bytes.now).values value.now test.now) }
    ensures truth { IfOk result (λ truth. truth ≡ test_truth (row_in row.now.columns.now row.now.bytes.now).values value.now test.now) }
    ensures wide { length values.new ≡ length values.old }
{
    match test {
        Test::Compare(op, Right::Value(other)) => Ok(compare(*op, value, other)),
        _ => {
            read_right(alloc, test, row, values)?;
            Ok(truth_of_test(test, value, values))
        }
    }
}

fn is_true(pred: &Pred, values: &List<Value>) -> bool
    requires { IsTrue (may_judge values.now pred.now) }
    ensures { result ≡ spec.is_true (spec.truth values.now pred.now) }
{
    matches!(truth(pred, values), Truth::True)
}

/// Whether a truth is true, or is false where it is negated.
fn is_true_if(negated: bool, truth: Truth) -> bool
    ensures { result ≡ spec.is_true (negated_if negated truth) }
{
    match truth {
        Truth::True => !negated,
        Truth::False => negated,
        Truth::Unknown => false,
    }
}
