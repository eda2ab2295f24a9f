// Whether a predicate may be true of a row of a cell.
ghost use Rattle.std.specs.Prelude.{◌≡◌, ◌&&◌, [], flat_map, false, MatchOption, Some};
ghost use Rattle.mdc_values.specs.Order.{are_alike};
ghost use Rattle.mdc_ast.specs.Truth.{may_test};
ghost use Rattle.cell_filter.specs.Cells as spec;
ghost use Rattle.cell_filter.specs.Cells.{is_against_literals, may_hold_under, may_pass, may_pass_in, value_in_cell};

use mdc_ast::{Atom, Cell, Pred, Right, TableDef, Test};
use mdc_values::{List, Truth, Value};
use predicate::{negated_if, truth_of_test};

/// Whether a predicate may be true of a row of a cell. It takes no memory. A test of a dimension column against literals is judged
/// on the cell's value, and any other counts as true, also under a NOT.
pub fn may_hold(pred: &Pred, def: &TableDef, cell: &Cell) -> bool
    ensures { result ≡ spec.may_hold def.now cell.now pred.now }
{
    may_hold_under(pred, false, def, cell)
}

/// Whether a predicate, or its negation, may be true of a row of a cell.
fn may_hold_under(pred: &Pred, negated: bool, def: &TableDef, cell: &Cell) -> bool
    ensures { result ≡ may_hold_under (flat_map (λ dim. dim) def.now.dims) cell.now.values pred.now negated }
{
    match pred {
        Pred::Atom(atom) => may_pass_in(atom, negated, def, cell),
        // The negation of an AND is an OR of negations, and the other way round.
        Pred::All(preds) => {
            for pred in preds.as_slice() {
                if may_hold_under(pred, negated, def, cell) == negated {
                    return negated;
                }
            }
            !negated
        }
        Pred::Any(preds) => {
            for pred in preds.as_slice() {
                if may_hold_under(pred, negated, def, cell) != negated {
                    return !negated;
                }
            }
            negated
        }
        Pred::Not(pred) => may_hold_under(pred.get(), !negated, def, cell),
    }
}

/// The value that a cell has in a column, if that is a dimension column.
fn value_in_cell<'c>(def: &TableDef, cell: &'c Cell, column: u8) -> Option<&'c Value>
    ensures { MatchOption result (value_in_cell (flat_map (λ dim. dim) def.now.dims) cell.now.values column ≡ None)
        (λ value. value_in_cell (flat_map (λ dim. dim) def.now.dims) cell.now.values column ≡ Some value.now) }
{
    let mut at = 0;
    for dim in def.dims.as_slice() {
        for place in dim.as_slice() {
            if at >= cell.values.len() {
                return None;
            }
            if *place == column {
                return Some(cell.values.at(at));
            }
            at += 1;
        }
    }
    None
}

/// Whether a test, or its negation, may be true in a cell: of a column that the cell has no value in it may.
fn may_pass_in(atom: &Atom, negated: bool, def: &TableDef, cell: &Cell) -> bool
    ensures { result ≡ may_pass_in negated atom.now (value_in_cell (flat_map (λ dim. dim) def.now.dims) cell.now.values atom.now.column) }
{
    match value_in_cell(def, cell, atom.column) {
        Some(value) => may_pass(atom, negated, value, &cell.values),
        None => true,
    }
}

/// Whether a test of a value, or its negation, may be true, beside any others: these aren't looked at.
fn may_pass(atom: &Atom, negated: bool, value: &Value, others: &List<Value>) -> bool
    ensures { result ≡ may_pass negated atom.now value.now }
{
    if !is_judged(&atom.test, value) {
        return true;
    }
    let truth = negated_if(atom.negated, truth_of_test(&atom.test, value, others));
    matches!(negated_if(negated, truth), Truth::True)
}

/// Whether a test is one against literals of a value's kind.
fn is_judged(test: &Test, value: &Value) -> bool
    ensures { result ≡ (is_against_literals test.now && may_test [] value.now test.now) }
{
    match test {
        Test::Compare(_, Right::Value(other)) => are_alike(value, other),
        Test::Compare(_, Right::Column(_)) => false,
        Test::Between(low, high) => are_alike(value, low) && are_alike(value, high),
        Test::Within(others) => others
            .as_slice()
            .iter()
            .all(|other| are_alike(value, other)),
        Test::IsNull => true,
    }
}

/// Whether two values are of one kind, of which a null is.
fn are_alike(a: &Value, b: &Value) -> bool
    ensures { result ≡ are_alike a.now b.now }
{
    match (a, b) {
        (Value::Null, _) | (_, Value::Null) => true,
        (Value::Int(_), Value::Int(_)) => true,
        (Value::Text(_), Value::Text(_)) => true,
        (Value::Day(_), Value::Day(_)) => true,
        _ => false,
    }
}
