// Whether rows are of one cell.
ghost use Rattle.std.specs.Prelude.{◌≡◌, ◌↔◌, ◌<◌, ◌≤◌, IsTrue, length, map};
ghost use Rattle.std.specs.List.{AllByRecursion};
ghost use Rattle.mdc_ast.specs.Truth.{value_at};
ghost use Rattle.mdc_ast.specs.TableLimits.{IsTableDef};
ghost use Rattle.table_trees.specs.RowCells.{AreOfOneCell};

use mdc_ast::TableDef;
use mdc_values::{List, Value};

/// Whether rows of these values, one for each column at least, are of one cell.
pub fn are_of_one_cell(def: &TableDef, a: &List<Value>, b: &List<Value>) -> bool
    requires defined { IsTableDef def.now.number def.now }
    requires a { length def.now.columns ≤ length a.now }
    requires b { length def.now.columns ≤ length b.now }
    ensures { IsTrue result ↔ AreOfOneCell def.now a.now b.now }
{
    for dim in def.dims.as_slice() {
        if !are_same_at(dim, a, b) {
            return false;
        }
    }
    true
}

/// Whether rows have the same values in some places.
fn are_same_at(places: &List<u8>, a: &List<Value>, b: &List<Value>) -> bool
    requires a { AllByRecursion (λ place. place < length a.now) places.now }
    requires b { AllByRecursion (λ place. place < length b.now) places.now }
    ensures { IsTrue result ↔ map (value_at a.now) places.now ≡ map (value_at b.now) places.now }
{
    for place in places.as_slice() {
        let place = usize::from(*place);
        if !is_same(a.at(place), b.at(place)) {
            return false;
        }
    }
    true
}

/// Whether two values are the same.
fn is_same(a: &Value, b: &Value) -> bool
    ensures { IsTrue result ↔ a.now ≡ b.now }
{
    match (a, b) {
        (Value::Null, Value::Null) => true,
        (Value::Int(a), Value::Int(b)) => a == b,
        (Value::Text(a), Value::Text(b)) => a.bytes() == b.bytes(),
        (Value::Day(a), Value::Day(b)) => a == b,
        _ => false,
    }
}
