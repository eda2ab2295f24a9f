// What a column is set to on a row, computed in 128 bits.
ghost use Rattle.std.specs.Prelude.{◌≡◌, length, IfOk, IsTrue};
ghost use Rattle.statement_meaning.specs.Doing as spec;
ghost use Rattle.mdc_ast.specs.Database.{is_null};
ghost use Rattle.row_checks.specs.RowChange.{item_is_within, is_storable, operand_is_within, value_given};
ghost use Rattle.mdc_values.specs.declared.value.Value.TheVariants.{Int};

use mdc_ast::{BoundItem, BoundOperand, Sign};
use mdc_values::{Memory, Value};
use std::alloc::Global;

/// What a column is set to, before it is known to fit. Two numbers of 64 bits make a number of 128 bits.
#[derive(Clone, Copy, Debug)]
pub enum Given<'r> {
    Lent(&'r Value),
    Number(i128),
    Null,
}

/// What an item gives on a row. It needs that the columns that it names are there.
pub fn item_on<'r>(values: &'r [Value], item: &'r BoundItem) -> Given<'r>
    requires { IsTrue (item_is_within (length values.now) item.now) }
    ensures { value_given result ≡ spec.item_on values.now item.now }
{
    match item {
        BoundItem::One(operand) => Given::Lent(operand_on(values, operand)),
        BoundItem::Two(a, sign, b) => {
            computed(*sign, operand_on(values, a), operand_on(values, b))
        }
    }
}

/// Whether it is null.
pub fn is_null(given: Given<'_>) -> bool
    ensures { result ≡ is_null (value_given given.entry) }
{
    match given {
        Given::Lent(Value::Null) => true,
        Given::Lent(_) => false,
        Given::Number(_) => false,
        Given::Null => true,
    }
}

/// The value itself. Only a text takes memory.
pub fn to_value(alloc: Global, given: Given<'_>) -> Result<Value, Memory>
    requires { IsTrue (is_storable (value_given given)) }
    ensures { IfOk result (λ value. value ≡ value_given given.entry) }
{
    match given {
        Given::Lent(value) => value.copy(alloc),
        Given::Number(number) => Ok(Value::Int(number as i64)),
        Given::Null => Ok(Value::Null),
    }
}

fn operand_on<'r>(values: &'r [Value], operand: &'r BoundOperand) -> &'r Value
    requires { IsTrue (operand_is_within (length values.now) operand.now) }
    ensures { result.now ≡ spec.operand_on values.now operand.now }
{
    match operand {
        BoundOperand::Column(column) => &values[*column as usize],
        BoundOperand::Value(value) => value,
    }
}

// A null operand gives null.
fn computed<'r>(sign: Sign, a: &Value, b: &Value) -> Given<'r>
    ensures { value_given result ≡ spec.computed sign a.now b.now }
{
    match (a, b) {
        (Value::Int(a), Value::Int(b)) => Given::Number(computed_number(sign, *a, *b)),
        _ => Given::Null,
    }
}

fn computed_number(sign: Sign, a: i64, b: i64) -> i128
    ensures { result ≡ spec.computed_number sign a b }
{
    let (a, b) = (i128::from(a), i128::from(b));
    match sign {
        Sign::Plus => a + b,
        Sign::Minus => a - b,
        Sign::Times => a * b,
    }
}
