// The values of generated columns.
ghost use Rattle.std.specs.Prelude.{◌≡◌, IfErr, IfOk, IsFalse, IsTrue};
ghost use Rattle.mdc_values.specs.declared.value.Value.TheVariants.{Int};
ghost use Rattle.mdc_ast.specs.Database.{is_of_type};
ghost use Rattle.mdc_ast.specs.Divisors.{HasDivisor};
ghost use Rattle.mdc_ast.specs.FittingRows.{generated_value};

use crate::making::made_of;
use mdc_ast::GenExpr;
use mdc_values::{ColType, Value};

/// A generated value is outside the type of its column.
#[derive(Clone, Copy, Debug, PartialEq, Eq)]
pub struct Overflow;

/// The value that a generated column of the target type has for a value of its base.
pub fn value_of(e: &GenExpr, target: ColType, base: &Value) -> Result<Value, Overflow>
    requires divisor { HasDivisor e.now }
    ensures value { IfOk result (λ value. (value ≡ generated_value e.now.kind e.now.k base.now) × IsTrue (is_of_type target value)) }
    ensures overflow { IfErr result (λ _. IsFalse (is_of_type target (generated_value e.now.kind e.now.k base.now))) }
{
    let Some(number) = made_of(e, base) else {
        return Ok(Value::Null);
    };
    if !holds(target, number) {
        return Err(Overflow);
    }
    Ok(Value::Int(number as i64))
}

/// Whether a number lies in the range of a type.
fn holds(target: ColType, number: i128) -> bool
    ensures { result ≡ is_of_type target (Int number) }
{
    match target {
        ColType::Integer => i32::try_from(number).is_ok(),
        ColType::Bigint => i64::try_from(number).is_ok(),
        ColType::Char(_) | ColType::Date => false,
    }
}
