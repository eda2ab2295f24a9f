// Literals: what is said against one in a column, and its value.
ghost use Rattle.std.specs.Prelude.{◌≡◌, IfOk, Result};
ghost use Rattle.mdc_values.specs.Fitting.{AnswersFit, fit_of};
ghost use Rattle.mdc_values.specs.declared.fitting.ValueFault.{ValueFault};
ghost use Rattle.mdc_values.specs.declared.value.Value.{Value};
ghost use Rattle.statement_meaning.specs.Judging.{fit_compared, judged_value};
ghost use Rattle.binder.specs.Saying.{first_of, said_by};
ghost use Rattle.binder.specs.Classes.{fault_causes, fault_in, literal_causes};

use crate::objection::Objection;
use mdc_ast::Name;
use mdc_values::{Chars, ColType, Literal, Memory, Value, ValueFault, fit, trim};
use std::alloc::Global;

/// The classes of refusals that are judged literal by literal and name by name, in their order.
#[derive(Clone, Copy, Debug, PartialEq, Eq)]
pub enum Class {
    Columns,
    Types,
    Values,
}

/// Judges a literal in the column of that name and type.
pub fn judge_literal<'a>(
    alloc: Global,
    class: Class,
    name: &'a Name,
    ty: ColType,
    literal: &Literal,
) -> Result<(), Objection<'a>>
    ensures { first_of (literal_causes class name.now (fit_of ty literal.now)) ≡ said_by result }
{
    judge_fault(class, name, fault_of(alloc, ty, literal))
}

/// Judges a literal that is compared with the column of that name and type.
pub fn judge_compared<'a>(
    alloc: Global,
    class: Class,
    name: &'a Name,
    ty: ColType,
    literal: &Literal,
) -> Result<(), Objection<'a>>
    ensures { first_of (literal_causes class name.now (fit_compared ty literal.now)) ≡ said_by result }
{
    judge_fault(class, name, fault_compared(alloc, ty, literal))
}

fn judge_fault<'a>(
    class: Class,
    name: &'a Name,
    fault: Option<ValueFault>,
) -> Result<(), Objection<'a>>
    ensures { first_of (fault_causes class name.now fault) ≡ said_by result }
{
    match (class, fault) {
        (Class::Types, Some(ValueFault::WrongType)) => Err(Objection::WrongType(name)),
        (Class::Values, Some(ValueFault::OutOfRange)) => Err(Objection::OutOfRange(name)),
        (Class::Values, Some(ValueFault::TooLong)) => Err(Objection::TextTooLong(name)),
        (Class::Values, Some(ValueFault::NoDate)) => Err(Objection::NoDate(name)),
        _ => Ok(()),
    }
}

// Why a literal isn't a value of a column, if it isn't. It takes no memory.
fn fault_of(alloc: Global, ty: ColType, literal: &Literal) -> Option<ValueFault>
    ensures { result ≡ fault_in (fit_of ty literal.now) }
{
    match (ty, literal) {
        (ColType::Char(limit), Literal::Text(text)) => fault_of_text(limit, text.bytes()),
        _ => fault_of_fit(fit(alloc, ty, literal)),
    }
}

// Only a value that fits wants memory.
fn fault_of_fit(fitted: Result<Value, ValueFault>) -> Option<ValueFault>
    ensures { (asked : Result Value ValueFault) → AnswersFit asked fitted → result ≡ fault_in asked }
{
    match fitted {
        Ok(_) | Err(ValueFault::Memory) => None,
        Err(fault) => Some(fault),
    }
}

fn fault_of_text(limit: u8, text: &[u8]) -> Option<ValueFault>
    ensures { result ≡ fault_in (fit_of (ColType.Char limit) (Literal.Text text.now)) }
{
    if trim(text).len() > limit as usize {
        return Some(ValueFault::TooLong);
    }
    None
}

// Why a literal can't be compared with a column, if it can't. It takes no memory.
fn fault_compared(alloc: Global, ty: ColType, literal: &Literal) -> Option<ValueFault>
    ensures { result ≡ fault_in (fit_compared ty literal.now) }
{
    match (ty, literal) {
        (ColType::Char(_), Literal::Text(_)) => None,
        (ColType::Integer, _) => fault_of(alloc, ColType::Bigint, literal),
        _ => fault_of(alloc, ty, literal),
    }
}

/// The value of a literal in a column, and a null where it isn't one.
pub fn value_of(alloc: Global, ty: ColType, literal: &Literal) -> Result<Value, Memory>
    ensures { IfOk result (λ value. value ≡ judged_value (fit_of ty literal.now)) }
{
    match fit(alloc, ty, literal) {
        Ok(value) => Ok(value),
        Err(ValueFault::Memory) => Err(Memory),
        Err(_) => Ok(Value::Null),
    }
}

/// The value of a literal that is compared with a column, and a null where it can't be.
pub fn value_compared(alloc: Global, ty: ColType, literal: &Literal) -> Result<Value, Memory>
    ensures { IfOk result (λ value. value ≡ judged_value (fit_compared ty literal.now)) }
{
    match (ty, literal) {
        (ColType::Char(_), Literal::Text(text)) => {
            Ok(Value::Text(Chars::of(alloc, trim(text.bytes()))?))
        }
        (ColType::Integer, _) => value_of(alloc, ColType::Bigint, literal),
        _ => value_of(alloc, ty, literal),
    }
}
