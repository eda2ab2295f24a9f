// Which literal fits which column.
ghost use Rattle.std.specs.Prelude.{◌≡◌};
ghost use Rattle.mdc_values.specs.Fitting.{AnswersFit, fit_of, in_bigint, in_integer, number_if, signed, text_fit};
ghost use Rattle.mdc_values.specs.Value.{trimmed};

use crate::calendar::read_day;
use crate::{Chars, ColType, Literal, Memory, Value};
use std::alloc::Global;

/// Why a literal isn't a value of a column.
#[derive(Clone, Copy, Debug, PartialEq, Eq)]
pub enum ValueFault {
    WrongType,
    OutOfRange,
    TooLong,
    NoDate,
    Memory,
}

impl From<Memory> for ValueFault {
    fn from(_: Memory) -> Self {
        ValueFault::Memory
    }
}

/// The value of a literal in a column. Only a text takes memory.
pub fn fit(alloc: Global, ty: ColType, literal: &Literal) -> Result<Value, ValueFault>
    ensures { AnswersFit (fit_of ty literal.now) result }
{
    match (ty, literal) {
        (_, Literal::Null) => Ok(Value::Null),
        (ColType::Integer, Literal::Number { negative, size }) => fit_integer(*negative, *size),
        (ColType::Bigint, Literal::Number { negative, size }) => fit_bigint(*negative, *size),
        (ColType::Char(limit), Literal::Text(text)) => fit_text(alloc, limit, text.bytes()),
        (ColType::Date, Literal::Text(text) | Literal::Date(text)) => {
            Ok(Value::Day(read_day(text.bytes()).ok_or(ValueFault::NoDate)?))
        }
        _ => Err(ValueFault::WrongType),
    }
}

fn fit_integer(negative: bool, size: u64) -> Result<Value, ValueFault>
    ensures { result ≡ number_if (in_integer (signed negative size)) (signed negative size) }
{
    let limit = if negative {
        2_147_483_648
    } else {
        2_147_483_647
    };
    if size > limit {
        return Err(ValueFault::OutOfRange);
    }
    let size = size as i64;
    Ok(Value::Int(if negative { -size } else { size }))
}

fn fit_bigint(negative: bool, size: u64) -> Result<Value, ValueFault>
    ensures { result ≡ number_if (in_bigint (signed negative size)) (signed negative size) }
{
    let wide = if negative {
        -(size as i128)
    } else {
        size as i128
    };
    let number = i64::try_from(wide).map_err(|_| ValueFault::OutOfRange)?;
    Ok(Value::Int(number))
}

fn fit_text(alloc: Global, limit: u8, text: &[u8]) -> Result<Value, ValueFault>
    ensures { AnswersFit (text_fit limit text.now) result }
{
    let text = trim(text);
    if text.len() > limit as usize {
        return Err(ValueFault::TooLong);
    }
    match Chars::of(alloc, text) {
        Ok(text) => Ok(Value::Text(text)),
        Err(Memory) => Err(ValueFault::Memory),
    }
}

/// A text without the blanks at its end, lent from it.
pub fn trim(text: &[u8]) -> &[u8]
    ensures { result.now ≡ trimmed text.now }
{
    let mut end = text.len();
    while end > 0 && text[end - 1] == b' ' {
        end -= 1;
    }
    &text[..end]
}
