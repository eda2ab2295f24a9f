// The values of columns, and the types that columns have.
ghost use Rattle.std.specs.Prelude.{◌≡◌, IfOk, IsErr};

use crate::{Chars, Memory};
use std::alloc::Global;

/// A value of a row.
#[derive(Debug, Drop)]
pub enum Value {
    Null,
    Int(i64),
    /// In a row it has no trailing blanks.
    Text(Chars),
    /// A day as the number yyyymmdd.
    Day(u32),
}

/// The type of a column. A text of `Char(n)` has at most n bytes.
#[derive(Clone, Copy, Debug, PartialEq, Eq)]
pub enum ColType {
    Integer,
    Bigint,
    Char(u8),
    Date,
}

impl Value {
    ghost use Rattle.mdc_values.specs.Value.{IsText};

    /// An equal value. Only a text takes memory.
    pub fn copy(&self, alloc: Global) -> Result<Value, Memory>
        ensures ok { IfOk result (λ copy. copy ≡ self.now) }
        ensures memory { IsErr result → IsText self.now }
    {
        match self {
            Value::Null => Ok(Value::Null),
            Value::Int(number) => Ok(Value::Int(*number)),
            Value::Text(text) => Ok(Value::Text(Chars::of(alloc, text.bytes())?)),
            Value::Day(day) => Ok(Value::Day(*day)),
        }
    }
}
