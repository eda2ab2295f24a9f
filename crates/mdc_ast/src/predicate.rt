// Predicates: as their texts give them, and bound to the columns of a table.
use crate::{Name, Operand};
use mdc_values::{Boxed, List, Literal, Op, Value};

/// What a column is tested for.
#[derive(Debug, Drop)]
pub enum TestText {
    Compare(Op, Operand),
    Between(Literal, Literal),
    Within(List<Literal>),
    IsNull,
}

/// One test of one column. `negated` stands for the NOT within the test.
#[derive(Debug, Drop)]
pub struct AtomText {
    pub column: Name,
    pub negated: bool,
    pub test: TestText,
}

/// A predicate. `All` are joined by AND and `Any` by OR, two or more of them; one in parentheses is that one.
#[derive(Debug, Drop)]
pub enum PredText {
    Atom(AtomText),
    All(List<PredText>),
    Any(List<PredText>),
    Not(Boxed<PredText>),
}

/// What a column is compared with: a value, or another column by its place.
#[derive(Debug, Drop)]
pub enum Right {
    Value(Value),
    Column(u8),
}

/// What a bound column is tested for.
#[derive(Debug, Drop)]
pub enum Test {
    Compare(Op, Right),
    Between(Value, Value),
    Within(List<Value>),
    IsNull,
}

/// One test of one column, by its place. `negated` stands for the NOT within the test.
#[derive(Debug, Drop)]
pub struct Atom {
    pub column: u8,
    pub negated: bool,
    pub test: Test,
}

/// A predicate over the columns of a table. `All` of nothing is true, and `Any` of nothing is false.
#[derive(Debug, Drop)]
pub enum Pred {
    Atom(Atom),
    All(List<Pred>),
    Any(List<Pred>),
    Not(Boxed<Pred>),
}
