// Queries of two tables: as their texts give them, and bound.
use crate::predicate::Pred;
use crate::{Name, TestText};
use mdc_values::{Chars, List};

/// A column with its table's name before it.
#[derive(Debug, Drop)]
pub struct Qual {
    pub table: Name,
    pub column: Name,
}

/// One test of one column against literals. `negated` stands for the NOT within the test.
#[derive(Debug, Drop)]
pub struct JoinTest {
    pub column: Qual,
    pub negated: bool,
    pub test: TestText,
}

/// A query of two tables: `left` equals `right`, and each test holds.
#[derive(Debug, Drop)]
pub struct JoinText {
    pub list: List<Qual>,
    pub first: Name,
    pub second: Name,
    pub left: Qual,
    pub right: Qual,
    pub tests: List<JoinTest>,
}

/// What a query of two tables shows in one place of a line: a column of the first table, `side` 0, or of the second, `side` 1, under
/// the name that stands above it.
#[derive(Debug, Drop)]
pub struct JoinOut {
    pub side: u8,
    pub column: u8,
    pub name: Chars,
}

/// A query of two tables, whose rows meet where these two columns are equal, on whichever side of `=` each stood.
#[derive(Debug, Drop)]
pub struct BoundJoin {
    pub first: u8,
    pub second: u8,
    pub first_column: u8,
    pub second_column: u8,
    pub first_pred: Option<Pred>,
    pub second_pred: Option<Pred>,
    pub outs: List<JoinOut>,
}
