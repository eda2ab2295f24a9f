// Lines as they are given.
use mdc_values::{List, Value};

/// What a place of a line shows: a value, a count, or a sum, which is None where there was nothing to add.
#[derive(Debug, Drop)]
pub enum Shown {
    Value(Value),
    Count(u64),
    Sum(Option<i64>),
}

/// A line: the values that it is ordered by, and what it shows.
#[derive(Debug, Drop)]
pub struct Line {
    pub sorts: List<Value>,
    pub shows: List<Shown>,
}
