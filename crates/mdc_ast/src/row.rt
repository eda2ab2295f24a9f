// What stands in a table.
use mdc_values::{List, Value};

/// A row: its number in the table, which counts from 0 in order of insertion, and a value for each column.
#[derive(Debug, Drop)]
pub struct Row {
    pub number: u64,
    pub values: List<Value>,
}

/// The values of the dimension columns, which all rows of a block share.
#[derive(Debug, Drop)]
pub struct Cell {
    pub values: List<Value>,
}
