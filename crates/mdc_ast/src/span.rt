// Ranges of values in SQL order.
use mdc_values::Value;

/// A place between values in SQL order.
#[derive(Debug, Drop)]
pub enum Cut {
    First,
    Before(Value),
    After(Value),
    Last,
}

/// What lies between two cuts. It is empty where the low one isn't below the high one.
#[derive(Debug, Drop)]
pub struct Span {
    pub low: Cut,
    pub high: Cut,
}
