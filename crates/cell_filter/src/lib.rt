//! Whether a predicate may be true of a row of a cell, by the values of the cell alone.
//!
//! It promises that it is judged as its definition says, with no memory taken, and that a predicate which is true of a row may
//! hold in the row's cell. It stands on `predicate` for the truth of a test.
#![tactic(auto)]

mod cells;
mod laws;

pub use cells::may_hold;
pub use laws::what_is_true_may_hold;
