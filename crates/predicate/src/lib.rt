//! The truth of predicates over the values of a row, and predicates without NOT.
//!
//! It promises that a predicate, and each test in it, has the truth that the definitions of `mdc_ast` give it, with no
//! memory taken, and that a predicate whose NOTs were pushed to its tests has the same truth on each row. It stands on
//! `mdc_ast` and `mdc_values`.
#![tactic(auto)]

mod combining;
mod comparing;
mod judging;
mod pushing;

pub use combining::negated_if;
pub use comparing::{op_if, opposite};
pub use judging::{truth, truth_of_test};
pub use pushing::push_not;
