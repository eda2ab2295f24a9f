//! A predicate judged on rows where they lie, in the bytes of their pages.
//!
//! It promises that a filter takes exactly the rows that qualify. It reads the columns that its predicate names alone, and of
//! parts that an outermost AND joins none behind the first that is not true, which no clause says. It stands on `predicate` for
//! truth and on `row_page` for rows that are lent.
#![tactic(auto)]

mod filter;
mod judging;
mod reading;

pub use filter::RowFilter;
