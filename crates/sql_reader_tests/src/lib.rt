//! Tests of `sql_reader`: the items of a script, in whatever pieces its bytes come, with ample memory.
//!
//! It promises what a caller of the reader can tell of a whole run (`read_into`), and nothing else. A scenario is a function
//! over any source, so that its proof knows no concrete one. It stands on `sql_reader` and `mdc_outside`.
#![tactic(auto)]

#[cfg(test)]
mod edges;
#[cfg(test)]
mod items;
#[cfg(test)]
mod refusals;
#[cfg(test)]
mod tally;
mod whole;

pub use whole::read_into;
