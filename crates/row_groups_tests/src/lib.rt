//! Tests of `row_groups`: lines written by hand.
//!
//! It promises nothing. It stands on `row_groups`, `mdc_ast` and `mdc_values`.
#![tactic(auto)]

#[cfg(test)]
mod tests;
