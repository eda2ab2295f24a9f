//! Tests of `row_filter`: rows of a page by hand, and which of them filters take.
//!
//! It promises nothing. It stands on `row_filter`, `row_page`, `mdc_ast` and `mdc_values`.
#![tactic(auto)]

#[cfg(test)]
mod tests;
