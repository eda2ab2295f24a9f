//! Tests of `table_page`: a table page worked by hand, read and printed, and pages that are no table page.
//!
//! It promises nothing. It stands on `table_page`, `store_api`, `mdc_ast` and `mdc_values`.
#![tactic(auto)]

#[cfg(test)]
mod tests;
