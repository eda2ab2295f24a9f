//! Tests of `row_page` by bytes worked by hand (docs/FORMAT.md, "Rows"): how many slots a page has, the bytes of rows, of a
//! head and of slots, what a view lends of them, and what is no row page.
//!
//! All of it is tests. It stands on `row_page`, `store_api`, `mdc_ast` and `mdc_values`.
#![tactic(auto)]

#[cfg(test)]
mod tests;
