//! Tests of `block_rows`: each call on the rows of a block once, over a store in memory.
//!
//! It promises nothing. It stands on `block_rows`, `store_api`, `mdc_ast` and `mdc_values`.
#![tactic(auto)]

#[cfg(test)]
mod tests;
