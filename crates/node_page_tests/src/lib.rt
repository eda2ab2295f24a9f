//! Tests of `node_page`: node pages with one byte changed, and what a view says of them.
//!
//! It promises nothing. It stands on `node_page` and `store_api`.
#![tactic(auto)]

#[cfg(test)]
mod tests;
