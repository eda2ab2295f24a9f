//! Tests of `block_lists`, by small lists worked by hand: what both stand for, what one of them does, and their parts.
//!
//! It promises nothing. It stands on `block_lists` and `mdc_values`.
#![tactic(auto)]

#[cfg(test)]
mod tests;
