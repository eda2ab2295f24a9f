//! Tests of `mdc_values`, by values worked by hand: what fits, how it is shown, and what stands before what.
//!
//! It promises nothing. It stands on `mdc_values`.
#![tactic(auto)]

#[cfg(test)]
mod tests;
