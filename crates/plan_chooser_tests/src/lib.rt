//! Tests of `plan_chooser`, by hand: the words of plans in each mode, and the one span of BETWEEN and another comparison.
//!
//! All of it is tests: that the plan rule, which the clauses of `plan_chooser` cite, says what was meant. It stands on `plan_chooser`,
//! `mdc_ast` and `mdc_values`.
#![tactic(auto)]

#[cfg(test)]
mod tests;
