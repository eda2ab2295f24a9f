//! Tests of `predicate`, by hand: truth with three values before and after NOT is pushed.
//!
//! All of it is tests: that the definitions, which the clauses of `predicate` cite, say what was meant. It stands on
//! `predicate`, `mdc_ast` and `mdc_values`.
#![tactic(auto)]

#[cfg(test)]
mod truths;
