//! Tests of `cell_filter`, by hand: what may hold in a cell.
//!
//! All of it is tests: that the definition, which the clauses of `cell_filter` cite, says what was meant. It stands on
//! `cell_filter`, `mdc_ast` and `mdc_values`.
#![tactic(auto)]

#[cfg(test)]
mod cells;
