//! Tests of `gen_columns`: values and derived spans by hand, and the cells that worked queries read.
//!
//! All of it is tests: that the meaning of a generated column and the rule of derived spans, which the clauses of `gen_columns` cite,
//! say what was meant. It stands on `gen_columns`, `mdc_ast` and `mdc_values`.
#![tactic(auto)]

#[cfg(test)]
mod cells;
#[cfg(test)]
mod columns;
#[cfg(test)]
mod spans;
#[cfg(test)]
mod values;
