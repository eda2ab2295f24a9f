//! Tests of `reference_engine`: scripts of a few statements, and the replies of plain lists of rows.
//!
//! It promises nothing. It stands on `reference_engine`, `answer_text`, `mdc_ast` and `mdc_values`.
#![tactic(auto)]

#[cfg(test)]
mod tests;
