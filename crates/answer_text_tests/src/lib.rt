//! Tests of `answer_text`: answers written by hand, each refusal, each reply and the lines of a query.
//!
//! It promises nothing. It stands on `answer_text`, `mdc_ast` and `mdc_values`.
#![tactic(auto)]

#[cfg(test)]
mod tests;
