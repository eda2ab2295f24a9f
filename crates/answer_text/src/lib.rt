//! The whole texts of answers: of replies, of refusals, and the lines of a query, of LIST BLOCKS and of EXPLAIN.
//!
//! It promises that they are the texts that the definitions of `statement_meaning` give them, byte for byte, and that nothing is
//! written where memory is wanting. Each text is written once, where it is to stand. The lines of a query are written as rows come,
//! where each has its own, and else behind the last row, from the groups of `row_groups`. It stands on `statement_meaning`,
//! `row_groups`, `mdc_ast`, `mdc_values` and the numbers of `itoa`.
#![tactic(auto)]

mod appending;
mod block_counts;
mod entries;
mod explained_plan;
mod fault;
mod grouped;
mod lines;
mod query_lines;
mod refusals;
mod replies;
mod select;
mod wordings;

pub use block_counts::blocks_line;
pub use explained_plan::explain_text;
pub use fault::AnswerFault;
pub use lines::Lines;
pub use query_lines::QueryLines;
pub use refusals::refusal_bytes;
pub use replies::{outcome_bytes, reply_bytes};
pub use select::select_lines;
