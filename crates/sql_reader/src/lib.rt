//! The items of a script, as its bytes come in: one for each statement, understood or refused. One statement is kept at a
//! time.
//!
//! It promises that the items are those of the grammar of `mdc_ast`, whatever pieces the bytes come in: a statement
//! exactly where the bytes spell one, a refusal with the place of the first byte or token with which none goes on; and
//! that each script has exactly one list of items. It stands on `mdc_ast` and on the sources of `mdc_outside`.
#![tactic(auto)]

mod change;
mod column;
mod comment;
mod creation;
mod cursor;
mod item;
mod laws;
mod lexer;
mod literal;
mod parser;
mod place;
mod predicate;
mod query;
mod reserved;
mod statements;
mod strange;
mod token;
mod trim;
mod upkeep;

pub use laws::{one_closing, one_reading, worked_reading};
pub use statements::{Read, ReadStop, SCRIPT_LIMIT, Statements};
