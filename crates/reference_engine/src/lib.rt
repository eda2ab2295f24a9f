//! A session as a program: tables in memory, each with its rows in one list, by row number, in transactions.
//!
//! It promises that a statement does to its session what the definitions of `statement_meaning` say, and answers so, and that
//! nothing has changed where memory was wanted. It is slow where a database over pages is fast, and is what such a one is compared
//! with. It stands on `row_checks` for what is asked of rows, and on `binder`, `answer_text` and `catalog`.
#![tactic(auto)]

mod copying;
mod defining;
mod deleting;
mod engine;
mod executing;
mod indexing;
mod inserting;
mod keys;
mod querying;
mod tables;
mod updating;

pub use engine::Engine;
