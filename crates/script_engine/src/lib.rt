//! The engine: statements executed on the pages of a store, one after another, in transactions.
//!
//! It promises that a statement on sound pages is answered as plain lists of rows answer it, that it leaves sound pages that stand
//! for those lists, with rows where placing says, in trees that took no more space than these rows ask for, and the blocks of other
//! tables as they were, that LIST BLOCKS tells how many blocks a table has in each state, and EXPLAIN the plan of its query in the
//! mode that is set, how many blocks have a row of it and how many rows qualify, and that a statement which is refused changes
//! nothing. Outside a transaction its change is committed before the answer; a crash at any moment of a call leaves the pages of the
//! last commit before it or those that it commits. 70 is answered only where the statement runs full. Sound pages stand for such
//! lists, by the law here, and for no others, by one of `mdc_sound`: what is promised for each database that pages stand for is
//! promised for just one.
//!
//! Whatever the pages are, a refusal, a query, LIST BLOCKS and EXPLAIN change nothing, BEGIN, COMMIT and ROLLBACK do as the state of
//! the transaction has it, a setting changes what the run is set to and nothing else, what isn't built is refused with 14, a stop
//! commits nothing, unless a call of the disk failed, and damage is that of the pages as they were held before the statement, at
//! ROLLBACK of those of the last commit: the first rule that they break, and the lowest page that breaks it.
//!
//! It stands on `binder` for what a statement means, on `table_query` and `executor` for rows that are found by the plan in the mode that
//! is set, on `plan_chooser` for that plan's word, on `rollout`, `statement_rows`, `index_building` and `stored_catalog` for what a
//! statement does to pages, on `mdc_table` for the count of a table's blocks, on `row_checks` and `unique_keys` for what is said against
//! its rows, and on `file_check` for which rule pages break.
#![tactic(auto)]

mod class;
mod committing;
mod damage;
mod defining;
mod deleting;
mod engine;
mod executing;
mod explaining;
mod indexing;
mod inserting;
mod keys;
mod laws;
mod listing;
mod opening;
mod querying;
mod reclaiming;
mod set_keys;
mod table_rooms;
mod tables;
mod transactions;
mod updating;

pub use engine::Engine;
pub use laws::{served_pages_are_valid, sound_pages_stand};
pub use opening::Stopped;
