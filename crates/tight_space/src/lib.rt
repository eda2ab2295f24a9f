//! When a statement that only puts runs full on tight pages, and that it leaves them tight.
//!
//! A CREATE TABLE, a CREATE INDEX or an INSERT runs full there only where the database that it would make needs more extents than
//! there are, and changes of space that claim, make and add keep pages tight. These are laws on the words of `mdc_sound` and
//! `table_trees`: it makes no call of a store.
#![tactic(auto)]

mod laws;

pub use laws::{changes_leave_tight_pages, full_only_beyond_need, no_tables_are_tight};
