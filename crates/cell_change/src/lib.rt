//! One change of a table's rows: one is inserted, deleted or changed.
//!
//! `insert_row` puts a row whose number is the table's next one, and raises that. `delete_row` takes one out. `change_row` makes
//! one another: in its place where it keeps its cell, and else it takes the old one out before it puts the new one. Each places
//! exactly, makes the one change of the table's rows that its name says, with its entries in all record indexes, and keeps all
//! pages sound as they are between two changes of rows.
//!
//! It stands on `mdc_table` for rows in blocks and on `row_entries` for their entries, and on the words of `mdc_sound`.
#![tactic(auto)]

mod changing;
mod deleting;
mod inserting;
mod putting;
mod rewriting;

pub use changing::change_row;
pub use deleting::delete_row;
pub use inserting::insert_row;
