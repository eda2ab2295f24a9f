//! The reference reader of a database: its tables by their pages, and nothing else.
//!
//! It reads the table pages, the block maps and the row pages of Used blocks, as they are, and sorts rows by their numbers. It
//! looks at no block index and at no record index, and takes no other crate's word for what a page holds. So it can judge what
//! the layers above make of a file. It promises that what it answers is the one database that the pages stand for, and that
//! the page that it names breaks the rule that it names.
//!
//! It stands on `table_page` for definitions, on `block_map` for the blocks of a table, on `row_page` for rows, and on the words
//! of `mdc_sound`.
#![tactic(auto)]

mod block;
mod database;
mod definition;
mod order;
mod page;
mod rows;
mod table;

pub use database::read_database;
pub use table::{ReadTable, read_table};
