//! The rows of one statement: inserted, deleted or changed, one after the other.
//!
//! `insert_rows` puts rows numbered from the table's next number on, and raises that. `delete_rows` takes rows out, and
//! `change_rows` makes rows others, each in the order in which they are given. A call leaves a table that stands, in pages that
//! are sound as they are between two changes of rows, and makes the one change of the plain table that its name says. The blocks
//! of other tables stay, each in its state and with its rows in their slots. Trees take no more space than the changes of the rows
//! ask for, one after the other, and `Full` is said of the whole statement. Record indexes have the entries of all rows, and no other
//! but of Pending blocks.
//!
//! It stands on `cell_change` for one row at a time.
#![tactic(auto)]

mod changing;
mod deleting;
mod inserting;

pub use changing::{Turned, change_rows};
pub use deleting::delete_rows;
pub use inserting::insert_rows;
