//! The definitions of tables on their pages, and tables made and dropped there.
//!
//! Table page 1 + t of a store has the definition of table t, and zeros alone where there is no table. `load_catalog` reads them
//! all into a catalog in memory, `save_table` writes one back, and `save_next` its next row number alone. `add_table` makes a
//! table's trees and its table page, and `drop_table` gives its blocks and its trees back and clears its page. It promises that
//! a sound database stays sound by each, with the one table more or less and all others as they were; that a new table takes no
//! more space than its trees ask for; and that the catalog is changed only where the pages are. A new table has no record index:
//! `make_tree` and `write_def` serve a crate that makes one for a table that is there.
//!
//! It stands on `catalog` for the list in memory, on `table_page` for the bytes of a definition, on `entry_tree`, `block_map` and
//! `extent_map` for space, and on the words of `mdc_sound`.
#![tactic(auto)]

mod adding;
mod dropping;
mod loading;
mod numbering;
mod saving;

pub use adding::{add_table, make_tree};
pub use dropping::drop_table;
pub use loading::load_catalog;
pub use numbering::save_next;
pub use saving::{save_table, write_def};
