//! Record indexes made and dropped on the pages of a database, with the table page that names them.
//!
//! `add_index` makes the tree of a record index, enters the rows of the table in it, and writes the table page with the index behind
//! the others; `drop_index` gives the tree back and writes the page without it. It promises that a sound database stays sound by
//! each, with the index more or less, and stands for the plain database with that definition and all rows as they were; that the
//! tree has an entry for each row of the Used blocks and no other; that it takes no more space than these entries ask for, and that
//! each page of a dropped tree is free for others; and that the catalog is changed only where the pages are.
//!
//! It stands on `stored_catalog` for trees that are made and table pages, on `record_index` for the entries of rows, on
//! `block_rows` for rows that were found, and on the words of `mdc_sound`.
#![tactic(auto)]

mod adding;
mod copying;
mod dropping;
mod filling;

pub use adding::add_index;
pub use dropping::drop_index;
