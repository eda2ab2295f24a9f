//! The rows of a table that a predicate is true of, found by reading the Used blocks in whose cells it may hold.
//!
//! It promises that exactly the rows that qualify are given to a sink where they lie, or found as copies by rising row number,
//! and that of row pages only those of such blocks come to hand, each once: the composite index says which these are. Where cells
//! settle which rows qualify it counts them, and no row page comes to hand. No clause says that a row that doesn't qualify isn't
//! copied, nor that a test which the cell settles is left out for its rows. It stands on `block_index` for the cells, on `mdc_table`
//! for blocks, on `cell_filter` for what may hold in a cell, and on `row_filter` for what is true of a row.
#![tactic(auto)]

mod choosing;
mod copying;
mod counting;
mod finding;
mod settling;

pub use counting::{count_rows, is_settled_by_cells};
pub use finding::{find_rows, scan_rows};
pub use settling::unsettled;
