//! Whole blocks of a table taken out of it at once.
//!
//! `applies` tells whether a DELETE may be done so: without a WHERE, or where each column that it names is a dimension column, so that all
//! rows of a block qualify or none does. `roll_out` then takes out exactly the rows that qualify: each block with such rows becomes
//! Free, and their entries leave the record indexes, as if they had been deleted one by one (`as_row_by_row`). Where a large part of the
//! table's rows goes each record index is swept once, and else the rows leave one by one. It answers how many rows and blocks went.
//! It claims no page and changes no row page. Row pages come to hand only where the table has a record index and fewer rows go, and
//! only those of the blocks that go: the counts are those of the block map, and the truth of a predicate is judged on the values of a
//! cell.
//!
//! `reclaim` gives the Free blocks back, which a table keeps else for later rows: they leave its block map, and their extents are free.
//!
//! It stands on the composite index and the block map of a table (`block_index`, `block_map`), on `mdc_table` for the rows of a block,
//! on `row_entries` and `record_index` for their entries, and on `table_blocks` for blocks that go out of use; and, for its proofs, on what
//! `cell_change` knows of spots.
#![tactic(auto)]

mod applying;
mod cells;
mod choosing;
mod laws;
mod leaving;
mod reclaiming;
mod rolling;
mod sweeping;

pub use applying::applies;
pub use laws::{as_row_by_row, deleted_one_by_one, rolled_rows_qualify, whole_blocks_qualify};
pub use reclaiming::reclaim;
pub use rolling::{RolledOut, roll_out};
