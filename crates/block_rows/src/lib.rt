//! The rows of a block: the slots of its pages, one page behind the other.
//!
//! A block is an extent whose pages are row pages. It promises that a row goes into the lowest empty slot, that a change of a
//! slot changes that slot alone, that a block which comes into use is empty, and that a scan gives the rows of a block that a
//! filter takes to a sink, by rising slot and where they lie, and reads each page once; a scan of some slots reads the
//! pages of these alone. A call touches pages of its block alone.
//! Pages aren't trusted: one that isn't a row page of the table's columns is named by rule 7.
//!
//! It stands on `row_page` for pages, on `row_filter` for which rows are taken, on `extent_map` for where extents lie, and on the
//! words of `mdc_sound`.
#![tactic(auto)]

mod cell_columns;
mod changing;
mod counted;
mod hit;
mod met_rows;
mod page_changing;
mod page_reading;
mod places;
mod reading;
mod row_sink;
mod seats;
mod seen_rows;
mod slot_reading;

pub use cell_columns::CellColumns;
pub use changing::{clear_slot, put_first, put_slot, wipe_block};
pub use counted::scan_counted;
pub use hit::Hit;
pub use reading::{row_in_slot, rows_of_block, scan_block};
pub use row_sink::RowSink;
pub use seats::find_seat;
pub use seen_rows::SeenRows;
pub use slot_reading::scan_slots;
