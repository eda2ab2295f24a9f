//! Calls on the rows of one table, each whole by itself: a change is made and kept, or all is as it was.
//!
//! They are for a front of its own over the table layer, which has no mark open. A change begins with a mark and ends with
//! `keep`, or goes back to it. Damage is exact: it is the first rule that the pages break, with the definition in hand in the place
//! of its table page, and the lowest page that breaks it. So none is answered where the pages are sound. It stands on the rows of a
//! table (`mdc_table`, `table_scan`), on their changes (`cell_change`), and on `file_check`.
#![tactic(auto)]

mod changing;
mod deleting;
mod ending;
mod inserting;
mod judging;
mod placing;
mod reading;
mod taking;

pub use changing::change_row;
pub use deleting::delete_row;
pub use free_space::Rooms;
pub use inserting::insert_row;
pub use mdc_table::{Account, Hit};
pub use placing::place_row;
pub use reading::{account_of, find_rows, row_at, rows_of_block, used_blocks};
pub use taking::take_row;
