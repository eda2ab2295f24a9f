//! The rows of a table, in blocks by cell.
//!
//! `row_at`, `rows_of_used_block`, `scan_listed_block`, `scan_counted_block`, `scan_slots`, `used_blocks`, `used_lines` and
//! `account_of` read them. `place_row` puts a row where placing says: into the lowest Used block of its cell that has an empty slot,
//! else into the lowest Free block, else into the lowest free extent. `take_row` takes one out, and `overwrite_row` puts another of
//! the same cell in its place, and asks the block map of a block only where that isn't known to be Used. Wherever the table was told
//! to stand, it stands afterwards and has the rows that the call's name says, and all other tables are as they were.
//!
//! Notes in memory make a put cheap (`Rooms`): they are part of what a table is between calls. It stands on `table_blocks` for
//! one block at a time, on `free_space` for where a row finds room, and on the words of `mdc_sound`. Record indexes are not kept
//! here.
#![tactic(auto)]

mod account;
mod counted;
mod faults;
mod listed;
mod overwriting;
mod placing;
mod reading;
mod slots;
mod taking;

pub use account::{Account, account_of};
pub use block_rows::{CellColumns, Hit, RowSink};
pub use counted::scan_counted_block;
pub use free_space::Rooms;
pub use listed::{ListedBlock, scan_listed_block};
pub use overwriting::overwrite_row;
pub use placing::place_row;
pub use reading::{row_at, rows_of_line, rows_of_used_block, used_blocks, used_lines};
pub use slots::scan_slots;
pub use taking::take_row;
