//! One block of a table changed, while the rest of the table stands.
//!
//! A block comes into use with its first row (`begin_free_block`, `begin_new_block`), takes rows (`put_in_block`, and
//! `put_if_room` where it isn't known yet whether it is of the cell and has room), has rows written over (`overwrite_row`, and
//! `overwrite_row_of_used` where it is known to be Used), and loses rows until it is Free without the last one (`take_row`). It goes
//! out of use as a whole too, whatever rows it holds (`release_block`): Free, or Pending, while record indexes still name it. A Free
//! one is given back (`reclaim_block`). Each call changes that block, its line in the block map and its entries in the block indexes,
//! and leaves the record indexes. Where the table was told to stand it stands afterwards: one block is another, and other extents are
//! as they were but for what its trees took or gave back. Where it wasn't, damage of a part of it may be named, and of nothing else.
//!
//! It stands on `block_map`, `block_index` and `block_rows` for the three things that it changes, and on the words of
//! `mdc_sound`. Which block a row goes to is for the caller.
#![tactic(auto)]

mod beginning;
mod cells;
mod faults;
mod filling;
mod lines;
mod overwriting;
mod reclaiming;
mod releasing;
mod taking;

pub use beginning::{begin_free_block, begin_new_block};
pub use faults::miscounted;
pub use filling::{put_if_room, put_in_block};
pub use overwriting::{overwrite_row, overwrite_row_of_used};
pub use reclaiming::reclaim_block;
pub use releasing::release_block;
pub use taking::take_row;
