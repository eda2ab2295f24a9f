//! Where a row of a cell finds room.
//!
//! `Rooms` are notes in memory, for each cell the block from which on one may have room, and whether that is known to be one of
//! its blocks, so that a row may go there without a search. A note that is too low costs only time, and a lost one is 0.
//! `find_room` walks the blocks of a cell from the noted one on, and answers the lowest one that has an empty slot, by the counts
//! of the block map. It looks at no row page.
//!
//! It stands on `block_index` for the blocks of a cell, on `block_map` for their counts, on `row_page` for how many slots a page has,
//! and on the words of `mdc_sound`.
#![tactic(auto)]

mod finding;
mod rooms;

pub use finding::find_room;
pub use rooms::{Room, Rooms};
