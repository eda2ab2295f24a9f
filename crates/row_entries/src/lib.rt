//! The entries of a row in all record indexes of its table.
//!
//! `enter_row` enters a row in each record index, `leave_row` takes it out of each, and `renew_row` does both where a row in a
//! place became another, in those indexes alone in which their keys differ. Each is the changes of space that its entries are, one
//! index after the other, and leaves all else of the table as it is: its other trees, its blocks and its rows. `Full` says that an
//! entry asks for more extents than are free, and damage is a table that doesn't stand or, by rule 11 at the root of an index, an
//! entry that is there already or isn't there.
//!
//! It stands on `record_index`, on the words of `mdc_sound` for a table that stands, and on what `table_blocks` knows of spots. Its
//! laws say that record indexes are sound still when rows come and go with their entries, and that what these calls expect holds
//! of sound ones.
#![tactic(auto)]

mod choosing;
mod entering;
mod laws;
mod leaving;
mod renewing;

pub use entering::enter_row;
pub use laws::{
    moved_rows_keep_indexes_sound, placing_leaves_pending_blocks, sound_indexes_are_as_expected,
    standing_rows_lie_apart,
};
pub use leaving::leave_row;
pub use renewing::renew_row;
