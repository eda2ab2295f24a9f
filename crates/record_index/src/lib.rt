//! The record indexes of a table: an entry for each row, in the order of a key.
//!
//! An entry is the key of a row, whose parts may descend, and the place of the row: its block and its slot. `add_row` enters
//! one in one index and `drop_row` takes one out; each changes that tree alone, whatever trees stand beside it, and is one
//! change of space. Where the entry is there already, or isn't there, the root of the index is named by rule 11, and for nothing
//! else where the extent map and the tree have their form.
//!
//! `rids_under` gives the places of the rows of one key, `rid_under` the first of them from a place on, and `rids_in` those of the
//! rows whose value in the first part lies in a span, with the number of their entries; an entry may be one of a row that is gone,
//! whose block waits for its cleanup.
//! `sweep_step` takes the entries of such blocks out of one leaf, and `first_bound` is where a sweep begins.
//!
//! It stands on `table_trees`, `block_index` and `key_codec`, on the steps of `mdc_words`, by which it counts the entries of a
//! span, and, for its laws, on `mdc_sound`: what a sound record index says of the entries of rows, and of what is found.
#![tactic(auto)]

mod adding;
mod dropping;
mod entries;
mod in_span;
mod keys;
mod laws;
mod places;
mod sweeping;
mod under_key;

pub use adding::add_row;
pub use dropping::drop_row;
pub use in_span::rids_in;
pub use laws::{sound_indexes_find_rows, sound_indexes_have_rows};
pub use sweeping::{first_bound, sweep_step};
pub use under_key::{rid_under, rids_under};
