//! The block indexes of a table: its cells and their blocks.
//!
//! A table has a block index of all dimension columns, and one for each dimension. An entry is the key of a cell's values and
//! a block. `list_block` enters a block in all of them under the values of its cell, and `unlist_block` takes it out; each
//! touches these trees, the extent map and, where pages are claimed, unclaimed ones alone. Where an entry is there already,
//! or isn't there, the root of that index is named by rule 10.
//!
//! `first_block_from`, `blocks_of` and `blocks_in` read them: they answer exactly for whatever tree an index is told to hold,
//! bring pages of that index alone to hand, and name its root by rule 4 only where it hasn't the form of a tree. `cells` reads
//! the whole composite index: where each entry lists a block under a cell, it gives exactly these cells and blocks, in the
//! order of the index. `read_leaf` is the step of a walk over the entries of any tree, a leaf at a time, from `lowest_bound` on.
//! `are_of_one_cell` tells whether two rows have the same values in all dimensions.
//!
//! For an index of any kind, `enter` and `leave` change one tree by one entry, and name its root by the rule of its kind where
//! the entry is there already, or isn't there. `numbered` is an entry of a key and a number, `next_number` finds the lowest
//! number from one on under a key, and a `PartRange` says where a walk for the values of one part begins and ends.
//!
//! It stands on `table_trees` and `key_codec`, and on the steps of `mdc_words` for how many entries a search goes over.
#![tactic(auto)]

mod entering;
mod entries;
mod in_span;
mod key_numbers;
mod keys;
mod leaves;
mod leaving;
mod listed_cells;
mod one_cell;
mod one_entry;
mod part_range;
mod under_key;

pub use entering::list_block;
pub use in_span::blocks_in;
pub use key_numbers::{next_number, numbered};
pub use keys::cell_key;
pub use leaves::{is_below, lowest_bound, out_of_order, read_leaf};
pub use leaving::unlist_block;
pub use listed_cells::{CellBlock, cells};
pub use one_cell::are_of_one_cell;
pub use one_entry::{enter, leave};
pub use part_range::PartRange;
pub use under_key::{blocks_of, first_block_from};
