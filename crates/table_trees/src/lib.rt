//! The trees of a table: where they are, and several of them side by side.
//!
//! It lends the handles of a table's trees (block map, block indexes, record indexes) from its definition, each with the root
//! and the width that `specs/TableTrees.antt` says. `specs/TreesBeside.antt` has the one fact by which layers above hand all
//! their trees on: at each place of a list stands a tree, each page of theirs is a used index page, and in one of them alone.
//! Lemmas say what a call on one tree, or on some of them, makes of all. It stands on `entry_tree` and `key_codec`.
#![tactic(auto)]

mod trees;
mod widths;

pub use trees::{block_index_tree, block_map_tree, composite_tree, dimension_tree, record_tree};
pub use widths::{cell_width, places_width};
