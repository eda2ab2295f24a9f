//! Lists of whole blocks and of places of rows, their intersections and unions, and a cursor over the parts of a tree of them.
//!
//! It promises that an intersection and a union stand for exactly the rows of both and of either, that lists are
//! determined by the rows that they stand for, that of given blocks exactly those are answered which lists touch, and
//! that the cursor gives the parts of a tree's lists one after another, by rising block: a part for each block that they
//! touch. It stands on `mdc_values`.
#![tactic(auto)]

mod joining;
mod laws;
mod lists;
mod making;
mod many;
mod members;
mod merge;
mod numbers;
mod part;
mod parting;
mod places;
mod slots;
mod touching;
mod tree;
mod tree_lists;

pub use joining::{and_lists, or_lists};
pub use laws::{lists_rise_apart, same_rows_same_lists};
pub use lists::Lists;
pub use making::{empty, from_blocks, from_rids};
pub use many::{and_all, or_all};
pub use members::{Members, has_members, leaf};
pub use merge::Merge;
pub use part::Part;
pub use slots::Slots;
pub use touching::touched_blocks;
pub use tree::ListTree;
pub use tree_lists::lists_of_tree;
