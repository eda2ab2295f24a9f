//! Ordered sets of byte strings of one width, in pages: every index of a database is one.
//!
//! A tree is told by its root page, which never moves, and its width. To contracts it is the rising list of its entries, in a
//! forest that is a value of its own (`specs/Forest.antt`): leaves and inner nodes by page, with separators between children,
//! and branches as deep as they like. It promises that `has` answers for that list, and that `add` puts an entry into it,
//! having claimed exactly the pages that this asks for before a node changes, keeps each leaf half full that was so, and
//! touches no page of another tree, of a block or of a row; that `amend_found` replaces an entry where `find_from` found it, as
//! long as the pages are the same; and that `sweep_leaf` takes those entries of one leaf, from a
//! bound on, that name a block of a set, and says where the rest begins. Pages aren't trusted: where what a descent looks at
//! is no node of the tree, it answers Damaged with the root, and never where the tree had its form.
//!
//! It stands on `node_page` for a page as a node, on `extent_map` for the pages that are claimed, and on the contract of
//! pages, told or not. A node is looked at and changed in place; a page is copied where a node is cut in two.
#![tactic(auto)]

mod adding;
mod amending;
mod claims;
mod descent;
mod dropping;
mod edits;
mod entries;
mod finding;
mod first_leaf;
mod freeing;
mod going_up;
mod has;
mod laws;
mod leaf_place;
mod leaf_spot;
mod making;
mod naming;
mod nodes;
mod pruning;
mod reading;
mod removing;
mod sight;
mod spot;
mod sweeping;
mod tree;

pub use entries::{Entries, Entry, Leaf};
pub use finding::FoundEntry;
pub use laws::{one_tree, three_levels};
pub use sweeping::Swept;
pub use tree::{MAX_WIDTH, Tree};
