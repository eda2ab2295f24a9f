//! The block map of a table: which blocks are the table's, what state each is in, and how many rows it has.
//!
//! A block map is a tree of entries of seven bytes, which name their blocks. To contracts it is the list of these entries,
//! by rising block. It promises that a block is found exactly where the map names it, in one descent; that a row is entered,
//! replaced and taken out as one entry of that tree; that a row more or less of a Used block is counted within the bounds that
//! are asked for; that `rows` and `list` give exactly the rows and the blocks of a state; and that `first_free_from` gives the
//! lowest Free block from a number on. Pages aren't trusted: where what a call looks at is no entry of a block map, or its
//! blocks don't rise, it answers Damaged with the root and rule 6, and never where the map had its form.
//!
//! It stands on `entry_tree` for the tree. It takes no memory of its own but for a list that it answers and one leaf.
#![tactic(auto)]

mod by_state;
mod changing;
mod counting;
mod entering;
mod looking;
mod map;
mod row;
mod state;
mod walk;

pub use looking::FoundRow;
pub use map::BlockMap;
pub use row::BlockRow;
pub use state::BlockState;
