//! The lists of a plan, read from the indexes of a table.
//!
//! `tree_of_plan` makes of a plan a tree of lists: of whole blocks, as the index of a dimension lists them, and of places of rows, as a
//! record index names them. It promises that the tree holds the place of a row exactly where the plan has the row, that the blocks which
//! it names whole are Used ones, and that each other place which it holds in a Used block is one of a row. Only pages of the trees that
//! the plan names come to hand, and of the block map where the plan has all rows. It stands on `plan_chooser` for plans, on `block_lists`
//! for lists, and on `block_index`, `record_index` and `mdc_table` for what the trees of a table say.
#![tactic(auto)]

mod leaves;
mod parts;
mod planning;

pub use planning::tree_of_plan;
