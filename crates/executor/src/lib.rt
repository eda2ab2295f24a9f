//! The rows of a table that qualify, found by a plan.
//!
//! `scan_by_plan` chooses the plan of a predicate in a mode, reads the plan's lists from the indexes that it names, and goes over them
//! block by block. It promises that a sink is given exactly the rows that qualify, where the table stands with sound record indexes;
//! that what it is given are rows of a table that stands, none twice, whatever the record indexes say; that it counts the Used blocks
//! that hold a row of the plan; and that of row pages only those of such blocks come to hand, none behind the last row of its block.
//! `find_by_plan` gives copies of the same rows, by row number, and `matching` those of any plan that covers the predicate. Of the plans
//! that the plan rule chooses it promises that they can be matched so, and that in modes AUTO and BLOCK no other block is read than one
//! in whose cell a row may qualify. It stands on `plan_chooser` for plans, on `plan_lists` for their lists, on `block_lists` for the
//! cursor over them, on `cell_filter` for what a block's cell settles, and on `mdc_table` for blocks and rows.
#![tactic(auto)]

mod beginning;
mod by_mode;
mod by_plan;
mod found;
mod judges;
mod laws;
mod parts;
mod planned;
mod settled_rows;
mod whole;

pub use by_mode::{find_by_plan, scan_by_plan};
pub use by_plan::matching;
pub use found::Found;
pub use laws::{chosen_plans_can_be_matched, chosen_plans_read_few_blocks};
