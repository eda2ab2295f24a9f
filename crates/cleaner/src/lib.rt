//! Entries of blocks that were rolled out and wait leave the record indexes of their table, leaf by leaf, beside statements.
//!
//! A `Pass` is over the blocks of a table that are Pending when it begins (`begin`). `sweep` takes the entries that name one of them out of one
//! leaf of the record index that the pass works on, and the pass goes on behind that leaf, or to the next index. It keeps that no entry
//! which the pass has come past names one of its blocks (`IsDone`), so that none is left behind the last index. It claims no page, changes
//! no other tree and no row page, and takes nothing to hand but pages of that index and of the extent map. Where no entry names a block
//! any more, the record indexes are sound without it (`ended_passes_leave_none`).
//!
//! It stands on `block_map`, which lists the blocks, on `record_index`, whose step it takes, and on what `row_entries` knows of the record indexes side by side.
#![tactic(auto)]

mod beginning;
mod laws;
mod pass;
mod sweeping;

pub use beginning::begin;
pub use laws::ended_passes_leave_none;
pub use pass::Pass;
pub use sweeping::sweep;
