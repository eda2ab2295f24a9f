//! Claims and returns of extents and index pages, as scenarios over any store.
//!
//! It promises nothing beside the contract of `SpaceNotes`, on which it stands: it shows the numbers that claims answer, one
//! after the other, on a store in memory.
#![tactic(auto)]

mod scenarios;

pub use scenarios::{
    claim_and_undo, claim_block_counted, claim_index_pages, claim_many, fill, kind_in,
};

#[cfg(test)]
mod tests;
