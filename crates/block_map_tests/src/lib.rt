//! What a block map answers over several calls, as scenarios over any store.
//!
//! It promises nothing beside the contract of `BlockMap`, on which it stands: it shows what is found, listed and left, one call
//! after the other, on a store in memory.
#![tactic(auto)]

mod scenarios;

pub use scenarios::{Seen, fill, look_round, row};

#[cfg(test)]
mod tests;
