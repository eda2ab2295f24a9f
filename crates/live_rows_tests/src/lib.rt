//! Which places are live and which rows have a key, as a worked scenario over any store.
//!
//! It promises nothing beside the contracts of `live_rows`, on which it stands: it shows that entries of a block that waits for its
//! cleanup are no rows, that a place may be left out of a search, and that a null is found as the key of a null.
#![tactic(auto)]

mod scenario;

pub use scenario::{Answers, mapped_table, play, twin};

#[cfg(test)]
mod tests;
