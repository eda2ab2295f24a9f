//! Callers of the contract of a store, as layers above it are, and scenarios over any store.
//!
//! It promises that a caller with a helper, a loop, an early return or a page that it edits hands on what it leaves of a
//! store in a clause or two: a ledger of pages whose page 0 is its head shows that. It stands on the store's contract
//! alone, and its tests on the store in memory.
#![tactic(auto)]

mod atomic;
mod firsts;
mod ledger;
mod linked;
mod saving;
mod scenarios;
mod shelf;
mod space;

pub use atomic::append_or_not;
pub use firsts::{find, first_byte, sum};
pub use ledger::{append, append_and_sum, renumber};
pub use linked::{set_both, set_linked};
pub use saving::save;
pub use scenarios::{go_back, roll_back};
pub use shelf::Shelf;
pub use space::{SpaceFault, append_below};

#[cfg(test)]
mod tests;
