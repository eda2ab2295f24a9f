//! What record indexes answer over several calls, as a worked scenario over any store.
//!
//! It promises nothing beside the contracts of `record_index`, on which it stands: it shows what is found under a key and in a
//! span, with nulls, a descending part, texts, days and numbers of eight bytes, while entries come, leave and are swept; and which
//! damage is named where an entry is there already, or isn't there.
#![tactic(auto)]

mod calls;
mod scenario;
mod tables;

pub use calls::{add, same_as, sweep, take};
pub use scenario::{Answers, between, filled, place, play};
pub use tables::{indexed_table, may_enter, row_of};

#[cfg(test)]
mod tests;
