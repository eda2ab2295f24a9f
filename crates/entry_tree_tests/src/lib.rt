//! Tests of `entry_tree` on a store in memory: worked rows, thousands of changes beside a plain list of what should be there,
//! pages that aren't those of a tree, and files that are full.
//!
//! What a clause of `entry_tree` says isn't tested but where many calls follow one another. Each scenario is a function over any
//! pages or store, so that its proof knows no concrete one. It lends tests of other crates a store of pages, the extents of a
//! database, and a commit (`save`).
#![tactic(auto)]

#[cfg(test)]
mod changes;
#[cfg(test)]
mod damaged;
#[cfg(test)]
mod fresh;
#[cfg(test)]
mod full;
#[cfg(test)]
mod numbers;
#[cfg(test)]
mod reading;
#[cfg(test)]
mod reference;
#[cfg(test)]
mod rows;
mod stores;

pub use stores::{extents_of, save, store_of};
