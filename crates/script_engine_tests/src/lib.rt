//! Tests of `script_engine` on a store in memory: scripts that run as the program will run them, in transactions and outside, on
//! files that run full, on stores that are opened again, and on pages that are broken between two openings.
//!
//! It promises what a caller of the engine has to know of each statement that a reader gives (`next_written`), and lends a store, an
//! engine and patches of pages to tests of other crates.
//! Each scenario is a function over any store, so that its proof knows no concrete one. What is answered is written by hand from
//! docs/SQL.md, or is what the reference engine answers; which damage is named, and at which claim a file is full, is worked out by hand
//! from docs/FORMAT.md. Behind scripts that are drawn or run full the check finds sound pages.
#![tactic(auto)]

#[cfg(test)]
mod both;
#[cfg(test)]
mod broken;
#[cfg(test)]
mod damage;
#[cfg(test)]
mod dice;
#[cfg(test)]
mod files;
#[cfg(test)]
mod full;
#[cfg(test)]
mod full_indexes;
#[cfg(test)]
mod language;
#[cfg(test)]
mod mixed;
#[cfg(test)]
mod numbers;
mod patches;
#[cfg(test)]
mod plans;
#[cfg(test)]
mod reference;
#[cfg(test)]
mod reopening;
#[cfg(test)]
mod rolled_out;
#[cfg(test)]
mod scripts;
mod stores;
#[cfg(test)]
mod transactions;
#[cfg(test)]
mod unread;
mod written;

pub use patches::{Patch, bytes_at, write_over};
pub use stores::{engine_on, fresh_store};
pub use written::{next_written, reader};
