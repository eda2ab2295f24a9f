//! Tests of `cell_change` on a store in memory: where rows go, what is read of them, a file that is full at each claim of a row,
//! hundreds of changes beside a plain list of what should be there, with which the reference reader is compared too, and
//! notes that are lost.
//!
//! What a clause of `cell_change` says isn't tested but where many calls follow one another. Each scenario is a function over any
//! pages, or a list that such a function plays, so that its proof knows no concrete ones. Tables are made by hand: their trees, and
//! their definition by the bytes of its page. It lends tests of other crates a look at whether a row fits (`does_fit`).
#![tactic(auto)]

#[cfg(test)]
mod changes;
#[cfg(test)]
mod claims;
mod fitting;
#[cfg(test)]
mod full;
#[cfg(test)]
mod long_run;
#[cfg(test)]
mod notes;
#[cfg(test)]
mod places;
#[cfg(test)]
mod plain_list;
#[cfg(test)]
mod plain_pages;
#[cfg(test)]
mod rows;
#[cfg(test)]
mod stores;
#[cfg(test)]
mod tables;
#[cfg(test)]
mod wrong;

pub use fitting::does_fit;
