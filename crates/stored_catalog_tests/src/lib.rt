//! Tests of `stored_catalog` on a store in memory: tables that are made, filled with rows and dropped, files that run full, and
//! table pages that aren't those of definitions.
//!
//! What a clause of `stored_catalog` says isn't tested but where many calls follow one another. All of it is tests, and each
//! scenario is a function over any pages, or a list of steps that such a function plays, so that its proof knows no concrete ones. What is
//! expected is written by hand from docs/FORMAT.md.
#![tactic(auto)]

#[cfg(test)]
mod damaged;
#[cfg(test)]
mod dropping;
#[cfg(test)]
mod full;
#[cfg(test)]
mod looks;
#[cfg(test)]
mod making;
#[cfg(test)]
mod rows;
#[cfg(test)]
mod steps;
#[cfg(test)]
mod stores;
#[cfg(test)]
mod tables;
#[cfg(test)]
mod wrong;
