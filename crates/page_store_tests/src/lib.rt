//! Tests of `page_store`, over hosts in memory and a real file: where a database has its bytes, what a fault and a crash in
//! each call of a making, a commit and an opening leaves, and how often a page is read.
//!
//! What a clause of `page_store` says isn't tested but where a fault or a crash falls in each call in turn. All of it is
//! tests, so that `page_store` itself is proved once; and each scenario is a function over any host or store, so that
//! its proof knows no concrete one.
#![tactic(auto)]

#[cfg(test)]
mod cached;
#[cfg(test)]
mod commits;
#[cfg(test)]
mod hosts;
#[cfg(test)]
mod makings;
#[cfg(test)]
mod openings;
#[cfg(test)]
mod stores;
#[cfg(test)]
mod work;
