//! Tests of `session`, over hosts in memory: what a crash and a fault in each call of a run leaves to the next run, how a file
//! runs full, what is left of a transaction that isn't committed or was refused a statement, that settings are of a run alone, and which
//! pages come to hand.
//!
//! Where a crash falls in each call in turn, the next run finds each commit that was answered, and at most the one that was under
//! way. What is answered is written by hand from docs/SQL.md. All of it is tests, so that `session` itself is proved once; and
//! each run is a function over any host and script, so that its proof knows no concrete one.
#![tactic(auto)]

#[cfg(test)]
mod commits;
#[cfg(test)]
mod crashes;
#[cfg(test)]
mod faults;
#[cfg(test)]
mod fetches;
#[cfg(test)]
mod full;
#[cfg(test)]
mod hosts;
#[cfg(test)]
mod indexed_commits;
#[cfg(test)]
mod rolled_commits;
#[cfg(test)]
mod runs;
#[cfg(test)]
mod scenario;
#[cfg(test)]
mod settings;
#[cfg(test)]
mod transactions;
