//! Tests of `redo_log`, over a host in memory: where a record has its bytes, when there is no room, what a fault and a crash
//! in each call of an append, a checkpoint and a replay leaves, and how many syncs each makes.
//!
//! It promises nothing. Each scenario is a function over any host, so that its proof knows no concrete one. It stands on
//! `redo_log`, `redo_journal`, `mdc_outside`, `mdc_words` and `store_api`.
#![tactic(auto)]

#[cfg(test)]
mod crashes;
#[cfg(test)]
mod damages;
#[cfg(test)]
mod faults;
#[cfg(test)]
mod hosts;
#[cfg(test)]
mod layout;
#[cfg(test)]
mod logs;
#[cfg(test)]
mod rooms;
#[cfg(test)]
mod silent;
