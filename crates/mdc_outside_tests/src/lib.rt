//! Tests of `mdc_outside`: which calls of a source and a host in memory fail, and what a crash within each call leaves.
//!
//! It promises nothing. A scenario is a function over any source or any host, so that its proof sees no more than the
//! traits say. It stands on `mdc_outside`.
#![tactic(auto)]

#[cfg(test)]
mod crashes;
#[cfg(test)]
mod faults;
