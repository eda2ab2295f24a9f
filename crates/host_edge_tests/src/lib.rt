//! Tests of `host_edge`: what reaches a file of the system, the scratch file and an output, of which no contract speaks.
//!
//! It promises nothing. A scenario is a function over any disk, so that its proof sees no more than the trait says. It
//! stands on `host_edge` and `mdc_outside`.
#![tactic(auto)]

#[cfg(test)]
mod causes;
#[cfg(test)]
mod counted_files;
#[cfg(test)]
mod disks;
#[cfg(test)]
mod files;
#[cfg(test)]
mod streams;
#[cfg(test)]
mod syncs;
