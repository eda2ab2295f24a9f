//! Tests of `file_verdict`, over hosts in memory: what is said of a file in which bytes are written over, of one that is cut or isn't
//! a database of this version, of what a crash leaves, and of a host whose calls fail; and which calls a check makes.
//!
//! It promises nothing of its own. Which page breaks which rule is worked out by hand from docs/FORMAT.md, and so are the places of
//! the bytes. Each run is a function over any host, so that its proof knows no concrete one.
#![tactic(auto)]

#[cfg(test)]
mod calls;
#[cfg(test)]
mod damages;
#[cfg(test)]
mod files;
#[cfg(test)]
mod refusals;
