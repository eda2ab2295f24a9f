//! Tests of `file_check`: databases that a script made, in which bytes are then written over, with the rule and the page that the
//! check is to name.
//!
//! It promises nothing of its own. Which page breaks which rule is worked out by hand from docs/FORMAT.md, and so are the places of
//! the bytes: the files have extents of two pages from page 18 on.
#![tactic(auto)]

#[cfg(test)]
mod block_rules;
#[cfg(test)]
mod index_rules;
#[cfg(test)]
mod patches;
#[cfg(test)]
mod space_rules;
