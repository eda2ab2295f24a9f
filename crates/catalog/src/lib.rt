//! The definitions of a database's tables, by place and by name.
//!
//! It promises that a catalog is 16 places, each empty or with a definition, that a new table takes the lowest empty
//! one, and that a table is found by its name. It stands on `mdc_ast`.
#![tactic(auto)]

mod places;

pub use places::Catalog;

#[cfg(test)]
mod tests;
