//! Unique keys of a table while rows go and rows come: whether two of the rows that a statement leaves have equal keys.
//!
//! It promises that the first UNIQUE index is named in which two of the rows that stay and of those that come have equal keys, as
//! the definitions of `statement_meaning` judge them, where the table stands, is sound and had keys of its own before. It reads the
//! record indexes and the block map alone, and changes no page.
//!
//! It stands on `row_checks` for rows that come, and on `live_rows` for a row that stays. `rising_places` makes the places that rows
//! leave into the list by which such a look passes over them.
#![tactic(auto)]

mod clashing;
mod places;

pub use clashing::first_clash;
pub use places::rising_places;
