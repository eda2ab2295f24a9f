//! Tight pages worked out by hand, one file of them full.
//!
//! A table fills a file of four extents, whose pages are sound and tight: where one block more is needed, an INSERT, a CREATE INDEX
//! and a CREATE TABLE run full, and a row for which there is room doesn't. These are laws on the words of `mdc_sound`, by those of
//! `tight_space`: it makes no call of a store.
#![tactic(auto)]

mod laws;

pub use laws::{
    full_file_is_tight, one_block_more_runs_full, room_that_is_left_is_used,
    worked_database_is_not_tight,
};
