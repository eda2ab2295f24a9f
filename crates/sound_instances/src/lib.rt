//! Databases worked out by hand, on which the words of `mdc_sound` can be seen at work.
//!
//! A law says of each that its pages keep the twelve rules, and which plain database they stand for. `small_database_is_sound` of
//! `mdc_sound` is such a law too. The database here has what that one lacks: Free and Pending blocks, index entries that were left
//! behind, generated columns, texts, descending parts, and a tree of two levels.
#![tactic(auto)]

mod laws;

pub use laws::{
    one_byte_breaks_each_rule, worked_database_has_each_kind, worked_database_is_sound,
};
