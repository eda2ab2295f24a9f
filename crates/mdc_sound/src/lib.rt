//! What the pages of a database stand for, and when they are sound.
//!
//! `specs/` has the words that the layers above promise by: the plain database that pages stand for, the twelve rules of a
//! sound database with the page that breaks each, where rows are put, and when a statement runs full. The laws here say what
//! holds of these words whatever calls are made. It stands on the words of the extent map, of trees, of keys, of row pages and
//! of table pages, and makes no call of a store.
#![tactic(auto)]

mod laws;

pub use laws::{
    changed_tables_stay_sound, definitions_have_their_trees, empty_database_is_sound,
    pages_stand_for_one, rules_make_parts, small_database_is_sound, sound_tables_stand,
    told_stores_hold_their_pages,
};
