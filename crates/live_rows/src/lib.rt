//! Places of rows that a record index names, by whether a row lies there: those in Used blocks are live.
//!
//! An index may also name places in blocks that wait for their cleanup. `live` keeps of some places exactly those whose block
//! the block map has as a Used one, and asks it once for each block. `live_twin` looks for a row in a Used block, outside some
//! places, whose key in a record index is that of given values; it ends at the first one, and passes over a block that isn't
//! Used by one look. Both read the block map and that index alone, change no page, and name damage only where one of these trees
//! hasn't its form. Entries of blocks that wait change no answer. Where the rows that come to a table have no twin outside the places
//! that others leave, and differ among themselves, a law says that all keys differ afterwards (`no_twins_no_doubles`).
//!
//! It stands on `record_index` for the places under a key, on `block_map` for the states of blocks, and on the words of `mdc_sound`
//! for what rows a table has.
#![tactic(auto)]

mod among;
mod blocks;
mod laws;
mod living;
mod places;
mod twins;

pub use laws::no_twins_no_doubles;
pub use living::live;
pub use twins::live_twin;
