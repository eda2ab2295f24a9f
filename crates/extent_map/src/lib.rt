//! The extent map: who owns each extent of a database, and which index pages are used.
//!
//! The extents lie behind the map, all of one size. Each is free, a block of a table, or has pages of trees, of which a bit
//! each says whether it is used. The map is seen by the list of these kinds, the owners. `SpaceNotes` promises that one call
//! changes one extent or one page of that list, that a claim takes the lowest, that Full comes only where nothing is left, and that
//! no page but page 0 and the map is touched. It stands on the contract of pages alone, told or not.
#![tactic(auto)]

mod changing;
mod claiming;
mod fault;
mod finding;
mod kind;
mod laws;
mod layout;
mod places;
mod space_notes;

pub use changing::kind_of;
pub use fault::SpaceFault;
pub use kind::{Kind, stated_kind};
pub use laws::{fresh_map, one_map, worked_entries};
pub use layout::unused_page;
pub use places::{first_page, has_page};
pub use space_notes::SpaceNotes;
