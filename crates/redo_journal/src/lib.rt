//! The journal by which a commit is all or nothing at every moment of a crash.
//!
//! A commit writes the images of the changed pages into the journal, opens the gate, writes the images home and closes
//! the gate. While the gate is open, what the home pages hold doesn't count: `replay` gives the images back. It stands
//! on `page_file` and on the types of `store_api`.
#![tactic(auto)]

mod gate;
mod home_pages;
mod images;
mod journal;
mod lent_images;
mod page;
mod replaying;

pub use gate::{close_gate, open_gate};
pub use home_pages::home;
pub use images::Images;
pub use journal::write_journal;
pub use lent_images::LentImages;
pub use replaying::{ReplayFault, replay};
