//! A store of pages in a database file: a commit reaches it whole or not at all.
//!
//! `make` makes an empty database. `FileStore` opens one, after a crash too, and is a `Store` whose base is what the
//! file stands for. It keeps clean pages in a cache, and changed pages until the commit, which goes through the journal.
//! Where it is given a log, it tells which pages come to hand.
//! It stands on `redo_journal`.
#![tactic(auto)]

mod desk;
mod fault;
mod file_store;
mod fresh;
mod journal;
mod judging;
mod laws;
mod making;
mod number;
mod opening;
mod origin;
mod page_cache;
mod reading;
mod recovery;
mod root;
mod shape;
mod write_through;

pub use dirty_pages::{FetchLog, PageLog, Untold};
pub use fault::OpenFault;
pub use file_store::FileStore;
pub use laws::{formed_is_served, opened_is_as_long};
pub use making::make;
pub use opening::{Closed, Unopened};
pub use origin::Origin;
pub use page_cache::CACHED_PAGES;
