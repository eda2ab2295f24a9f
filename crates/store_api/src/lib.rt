//! The contract by which all layers above see a store of pages, and a store in memory that meets it.
//!
//! A store has a base, the pages of the last commit, and the work, the pages as they are now. `Pages` reads and changes
//! the work, and can take it back to a mark. `Store` makes it the base, whole or not at all, and tells bytes.
//! `bring`, `write_page`, `patch_page` and `add_pages` are calls of it with the faults of a whole database. What a run of
//! calls leaves of a store, layers above say in words that compose, of which `RunsOverPages` has them all.
//!
//! It has what all layers that see pages must agree on too: how large a database may grow (`Shape`), where things lie among
//! its pages (`layout`), and the numbers of the rules that damage names (`rules`).
//!
//! It promises that `MemStore`, which is in memory, meets this contract. It never meets a fault of a disk, and tells what
//! it was asked. It stands on the words that all layers share, and on `mdc_values` for want of memory.
#![tactic(auto)]

mod calls;
mod fault;
mod history;
pub mod layout;
mod mem_store;
mod page;
mod pages;
pub mod rules;
mod shape;
mod store;

pub use calls::{add_pages, bring, patch_page, write_page};
pub use fault::{Damage, DeviceFault, Mute, PageFault, StoreFault};
pub use mem_store::MemStore;
pub use page::{blank_page, put, stated_count};
pub use pages::{MAX_PAGES, Page, Pages};
pub use shape::{Shape, is_shape};
pub use store::Store;
