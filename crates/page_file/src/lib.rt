//! A file of pages, as all that write one see it: where things lie in it, the calls of its disk, and what runs of these
//! calls leave at a crash.
//!
//! `put`, `settle`, `get` and `end_of` are the calls of a disk, and `fill`, `read_number` and `read_page` what is made of
//! them. Each says by the one relation `Runs` what it may tear, so that calls one after another compose. `Leaves` says of
//! a whole run which images a crash within it leaves. `Scratch` is a file in memory for tests. It stands on `mdc_outside` and on the pages of `store_api`.
#![tactic(auto)]

mod blank;
mod calls;
mod filling;
mod layout;
mod reading;
mod scratch;

pub use blank::zeros;
pub use calls::{end_of, get, put, settle};
pub use filling::fill;
pub use layout::{FIRST_PAGE, GATE, HEADER, HEADER_BYTES, PAGE_BYTES};
pub use reading::{read_number, read_page};
pub use scratch::Scratch;
