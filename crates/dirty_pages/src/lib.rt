//! What has changed of the pages of a store since its last commit.
//!
//! `Changes` is seen as a list with a place for each page: what was written over it, or nothing where it is as at the last
//! commit; a page that was grown has zeros. It can be taken back to a mark, and gives the pages of a commit in the order
//! of their numbers, in the boxes in which they are kept, so that none is copied. It stands on `PageTable`, pages in
//! memory of which each is found in one step, and on `Spares`, boxes that are used again. A page that is lent to be changed is noted in
//! a `FetchLog`, as each page that comes to hand of a store.
#![tactic(auto)]

mod changes;
mod fetch_log;
mod spares;
mod table;

pub use changes::Changes;
pub use fetch_log::{FetchLog, PageLog, Untold};
pub use table::PageTable;
