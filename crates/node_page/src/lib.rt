//! A page of a tree as a node, without copying: views that lend, and changes in place.
//!
//! It promises that a page is its list of entries and children, and that what is lent equals the page's bytes. A look
//! reads the head alone and is safe on any bytes; `read` judges the whole page. Each change says which node the page is
//! afterwards, and is one equation on `node_of`: a node's page is a head, a body and zeros (`laid`), and a page of that
//! form is its node. No call takes memory. It stands on `store_api` for pages, and on `mdc_values` for lists of blocks.
#![tactic(auto)]

mod finding;
mod inner;
mod judging;
mod leaf;
mod order;
mod slots;
mod splits;
mod sweep;
mod view;

pub use inner::{inner_room, make_inner, put_fork, set_separator, take_fork};
pub use leaf::{leaf_room, make_leaf, put_entry, set_entry, take_entry};
pub use slots::HEAD_BYTES;
pub use splits::{split_inner, split_leaf};
pub use sweep::{count_named, drop_blocks};
pub use view::NodeView;
