//! Pages of rows: slots of one width, each empty or with a row.
//!
//! It promises that a page is at most one list of slots, that a view lends what a slot holds without copying, that `read`
//! tells exactly whether a page is one, and that a change changes one slot, or empties all. What the pages of a table have in
//! common, a `RowShape`, is worked out once for all of them. It stands on `store_api` for pages, on `mdc_ast` for rows and their
//! columns, and on `byteorder` for numbers.
#![tactic(auto)]

mod changing;
mod judging;
mod layout;
mod page_view;
mod row_view;
mod shape;
mod slots;
mod values;

pub use layout::{capacity, row_width};
pub use page_view::RowPageView;
pub use row_view::RowView;
pub use shape::RowShape;
