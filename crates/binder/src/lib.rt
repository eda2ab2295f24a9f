//! Statements with their names as places and their literals as values, or why they aren't done.
//!
//! It promises that a statement is refused for the first cause that the definitions of `statement_meaning` say against it, in the
//! order of refusals, and is else bound as they say. It stands on `catalog`, on `statement_meaning`, and on `mdc_ast` and
//! `mdc_values`.
#![tactic(auto)]

mod binding;
mod column_texts;
mod creation;
mod creation_limits;
mod filtering;
mod forms;
mod index_binding;
mod indexing;
mod insertion;
mod judging;
mod kinds;
mod known_names;
mod literals;
mod names;
mod objection;
mod query_binding;
mod querying;
mod row_binding;
mod set_binding;
mod statement_binding;
mod table_binding;
mod targets;
mod updating;
mod where_binding;
mod whole_rows;

pub use binding::{BindFault, bind};
pub use forms::{built, built_mode};
pub use whole_rows::{WholeRows, bind_whole};
