//! Groups, aggregates and the order of lines: what a query makes of the rows that it found.
//!
//! It promises that the lines are those of plain lists: a group for each row with new values, aggregates over its rows,
//! a stable order and the cut; and that a sum outside BIGINT is named by the first group and the first place. Rows come
//! one by one in any order, or many with the same values at once, and count by rising number. They aren't kept: what is
//! in memory is a line for each group, and with GROUP BY its key, in an ordered map, where nothing is looked up as long
//! as the key stays the same. It stands on `mdc_ast` and `mdc_values`.
#![tactic(auto)]

mod closing;
mod fault;
mod grouping;
mod groups;
mod joining;
mod keyed_lines;
mod keys;
mod laws;
mod line;
mod line_so_far;
mod ordering;
mod placing;
mod tally;
mod values;
mod whole;

pub use fault::GroupFault;
pub use grouping::shares_lines;
pub use groups::Groups;
pub use keys::append_key;
pub use laws::{named_columns_decide, order_is_one};
pub use line::{Line, Shown};
pub use values::sql_order;
pub use whole::shown_lines;
