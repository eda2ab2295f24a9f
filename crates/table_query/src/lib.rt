//! A query of one table: its lines, made as its rows are found by a plan.
//!
//! It promises the lines, or the column of the first sum outside BIGINT, that the rows of the table which qualify give by rising
//! number, where the record indexes are sound, and that only pages come to hand that finding them by the plan in a mode looks at; no row
//! page for COUNT(*) of rows that cells tell apart, which the block map answers. Where rows share lines, none is copied, which no clause
//! says: of each the columns are read that the query names, and what is kept is a line for each group. It stands on `executor` for rows,
//! on `table_scan` for their number by cells, and on `answer_text` and `row_groups` for lines.
#![tactic(auto)]

mod answering;
mod asked;
mod copied;
mod counted;
mod fault;
mod gathered_rows;
mod grouped;
mod named;

pub use answering::answer;
pub use fault::QueryFault;
