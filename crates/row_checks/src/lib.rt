//! What statements ask of rows: which qualify, what they become, and what is said against them.
//!
//! It knows no table and no engine: a row is its values, and the columns that they stand in. It promises that a row qualifies,
//! becomes another and is judged as the definitions of `statement_meaning` say, and that two rows with equal keys in a record
//! index are found, whichever rows are given: all of a table, or those that a statement puts. It has the words that an engine's
//! contract takes besides: what a bound statement needs of a database, or of its definitions whatever rows there are, and how its
//! end is answered; and their law, that a statement against which nothing is said has what it needs.
//!
//! It stands on `predicate` for truth, on `row_groups` for keys, and on `binder` and `answer_text` for their words.
#![tactic(auto)]

mod filtering;
mod keys;
mod refusals;
mod row_change;

pub use filtering::qualifies;
pub use keys::{first_duplicate, has_duplicates, have_twins};
pub use refusals::{
    duplicate_key, file_full, no_table, not_built, not_in_state, numbers_used_up, overflow, unfit,
};
pub use row_change::{Misfit, changed_values, first_misfit, first_misfit_of_row, first_null_in};
