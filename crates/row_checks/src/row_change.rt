// What an UPDATE makes of a row, and what is said against the rows of an UPDATE and an INSERT.
mod computing;
mod given;
mod misfits;

pub use computing::changed_values;
pub use misfits::{Misfit, first_misfit, first_misfit_of_row, first_null_in, holds_number};
