//! Whether values fit columns, and whether a row fits a definition.
//!
//! It promises that each is judged exactly as its definition says: a value for each column, within its type, not null where it
//! may not be, and each generated value that of its base. It takes no memory, and stands on `mdc_ast` and `mdc_values`.
#![tactic(auto)]

mod rows;
mod values;

pub use rows::does_row_fit;
pub use values::do_fit;
