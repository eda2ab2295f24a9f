//! What statements mean to plain lists of rows: definitions and laws, and what a session holds beside its databases, as data.
//!
//! Its `specs` say what is said against a statement, in the order of refusals (`Judging`, `Judged`, `Cause`), what its names and
//! literals stand for (`Binding`), what it does (`Doing`), which rows have equal keys (`Keys`), which forms are built (`Built`), the
//! step that is the first cause or else the effect (`Step`), sessions with transactions, and what is said to items in them
//! (`Session`), and the texts of what is answered (`Texts`); with worked scripts (`Rows`, `Orders`) and laws of the step (`Laws`).
//! Its `proofs` show that a step keeps a database valid. It stands on `row_groups` and `mdc_ast`.
#![tactic(auto)]

mod pass;
mod settings;

pub use pass::Pass;
pub use settings::Settings;
