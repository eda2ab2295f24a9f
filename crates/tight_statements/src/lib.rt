//! What the statements of the engine that only put do to tight pages.
//!
//! A CREATE TABLE, a CREATE INDEX or an INSERT runs full there only where the database that it makes needs more extents than there
//! are, and one that is done leaves tight pages. These are laws on the words of `script_engine`, by those of `tight_space`: it makes
//! no call of a store.
#![tactic(auto)]

mod laws;

pub use laws::{
    bound_statements_leave_tight_pages, statements_leave_tight_pages,
    statements_run_full_beyond_need,
};
