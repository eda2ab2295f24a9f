//! What the programs have in common whose work is counted: the words of a run, the file that is worked on, and why a run stopped.
//!
//! A run's words are `WHAT SIZE TIMES`. What the pieces of work are is the program's own, which reads their names. It promises that
//! a store that is opened goes on and has no mark, and nothing of what is counted. It stands on `page_store` for the file, and on
//! the faults of the layers that are measured.
#![tactic(auto)]

mod plan;
mod scratch;
mod stop;

pub use plan::{NoWork, Plan, plan_of, words};
pub use scratch::{make_empty, opened};
pub use stop::Stop;
