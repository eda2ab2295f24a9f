//! The real outside, behind the traits of `mdc_outside`: standard input, standard output and files.
//!
//! What they hold or take is not told, so no contract speaks of it. What is proved is which calls answer a fault, that
//! each of these is counted, that why the last one failed is kept, whether a file is attached, and that a file on which a
//! sync failed takes no further call. It stands on `mdc_outside` and `mdc_words`.
#![tactic(auto)]

mod faults;
mod file_host;
mod last_said;
mod positioned;
mod real_file;
mod standard;
mod stdin_source;

pub use file_host::FileHost;
pub use standard::StandIns;
pub use stdin_source::StdinSource;
