//! The outside of the engine: where a script comes from, where replies go, and the disk beneath.
//!
//! Each trait says what a call gives, and what it leaves after a fault. A fault is answered only where the count of
//! faults rose. `Disk` says what a crash may leave at each moment too. `MemSource` and `MemHost` are both in memory,
//! tell all that they hold, and fail where a test says so. It stands on `mdc_words` and `mdc_values`.
#![tactic(auto)]

mod aftermath;
mod call;
mod contents;
mod disk;
mod host;
mod laws;
mod mem_host;
mod mem_source;
mod source;

pub use call::Call;
pub use disk::Disk;
pub use host::Host;
pub use laws::{a_told_file_may_be_left, moments_of_a_host_in_memory};
pub use mem_host::MemHost;
pub use mem_source::MemSource;
pub use source::{Failed, Source};
