//! The redo log: small commits reach the file as records of images, and many of them go home at once.
//!
//! A record is written behind those that count and then its gate is opened, so that at every moment of a crash one record
//! more counts or none. `replay` gives the overlay of a file: of each page the newest image. A checkpoint writes the overlay
//! home and closes the gates, the first one before the others; at every moment the file stands for what it stood for. What
//! a file stands for is said by `Stands` (specs/Standing). It stands on `redo_journal` for images and their way home.
#![tactic(auto)]

mod appending;
mod checkpointing;
mod counting;
mod fault;
mod gates;
mod layout;
mod log;
mod overlay;
mod reading;
mod record;
mod replaying;

pub use fault::LogFault;
pub use layout::{FIRST_LOG_PAGE, GATE_COUNT, LOG_END, LOG_GATES, LOG_HEADER_BYTES, LOG_HEADERS};
pub use log::RedoLog;
pub use overlay::Overlay;
pub use replaying::replay;
