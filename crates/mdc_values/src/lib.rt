//! Values of SQL and the small containers that every crate above keeps them in.
//!
//! It promises that a list and a text are seen by contracts as lists, that want of memory leaves them as they were,
//! the order of values, which literals fit a column, and how values are shown. It stands on the calendar of `jiff`.
#![tactic(auto)]

mod blocks;
mod boxed;
mod calendar;
mod chars;
mod fitting;
mod list;
mod literal;
mod memory;
mod order;
mod printing;
mod rid;
mod rids;
mod truth;
mod value;

pub use blocks::Blocks;
pub use boxed::Boxed;
pub use calendar::day;
pub use chars::Chars;
pub use fitting::{ValueFault, fit, trim};
pub use list::List;
pub use literal::Literal;
pub use memory::Memory;
pub use order::{compare, place};
pub use printing::print;
pub use rid::Rid;
pub use rids::Rids;
pub use truth::{Op, Truth};
pub use value::{ColType, Value};
