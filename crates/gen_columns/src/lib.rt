//! Values of generated columns, and the spans of such values that spans of their bases derive.
//!
//! It promises that a value is the one that its expression makes, or `Overflow` exactly where that one is outside the type of its
//! column; and that a derived span is the one of its rule, none for MONTH, and has the generated value of each value of the base that
//! lies in the span of the base. It takes no memory, and stands on `mdc_ast`, and on `key_codec` for what lies in a span.
#![tactic(auto)]

mod making;
mod ranges;
mod values;

pub use ranges::range_of;
pub use values::{Overflow, value_of};
