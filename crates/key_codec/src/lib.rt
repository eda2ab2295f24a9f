//! The values of a row as the bytes of a key.
//!
//! It promises that byte order of keys is SQL order, part by part, with nulls high and a descending part reversed; that
//! equal keys have equal values; that all keys of the same parts have one width; that a span of values is a range of
//! keys, and of entries that begin with them; and that an ascending part is read back. Texts are of bytes: where a law
//! needs that, it is a premise, and what writes a key says it of the values that it wrote. It stands on the values and
//! definitions of `mdc_ast`.
#![tactic(auto)]

mod bound;
mod edge;
mod encoding;
mod key;
mod laws;
mod part;
mod range;
mod reading;
mod width;

pub use encoding::{key_of, put_key};
pub use key::Key;
pub use laws::{keys_go_as_rows, values_go_as_parts};
pub use part::{push_key_part, put_part};
pub use range::key_range;
pub use reading::read_part;
pub use width::{KEY_LIMIT, key_width, part_width};
