//! Tests of `key_codec` by bytes worked by hand: values as parts of ascending and of descending keys, a key of two parts, spans
//! as ranges of keys, and what is read of a part.
//!
//! That byte order is SQL order, and which keys lie in a range, is said of all values by clauses, and isn't tested. All of it is
//! tests. It stands on `key_codec`, `mdc_ast` and `mdc_values`.
#![tactic(auto)]

#[cfg(test)]
mod keys;
#[cfg(test)]
mod parts;
#[cfg(test)]
mod ranges;
